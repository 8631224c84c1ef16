//! A journal that is filled, written and read.

use f2_nat_block::NatEntry;
use f2_nat_journal::{Full, Journal};
use std::test::Fail;

fn a_full_journal_takes_known_nids_alone() -> Result<bool, Fail> {
    let mut holds = true;
    let entry = NatEntry { ino: 4, addr: 11 };
    let mut journal = Journal::new();
    for nid in 100..138 {
        journal.put(nid, entry)?;
    }
    holds &= journal.put(138, entry) == Err(Full);
    let moved = NatEntry { ino: 4, addr: 12 };
    holds &= journal.put(137, moved) == Ok(());
    holds &= journal.find(137) == Some(moved);
    holds &= journal.find(138) == None;
    Ok(holds)
}

fn a_summary_reads_back() -> Result<bool, Fail> {
    let mut holds = true;
    let mut journal = Journal::new();
    journal.put(5, NatEntry { ino: 4, addr: 11 })?;
    let mut block = [7; 4096];
    journal.write(&mut block);
    let bytes = [1, 0, 5, 0, 0, 0, 0, 4, 0, 0, 0, 11, 0, 0, 0, 0];
    holds &= &block[3584..3600] == bytes.as_slice();
    let read = Journal::read(&block)?;
    holds &= read.find(5) == Some(NatEntry { ino: 4, addr: 11 });
    block[3584] = 39;
    holds &= Journal::read(&block).is_err();
    Ok(holds)
}

#[test]
fn all_of_nat_journal(rt: HostRuntime) -> Result<(), Fail> {
    assert!(rt; a_full_journal_takes_known_nids_alone()?);
    assert!(rt; a_summary_reads_back()?);
    Ok(())
}
