//! The least missing number, and copies.

use f2_bitset::BitSet;
use std::alloc::Global;
use std::test::Fail;

fn gives_the_least_gap(alloc: Global) -> Result<bool, Fail> {
    let mut set = BitSet::new(alloc, 10, 70)?;
    let was_empty = set.is_empty();
    for number in 10..75 {
        set.insert(number);
    }
    let gap = set.insert_least();
    Ok(was_empty && gap == Some(75) && set.least_missing() == Some(76) && set.len() == 66)
}

fn copies_and_clears(alloc: Global) -> Result<bool, Fail> {
    let mut set = BitSet::new(alloc, 0, 1)?;
    let mut other = BitSet::new(alloc, 0, 1)?;
    set.insert(0);
    other.copy_from(&set);
    set.clear();
    other.remove(0);
    Ok(!set.contains(0) && !other.contains(0))
}

#[test]
fn all_of_bitset(rt: HostRuntime) -> Result<(), Fail> {
    assert!(rt; gives_the_least_gap(rt.alloc())?);
    assert!(rt; copies_and_clears(rt.alloc())?);
    Ok(())
}
