//! The nids of the journal.
ghost use Rattle.std.specs.Prelude.{◌≡◌, ◌≢◌, ◌≤◌, ◌==◌, ◌<◌, ◌⊎◌, ℕ, count_by, length, map, slice_index, Err, IfErr, IfOk, OnOk};
ghost use Rattle.std.specs.List.{range_with_len};
ghost use Rattle.f2_format.specs.Journal.{MOST_JOURNAL_ENTRIES, journal_count, journal_entry};
ghost use Rattle.f2_image.specs.Images.{Image};
ghost use Rattle.f2_image.specs.Packs.{Checkpoint};
ghost use Rattle.f2_image.specs.Faults.{HasTable, IsBadEntry};
ghost use Rattle.f2_recover.specs.Faults.{IsRightFault};

use crate::faults::{BadImage, MountFault};
use f2_bytes::{get16, get32};
use f2_disk::Block;
use f2_layout::Geometry;
use std::alloc::{AllocError, Global};

/// Where a summary has the number of its journal's entries.
const COUNT_AT: usize = 3584;

/// Where the entries begin.
const ENTRIES_AT: usize = 3586;

/// The bytes of an entry.
const ENTRY_BYTES: usize = 13;

/// The entries of a block of the node address table.
const ENTRIES_A_NAT_BLOCK: u32 = 455;

/// Whether the journal of a summary names each nid once, and none past the table.
pub(crate) fn check_entries(alloc: Global, g: &Geometry, summary: &Block) -> Result<(), MountFault>
    requires { journal_count summary.now ≤ MOST_JOURNAL_ENTRIES }
    ensures right { OnOk result ((ckpt : Checkpoint) → ckpt.geom ≡ g.now → ckpt.summary ≡ summary.now → (nid : ℕ) → ¬ (IsBadEntry ckpt nid)) }
    ensures fault { IfErr result (λ fault. (image : Image) (ckpt : Checkpoint) → ckpt.geom ≡ g.now → ckpt.summary ≡ summary.now → HasTable ckpt → IsRightFault image ckpt fault) }
    ensures no_read { result ≢ Err MountFault.Read }
{
    let nids = nids_of(alloc, summary)?;
    match check_nids(&nids, ENTRIES_A_NAT_BLOCK * g.nat()) {
        Ok(()) => Ok(()),
        Err(nid) => Err(MountFault::Bad(BadImage::BadNat { nid })),
    }
}

/// Whether each of these nids is below a limit and stands here once; else one that isn't so.
fn check_nids(nids: &[u32], limit: u32) -> Result<(), u32>
    ensures right { OnOk result ((k : ℕ) → k < length nids.now → (slice_index nids.now k < limit) × (count_by (λ one. one == slice_index nids.now k) nids.now ≤ 1)) }
    ensures wrong { IfErr result (λ nid. (2 ≤ count_by (λ one. one == nid) nids.now) ⊎ ((1 ≤ count_by (λ one. one == nid) nids.now) × (limit ≤ nid))) }
{
    for nid in nids {
        if count_of(nids, *nid) > 1 {
            return Err(*nid);
        }
        if *nid >= limit {
            return Err(*nid);
        }
    }
    Ok(())
}

/// The nids of the journal of a summary.
fn nids_of(alloc: Global, summary: &Block) -> Result<Vec<u32>, AllocError>
    requires { journal_count summary.now ≤ MOST_JOURNAL_ENTRIES }
    ensures { IfOk result (λ nids. nids.items ≡ map (λ place. (journal_entry summary.now place).0) (range_with_len 0 (journal_count summary.now))) }
{
    let mut nids = Vec::new(alloc);
    for place in 0..get16(summary, COUNT_AT) as usize {
        nids.push(get32(summary, ENTRIES_AT + ENTRY_BYTES * place))?;
    }
    Ok(nids)
}

/// How many of these nids are this one.
fn count_of(nids: &[u32], nid: u32) -> usize
    ensures { result ≡ count_by (λ one. one == nid) nids.now }
{
    nids.iter().filter(|one| **one == nid).count()
}
