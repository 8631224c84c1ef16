//! The directories that gain names.
ghost use Rattle.std.specs.Prelude.{◌≡◌, IfOk};
ghost use Rattle.std.specs.FinMap as map;
ghost use Rattle.f2_format.specs.Geometry.{nid_limit};
ghost use Rattle.f2_takeover.specs.Rows.{gaining_of, AreChangedTo};

use f2_bitset::BitSet;
use f2_overlay::Rolls;
use f2_recover::Walk;
use std::alloc::{AllocError, Global};

/// The directory into which a file brings its name, where the file was marked and the base hasn't it.
fn gaining(walk: &Walk, rolls: &Rolls, ino: u32) -> Option<u32>
    ensures { result ≡ gaining_of (map.get rolls.now ino) (map.get walk.now.rows ino) }
{
    if walk.rows.contains(ino) {
        return None;
    }
    Some(rolls.get(ino)?.parent)
}

/// The directories that gain names by files that were marked and that the base hasn't.
pub(crate) fn changed_directories(
    alloc: Global,
    walk: &Walk,
    rolls: &Rolls,
) -> Result<BitSet, AllocError>
    ensures { IfOk result (λ changed. AreChangedTo rolls.now walk.now.rows (nid_limit walk.now.zones.geom) (nid_limit walk.now.zones.geom) changed.members) }
{
    let limit = walk.zones.nid_limit();
    let mut changed = BitSet::new(alloc, 0, limit)?;
    for ino in 0..limit {
        if let Some(directory) = gaining(walk, rolls, ino) {
            if directory < limit {
                changed.insert(directory);
            }
        }
    }
    Ok(changed)
}
