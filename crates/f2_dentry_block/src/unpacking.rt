//! From a block to its names.

ghost use Rattle.std.specs.Prelude.{◌≡◌, None, IfOk, IfErr, map};
ghost use Rattle.f2_format.specs.Dentry.{dentries_of, dentry_fault};
ghost use Rattle.f2_dentry_block.specs.Dents.{dentry_of, IsFaultOf};

use crate::dents::{Dent, UnpackFault};
use crate::entries::read_dent;
use crate::slots::{SLOTS_A_BLOCK, is_used, slots_of_len};
use f2_bytes::Block;
use std::alloc::Global;

/// The names of a dentry block, in the order of their slots, as f2fs_fill_dentries of dir.c reads them.
///
/// Any bytes may be given: names in any order and with gaps between them are taken, and names that no file may have
/// too. The fault tells the first slot in which a wrong name begins; where memory is refused, a fault may stand in
/// the block that isn't told.
pub fn unpack(alloc: Global, b: &Block) -> Result<Vec<Dent>, UnpackFault>
    ensures dents { IfOk result (λ dents. map dentry_of dents.items ≡ dentries_of b.now) }
    ensures no_fault { IfOk result (λ _. dentry_fault b.now ≡ None) }
    ensures fault { IfErr result (IsFaultOf b.now) }
{
    let mut dents = Vec::new(alloc);
    let mut covered = 0;
    for slot in 0..SLOTS_A_BLOCK {
        if slot >= covered && is_used(b, slot) {
            let dent = read_dent(alloc, b, slot as u8)?;
            covered = slot + slots_of_len(dent.name.len());
            dents.push(dent)?;
        }
    }
    Ok(dents)
}
