//! The tree of a base and the files that were marked after it, where it fits its image.
ghost use Rattle.std.specs.Prelude.{◌≡◌, ◌≢◌, List, Err, IfErr, IfOk};
ghost use Rattle.f2_image.specs.Images.{Image};
ghost use Rattle.f2_image.specs.Packs.{Checkpoint, IsCheckpoint};
ghost use Rattle.f2_model.specs.Tree.{Rows};
ghost use Rattle.f2_model.specs.State.{Mark};
ghost use Rattle.f2_found.specs.Places.{IsWithinBlocks};
ghost use Rattle.f2_recover.specs.Faults.{IsRightFault};
ghost use Rattle.f2_mount.specs.Recovering.{IsRolledUp, IsTreeOf};

use f2_found::{Found, put_together};
use f2_layout::Geometry;
use f2_overlay::Rolls;
use f2_recover::{MountFault, Walk};
use f2_tree_size::check_room;
use std::alloc::Global;

/// The tree of an image whose base and node log were read; `TooFull` where it doesn't fit.
pub(crate) fn find_tree(
    alloc: Global,
    g: &Geometry,
    walk: &Walk,
    rolls: &Rolls,
) -> Result<Found, MountFault>
    ensures tree { IfOk result (λ tree. (image : Image) (ckpt : Checkpoint) → IsCheckpoint image ckpt → ckpt.geom ≡ g.now → IsRolledUp image ckpt walk.now rolls.now
        → (base : Rows) × ((marks : List Mark) × IsTreeOf image ckpt tree base marks)) }
    ensures within { IfOk result (λ tree. IsWithinBlocks g.now.blocks tree) }
    ensures fault { IfErr result (λ fault. (image : Image) (ckpt : Checkpoint) → IsCheckpoint image ckpt → ckpt.geom ≡ g.now → IsRolledUp image ckpt walk.now rolls.now → IsRightFault image ckpt fault) }
    ensures no_read { result ≢ Err MountFault.Read }
{
    let tree = put_together(alloc, g, walk, rolls)?;
    check_room(g, &tree)?;
    Ok(tree)
}
