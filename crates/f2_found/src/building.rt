//! A tree of a base and of the files that were marked after it.
ghost use Rattle.std.specs.Prelude.{◌≡◌, List, IfOk};
ghost use Rattle.f2_image.specs.Images.{Image};
ghost use Rattle.f2_image.specs.Packs.{Checkpoint};
ghost use Rattle.f2_image.specs.Bases.{IsBase};
ghost use Rattle.f2_image.specs.Chains.{AreMarks};
ghost use Rattle.f2_model.specs.Tree.{Rows};
ghost use Rattle.f2_model.specs.State.{Mark, rolled};
ghost use Rattle.f2_overlay.specs.Names.{HasRightMarks};
ghost use Rattle.f2_overlay.specs.Nodes.{HasRightNids};
ghost use Rattle.f2_overlay.specs.Rolls.{AreRolls, HasRightPages};
ghost use Rattle.f2_recover.specs.Walking.{IsBaseRead};
ghost use Rattle.f2_found.specs.Found.{IsFound};
ghost use Rattle.f2_found.specs.Places.{IsWithinBlocks};

use crate::found::Found;
use crate::making::make_rows;
use crate::naming::make_names;
use f2_layout::Geometry;
use f2_overlay::Rolls;
use f2_recover::Walk;
use std::alloc::{AllocError, Global};

/// The tree of an image whose base and marked files were read: each file as its last mark has it, and all else as the base
/// has it.
///
/// Each nid that the node address table has room for is looked at once, and each name and each address is copied once. Whatever
/// was read, the pages of the tree stand within the blocks of the image.
pub fn put_together(
    alloc: Global,
    g: &Geometry,
    walk: &Walk,
    rolls: &Rolls,
) -> Result<Found, AllocError>
    ensures found { IfOk result (λ found. (image : Image) (ckpt : Checkpoint) (base : Rows) (marks : List Mark) → ckpt.geom ≡ g.now → IsBaseRead image ckpt walk.now → HasRightNids image ckpt
        → HasRightMarks image ckpt → HasRightPages image ckpt → AreRolls image ckpt walk.now rolls.now → IsBase image ckpt base → AreMarks image ckpt base marks → IsFound image (rolled base marks) found) }
    ensures within { IfOk result (λ found. IsWithinBlocks g.now.blocks found) }
{
    let rows = make_rows(alloc, g, walk, rolls)?;
    let names = make_names(alloc, g, walk, rolls)?;
    Ok(Found { rows, names })
}
