//! Whether a tree fits.
ghost use Rattle.std.specs.Prelude.{◌≢◌, Err, IfErr, OnOk};
ghost use Rattle.f2_found.specs.Found.{IsFound};
ghost use Rattle.f2_image.specs.Images.{Image};
ghost use Rattle.f2_model.specs.Tree.{Rows};
ghost use Rattle.f2_tree_size.specs.Sizes.{HasRoom, IsRoomFault};

use crate::sizes::size_of_tree;
use f2_found::Found;
use f2_layout::Geometry;
use f2_recover::{BadImage, MountFault};

/// Whether a tree that was found takes no more than a third of each zone of an image of these sizes; `TooFull` tells the
/// third that it passes.
pub fn check_room(g: &Geometry, found: &Found) -> Result<(), MountFault>
    ensures fits { OnOk result ((image : Image) (tree : Rows) → IsFound image tree found.now → HasRoom g.now tree) }
    ensures fault { IfErr result (λ fault. (image : Image) (tree : Rows) → IsFound image tree found.now → IsRoomFault g.now tree fault) }
    ensures no_read { result ≢ Err MountFault.Read }
{
    let size = size_of_tree(found)?;
    if size.nodes > u128::from(g.cn()) {
        return Err(MountFault::Bad(BadImage::TooFull { limit: g.cn() }));
    }
    if size.blocks > u128::from(g.cd()) {
        return Err(MountFault::Bad(BadImage::TooFull { limit: g.cd() }));
    }
    Ok(())
}
