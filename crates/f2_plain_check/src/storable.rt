//! Whether a tree can be stored.
ghost use Rattle.std.specs.Prelude.{◌↔◌, IsTrue, IfOk};
ghost use Rattle.f2_laid.specs.Laid.{IsStorable};

use crate::good::is_good;
use crate::room::fits;
use f2_layout::Geometry;
use f2_model::Tree;
use std::alloc::{AllocError, Global};

/// Whether the tree is good and an image of these sizes has room for it, laid out plainly: each row's number is below
/// the end of the node address table, and from 4 on but for the root's; a third of each zone has space for its nodes
/// and its data blocks; and no file has a page from number 923 on, no directory more than 923 dentry blocks.
///
/// Directories are counted by scanning all rows, so the time grows with directories times rows. Only want of memory
/// fails.
pub fn is_storable(alloc: Global, tree: &Tree, geometry: &Geometry) -> Result<bool, AllocError>
    ensures { IfOk result (λ answer. IsTrue answer ↔ IsStorable geometry.now tree.now) }
{
    Ok(is_good(alloc, tree)? && fits(alloc, tree, geometry)?)
}
