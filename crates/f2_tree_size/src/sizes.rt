//! What a tree takes.
ghost use Rattle.std.specs.Prelude.{IfOk};
ghost use Rattle.f2_found.specs.Found.{IsFound};
ghost use Rattle.f2_image.specs.Images.{Image};
ghost use Rattle.f2_model.specs.Tree.{Rows};
ghost use Rattle.f2_tree_size.specs.Sizes.{IsSizeOf};

use crate::rows::size_of_row;
use f2_found::Found;
use std::alloc::AllocError;

/// How many nodes and data blocks a tree takes.
#[derive(Clone, Copy, Debug, PartialEq, Eq)]
pub struct TreeSize {
    pub nodes: u128,
    /// Pages of files, and blocks of names of directories.
    pub blocks: u128,
}

/// What a tree takes that was found: each file its pages and the nodes that they need, each directory the blocks that its
/// names fill and the nodes of these.
///
/// Each row, each page and each name is looked at once.
pub fn size_of_tree(found: &Found) -> Result<TreeSize, AllocError>
    ensures { IfOk result (λ size. (image : Image) (tree : Rows) → IsFound image tree found.now → IsSizeOf tree size) }
{
    let inos = found.rows.inos()?;
    let mut nodes = 0;
    let mut blocks = 0;
    for ino in &inos {
        let size = size_of_row(found, *ino)?;
        nodes += u128::from(size.nodes);
        blocks += u128::from(size.pages);
    }
    Ok(TreeSize { nodes, blocks })
}
