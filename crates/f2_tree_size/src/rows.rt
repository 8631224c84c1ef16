//! What a row takes.
ghost use Rattle.std.specs.Prelude.{◌≡◌, IfOk, length};
ghost use Rattle.f2_format.specs.Offsets.{node_count};
ghost use Rattle.f2_found.specs.Found.{IsFound};
ghost use Rattle.f2_found.specs.Pages.{numbers_of};
ghost use Rattle.f2_image.specs.Images.{Image};
ghost use Rattle.f2_model.specs.Tree.{Rows};
ghost use Rattle.f2_tree_size.specs.Parts.{IsPartOf};

use crate::directories::size_of_directory;
use f2_found::{Found, FoundPages};
use f2_held::Both;
use f2_model::Kind;
use f2_shape::nodes_of;
use std::alloc::AllocError;

/// No node and no block.
const NOTHING: Both = Both { nodes: 0, pages: 0 };

/// What the row of an ino takes, and nothing where there is none.
pub(crate) fn size_of_row(found: &Found, ino: u32) -> Result<Both, AllocError>
    ensures { IfOk result (λ size. (image : Image) (tree : Rows) → IsFound image tree found.now → IsPartOf tree ino size) }
{
    let Some(row) = found.rows.get(ino) else {
        return Ok(NOTHING);
    };
    match row.kind {
        Kind::Regular => size_of_file(&row.pages),
        Kind::Directory => match found.names.get(ino) {
            Some(names) => size_of_directory(names),
            None => Ok(NOTHING),
        },
    }
}

/// What a file with these pages takes: as many blocks, and the nodes that they need.
fn size_of_file(pages: &FoundPages) -> Result<Both, AllocError>
    ensures nodes { IfOk result (λ size. size.nodes ≡ node_count (numbers_of pages.now)) }
    ensures pages { IfOk result (λ size. size.pages ≡ length pages.now) }
{
    let numbers = pages.numbers()?;
    Ok(Both {
        nodes: nodes_of(&numbers),
        pages: numbers.len() as u64,
    })
}
