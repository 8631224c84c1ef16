//! What a change of a file's pages changes in its size.
ghost use Rattle.std.specs.Prelude.{◌≡◌, ◌≤◌, ◌+◌, ℕ, All, IfOk, nat_lt};
ghost use Rattle.f2_files.specs.Shape.{IsShape};
ghost use Rattle.f2_held.specs.Recovered.{size_of_file};
ghost use Rattle.f2_model.specs.Content.{begins_before, cut_pages, end_of, put_pieces};
ghost use Rattle.f2_model.specs.declared.rows.Kind.TheVariants.{Regular};
ghost use Rattle.f2_model.specs.declared.rows.Row.{Row};
ghost use Rattle.f2_spans.specs.Spans.{MOST_SIZE};
ghost use Rattle.f2_call_size.specs.Beyond.{IsMore};
ghost use Rattle.f2_call_size.specs.Sizes.{IsFew, IsUnder};

use crate::nodes::{lost_nodes, new_nodes};
use crate::pages::new_pages;
use f2_files::Shape;
use f2_held::Both;
use f2_model::Piece;
use f2_spans::{PAGE, pages_of_pieces};
use std::alloc::{AllocError, Global};

/// What pieces add to a file: each page that they bring, once, and each node that a page needs and none of the file's
/// pages did.
pub(crate) fn size_of_pieces(
    alloc: Global,
    row: &Shape,
    pieces: &[Piece],
) -> Result<Both, AllocError>
    requires { All (λ piece. end_of piece ≤ MOST_SIZE) pieces.now }
    ensures more { IfOk result (λ size. (one : Row) → IsShape row.now one → one.kind ≡ Regular → IsMore (record one { pages = put_pieces one.pages pieces.now }) one size) }
    ensures few { IfOk result IsUnder }
{
    let pages = pages_of_pieces(alloc, pieces)?;
    let nodes = new_nodes(alloc, &row.pages, pages.as_slice())?;
    let pages = new_pages(alloc, &row.pages, pages.as_slice())?;
    Ok(Both { nodes, pages })
}

/// How many pages a file may have that begin before a size.
fn pages_to(size: u64) -> u32
    requires { size ≤ MOST_SIZE }
    ensures { (page : ℕ) → nat_lt page result ≡ begins_before size page }
{
    size.div_ceil(PAGE) as u32
}

/// What a cut at a size takes from a file: the pages that begin at it or past it, and each node that no page before needs.
pub(crate) fn size_of_cut(alloc: Global, row: &Shape, size: u64) -> Result<Both, AllocError>
    requires { size ≤ MOST_SIZE }
    ensures more { IfOk result (λ gone. (one : Row) → IsShape row.now one → one.kind ≡ Regular → IsMore one (record one { pages = cut_pages one.pages size }) gone) }
    ensures few { IfOk result IsUnder }
{
    let end = pages_to(size);
    let numbers = row.pages.numbers_from(alloc, end)?;
    let lost = numbers.as_slice();
    let nodes = lost_nodes(alloc, &row.pages, end, lost)?;
    Ok(Both {
        nodes,
        pages: lost.len() as u64,
    })
}

/// What a file takes with all its pages, its inode included.
pub(crate) fn size_of_file(alloc: Global, row: &Shape) -> Result<Both, AllocError>
    ensures size { IfOk result (λ size. (one : Row) → IsShape row.now one → one.kind ≡ Regular → size ≡ size_of_file one) }
    ensures few { IfOk result IsFew }
{
    let pages = size_of_cut(alloc, row, 0)?;
    Ok(Both {
        nodes: pages.nodes + 1,
        pages: pages.pages,
    })
}
