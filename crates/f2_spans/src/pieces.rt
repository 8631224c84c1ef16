//! Pieces of a write.
ghost use Rattle.std.specs.Prelude.{◌≡◌, ℕ, ◌-◌, ◌<◌, ◌≤◌, ◌++◌, IfOk, OnOk};
ghost use Rattle.std.specs.List.{flat_map, range_with_len};
ghost use Rattle.f2_model.specs.Content.{end_of, pages_of_piece, raised_size};
ghost use Rattle.f2_spans.specs.Spans.{MOST_SIZE, EndWithin, Reaches};

use f2_model::Piece;
use std::alloc::{AllocError, Global};

/// The bytes of a page.
pub const PAGE: u64 = 4096;

/// The pages that a piece reaches: the first of them, and the one behind the last.
pub fn pages_of_piece(piece: &Piece) -> (u32, u32)
    requires { end_of piece.now ≤ MOST_SIZE }
    ensures pages { pages_of_piece piece.now ≡ range_with_len result.0 (result.1 - result.0) }
    ensures reached { (page : ℕ) → result.0 ≤ page → page < result.1 → Reaches piece.now page }
{
    if piece.len == 0 {
        return (0, 0);
    }
    let first = piece.off / PAGE;
    let last = (piece.off + u64::from(piece.len) - 1) / PAGE;
    (first as u32, last as u32 + 1)
}

/// Appends the pages that a piece reaches. After an error some of them may have been appended.
fn push_pages(pages: &mut Vec<u32>, piece: &Piece) -> Result<(), AllocError>
    requires { end_of piece.now ≤ MOST_SIZE }
    ensures { OnOk result (pages.new.items ≡ pages.old.items ++ pages_of_piece piece.now) }
{
    let (first, end) = pages_of_piece(piece);
    for page in first..end {
        pages.push(page)?;
    }
    Ok(())
}

/// The pages that pieces reach, piece by piece.
pub fn pages_of_pieces(alloc: Global, pieces: &[Piece]) -> Result<Vec<u32>, AllocError>
    requires { EndWithin pieces.now }
    ensures { IfOk result (λ pages. pages.items ≡ flat_map pages_of_piece pieces.now) }
{
    let mut pages = Vec::new(alloc);
    for piece in pieces {
        push_pages(&mut pages, piece)?;
    }
    Ok(pages)
}

/// The end of the piece that reaches furthest, or the size where that is greater.
pub fn raised_size(size: u64, pieces: &[Piece]) -> u64
    requires { EndWithin pieces.now }
    ensures { result ≡ raised_size size pieces.now }
{
    pieces.iter().fold(size, |most, piece| {
        most.max(piece.off + u64::from(piece.len))
    })
}
