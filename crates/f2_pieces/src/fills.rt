//! Pieces filled into pages that are there, which takes no memory.
ghost use Rattle.std.specs.Prelude.{◌≡◌, ◌≤◌, IsSome};
ghost use Rattle.std.specs.FinMap as map;
ghost use Rattle.f2_model.specs.Content.{end_of, put_in_page, put_piece, put_pieces};
ghost use Rattle.f2_spans.specs.Spans.{MOST_SIZE, Reaches};
ghost use Rattle.f2_spans.specs.Spans.{EndWithin};
ghost use Rattle.f2_pieces.specs.Held.{HasPagesOf};

use f2_model::{Pages, Piece};
use f2_spans::pages_of_piece;

/// The bytes of a page.
const PAGE: u64 = 4096;

/// Fills in the part of a piece that lies in one page.
fn fill_page(pages: &mut Pages, piece: &Piece, page: u32)
    requires within { end_of piece.now ≤ MOST_SIZE }
    requires reached { Reaches piece.now page }
    requires there { IsSome (map.get pages.old page) }
    ensures { pages.new ≡ put_in_page piece.now pages.old page }
{
    let start = u64::from(page) * PAGE;
    let from = piece.off.max(start) - start;
    let to = (piece.off + u64::from(piece.len)).min(start + PAGE) - start;
    pages.fill(page, from as usize, to as usize, piece.byte);
}

/// Fills in a piece. Each page that it reaches has to be there.
fn fill_piece(pages: &mut Pages, piece: &Piece)
    requires ends { end_of piece.now ≤ MOST_SIZE }
    requires there { HasPagesOf pages.old (put_piece pages.old piece.now) }
    ensures { pages.new ≡ put_piece pages.old piece.now }
{
    let (first, end) = pages_of_piece(piece);
    for page in first..end {
        fill_page(pages, piece, page);
    }
}

/// Fills in pieces one after another. Each page that they reach has to be there.
pub(crate) fn fill_pieces(pages: &mut Pages, pieces: &[Piece])
    requires ends { EndWithin pieces.now }
    requires there { HasPagesOf pages.old (put_pieces pages.old pieces.now) }
    ensures { pages.new ≡ put_pieces pages.old pieces.now }
{
    for piece in pieces {
        fill_piece(pages, piece);
    }
}
