//! The pages that pieces reach and a file doesn't have.
ghost use Rattle.std.specs.Prelude.{◌≡◌, ◌≤◌, [], IfOk, OnOk};
ghost use Rattle.std.specs.FinMap as map;
ghost use Rattle.f2_model.specs.Content.{end_of, pages_of_piece};
ghost use Rattle.f2_spans.specs.Spans.{MOST_SIZE};
ghost use Rattle.f2_pieces.specs.Absent.{with_absent, with_absent_of};
ghost use Rattle.f2_spans.specs.Spans.{EndWithin};

use f2_model::{Pages, Piece};
use f2_spans::pages_of_piece;
use std::alloc::{AllocError, Global};
use std::collections::BTreeSet;

/// Whether a file has a page.
fn has_page(pages: &Pages, page: u32) -> bool
    ensures { result ≡ map.contains_key pages.now page }
{
    pages.get(page).is_some()
}

/// Adds the pages that a piece reaches and a file doesn't have. After an error some of them may have been added.
fn add_absent(absent: &mut BTreeSet<u32>, pages: &Pages, piece: &Piece) -> Result<(), AllocError>
    requires { end_of piece.now ≤ MOST_SIZE }
    ensures { OnOk result (absent.new.keys ≡ with_absent pages.now absent.old.keys (pages_of_piece piece.now)) }
{
    let (first, end) = pages_of_piece(piece);
    for page in first..end {
        if !has_page(pages, page) {
            absent.insert(page)?;
        }
    }
    Ok(())
}

/// The pages that pieces reach and a file doesn't have.
pub(crate) fn absent_of(
    alloc: Global,
    pages: &Pages,
    pieces: &[Piece],
) -> Result<BTreeSet<u32>, AllocError>
    requires { EndWithin pieces.now }
    ensures { IfOk result (λ absent. absent.keys ≡ with_absent_of pages.now [] pieces.now) }
{
    let mut absent = BTreeSet::new(alloc);
    for piece in pieces {
        add_absent(&mut absent, pages, piece)?;
    }
    Ok(absent)
}
