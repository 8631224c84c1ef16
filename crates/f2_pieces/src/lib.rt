//! Putting the pieces of a write into the pages of a file, in place.
//!
//! A write costs what it reaches: no page is copied, and memory is taken only for pages that weren't there. [`fresh`]
//! tells which those are before anything is changed, so that a caller can refuse a write for want of space; [`put`]
//! then makes the whole write or, where memory is refused, none of it.
//!
//! What the layer above uses: the pages after [`put`] are those of `put_pieces` of `f2_model`, and a file grows by just
//! its fresh pages. `specs/Fresh` says what these are.
#![tactic(auto)]

ghost use Rattle.std.specs.Prelude.{◌≡◌, ◌+◌, length, IfOk, OnErr, OnOk};
ghost use Rattle.std.specs.FinMap as map;
ghost use Rattle.f2_model.specs.Content.{put_pieces};
ghost use Rattle.f2_pieces.specs.Fresh.{fresh_pages};
ghost use Rattle.f2_spans.specs.Spans.{EndWithin};

mod absent;
mod fills;
mod zeros;

use absent::absent_of;
use f2_model::{Pages, Piece};
use fills::fill_pieces;
use std::alloc::{AllocError, Global};
use zeros::{put_zeros, take_out};

/// The pages that pieces reach and a file doesn't have, rising.
pub fn fresh(alloc: Global, pages: &Pages, pieces: &[Piece]) -> Result<Vec<u32>, AllocError>
    requires { EndWithin pieces.now }
    ensures fresh { IfOk result (λ fresh. fresh.items ≡ fresh_pages pages.now pieces.now) }
    ensures grows { IfOk result (λ fresh. map.len (put_pieces pages.now pieces.now) ≡ map.len pages.now + length fresh.items) }
{
    let absent = absent_of(alloc, pages, pieces)?;
    absent.iter().copied().collect(alloc)
}

/// Puts pieces one after another, where the fresh pages are those that [`fresh`] gives. Where memory is refused the
/// pages stay as they were.
pub fn put(pages: &mut Pages, pieces: &[Piece], fresh: &[u32]) -> Result<(), AllocError>
    requires ends { EndWithin pieces.now }
    requires fresh { fresh.now ≡ fresh_pages pages.old pieces.now }
    ensures ok { OnOk result (pages.new ≡ put_pieces pages.old pieces.now) }
    ensures err { OnErr result (pages.new ≡ pages.old) }
{
    if let Err(error) = put_zeros(pages, fresh) {
        take_out(pages, fresh);
        return Err(error);
    }
    fill_pieces(pages, pieces);
    Ok(())
}
