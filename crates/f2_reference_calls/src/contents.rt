//! Bytes of files, page by page.
ghost use Rattle.std.specs.Prelude.{◌≡◌, ◌<◌, ◌≤◌, All, IfOk, OnOk, OnErr};
ghost use Rattle.f2_model.specs.Content.{PAGE, page_of, byte_at, bytes_between, filled, end_of, put_in_page, put_piece, put_pieces, cut_pages};
ghost use Rattle.f2_spans.specs.Spans.{MOST_SIZE, Reaches};

use f2_model::{Block, Bytes, Pages, Piece};
use f2_spans::{PAGE, pages_of_piece};
use std::alloc::{AllocError, Global};

/// What a page reads as: zeros where it isn't there.
fn page_of(pages: &Pages, page: u32) -> Block
    ensures { result ≡ page_of pages.now page }
{
    match pages.get(page) {
        Some(content) => *content,
        None => [0; 4096],
    }
}

/// The byte at an offset.
fn byte_at(pages: &Pages, offset: u64) -> u8
    requires { offset < MOST_SIZE }
    ensures { result ≡ byte_at pages.now offset }
{
    page_of(pages, (offset / PAGE) as u32)[(offset % PAGE) as usize]
}

/// The bytes from one offset up to another; none where the second isn't past the first.
pub(crate) fn bytes_between(
    alloc: Global,
    pages: &Pages,
    from: u64,
    to: u64,
) -> Result<Bytes, AllocError>
    requires { to ≤ MOST_SIZE }
    ensures { IfOk result (λ bytes. bytes ≡ bytes_between pages.now from to) }
{
    let mut bytes = Bytes::new(alloc);
    for offset in from..to {
        bytes.push(byte_at(pages, offset))?;
    }
    Ok(bytes)
}

/// Puts one byte at each place of a page from one up to another.
fn fill(page: &mut Block, from: usize, to: usize, byte: u8)
    requires order { from ≤ to }
    requires inside { to ≤ PAGE }
    ensures { page.new ≡ filled page.old from to byte }
{
    page[from..to].fill(byte);
}

/// Puts the part of a piece that lies in one page. Where memory is refused the pages stay as they were.
fn put_in_page(pages: &mut Pages, piece: &Piece, page: u32) -> Result<(), AllocError>
    requires within { end_of piece.now ≤ MOST_SIZE }
    requires reached { Reaches piece.now page }
    ensures ok { OnOk result (pages.new ≡ put_in_page piece.now pages.old page) }
    ensures err { OnErr result (pages.new ≡ pages.old) }
{
    let start = u64::from(page) * PAGE;
    let from = piece.off.max(start) - start;
    let to = (piece.off + u64::from(piece.len)).min(start + PAGE) - start;
    let mut content = page_of(pages, page);
    fill(&mut content, from as usize, to as usize, piece.byte);
    pages.put(page, &content)
}

/// Puts a piece. After an error some pages of it may have been put.
fn put_piece(pages: &mut Pages, piece: &Piece) -> Result<(), AllocError>
    requires { end_of piece.now ≤ MOST_SIZE }
    ensures { OnOk result (pages.new ≡ put_piece pages.old piece.now) }
{
    let (first, end) = pages_of_piece(piece);
    for page in first..end {
        put_in_page(pages, piece, page)?;
    }
    Ok(())
}

/// Puts pieces one after another. After an error some of them may have been put.
pub(crate) fn put_pieces(pages: &mut Pages, pieces: &[Piece]) -> Result<(), AllocError>
    requires { All (λ piece. end_of piece ≤ MOST_SIZE) pieces.now }
    ensures { OnOk result (pages.new ≡ put_pieces pages.old pieces.now) }
{
    for piece in pieces {
        put_piece(pages, piece)?;
    }
    Ok(())
}

/// Takes out the pages that begin at a size or past it, and puts zeros into the rest of the page that it cuts.
/// Where memory is refused some pages may be gone.
pub(crate) fn cut_pages(pages: &mut Pages, size: u64) -> Result<(), AllocError>
    requires { size ≤ MOST_SIZE }
    ensures { OnOk result (pages.new ≡ cut_pages pages.old size) }
{
    pages.cut(size.div_ceil(PAGE) as u32);
    let page = (size / PAGE) as u32;
    let kept = (size % PAGE) as usize;
    if kept > 0 {
        if let Some(content) = pages.get(page) {
            let mut content = *content;
            fill(&mut content, kept, PAGE as usize, 0);
            pages.put(page, &content)?;
        }
    }
    Ok(())
}
