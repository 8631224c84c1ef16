//! The pages of a file.
ghost use Rattle.std.specs.Prelude.{◌↔◌, ◌≡◌, ◌*◌, ◌^◌, ◌<◌, IsTrue, IfOk, All};
ghost use Rattle.std.specs.FinMap as map;
ghost use Rattle.f2_format.specs.Offsets.{inode_pages};
ghost use Rattle.f2_format.specs.Inode.{SIZE_LIMIT};
ghost use Rattle.f2_model.specs.Content.{PAGE};
ghost use Rattle.f2_model.specs.Tree.{HasGoodPages};
ghost use Rattle.f2_plain_check.specs.Parts.{IsSoAt, EachIsSo, EndsInZeros, IsGoodPage, IsPlainDirectory, HasGoodSize, HasShortFile};

use f2_model::{Block, Kind, Pages, Row};
use f2_shape::{INODE_PAGES, PAGE_LIMIT};
use std::alloc::AllocError;

/// The bytes of a page.
const PAGE_BYTES: u64 = 4096;

/// The most bytes of a file.
const MOST_BYTES: u64 = PAGE_LIMIT * PAGE_BYTES;

/// Whether each byte is 0.
fn are_zeros(bytes: &[u8]) -> bool
    ensures { IsTrue result ↔ All (λ byte. byte ≡ 0) bytes.now }
{
    bytes.iter().all(|byte| *byte == 0)
}

/// Whether each byte of a page is 0 that lies at a size or past it.
fn ends_in_zeros(content: &Block, page: u64, size: u64) -> bool
    requires { page * PAGE < size }
    ensures { IsTrue result ↔ EndsInZeros size page content.now }
{
    let used = (size - page * PAGE_BYTES).min(PAGE_BYTES) as usize;
    are_zeros(&content[used..])
}

/// Whether a page of a file of a size begins before the size, and is 0 past it.
fn is_good_page(content: &Block, page: u64, size: u64) -> bool
    requires { page < 2 ^ 32 }
    ensures { IsTrue result ↔ IsGoodPage size page content.now }
{
    page * PAGE_BYTES < size && ends_in_zeros(content, page, size)
}

/// Whether the page of a number, if it is there, is a good one of a file of a size.
fn has_good_page(pages: &Pages, page: u32, size: u64) -> bool
    ensures { IsTrue result ↔ IsSoAt pages.now (IsGoodPage size) page }
{
    pages
        .get(page)
        .is_none_or(|content| is_good_page(content, u64::from(page), size))
}

/// Whether each page of these numbers that is there is a good one of a file of a size.
fn are_good_pages(pages: &Pages, numbers: &[u32], size: u64) -> bool
    ensures { IsTrue result ↔ All (IsSoAt pages.now (IsGoodPage size)) numbers.now }
{
    numbers.iter().all(|page| has_good_page(pages, *page, size))
}

/// Whether each page of a row is good.
fn has_good_file(row: &Row) -> Result<bool, AllocError>
    ensures { IfOk result (λ good. IsTrue good ↔ EachIsSo row.now.pages (IsGoodPage row.now.size)) }
{
    let numbers = row.pages.numbers()?;
    Ok(are_good_pages(&row.pages, numbers.as_slice(), row.size))
}

/// Whether there is no page.
fn is_empty(pages: &Pages) -> bool
    ensures { IsTrue result ↔ (pages.now ≡ map.empty) }
{
    pages.len() == 0
}

/// Whether a row has no bytes of its own where it is a directory.
fn is_plain_directory(row: &Row) -> bool
    ensures { IsTrue result ↔ IsPlainDirectory row.now }
{
    row.kind == Kind::Regular || (row.size == 0 && is_empty(&row.pages))
}

/// Whether a row has no bytes of its own where it is a directory, and no more than a file may have.
fn has_good_size(row: &Row) -> bool
    ensures { IsTrue result ↔ HasGoodSize row.now }
{
    is_plain_directory(row) && row.size <= MOST_BYTES
}

/// Whether a row's size and its pages fit together.
pub(crate) fn has_good_pages(row: &Row) -> Result<bool, AllocError>
    ensures { IfOk result (λ good. IsTrue good ↔ HasGoodPages SIZE_LIMIT row.now) }
{
    Ok(has_good_size(row) && has_good_file(row)?)
}

/// Whether an inode has room for pages of these numbers.
fn are_short(numbers: &[u32]) -> bool
    ensures { IsTrue result ↔ All (λ page. page < inode_pages) numbers.now }
{
    numbers.iter().all(|page| u64::from(*page) < INODE_PAGES)
}

/// Whether an inode has room for the addresses of a row's pages.
pub(crate) fn has_short_file(row: &Row) -> Result<bool, AllocError>
    ensures { IfOk result (λ short. IsTrue short ↔ HasShortFile row.now) }
{
    let numbers = row.pages.numbers()?;
    Ok(are_short(numbers.as_slice()))
}
