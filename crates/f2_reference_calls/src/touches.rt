//! The pages that a call touches, those that it removes, and the direct nodes that they stand in.
ghost use Rattle.std.specs.Prelude.{◌≡◌, ◌/◌, ◌%◌, ◌==◌, ◌&&◌, ◌∷◌, [], if◌then◌else◌, not, nat_lt, IfOk};
ghost use Rattle.std.specs.List.{find};
ghost use Rattle.std.specs.FinMap as map;
ghost use Rattle.f2_format.specs.Offsets as format;
ghost use Rattle.f2_model.specs.Content.{PAGE};
ghost use Rattle.f2_model.specs.State.{has_direct, removed, touched};
ghost use Rattle.f2_reference_calls.specs.Given.{WritesWithin};
ghost use Rattle.f2_spans.specs.Spans.{MOST_SIZE};

use f2_model::{Pages, Request, Row};
use f2_spans::{PAGE, pages_of_pieces};
use std::alloc::{AllocError, Global};

/// The direct node in which a page of a file stands, or `None` where the inode has it.
pub fn direct_of(page: u32) -> Option<u32>
    ensures { result ≡ format.direct_of page }
{
    f2_shape::direct_of(u64::from(page))
}

/// Whether a file has a page in a direct node.
pub fn has_direct(row: &Row, offset: u32) -> Result<bool, AllocError>
    ensures { IfOk result (λ has. has ≡ has_direct row.now offset) }
{
    let numbers = row.pages.numbers()?;
    Ok(
        numbers
            .as_slice()
            .iter()
            .filter_map(|number| direct_of(*number))
            .any(|other| other == offset),
    )
}

/// The first of some numbers that is a given one.
fn find_number(numbers: &[u32], number: u64) -> Option<u32>
    ensures { result ≡ find (λ one. one == number) numbers.now }
{
    numbers
        .iter()
        .copied()
        .find(|one| u64::from(*one) == number)
}

/// The number of a page where that page is there.
fn number_of(pages: &Pages, page: u64) -> Result<Option<u32>, AllocError>
    ensures { IfOk result (λ number. number ≡ (if map.contains_key pages.now page then Some page else None)) }
{
    let numbers = pages.numbers()?;
    Ok(find_number(numbers.as_slice(), page))
}

/// The page that a size cuts, where that page is there and the size is below the row's.
fn cut_page(alloc: Global, row: &Row, size: u64) -> Result<Vec<u32>, AllocError>
    ensures { IfOk result (λ pages. pages.items ≡ (if nat_lt size row.now.size && not (size % PAGE == 0) && map.contains_key row.now.pages (size / PAGE) then (size / PAGE) ∷ [] else [])) }
{
    let mut pages = Vec::new(alloc);
    if size < row.size && size % PAGE > 0 {
        if let Some(page) = number_of(&row.pages, size / PAGE)? {
            pages.push(page)?;
        }
    }
    Ok(pages)
}

/// The pages that a call on a file touches: those that its pieces reach, piece by piece, or the one that a smaller
/// size cuts.
///
/// No piece may end past the longest file, as none does where the call isn't refused.
pub fn touched(alloc: Global, row: &Row, request: &Request) -> Result<Vec<u32>, AllocError>
    requires { WritesWithin MOST_SIZE request.now }
    ensures { IfOk result (λ pages. pages.items ≡ touched row.now request.now) }
{
    match request {
        Request::Write { pieces, .. } => pages_of_pieces(alloc, pieces.as_slice()),
        Request::Truncate { size, .. } => cut_page(alloc, row, *size),
        _ => Ok(Vec::new(alloc)),
    }
}

/// The pages that a call on a file removes: those that begin at a smaller size or past it.
pub fn removed(alloc: Global, row: &Row, request: &Request) -> Result<Vec<u32>, AllocError>
    ensures { IfOk result (λ pages. pages.items ≡ removed row.now request.now) }
{
    match request {
        Request::Truncate { size, .. } => {
            let numbers = row.pages.numbers()?;
            numbers
                .as_slice()
                .iter()
                .copied()
                .filter(|number| u64::from(*number) * PAGE >= *size)
                .collect(alloc)
        }
        _ => Ok(Vec::new(alloc)),
    }
}
