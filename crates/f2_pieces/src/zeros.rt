//! Pages of zeros, put at some numbers and taken out again.
ghost use Rattle.std.specs.Prelude.{◌≡◌, OnOk};
ghost use Rattle.f2_pieces.specs.Zeros.{with_zeros, without};

use f2_model::{Block, Pages};
use std::alloc::AllocError;

/// A page of zeros.
static ZEROS: Block = [0; 4096];

/// Puts a page of zeros at each of some numbers. After an error some of them may have been put; all other pages stay.
pub(crate) fn put_zeros(pages: &mut Pages, numbers: &[u32]) -> Result<(), AllocError>
    ensures ok { OnOk result (pages.new ≡ with_zeros pages.old numbers.now) }
    ensures others { without pages.new numbers.now ≡ without pages.old numbers.now }
{
    for number in numbers {
        pages.put(*number, &ZEROS)?;
    }
    Ok(())
}

/// Takes out the pages at some numbers, where they are there.
pub(crate) fn take_out(pages: &mut Pages, numbers: &[u32])
    ensures { pages.new ≡ without pages.old numbers.now }
{
    for number in numbers {
        pages.remove(*number);
    }
}
