//! The weight of a file's bytes.
ghost use Rattle.std.specs.Prelude.{◌≡◌, ◌+◌, ◌^◌, ◌%◌, ◌<◌, length, IfOk};
ghost use Rattle.f2_script.specs.Trees.{bytes_weight, weight_of};

use f2_model::Pages;
use std::alloc::AllocError;

/// The bytes of a page.
const PAGE: u64 = 4096;

/// The sum, over bytes that stand from an offset on, of the byte times its offset plus 1, modulo 2^64.
pub fn weight_from(first: u64, bytes: &[u8]) -> u64
    requires { first + length bytes.now < 2 ^ 64 }
    ensures { result ≡ bytes_weight first bytes.now % 2 ^ 64 }
{
    let mut offset = first;
    let mut sum = 0u64;
    for byte in bytes {
        offset += 1;
        sum = sum.wrapping_add(offset.wrapping_mul(u64::from(*byte)));
    }
    sum
}

/// The weight of a file: the sum, over the bytes of all its pages, of the byte times its offset plus 1,
/// modulo 2^64.
pub fn weight(pages: &Pages) -> Result<u64, AllocError>
    ensures { IfOk result (λ weight. weight ≡ weight_of pages.now) }
{
    let numbers = pages.numbers()?;
    let mut sum = 0u64;
    for page in numbers.as_slice() {
        if let Some(content) = pages.get(*page) {
            sum = sum.wrapping_add(weight_from(u64::from(*page) * PAGE, content));
        }
    }
    Ok(sum)
}
