//! The pages of a file that are new.
ghost use Rattle.std.specs.Prelude.{◌≡◌, ◌+◌, ◌<◌, ◌^◌, ◌++◌, IfOk};
ghost use Rattle.std.specs.FinMap as map;
ghost use Rattle.std.specs.FinSet as set;
ghost use Rattle.f2_call_size.specs.Beyond.{listed};

use crate::numbers::Numbers;
use f2_files::Addresses;
use std::alloc::{AllocError, Global};

/// How many of some pages a file doesn't have, each counted once.
pub(crate) fn new_pages(alloc: Global, own: &Addresses, more: &[u32]) -> Result<u64, AllocError>
    ensures pages { IfOk result (λ count. set.len (listed (map.keys own.now ++ more.now)) ≡ set.len (listed (map.keys own.now)) + count) }
    ensures fits { IfOk result (λ count. count < 2 ^ 63) }
{
    let mut found = Numbers::new(alloc);
    for page in more {
        if !own.contains(*page) {
            found.insert(*page)?;
        }
    }
    Ok(found.len())
}
