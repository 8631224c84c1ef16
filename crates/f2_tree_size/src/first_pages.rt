//! The nodes of a file that has all pages up to one.
ghost use Rattle.std.specs.Prelude.{◌≡◌};
ghost use Rattle.std.specs.List.{range_with_len};
ghost use Rattle.f2_format.specs.Offsets.{node_count};

use f2_shape::{PAGE_LIMIT, direct_of};

/// How many nodes a file with the first so many pages has, its inode included.
///
/// All offsets up to that of the last page's direct node are used; a page that no file can have needs none.
pub(crate) fn nodes_of_first(pages: u64) -> u64
    ensures { result ≡ node_count (range_with_len 0 pages) }
{
    let within = pages.min(PAGE_LIMIT);
    if within == 0 {
        return 1;
    }
    match direct_of(within - 1) {
        Some(offset) => u64::from(offset) + 1,
        None => 1,
    }
}
