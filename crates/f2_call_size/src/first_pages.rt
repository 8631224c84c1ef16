//! The nodes of a file that has all pages up to one.
ghost use Rattle.std.specs.Prelude.{◌≡◌, ◌≤◌, ◌+◌, ◌*◌};
ghost use Rattle.std.specs.List.{range_with_len};
ghost use Rattle.f2_format.specs.Offsets.{page_limit, node_count};

use f2_shape::direct_of;

/// How many nodes a file with the first so many pages has, its inode included: all offsets up to that of the last page's
/// direct node are used.
pub(crate) fn nodes_of_first(pages: u64) -> u64
    requires { pages ≤ page_limit }
    ensures nodes { result ≡ node_count (range_with_len 0 pages) }
    ensures few { result ≤ 1 + 3 * pages }
{
    if pages == 0 {
        return 1;
    }
    match direct_of(pages - 1) {
        Some(offset) => u64::from(offset) + 1,
        None => 1,
    }
}
