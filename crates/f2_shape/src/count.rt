//! How many nodes a file has.
ghost use Rattle.std.specs.Prelude.{◌≡◌, ◌==◌, ℕ, ◌<◌, All, count_by, not, zip};
ghost use Rattle.std.specs.List.Sorted.{IsStrictlyIncreasing};
ghost use Rattle.f2_format.specs.Offsets.{page_limit, node_count};

use crate::path::route_to;

/// How many nodes a file with these pages has, its inode included. The pages rise.
pub fn nodes_of(pages: &[u64]) -> u64
    requires rising { IsStrictlyIncreasing pages.now }
    requires below { All (λ page. page < page_limit) pages.now }
    ensures { result ≡ node_count pages.now }
{
    let mut count = 1;
    let mut before = [0; 4];
    for page in pages {
        let nodes = route_to(*page).nodes;
        count += changes(&before, &nodes);
        before = nodes;
    }
    count
}

/// At how many places two ways have different nodes.
fn changes(before: &[u32], after: &[u32]) -> u64
    ensures { result ≡ count_by (λ (old, new). not (old == new)) (zip before.now after.now) }
{
    before
        .iter()
        .zip(after)
        .filter(|(old, new)| old != new)
        .count() as u64
}
