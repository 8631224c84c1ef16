//! The direct node of a page.
ghost use Rattle.std.specs.Prelude.{◌≡◌, ◌<◌};
ghost use Rattle.f2_format.specs.Offsets as format;

use crate::path::{INODE_PAGES, NODE_SLOTS, PAGE_LIMIT};

/// The offset of the direct node that has the page's address, or `None` where the inode has it, and at the
/// limit of pages and above.
pub fn direct_of(page: u64) -> Option<u32>
    ensures { result ≡ format.direct_of page }
{
    if page < INODE_PAGES || page >= PAGE_LIMIT {
        return None;
    }
    Some(nth_direct(((page - INODE_PAGES) / u64::from(NODE_SLOTS)) as u32))
}

/// The offset of the direct node with this number, counted in the order of the pages: its number, and one more
/// for the inode and for each indirect node before it.
fn nth_direct(number: u32) -> u32
    requires { number < format.direct_limit }
    ensures { result ≡ format.nth_direct number }
{
    if number < 2 {
        number + 1
    } else if number < 2 + NODE_SLOTS {
        number + 2
    } else if number < 2 + 2 * NODE_SLOTS {
        number + 3
    } else {
        number + 5 + (number - (2 + 2 * NODE_SLOTS)) / NODE_SLOTS
    }
}
