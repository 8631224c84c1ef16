//! The first page of a direct node.
ghost use Rattle.std.specs.Prelude.{◌≡◌, ◌≢◌, ℕ, ◌<◌, ◌↔◌, IsNone, IfSome, Some};
ghost use Rattle.f2_format.specs.Offsets.{direct_limit, direct_of, nth_direct};
ghost use Rattle.f2_shape.specs.Routes.{IsFirstPage};

use crate::path::{DOUBLE_INDIRECT, FIRST_INDIRECT, INODE_PAGES, NODE_SLOTS, SECOND_INDIRECT};

/// The first of the pages whose addresses stand in the direct node with this offset, or `None` where that is
/// the offset of the inode, of an indirect node or of the double indirect node, or of no node.
pub fn first_page(offset: u32) -> Option<u64>
    ensures first { IfSome result (IsFirstPage offset) }
    ensures none { IsNone result ↔ ((page : ℕ) → direct_of page ≢ Some offset) }
{
    let number = number_of(offset)?;
    Some(INODE_PAGES + u64::from(number) * u64::from(NODE_SLOTS))
}

/// The number of the direct node with this offset, counted in the order of the pages.
fn number_of(offset: u32) -> Option<u32>
    ensures bound { IfSome result (λ number. number < direct_limit) }
    ensures direct { IfSome result (λ number. nth_direct number ≡ offset) }
    ensures none { IsNone result → (number : ℕ) → number < direct_limit → nth_direct number ≢ offset }
{
    if offset < FIRST_INDIRECT {
        return offset.checked_sub(1);
    }
    if offset < SECOND_INDIRECT {
        return if offset == FIRST_INDIRECT {
            None
        } else {
            Some(offset - 2)
        };
    }
    if offset < DOUBLE_INDIRECT {
        return if offset == SECOND_INDIRECT {
            None
        } else {
            Some(offset - 3)
        };
    }
    let below = offset.checked_sub(DOUBLE_INDIRECT + 1)?;
    let indirect = below / (NODE_SLOTS + 1);
    let place = (below % (NODE_SLOTS + 1)).checked_sub(1)?;
    if indirect < NODE_SLOTS {
        Some(2 + 2 * NODE_SLOTS + indirect * NODE_SLOTS + place)
    } else {
        None
    }
}
