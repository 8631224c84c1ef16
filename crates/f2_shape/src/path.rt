//! The way from an inode down to a page.
ghost use Rattle.std.specs.Prelude.{◌≡◌, ℕ, ◌+◌, ◌*◌, ◌<◌, ◌∷◌, Some};
ghost use Rattle.f2_format.specs.Offsets.{direct_limit, page_limit, nth_direct, nodes_down_to, nodes_of_page, slots_to, slots_of_page};
ghost use Rattle.f2_shape.specs.Routes.{route_of, route_through};

/// How many pages a file may have.
pub const PAGE_LIMIT: u64 = 1_057_053_439;

/// How many pages the inode itself has an address for.
pub const INODE_PAGES: u64 = 923;

/// How many addresses a direct node has, and how many nids an indirect node.
pub const NODE_SLOTS: u32 = 1018;

/// The offset of the first indirect node; its direct nodes follow it.
pub(crate) const FIRST_INDIRECT: u32 = 3;

/// The offset of the second indirect node; its direct nodes follow it.
pub(crate) const SECOND_INDIRECT: u32 = 4 + NODE_SLOTS;

/// The offset of the double indirect node; its indirect nodes follow it, each with its direct nodes.
pub(crate) const DOUBLE_INDIRECT: u32 = 5 + 2 * NODE_SLOTS;

/// The way from an inode down to a page: the offsets of its nodes, the inode's first, and the slot taken in each.
///
/// Of the four places the first `levels` are used, and the others are 0. The last slot is that of the page's
/// address. In an inode the slot counts in `i_addr` where `levels` is 1, and else in `i_nid`.
#[derive(Clone, Copy, Debug, PartialEq, Eq)]
pub struct Route {
    pub levels: u8,
    pub nodes: [u32; 4],
    pub slots: [u16; 4],
}

/// The way to a page, or `None` at the limit of 1,057,053,439 pages and above.
pub fn path_of(page: u64) -> Option<Route>
    ensures { result ≡ route_of page }
{
    if page < PAGE_LIMIT {
        Some(route_to(page))
    } else {
        None
    }
}

/// The way to a page below the limit.
pub(crate) fn route_to(page: u64) -> Route
    requires { page < page_limit }
    ensures { result ≡ route_through (0 ∷ nodes_of_page page) (slots_of_page page) }
{
    if page < INODE_PAGES {
        return Route {
            levels: 1,
            nodes: [0; 4],
            slots: [page as u16, 0, 0, 0],
        };
    }
    let below = page - INODE_PAGES;
    let number = (below / u64::from(NODE_SLOTS)) as u32;
    let slot = (below % u64::from(NODE_SLOTS)) as u16;
    route_to_direct(number, slot)
}

/// The way to a slot of the direct node with this number, counted in the order of the pages.
fn route_to_direct(number: u32, slot: u16) -> Route
    requires { number < direct_limit }
    ensures { result ≡ route_through (0 ∷ nodes_down_to (Some (nth_direct number))) (slots_to number slot) }
{
    if number < 2 {
        return Route {
            levels: 2,
            nodes: [0, 1 + number, 0, 0],
            slots: [number as u16, slot, 0, 0],
        };
    }
    if number < 2 + NODE_SLOTS {
        let place = number - 2;
        return Route {
            levels: 3,
            nodes: [0, FIRST_INDIRECT, FIRST_INDIRECT + 1 + place, 0],
            slots: [2, place as u16, slot, 0],
        };
    }
    if number < 2 + 2 * NODE_SLOTS {
        let place = number - (2 + NODE_SLOTS);
        return Route {
            levels: 3,
            nodes: [0, SECOND_INDIRECT, SECOND_INDIRECT + 1 + place, 0],
            slots: [3, place as u16, slot, 0],
        };
    }
    let place = number - (2 + 2 * NODE_SLOTS);
    let indirect = DOUBLE_INDIRECT + 1 + place / NODE_SLOTS * (NODE_SLOTS + 1);
    Route {
        levels: 4,
        nodes: [
            0,
            DOUBLE_INDIRECT,
            indirect,
            indirect + 1 + place % NODE_SLOTS,
        ],
        slots: [
            4,
            (place / NODE_SLOTS) as u16,
            (place % NODE_SLOTS) as u16,
            slot,
        ],
    }
}
