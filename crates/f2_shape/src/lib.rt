//! Where the nodes of a file stand: the way from its inode down to a page, the first page of a direct node,
//! and how many nodes a file has.
//!
//! The layer above uses `path_of`, which gives for a page exactly the nodes and slots on its way, and `nodes_of`,
//! which counts the nodes that a list of pages needs. Both are stated by `f2_format`'s `specs/Offsets.antt`, and
//! the arrays of a `Route` and the first page of a direct node by `specs/Routes.antt` here. `proofs/Laws.antt`
//! has what the first page says of the pages behind it.
#![tactic(auto)]

mod count;
mod direct;
mod first;
mod path;

pub use count::nodes_of;
pub use direct::direct_of;
pub use first::first_page;
pub use path::{INODE_PAGES, NODE_SLOTS, PAGE_LIMIT, Route, path_of};
