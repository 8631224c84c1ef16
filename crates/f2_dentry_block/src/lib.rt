//! The blocks of a directory: names with their inos and kinds, packed into dentry blocks and taken out of them.
//!
//! The layer above turns a directory into blocks with [`pack`], counts them beforehand with [`slots_of`], and takes
//! the names of one block with [`unpack`]. What `pack` gives, `unpack` reads, block after block, as the names in
//! their order ([`packed_names_read_back`]). `unpack` takes any bytes: where they are no right block it tells the
//! first slot in which a wrong name begins.
//!
//! What the bytes mean and where each name is put is defined in `f2_format`, in `specs/Dentry.antt` and
//! `specs/Packing.antt`; the blocks of a whole directory in this crate's `specs/Packed.antt`.
#![tactic(auto)]

mod dents;
mod entries;
mod laws;
mod packing;
mod slots;
mod unpacking;

pub use dents::{Dent, UnpackFault};
pub use laws::packed_names_read_back;
pub use packing::{pack, slots_of};
pub use unpacking::unpack;
