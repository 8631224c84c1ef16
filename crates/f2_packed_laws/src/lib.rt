//! Laws about a mount that lays all directories out anew, each packed: there is always such a layout, it may be taken and
//! has room, and so the tree of each sound image of whole blocks may be taken over.
//!
//! No program runs this crate. Each function has an empty body, and its contract is a law; the statements stand in
//! `specs/`.
#![tactic(auto)]

mod packed;

pub use packed::{
    packed_layouts_exist, packed_layouts_have_room, packed_layouts_may_be_taken,
    sound_images_are_taken_over,
};
