//! Laws of trees at their places.
//!
//! No program runs this crate. What places a tree has is told in `f2_stored`, in `specs/Places`, and in `specs/Trees`
//! when it stands at them, in an image or on the disk of a running volume. Each function below has an empty body, and
//! its contract is a law about that; the statements stand in `specs/`.
#![tactic(auto)]

mod converse;
mod living;
mod meaning;

pub use converse::sound_images_have_places;
pub use living::{
    flushes_keep_live, writes_elsewhere_keep, written_nodes_stand, written_pages_stand,
    written_trees_stand,
};
pub use meaning::trees_at_places_mean;
