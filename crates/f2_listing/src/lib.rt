//! The text of a tree that was found in an image, whose pages are read as it is made.
//!
//! The layer above calls [`tree_text`]. Its clause `text`: what it gives is the text that scripts print for such a tree,
//! `f2_script`'s `tree_spelling`. Memory is taken for the text and for the names of the directories on the way to a row; a
//! page is read into one block and then forgotten.
//!
//! What a tree is found as, and where its pages stand, is defined in `f2_found`.
#![tactic(auto)]

mod faults;
mod lines;
mod weights;

pub use faults::ListFault;
pub use lines::tree_text;
