//! What a running volume takes over of an image: the rows of its tree with their names, their pages and their nodes.
//!
//! [`take_over`] makes it of a base that `f2_recover` read and of the marked files that `f2_overlay` rolled forward; what the
//! layer above uses is its clause: each row of the tree is there once, as the last mark of a file has it or as the base has it,
//! and nothing else (`AreRowsOf`). A row tells where its pages stand, a directory's too, and of each node that its pages need
//! the nid and the address, where base or log have it: a marked file may have a page below an indirect node that neither has,
//! since the log brings no indirect nodes. Nodes above no page aren't taken over.
//!
//! A row counts as changed where it was marked, or is a directory into which a marked file brings its name. A checkpoint has to
//! write more than those: where the base has a node above no page, its row doesn't tell.
//!
//! The rows hang together (`IsRooted`), so [`in_order`] lists them in an order in which each directory comes before what is in
//! it (`IsInOrder`).
//!
//! The definitions stand in `specs/`: the nodes that a file's pages need (`Nodes`), the rows (`Rows`), and how they hang together
//! and come in order (`Orders`).
#![tactic(auto)]

mod changes;
mod making;
mod nodes;
mod order;
mod rows;
mod sources;
mod ways;

pub use making::take_over;
pub use nodes::{TakenNode, TakenNodes};
pub use order::in_order;
pub use rows::{TakenRow, TakenRows};
