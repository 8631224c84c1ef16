//! What a call changes in size, asked before it is made.
//!
//! A running volume keeps how many nodes and how many data blocks its tree takes. A call has to leave no more than is
//! granted; [`size_of_call`] tells how many nodes and data blocks it adds and how many go, from what `f2_files` knows of
//! the rows, without a walk over the tree: a write looks at the pages that its pieces reach, a cut at the pages that go, an
//! unlink at the file's pages, and a call on names at the names of the one or two directories in which it changes one.
//!
//! What the layer above uses: for each good tree of the shape that is known, which doesn't refuse the call, what the tree
//! takes with what is added is what the tree after the call takes with what goes (`IsSizeOf` of `specs/Sizes`). The counts
//! of rows are those of `f2_model`'s `specs/Count`. A call that changes no row changes no count.
#![tactic(auto)]

mod calls;
mod directories;
mod files;
mod first_pages;
mod nodes;
mod numbers;
mod pages;
mod sizes;
mod ways;

pub use calls::size_of_call;
pub use sizes::CallSize;
