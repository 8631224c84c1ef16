//! The most that a tree which recovery may find takes, measured before an fsync.
//!
//! After a crash the rows of the last checkpoint and the marked rows of the node log stand together, and
//! what they take in nodes and data blocks has to fit the image. [`Held`] keeps it from one checkpoint to
//! the next: [`Held::add`] takes in the numbers of a file's row, [`Held::dir`] a directory of the
//! checkpoint, [`Held::bind`] a name in one. [`Held::with`] answers the count as if one file and one name
//! more were in, and walks over no more than the names of that one directory. Over a checkpoint it becomes what
//! the new tree takes by what changed alone: [`Held::set`] makes a file's numbers smaller too, and
//! [`Held::forget`], [`Held::leave`] and [`Held::drop_dir`] take a file, a name and a directory out.
//!
//! Contracts see it as a map from files to their greatest numbers and a map from directories to their
//! names. The definitions stand in `specs/Taken.antt`; `specs/Recovered.antt` has the laws that tie them
//! to a volume's state and to the trees that recovery finds.
#![tactic(auto)]

mod both;
mod directories;
mod first_pages;
mod held;
mod name_sets;
mod packing;
mod recovered;
mod sizes;

pub use both::Both;
pub use held::Held;
pub use recovered::recovered_trees_fit;
