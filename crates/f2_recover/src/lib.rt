//! The base of any image, read from its blocks.
//!
//! [`read_base`] reads the node address table whole ([`table`]), with the nids of its journal ([`journals`]), and then walks
//! from the root along the names of directories ([`walk`]): what a name brings ([`named`]) is one file ([`files`]), with its
//! inode, its nodes in rising offsets ([`nodes`], [`below`]) and the addresses of its pages ([`pages`]), and the names of a
//! directory are read block by block ([`names`], [`dentries`]). [`zones`] has the addresses and the nids that were taken so
//! far. [`sizes`] looks at the end of a regular file, [`standing`] at where and as what a file stands, and [`closing`] at what
//! was reached in the end. The kernel reads a file only once somebody names it; here a mount looks at all of them.
//!
//! Each function says two things. Where it succeeds, what it gives is what the image has: all rows, nodes, pages and names,
//! each right and each at an address of its own. Where it tells a condition, that condition stands in the image, with the
//! number that is told. So a sound image is never refused. Each says it of any image that the disk tells, with any
//! checkpoint whose table was read; nothing is written, and `Read` comes only where a read of the disk failed.
//!
//! The definitions stand in `specs/`: what a table tells (`Reading`, `Tables`), which addresses were taken (`Taking`), how far
//! a file was read (`Seeing`, `Files`), the names of a directory (`Dents`), how far the base was walked (`Walking`), and which
//! condition a fault is (`Faults`). `f2_recover_laws` says what follows for the image.
#![tactic(auto)]

mod base;
mod below;
mod blocks;
mod closing;
mod dentries;
mod faults;
mod files;
mod journals;
mod named;
mod names;
mod nodes;
mod pages;
mod rows;
mod sizes;
mod standing;
mod table;
mod walk;
mod zones;

pub use base::read_base;
pub use faults::{BadImage, MountFault};
pub use files::File;
pub use nodes::{FileNodes, PageAt};
pub use rows::{BaseNames, BaseRow, BaseRows};
pub use walk::Walk;
pub use zones::Zones;
