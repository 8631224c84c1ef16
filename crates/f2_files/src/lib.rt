//! What a running volume knows of its files, without any disk.
//!
//! [`Files`] has the rows of the tree that calls see, without the contents of their pages: kinds, sizes, names, where
//! pages stand and the nids of nodes ([`Shape`]). Beside them are the names of each directory, which pages and direct
//! nodes are dirty, which files moved or shrank since the base, and the calls in flight.
//!
//! What the layer above uses: contracts see [`Files`] as what is known (`Known` of `specs/Known`), and speak of every
//! good tree whose rows have those shapes (`IsShapeOf` of `specs/Shape`), or of every state of the machine of which
//! that is known (`IsKnownOf`). [`Files::walk`], [`Files::refusal`] and [`Files::names`] come to what the definitions of
//! calls say of the tree; a call that isn't refused (`IsAllowed`) leaves known what the machine's state becomes
//! (`Follows`), and each row the addresses and nids that it had (`ArePlacesKept`), but for those of pages that a truncate
//! takes away (`ArePlacesCut`). No call needs the contents of a page, and one that is refused memory leaves all as it was.
//!
//! A volume begins with [`Files::root_alone`], and takes over the rows that a mount found by [`Files::add_row`], from the
//! root down.
//!
//! `specs/Led` says how names lead through directories alone, and when directories know them rightly, `specs/Refused`
//! how they refuse requests, `specs/Cuts` what a cut at a size takes out of a file.
#![tactic(auto)]

mod addresses;
mod bindings;
mod changed;
mod creates;
mod directories;
mod dirt;
mod files;
mod flights;
mod joins;
mod packing;
mod pairs;
mod places;
mod refusals;
mod removes;
mod renames;
mod shapes;
mod touches;
mod truncates;
mod writes;

pub use addresses::Addresses;
pub use files::Files;
pub use joins::RowFault;
pub use shapes::Shape;
