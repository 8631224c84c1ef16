//! The file tree of a volume, the calls on it, and the history of what was answered.
//!
//! The layers above hold these values and speak of them in their contracts: a [`Tree`] is the map
//! from inos to rows, [`Pages`] the map from page numbers to contents, a list of [`Items`] the list
//! of its members, and a [`Log`] the entries and choices of a history with its spare room. A call
//! that is refused memory leaves its value as it was; `Log::add` takes none, since `Log::room` took
//! it before.
//!
//! What a call does to a tree, which steps a volume may take, and what a crash may leave is defined
//! in `specs/`: `Names`, `Content`, `Tree`, `Call`, `State`, `Fallback`, `Step` with the tables of its
//! events (`Begins`, `Goes`, `Ticks`, `Mounts`), `Run`, `History`, `Machine`.
#![tactic(auto)]

mod bounds;
mod events;
mod histories;
mod lists;
mod machines;
mod meets;
mod modes;
mod names;
mod page_maps;
mod paths;
mod replies;
mod requests;
mod rows;
mod trees;

pub use bounds::Limits;
pub use events::{Answer, Event, MOUNT_SEAT, MountRefusal, NO_SEAT};
pub use histories::{CallKind, Entry, Log, MOST_ENTRIES};
pub use lists::{Bytes, Items, Name, Names, Numbers, Path};
pub use machines::Machine;
pub use meets::Meet;
pub use modes::{Format, Mode};
pub use page_maps::{Block, Pages};
pub use replies::{Begun, Outcome, Plan, Reason, Replies, Reply, Space, Step, Tick};
pub use requests::{BoxedRequest, Piece, Pieces, Request};
pub use rows::{Kind, Row};
pub use trees::{ROOT, Tree};
