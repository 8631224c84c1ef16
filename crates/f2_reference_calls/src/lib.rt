//! What a call does to a file tree, run: a plain and slow program whose contracts are the definitions.
//!
//! [`outcome`] gives the reply to a call and the tree after it, just as `specs/Call.antt` of `f2_model` defines
//! them. The parts of a call stand beside it, since a volume asks them apart: [`refusal`] first, then
//! [`space_refusal`] of the tree that [`effect`] gives, then [`answer`]; [`touched`] and [`removed`] say which
//! pages a call makes dirty and which it takes away; [`nodes_of_row`] and [`data_of_row`] count what rows take.
//! Lists are scanned wherever that is the plainest, and there is no disk.
//!
//! No call changes what it is given. Each allocates, and gives the allocator's error where memory is refused.
#![tactic(auto)]

mod answers;
mod contents;
mod copies;
mod counts;
mod depths;
mod effects;
mod listings;
mod outcomes;
mod packings;
mod refusals;
mod touches;
mod walks;

pub use answers::answer;
pub use copies::{copy_row, copy_tree};
pub use counts::{data_of_row, data_of_tree, nodes_of_row, nodes_of_tree};
pub use effects::effect;
pub use outcomes::{outcome, space_refusal};
pub use refusals::refusal;
pub use touches::{direct_of, has_direct, removed, touched};
pub use walks::{walk, walk_parent};
