//! The state of the abstract machine, held: trees, marks, calls in flight and what is dirty, with the history.
//!
//! [`Plain`] is seen by contracts as the machine's state together with its history (`specs/Seen`). Each of its calls
//! is one small change that the definitions name, with that definition as its contract: a page was written, a mark
//! was drawn, a checkpoint is done, a mount found some marks. A call that is refused memory changes nothing. Which call
//! comes when is for the layer above to decide.
//!
//! [`Pairs`] is a set of pages or direct nodes of files; what it gives in order rises, as in the definitions.
//!
//! [`Numbers`] tells which node of a file has which number, and which numbers are held by the live tree, the base and
//! the node log. A new row gets its ino from the layer above, which looks at inos alone: nothing asks [`Numbers`] yet, and
//! nothing that the machine does depends on them.
#![tactic(auto)]

mod calls;
mod checks;
mod marks;
mod mounts;
mod numbers;
mod pairs;
mod plain;
mod writes;

pub use calls::Call;
pub use marks::Mark;
pub use numbers::{Logged, Node, Numbers};
pub use pairs::Pairs;
pub use plain::Plain;
