//! The commands of `f2n`: from the words, the bytes of a script and a disk to what is printed and how the run ended.
//!
//! [`run`] and [`run_plain`] are the top of the program. Their contract: the words decide whether a command is run at
//! all; what a `replay` wrote follows from the bytes that it read, line by line, by the machine of `f2_model`; whatever
//! a crash may leave of the bench after a script that was run to its end stands for what that machine allows; after a
//! `mkfs` that is done the disk has a new image, and else the answer tells what kept it from that; a `tree` prints the tree
//! that the image on the disk stands for, or tells a condition that stands in it; and a fault of the source, the sink or the
//! disk is answered only where that object's count of faults rose.
//!
//! `f2_play` says what the lines of a script print and the events that they make, what is printed of bytes by the status,
//! and the statuses' numbers and last lines. Here `specs/Left.antt` says what a script leaves on a bench,
//! `specs/Replay.antt` what `replay` writes, `specs/Words.antt` has its words, and `specs/Making.antt` has the words of
//! `mkfs`, what it does and what it writes, and `specs/Listing.antt` the same of `tree`. [`sizes_asked`] and [`is_tree`] read
//! these words, for the program that opens the image file.
#![tactic(auto)]

mod commands;
mod input;
mod listing;
mod making;
mod output;
mod player;
mod replay;

pub use commands::{run, run_plain};
pub use f2_play::Status;
pub use listing::is_tree;
pub use making::{Sizes, sizes_asked};
