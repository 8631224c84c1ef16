//! Scripts of a volume: the lines that a script has, and the text of answers and trees.
//!
//! `parse` gives the lines that the bytes of a script are, or the number of the first line outside its
//! grammar, and nothing else: that is the contract that the layer above uses. The words of each line stand in
//! `specs/Lines.antt`, how a word and a path are written in `specs/Words.antt` and `specs/Paths.antt`, and
//! which lines a script of a [`Grammar`] may have, and where, in `specs/Grammar.antt`. `laws` says that bytes
//! have one reading, and that what is written is read again.
//!
//! `number` reads a number as scripts spell it, for words that stand outside a script.
//!
//! The text of a reply stands in `specs/Replies.antt`, that of an event in `specs/Steps.antt`, that of a tree
//! in `specs/Trees.antt`, and the calls of a `gen` line in `specs/Generator.antt`.
#![tactic(auto)]

mod event_texts;
mod generators;
mod grammar;
mod laws;
mod line_readers;
mod line_texts;
mod paths;
mod reply_texts;
mod requests;
mod script;
mod texts;
mod tree_texts;
mod verbs;
mod weights;
mod words;

pub use event_texts::{
    begun_text, counted_text, found_text, made_text, mounted_text, step_text, tick_text,
    unmounted_text,
};
pub use generators::next_call;
pub use grammar::parse;
pub use laws::{one_fault, one_reading, reads_back};
pub use line_texts::line_text;
pub use reply_texts::reply_text;
pub use script::{Grammar, Line, Lines, ScriptFault};
pub use texts::{push_argument, push_name};
pub use tree_texts::tree_text;
pub use weights::weight_from;
pub use words::number;
