//! What a whole image stands for: its checkpoint, the base that the checkpoint's tree is, the chain of node blocks
//! after it and the marks in the chain.
//!
//! No program runs this crate. Its definitions stand in `specs/`, one file a topic: `Images` (superblock), `Packs`
//! (the checkpoint that counts), `Nodes` (the node address table, and the way to a page's address), `Bases`, `Chains`
//! (the node log and its marks), `Faults` (each condition under which an image stands for no tree), `Meanings` (what
//! an image stands for, and when a disk is safe). Each function below has an empty body, and its contract is a law
//! about them.
#![tactic(auto)]

mod laws;

pub use laws::{chains_end, one_meaning, same_blocks_same_base, sound_images_mean};
