//! Tests of the formats of blocks, a module for each crate.
//!
//! A test says by its answer whether all that it compares holds; `docs/layers.md` says why.
#![tactic(auto)]

#[cfg(test)]
mod bytes;
#[cfg(test)]
mod dentry_block;
#[cfg(test)]
mod footer;
#[cfg(test)]
mod layout;
#[cfg(test)]
mod nat_block;
#[cfg(test)]
mod nat_journal;
#[cfg(test)]
mod node_block;
#[cfg(test)]
mod pack;
