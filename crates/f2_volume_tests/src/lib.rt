//! Tests of what a running volume knows: of its directories and files, of their blocks, and of what it counts; a module
//! for each crate.
//!
//! A test says by its answer whether all that it compares holds; `docs/layers.md` says why.
#![tactic(auto)]

#[cfg(test)]
mod blocks;
#[cfg(test)]
mod call_size;
#[cfg(test)]
mod dir;
#[cfg(test)]
mod files;
#[cfg(test)]
mod held;
