//! Tests of what stands on a disk, and of whole scripts through the top call, a module for each crate.
//!
//! A test says by its answer whether all that it compares holds; `docs/layers.md` says why.
#![tactic(auto)]

#[cfg(test)]
mod plain_plan;
#[cfg(test)]
mod plain_read;
#[cfg(test)]
mod plain_save;
#[cfg(test)]
mod top;
