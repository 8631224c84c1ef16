//! Tests of reading images that weren't made by this project's own checkpoints.
//!
//! A test says by its answer whether all that it compares holds; `docs/layers.md` says why.
#![tactic(auto)]

#[cfg(test)]
mod base;
#[cfg(test)]
mod images;
#[cfg(test)]
mod logs;
#[cfg(test)]
mod recovered;
#[cfg(test)]
mod start;
#[cfg(test)]
mod takeover;
