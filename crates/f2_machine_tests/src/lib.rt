//! Tests of values, scripts, and calls on trees, a module for each crate, and one of the trait of a volume.
//!
//! A test says by its answer whether all that it compares holds; `docs/layers.md` says why.
#![tactic(auto)]

#[cfg(test)]
mod machine;
#[cfg(test)]
mod model;
#[cfg(test)]
mod pieces;
#[cfg(test)]
mod plain_calls;
#[cfg(test)]
mod script;
