//! Tests of the disk that is an image file, on real files in the folder that they run in.
//!
//! A test says by its answer whether all that it compares holds; `docs/layers.md` says why.
#![tactic(auto)]

#[cfg(test)]
mod file_disk;
