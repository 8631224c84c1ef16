//! Tests of the parts that know nothing of the abstract machine, a module for each crate.
//!
//! A test says by its answer whether all that it compares holds; `docs/layers.md` says why.
#![tactic(auto)]

#[cfg(test)]
mod bitset;
#[cfg(test)]
mod disk;
#[cfg(test)]
mod gate;
#[cfg(test)]
mod index;
#[cfg(test)]
mod nat_cache;
#[cfg(test)]
mod nid_pool;
#[cfg(test)]
mod pages;
#[cfg(test)]
mod scans;
#[cfg(test)]
mod seat_lock;
#[cfg(test)]
mod shape;
#[cfg(test)]
mod space;
#[cfg(test)]
mod warm_log;
