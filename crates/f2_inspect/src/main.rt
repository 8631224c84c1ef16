//! The program `f2_inspect`: reads one block of an F2FS image from standard input, and prints its fields.
//!
//! The words after the program's name say what the block is taken for:
//!
//! - `footer`: the footer of a node,
//! - `inode`: an inode,
//! - `dentry`: the names of a dentry block,
//! - `word SLOT`: the word in this slot, 0 to 1017, of a direct or an indirect node,
//! - `nat PLACE`: the entry at this place, 0 to 454, of a block of the node address table.
//!
//! So `dd if=IMAGE bs=4096 skip=BLOCK count=1 | f2_inspect inode` prints an inode. Other words, less than a block,
//! and a block that isn't what it is taken for end the program with status 1.
#![tactic(auto)]

mod answers;
mod questions;

use anyhow::{Context, Result, bail};
use f2_bytes::BLOCK_BYTES;
use questions::Question;
use std::env;
use std::io::Read;
use std::rt::Env;

/// Answers the question that the arguments ask.
fn inspect<R: Env + AllocGlobal + Input + Print>(rt: &R) -> Result<()> {
    let mut words = Vec::new(rt.alloc());
    for word in env::args(rt)?.skip(1) {
        words.push(word)?;
    }
    let Some(question) = Question::parse(words.as_slice()) else {
        bail!("usage: f2_inspect footer | inode | dentry | word SLOT | nat PLACE");
    };
    let mut block = [0; BLOCK_BYTES];
    rt.reader()
        .read_exact(&mut block)
        .context("standard input has no whole block")?;
    answers::answer(rt, question, &block)
}

fn main(rt: HostRuntime) -> Result<()> {
    inspect(&rt)
}
