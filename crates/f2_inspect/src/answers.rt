//! The fields of a block, a line each: the field's name, a space, and its value in decimal. Of a dentry block it
//! is a line for each name.

ghost use Rattle.f2_inspect.specs.Asked.{IsInBlock};

use crate::questions::Question;
use anyhow::Result;
use f2_bytes::Block;
use f2_dentry_block::{Dent, unpack};
use f2_footer::Footer;
use f2_model::Kind;
use f2_nat_block::NatEntry;
use f2_node_block::{Inode, read_inode, read_word};

/// Prints what is asked of the block.
pub fn answer<R: AllocGlobal + Print>(rt: &R, question: Question, b: &Block) -> Result<()>
    requires { IsInBlock question }
{
    match question {
        Question::Footer => print_footer(rt, &f2_footer::read(b)),
        Question::Inode => print_inode(rt, &read_inode(b)?),
        Question::Word { slot } => Ok(println!(rt; "word {}", read_word(b, slot))?),
        Question::Dentry => print_dents(rt, unpack(rt.alloc(), b)?.as_slice()),
        Question::Nat { place } => print_entry(rt, &f2_nat_block::entry(b, place)),
    }
}

fn print_footer(rt: &impl Print, footer: &Footer) -> Result<()> {
    println!(rt; "nid {}", footer.nid)?;
    println!(rt; "ino {}", footer.ino)?;
    println!(rt; "offset {}", footer.offset)?;
    println!(rt; "fsync {}", footer.fsync)?;
    println!(rt; "dent {}", footer.dent)?;
    println!(rt; "cp_ver {}", footer.cp_ver)?;
    println!(rt; "next {}", footer.next)?;
    Ok(())
}

/// Of the addresses and nids those that aren't 0, with their places.
fn print_inode(rt: &impl Print, inode: &Inode) -> Result<()> {
    println!(rt; "kind {}", kind_text(inode.kind))?;
    println!(rt; "size {}", inode.size)?;
    println!(rt; "pino {}", inode.pino)?;
    println!(rt; "name_len {}", inode.name_len)?;
    let name = &inode.name[..inode.name_len as usize];
    println!(rt; "name {}", name.escape_ascii())?;
    for (page, addr) in inode.addr.iter().enumerate() {
        if *addr != 0 {
            println!(rt; "addr[{page}] {addr}")?;
        }
    }
    for (place, nid) in inode.nid.iter().enumerate() {
        if *nid != 0 {
            println!(rt; "nid[{place}] {nid}")?;
        }
    }
    Ok(())
}

/// A line for each name: its ino, its kind, and the name.
fn print_dents(rt: &impl Print, dents: &[Dent]) -> Result<()> {
    for dent in dents {
        let name = dent.name.as_slice();
        println!(rt;
            "{} {} {}",
            dent.ino,
            kind_text(dent.kind),
            name.escape_ascii()
        )?;
    }
    Ok(())
}

fn print_entry(rt: &impl Print, entry: &NatEntry) -> Result<()> {
    println!(rt; "ino {}", entry.ino)?;
    println!(rt; "addr {}", entry.addr)?;
    Ok(())
}

fn kind_text(kind: Kind) -> &'static str {
    match kind {
        Kind::Regular => "regular",
        Kind::Directory => "directory",
    }
}
