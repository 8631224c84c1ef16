//! What is printed for a reply.
ghost use Rattle.std.specs.Prelude.{◌≡◌, ◌++◌, codes, IfOk};
ghost use Rattle.f2_script.specs.Replies.{reason_word as reason_text, zone_word as zone_text, read_text as read_spelling, names_text, reply_spelling};

use crate::texts::{push_argument, push_hex, push_names, push_number};
use f2_model::{Name, Reason, Reply, Space};
use std::alloc::{AllocError, Global};

/// Why an fsync made a checkpoint.
pub fn reason_word(reason: Reason) -> &'static [u8]
    ensures { result.now ≡ reason_text reason }
{
    match reason {
        Reason::NonRegular => b"nonregular",
        Reason::Renamed => b"renamed",
        Reason::ParentNew => b"parentnew",
        Reason::NameTaken => b"nametaken",
        Reason::Shrunk => b"shrunk",
        Reason::Room => b"room",
    }
}

fn zone_word(space: Space) -> &'static [u8]
    ensures { result.now ≡ zone_text space }
{
    match space {
        Space::Node => b"node",
        Space::Data => b"data",
    }
}

fn read_text(alloc: Global, bytes: &[u8]) -> Result<Vec<u8>, AllocError>
    ensures { IfOk result (λ text. text.items ≡ codes "ok" ++ read_spelling bytes.now) }
{
    let mut text = Vec::from_slice(alloc, b"ok")?;
    if !bytes.is_empty() {
        text.push(b' ')?;
        push_hex(&mut text, bytes)?;
    }
    Ok(text)
}

fn list_text(alloc: Global, names: &[Name]) -> Result<Vec<u8>, AllocError>
    ensures { IfOk result (λ text. text.items ≡ codes "ok" ++ names_text 32 names.now) }
{
    let mut text = Vec::from_slice(alloc, b"ok")?;
    push_names(&mut text, b' ', names)?;
    Ok(text)
}

fn cp_text(alloc: Global, reason: Reason) -> Result<Vec<u8>, AllocError>
    ensures { IfOk result (λ text. text.items ≡ reply_spelling (Reply.Cp reason)) }
{
    let mut text = Vec::from_slice(alloc, b"ok cp ")?;
    text.extend_from_slice(reason_word(reason))?;
    Ok(text)
}

fn busy_text(alloc: Global, by: u8) -> Result<Vec<u8>, AllocError>
    ensures { IfOk result (λ text. text.items ≡ reply_spelling (Reply.Busy by)) }
{
    let mut text = Vec::from_slice(alloc, b"busy ")?;
    push_number(&mut text, u64::from(by))?;
    Ok(text)
}

fn no_space_text(alloc: Global, space: Space, need: u32, limit: u32) -> Result<Vec<u8>, AllocError>
    ensures { IfOk result (λ text. text.items ≡ reply_spelling (Reply.NoSpace space need limit)) }
{
    let mut text = Vec::from_slice(alloc, b"nospace ")?;
    text.extend_from_slice(zone_word(space))?;
    push_argument(&mut text, u64::from(need))?;
    push_argument(&mut text, u64::from(limit))?;
    Ok(text)
}

/// The text of a reply, without the end of its line; want of memory has the empty text.
pub fn reply_text(alloc: Global, reply: &Reply) -> Result<Vec<u8>, AllocError>
    ensures { IfOk result (λ text. text.items ≡ reply_spelling reply.now) }
{
    match reply {
        Reply::Done => Vec::from_slice(alloc, b"ok"),
        Reply::Bytes(bytes) => read_text(alloc, bytes.as_slice()),
        Reply::Names(names) => list_text(alloc, names.as_slice()),
        Reply::Roll => Vec::from_slice(alloc, b"ok roll"),
        Reply::Cp(reason) => cp_text(alloc, *reason),
        Reply::Synced => Vec::from_slice(alloc, b"ok sync"),
        Reply::Closed => Vec::from_slice(alloc, b"closed"),
        Reply::Spent => Vec::from_slice(alloc, b"spent"),
        Reply::Busy { by } => busy_text(alloc, *by),
        Reply::BadName => Vec::from_slice(alloc, b"badname"),
        Reply::NoEnt => Vec::from_slice(alloc, b"noent"),
        Reply::NotDir => Vec::from_slice(alloc, b"notdir"),
        Reply::IsDir => Vec::from_slice(alloc, b"isdir"),
        Reply::Exists => Vec::from_slice(alloc, b"exists"),
        Reply::NotEmpty => Vec::from_slice(alloc, b"notempty"),
        Reply::TooBig => Vec::from_slice(alloc, b"toobig"),
        Reply::NoSpace { space, need, limit } => no_space_text(alloc, *space, *need, *limit),
        Reply::ReadFault => Vec::from_slice(alloc, b"readfault"),
        Reply::WriteFault => Vec::from_slice(alloc, b"writefault"),
        Reply::Memory => Ok(Vec::new(alloc)),
    }
}
