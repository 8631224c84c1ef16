//! The entries of a dentry block, one for each slot in which a name begins.

ghost use Rattle.std.specs.Prelude.{◌≡◌, ◌+◌, ◌<◌, ◌≤◌, ◌==◌, ◌||◌, IfOk, IfSome, IfErr, is_some, true};
ghost use Rattle.f2_format.specs.Dentry.{dentry_at, dentry_name_length, dentry_type, is_good_dentry, with_dentry};
ghost use Rattle.f2_format.specs.Packing.{slots_of_name};
ghost use Rattle.f2_dentry_block.specs.Dents.{dentry_of, type_of, IsWrongAt};
ghost use Rattle.f2_dentry_block.specs.Packed.{HasNameLength};

use crate::dents::{Dent, UnpackFault};
use crate::slots::{BYTES_A_SLOT, SLOTS_A_BLOCK, are_used, mark_all, slots_of_len};
use f2_bytes::{Block, get16, get32, put16, put32};
use f2_model::{Items, Kind};
use std::alloc::Global;

/// Where the entries begin.
const ENTRIES_AT: usize = 30;

/// The bytes of an entry: a hash, the ino, the length of the name and the file type.
const ENTRY_BYTES: usize = 11;

/// Where the slots of the names begin.
const NAMES_AT: usize = 2384;

/// The most bytes of a name.
const NAME_BYTES: usize = 255;

/// The file type of a regular file.
const REGULAR_TYPE: u8 = 1;

/// The file type of a directory.
const DIRECTORY_TYPE: u8 = 2;

/// The length of the name that begins in a slot, as its entry says.
pub(crate) fn name_len(b: &Block, slot: usize) -> usize
    requires { slot < 214 }
    ensures { result ≡ dentry_name_length b.now slot }
{
    get16(b, ENTRIES_AT + ENTRY_BYTES * slot + 8) as usize
}

/// The kind that the entry of a slot tells, or `None` where its type is unknown.
fn kind_at(b: &Block, slot: usize) -> Option<Kind>
    requires { slot < 214 }
    ensures known { is_some result ≡ ((dentry_type b.now slot == 1) || (dentry_type b.now slot == 2)) }
    ensures kind { IfSome result (λ kind. type_of kind ≡ dentry_type b.now slot) }
{
    match b[ENTRIES_AT + ENTRY_BYTES * slot + 10] {
        REGULAR_TYPE => Some(Kind::Regular),
        DIRECTORY_TYPE => Some(Kind::Directory),
        _ => None,
    }
}

/// The kind of the name that begins in a slot, or `None` where its length, its slots or its type are wrong.
fn good_kind(b: &Block, slot: usize) -> Option<Kind>
    requires { slot < 214 }
    ensures good { is_some result ≡ is_good_dentry b.now slot }
    ensures kind { IfSome result (λ kind. type_of kind ≡ dentry_type b.now slot) }
{
    let len = name_len(b, slot);
    let slots = slots_of_len(len);
    if len == 0 || len > NAME_BYTES || slot + slots > SLOTS_A_BLOCK || !are_used(b, slot, slots) {
        return None;
    }
    kind_at(b, slot)
}

/// The name that begins in a slot, with what it is bound to.
pub(crate) fn read_dent(alloc: Global, b: &Block, slot: u8) -> Result<Dent, UnpackFault>
    requires { slot < 214 }
    ensures good { IfOk result (λ _. is_good_dentry b.now slot ≡ true) }
    ensures dent { IfOk result (λ dent. dentry_of dent ≡ dentry_at b.now slot) }
    ensures fault { IfErr result (IsWrongAt b.now slot) }
{
    let place = slot as usize;
    let Some(kind) = good_kind(b, place) else {
        return Err(UnpackFault::Dent { slot });
    };
    let from = NAMES_AT + BYTES_A_SLOT * place;
    let name = Items::from_slice(alloc, &b[from..from + name_len(b, place)])?;
    let ino = get32(b, ENTRIES_AT + ENTRY_BYTES * place + 4);
    Ok(Dent { name, ino, kind })
}

/// Puts a name into the block, so that it begins in this slot.
pub(crate) fn put_dent(b: &mut Block, slot: usize, dent: &Dent)
    requires length { HasNameLength dent.now.name }
    requires room { slot + slots_of_name dent.now.name ≤ 214 }
    ensures { b.new ≡ with_dentry b.old slot (dentry_of dent.now) }
{
    let name = dent.name.as_slice();
    let entry = ENTRIES_AT + ENTRY_BYTES * slot;
    let from = NAMES_AT + BYTES_A_SLOT * slot;
    mark_all(b, slot, slots_of_len(name.len()));
    put32(b, entry + 4, dent.ino);
    put16(b, entry + 8, name.len() as u16);
    b[entry + 10] = file_type(dent.kind);
    b[from..from + name.len()].copy_from_slice(name);
}

/// The file type of a kind.
fn file_type(kind: Kind) -> u8
    ensures { result ≡ type_of kind }
{
    match kind {
        Kind::Regular => REGULAR_TYPE,
        Kind::Directory => DIRECTORY_TYPE,
    }
}
