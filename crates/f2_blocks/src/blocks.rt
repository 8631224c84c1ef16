//! The block of a node.
ghost use Rattle.std.specs.Prelude.{◌≡◌, ◌≢◌, ℕ, ◌<◌, ◌≤◌, ◌++◌, ◌-◌, ◌^◌, drop, length, slice_index, IsTrue, Some};
ghost use Rattle.std.specs.List.{flat_map};
ghost use Rattle.std.specs.FinSet as set;
ghost use Rattle.f2_format.specs.Bytes.{number_bytes, zeros};
ghost use Rattle.f2_format.specs.Footer.{FOOTER_START};
ghost use Rattle.f2_format.specs.Inode.{inode_bytes, inode_of, node_word};
ghost use Rattle.f2_format.specs.Offsets.{direct_of, direct_slot, node_slots};
ghost use Rattle.f2_index.specs.Paged.{nodes_of_pages};
ghost use Rattle.f2_blocks.specs.Blocks.{HaveNids, ReadsAs, address_of, fields_of, node_bytes, words_of, word_of as word};
ghost use Rattle.f2_blocks.specs.Slots.{AreWithin, word_in};
ghost use Rattle.f2_blocks.specs.Tree.{node_limit};

use crate::addresses::PageAddresses;
use crate::nids::Nids;
use crate::present::nid_of;
use crate::rows::NodeRow;
use crate::tree::{DOUBLE_INDIRECT, FIRST_INDIRECT, SECOND_INDIRECT, Slots, slots_of};
use f2_bytes::Block;
use f2_model::Name;
use f2_node_block::{Inode, write_inode, write_word};
use f2_shape::NODE_SLOTS;

const NAME_BYTES: usize = 255;

const INODE_PAGES: usize = 923;

/// Makes the block that node of a file which stands at this offset among the file's nodes: its inode, a direct
/// node, an indirect node or the double indirect node.
///
/// A page that the file hasn't is written with the address 0, and a node that it hasn't with the nid 0. The
/// footer of the block stays.
pub fn node<P: PageAddresses>(row: &NodeRow, index: &P, nids: &Nids, offset: u32, into: &mut Block)
    requires there { IsTrue (set.contains (nodes_of_pages (P.addresses index.now)) offset) }
    requires nids { HaveNids (P.addresses index.now) nids.now }
    requires name { length row.now.name.now ≤ 255 }
    ensures written { into.new ≡ node_bytes row.now (P.addresses index.now) nids.now offset ++ drop FOOTER_START into.old }
    ensures reads_back { ReadsAs row.now (P.addresses index.now) nids.now offset into.new }

    // The address of each page of a direct node is in the slot that the page's way ends with.
    ensures pages { (page : ℕ) → direct_of page ≡ Some offset → node_word into.new (direct_slot page) ≡ address_of (P.addresses index.now) page }
{
    if offset == 0 {
        put_inode(*row, index, nids, into);
    } else {
        put_slots(index, nids, offset, into);
    }
}

/// Makes the block the file's inode.
fn put_inode<P: PageAddresses>(row: NodeRow, index: &P, nids: &Nids, into: &mut Block)
    requires nids { HaveNids (P.addresses index.now) nids.now }
    requires name { length row.name.now ≤ 255 }
    ensures written { into.new ≡ inode_bytes (fields_of row.entry (P.addresses index.now) nids.now) ++ drop FOOTER_START into.old }
    ensures reads_back { inode_of into.new ≡ fields_of row.entry (P.addresses index.now) nids.now }
{
    let mut inode = Inode {
        kind: row.kind,
        size: row.size,
        pino: row.pino,
        name_len: row.name.len() as u8,
        name: padded(row.name),
        addr: [0; INODE_PAGES],
        nid: [
            nid_of(index, nids, 1),
            nid_of(index, nids, 2),
            nid_of(index, nids, FIRST_INDIRECT),
            nid_of(index, nids, SECOND_INDIRECT),
            nid_of(index, nids, DOUBLE_INDIRECT),
        ],
    };
    put_addresses(index, &mut inode.addr);
    write_inode(into, &inode, row.blocks);
}

/// A name, with zeros behind it.
fn padded(name: &Name) -> [u8; NAME_BYTES]
    requires { length name.now ≤ 255 }
    ensures { result ≡ name.now ++ zeros (255 - length name.now) }
{
    let mut bytes = [0; NAME_BYTES];
    bytes[..name.len()].copy_from_slice(name.as_slice());
    bytes
}

/// Puts the addresses of the first pages, 0 for each that isn't there.
fn put_addresses<P: PageAddresses>(index: &P, into: &mut [u32])
    requires { length into.old < 2 ^ 32 }
    ensures written { into.new ≡ words_of (address_of (P.addresses index.now)) (length into.old) }
    ensures fit { (page : ℕ) → slice_index into.new page < 2 ^ 32 }
{
    for (page, at) in into.iter_mut().enumerate() {
        *at = index.address(page as u32).unwrap_or(0);
    }
}

/// Puts the words of a node below the inode into its slots.
fn put_slots<P: PageAddresses>(index: &P, nids: &Nids, offset: u32, into: &mut Block)
    requires below { 0 < offset }
    requires limit { offset < node_limit }
    requires nids { HaveNids (P.addresses index.now) nids.now }
    ensures written { into.new ≡ flat_map (number_bytes 4) (words_of (word (P.addresses index.now) nids.now offset) node_slots) ++ drop FOOTER_START into.old }
    ensures reads_back { (slot : ℕ) → slot < node_slots → node_word into.new slot ≡ word (P.addresses index.now) nids.now offset slot }
{
    let slots = slots_of(offset);
    for slot in 0..NODE_SLOTS {
        write_word(into, slot as u16, word_of(index, nids, slots, slot));
    }
}

/// The word in a slot of a node below the inode.
fn word_of<P: PageAddresses>(index: &P, nids: &Nids, slots: Slots, slot: u32) -> u32
    requires nids { HaveNids (P.addresses index.now) nids.now }
    requires within { AreWithin slots }
    requires slot { slot < node_slots }
    ensures { result ≡ word_in (P.addresses index.now) nids.now slots slot }
{
    match slots {
        Slots::Pages(first) => index.address(first + slot).unwrap_or(0),
        Slots::Nodes(first, apart) => nid_of(index, nids, first + slot * apart),
    }
}
