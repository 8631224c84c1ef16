//! The sizes of an image, and the addresses that follow from them.

ghost use Rattle.std.specs.Prelude.{◌≡◌, ◌<◌, ◌≤◌, IfOk};
ghost use Rattle.f2_format.specs.Geometry.{node_third, data_third, node_start, data_start, is_in_node, is_in_data, nat_address, main_blocks as main, node_third as third, IsGeometry};

use std::fmt;
use std::marker::Model;
use thiserror::Error;

const LEAST_BLOCKS: u32 = 128;

const MOST_BLOCKS: u32 = 65_536;

const MOST_NAT: u32 = 1024;

const LEAST_NODE_THIRD: u32 = 4;

const ENTRIES_A_NAT_BLOCK: u32 = 455;

const NAT_START: u32 = 8;

/// A limit that the sizes of an image have to keep.
#[derive(Clone, Copy, Debug, PartialEq, Eq)]
pub enum Limit {
    /// The blocks of the image: 128 to 65,536.
    Blocks,
    /// The blocks of one copy of the node address table: 1 to 1,024.
    Nat,
    /// The blocks of a third of the node zone: at least 4.
    Zones,
    /// The entries of the node address table: at least 4 more than the node zone has blocks.
    Nids,
    /// The blocks of the device: at least those of the image.
    Device,
}

impl fmt::Display for Limit {
    fn fmt<W: fmt::Write>(&self, f: &mut fmt::Formatter<W>) -> fmt::Result {
        f.write_str(match self {
            Limit::Blocks => "blocks",
            Limit::Nat => "nat",
            Limit::Zones => "zones",
            Limit::Nids => "nids",
            Limit::Device => "device",
        })
    }
}

/// Sizes that no image has: the first limit that they break, and the number that breaks it.
#[derive(Clone, Copy, Debug, PartialEq, Eq, Error)]
#[error("no image has such sizes: {limit} {value}")]
pub struct BadGeometry {
    /// The first limit that is broken.
    pub limit: Limit,
    /// The number that breaks it.
    pub value: u32,
}

/// The sizes of an image: its blocks, and those of one copy of its node address table.
#[derive(Clone, Copy, Debug, PartialEq, Eq)]
pub struct Geometry {
    blocks: u32,
    nat: u32,
}

impl Model for Geometry {
    ghost use Rattle.f2_format.specs.Geometry.{ImageGeometry, IsGeometry};

    ghost Value = { ImageGeometry };

    ghost view = { λ g. record { blocks = g.blocks; nat = g.nat } };

    ghost invariant = { λ g. IsGeometry (record { blocks = g.blocks; nat = g.nat }) };

    ghost inverse = { λ geom. record { blocks = geom.blocks; nat = geom.nat } };
}

impl Geometry {
    ghost use Rattle.f2_format.specs.Geometry.{ImageGeometry};
    ghost use Rattle.f2_layout.specs.Refusal.{geometry_of};

    /// An image of `blocks` blocks, with `nat` blocks in each copy of its node address table.
    ///
    /// The limits are tested in the order of [`Limit`]; the device is not known here.
    pub fn new(blocks: u32, nat: u32) -> Result<Geometry, BadGeometry>
        ensures exact { result ≡ geometry_of (record { blocks = blocks; nat = nat }) }
        ensures sound { IfOk result IsGeometry }
    {
        if !(LEAST_BLOCKS..=MOST_BLOCKS).contains(&blocks) {
            return Err(broken(Limit::Blocks, blocks));
        }
        if !(1..=MOST_NAT).contains(&nat) {
            return Err(broken(Limit::Nat, nat));
        }
        let node_third = node_third(blocks, nat);
        if node_third < LEAST_NODE_THIRD {
            return Err(broken(Limit::Zones, node_third));
        }
        let nids = ENTRIES_A_NAT_BLOCK * nat;
        if nids < 3 * node_third + 4 {
            return Err(broken(Limit::Nids, nids));
        }
        Ok(Geometry { blocks, nat })
    }

    /// The blocks of the image.
    pub fn blocks(&self) -> u32
        ensures value { result ≡ self.now.blocks }
        ensures sound { IsGeometry self.now }
    {
        self.blocks
    }

    /// The blocks of one copy of the node address table.
    pub fn nat(&self) -> u32
        ensures value { result ≡ self.now.nat }
        ensures sound { IsGeometry self.now }
    {
        self.nat
    }

    /// A third of the node zone: the most nodes of a tree, and the most blocks of a node log.
    pub fn cn(&self) -> u32
        ensures value { result ≡ node_third self.now }
        ensures sound { IsGeometry self.now }
    {
        node_third(self.blocks, self.nat)
    }

    /// A third of the data zone: the most data blocks of a tree.
    pub fn cd(&self) -> u32
        ensures value { result ≡ data_third self.now }
        ensures sound { IsGeometry self.now }
    {
        (main_blocks(self.blocks, self.nat) - 3 * self.cn()) / 3
    }

    /// The first block of the node zone.
    pub fn node_first(&self) -> u32
        ensures value { result ≡ node_start self.now }
        ensures sound { IsGeometry self.now }
    {
        NAT_START + 2 * self.nat
    }

    /// The first block of the data zone.
    pub fn data_first(&self) -> u32
        ensures value { result ≡ data_start self.now }
        ensures sound { IsGeometry self.now }
    {
        self.node_first() + 3 * self.cn()
    }

    /// Whether the block at this address is in the node zone.
    pub fn in_node(&self, at: u32) -> bool
        ensures { result ≡ is_in_node self.now at }
    {
        self.node_first() <= at && at < self.data_first()
    }

    /// Whether the block at this address is in the data zone.
    pub fn in_data(&self, at: u32) -> bool
        ensures { result ≡ is_in_data self.now at }
    {
        self.data_first() <= at && at < self.data_first() + 3 * self.cd()
    }

    /// The address of a block of the node address table, in its first or its second copy.
    pub fn nat_at(&self, block: u32, second: bool) -> u32
        requires { block < self.now.nat }
        ensures value { result ≡ nat_address self.now block second }
        ensures sound { IsGeometry self.now }
    {
        let copy = if second { self.nat } else { 0 };
        NAT_START + block + copy
    }
}

fn broken(limit: Limit, value: u32) -> BadGeometry
    ensures { result ≡ record { limit = limit; value = value } }
{
    BadGeometry { limit, value }
}

/// The blocks that the superblock, the packs and the node address table leave.
fn main_blocks(blocks: u32, nat: u32) -> u32
    requires { nat ≤ 1024 }
    ensures { result ≡ main (record { blocks = blocks; nat = nat }) }
{
    blocks.saturating_sub(NAT_START + 2 * nat)
}

fn node_third(blocks: u32, nat: u32) -> u32
    requires { nat ≤ 1024 }
    ensures { result ≡ third (record { blocks = blocks; nat = nat }) }
{
    main_blocks(blocks, nat) / 12
}
