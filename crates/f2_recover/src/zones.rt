//! The addresses that are in use.
ghost use Rattle.std.specs.Prelude.{◌≡◌, ◌<◌, ◌&&◌, nat_lt, true, false, IfOk, IfErr, OnOk};
ghost use Rattle.std.specs.FinSet as set;
ghost use Rattle.f2_format.specs.Geometry.{is_in_node, is_in_data, nid_limit};
ghost use Rattle.f2_recover.specs.Taking.{IsUnfit};

use f2_bitset::BitSet;
use f2_layout::Geometry;
use std::alloc::{AllocError, Global};
use std::marker::Model;

/// The entries of a block of the node address table.
const ENTRIES_A_NAT_BLOCK: u32 = 455;

/// Why an address isn't taken.
#[derive(Clone, Copy, Debug, PartialEq, Eq)]
pub(crate) enum Unfit {
    /// It isn't in its zone.
    Outside,
    /// It was taken before.
    Used,
}

/// The addresses of both zones that nodes and pages have.
#[derive(Debug, Drop)]
pub struct Zones {
    geometry: Geometry,
    nodes: BitSet,
    pages: BitSet,
    nids: BitSet,
}

impl Model for Zones {
    ghost use Rattle.f2_recover.specs.Taking.{Taken, taken_code, AreZones};

    ghost Value = { Taken };

    ghost coded = { taken_code };

    ghost view = { λ z. record { geom = z.geometry; nodes = z.nodes.members; pages = z.pages.members; nids = z.nids.members } };

    ghost invariant = { λ z. AreZones z.geometry z.nodes z.pages z.nids };
}

impl Zones {
    /// No address is in use.
    pub(crate) fn new(alloc: Global, g: &Geometry) -> Result<Self, AllocError>
        ensures { IfOk result (λ zones. zones ≡ record { geom = g.now; nodes = set.empty; pages = set.empty; nids = set.empty }) }
    {
        let node_first = g.node_first();
        let data_first = g.data_first();
        let nodes = BitSet::new(alloc, node_first, 3 * g.cn())?;
        let pages = BitSet::new(alloc, data_first, 3 * g.cd())?;
        let nids = BitSet::new(alloc, 0, ENTRIES_A_NAT_BLOCK * g.nat())?;
        Ok(Zones {
            geometry: *g,
            nodes,
            pages,
            nids,
        })
    }

    /// Takes an address for the node with a nid, unless it isn't in the node zone or the nid isn't in the table, or it was taken before.
    pub(crate) fn take_node(&mut self, at: u32, nid: u32) -> Result<(), Unfit>
        ensures inside { OnOk result (is_in_node self.old.geom at ≡ true) }
        ensures within { OnOk result (nid < nid_limit self.old.geom) }
        ensures free { OnOk result (set.contains self.old.nodes at ≡ false) }
        ensures taken { OnOk result (self.new ≡ record self.old { nodes = set.insert self.old.nodes at; nids = set.insert self.old.nids nid }) }
        ensures unfit { IfErr result (IsUnfit (is_in_node self.old.geom at && nat_lt nid (nid_limit self.old.geom)) (set.contains self.old.nodes at)) }
    {
        if !self.geometry.in_node(at) || nid >= ENTRIES_A_NAT_BLOCK * self.geometry.nat() {
            return Err(Unfit::Outside);
        }
        if self.nodes.contains(at) {
            return Err(Unfit::Used);
        }
        self.nodes.insert(at);
        self.nids.insert(nid);
        Ok(())
    }

    /// Takes an address for a page, unless it isn't in the data zone, or was taken before.
    pub(crate) fn take_page(&mut self, at: u32) -> Result<(), Unfit>
        ensures inside { OnOk result (is_in_data self.old.geom at ≡ true) }
        ensures free { OnOk result (set.contains self.old.pages at ≡ false) }
        ensures taken { OnOk result (self.new ≡ record self.old { pages = set.insert self.old.pages at }) }
        ensures unfit { IfErr result (IsUnfit (is_in_data self.old.geom at) (set.contains self.old.pages at)) }
    {
        if !self.geometry.in_data(at) {
            return Err(Unfit::Outside);
        }
        if self.pages.contains(at) {
            return Err(Unfit::Used);
        }
        self.pages.insert(at);
        Ok(())
    }

    /// Whether a node has an address.
    pub fn has_node(&self, at: u32) -> bool
        ensures { result ≡ set.contains self.now.nodes at }
    {
        self.nodes.contains(at)
    }

    /// Whether a nid is that of a node whose address was taken.
    pub fn has_nid(&self, nid: u32) -> bool
        ensures { result ≡ set.contains self.now.nids nid }
    {
        self.nids.contains(nid)
    }

    /// The least number that no node can have as its nid.
    pub fn nid_limit(&self) -> u32
        ensures { result ≡ nid_limit self.now.geom }
    {
        ENTRIES_A_NAT_BLOCK * self.geometry.nat()
    }

    /// How many addresses nodes have.
    pub(crate) fn node_count(&self) -> u32
        ensures { result ≡ set.len self.now.nodes }
    {
        self.nodes.len()
    }

    /// How many addresses pages have.
    pub(crate) fn page_count(&self) -> u32
        ensures { result ≡ set.len self.now.pages }
    {
        self.pages.len()
    }
}
