//! Whether the places of files are kept apart.
ghost use Rattle.std.specs.Prelude.{◌≡◌, ◌↔◌, length, IfOk, IsTrue};
ghost use Rattle.std.specs.Bool.{OnTrue};
ghost use Rattle.std.specs.FinSet as set;
ghost use Rattle.f2_format.specs.Offsets.{inode_pages};
ghost use Rattle.f2_laid.specs.Laid.{IsKept};
ghost use Rattle.f2_plain_read.specs.Building.{AreBelow};
ghost use Rattle.f2_plain_read.specs.Keeping.{IsOfNodes, IsOfPages, IsFreeNode, IsFreePage, AreNew, AreTaken};

use f2_bitset::BitSet;
use f2_laid::Places;
use f2_layout::Geometry;
use std::alloc::{AllocError, Global};

/// Whether the places of inos below a limit have their addresses in their zones, no two alike, and few enough of them.
pub(crate) fn is_kept(
    alloc: Global,
    geometry: &Geometry,
    places: &Places,
    limit: u32,
) -> Result<bool, AllocError>
    requires { AreBelow limit places.now }
    ensures { IfOk result (λ kept. IsTrue kept ↔ IsKept geometry.now places.now) }
{
    let mut nodes = BitSet::new(alloc, geometry.node_first(), 3 * geometry.cn())?;
    let mut pages = BitSet::new(alloc, geometry.data_first(), 3 * geometry.cd())?;
    for ino in 0..limit {
        if let Some(place) = places.get(ino) {
            if !take_node(&mut nodes, geometry, place.at) {
                return Ok(false);
            }
            if !take_pages(&mut pages, geometry, &place.addresses) {
                return Ok(false);
            }
        }
    }
    Ok(nodes.len() <= geometry.cn() && pages.len() <= geometry.cd())
}

/// Takes a block of the node zone, unless it isn't one, or was taken before.
fn take_node(nodes: &mut BitSet, geometry: &Geometry, at: u32) -> bool
    requires { IsOfNodes geometry.now nodes.old }
    ensures free { IsTrue result ↔ IsFreeNode geometry.now nodes.old.members at }
    ensures taken { OnTrue result (nodes.new ≡ record nodes.old { members = set.insert nodes.old.members at }) }
{
    if !geometry.in_node(at) || nodes.contains(at) {
        return false;
    }
    nodes.insert(at);
    true
}

/// Takes the blocks of the pages that are there, unless one isn't in the data zone, or was taken before.
fn take_pages(pages: &mut BitSet, geometry: &Geometry, addresses: &[u32; 923]) -> bool
    requires { IsOfPages geometry.now pages.old }
    ensures free { IsTrue result ↔ AreNew geometry.now pages.old.members addresses.now inode_pages }
    ensures zone { OnTrue result (IsOfPages geometry.now pages.new) }
    ensures taken { OnTrue result (AreTaken pages.old.members pages.new.members addresses.now inode_pages) }
    ensures whole { length addresses.now ≡ inode_pages }
{
    for at in addresses {
        if *at != 0 && !take_page(pages, geometry, *at) {
            return false;
        }
    }
    true
}

/// Takes a block of the data zone, unless it isn't one, or was taken before.
fn take_page(pages: &mut BitSet, geometry: &Geometry, at: u32) -> bool
    requires { IsOfPages geometry.now pages.old }
    ensures free { IsTrue result ↔ IsFreePage geometry.now pages.old.members at }
    ensures taken { OnTrue result (pages.new ≡ record pages.old { members = set.insert pages.old.members at }) }
{
    if !geometry.in_data(at) || pages.contains(at) {
        return false;
    }
    pages.insert(at);
    true
}
