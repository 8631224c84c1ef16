//! The addresses that are taken in each zone.
ghost use Rattle.std.specs.Prelude.{◌≡◌, ◌≢◌, ℕ, IfOk, IsTrue, Some};
ghost use Rattle.std.specs.FinMap as map;
ghost use Rattle.f2_format.specs.Geometry.{is_in_node};
ghost use Rattle.f2_laid.specs.Laid.{IsKept, page_at};
ghost use Rattle.f2_laid.specs.declared.places.Place.{Place};
ghost use Rattle.f2_bitset.specs.Numbers.{IsInRange};
ghost use Rattle.f2_plain_plan.specs.Zones.{HasNodes, HasPages, InsertsPages, places_at};

use f2_bitset::BitSet;
use f2_laid::{Place, Places};
use f2_layout::Geometry;
use std::alloc::{AllocError, Global};

/// The places of all files.
fn all_places<'a>(alloc: Global, places: &'a Places) -> Result<Vec<&'a Place>, AllocError>
    ensures { IfOk result (λ all. places_at all.items ≡ map.values places.now) }
{
    places.places().collect(alloc)
}

/// The addresses of inodes, among those of the node zone.
pub(crate) fn nodes_of(
    alloc: Global,
    geometry: &Geometry,
    places: &Places,
) -> Result<BitSet, AllocError>
    requires { IsKept geometry.now places.now }
    ensures { IfOk result (HasNodes geometry.now places.now) }
{
    let all = all_places(alloc, places)?;
    let mut nodes = BitSet::new(alloc, geometry.node_first(), 3 * geometry.cn())?;
    for place in &all {
        nodes.insert(place.at);
    }
    Ok(nodes)
}

/// Puts the addresses of a file's pages among others.
fn insert_pages(pages: &mut BitSet, place: &Place)
    requires { (page : ℕ) → page_at place.now page ≢ 0 → IsInRange pages.old (page_at place.now page) }
    ensures { InsertsPages place.now pages.old pages.new }
{
    for at in &place.addresses {
        if *at != 0 {
            pages.insert(*at);
        }
    }
}

/// The addresses of pages, among those of the data zone.
pub(crate) fn pages_of(
    alloc: Global,
    geometry: &Geometry,
    places: &Places,
) -> Result<BitSet, AllocError>
    requires { IsKept geometry.now places.now }
    ensures { IfOk result (HasPages geometry.now places.now) }
{
    let all = all_places(alloc, places)?;
    let mut pages = BitSet::new(alloc, geometry.data_first(), 3 * geometry.cd())?;
    for place in &all {
        insert_pages(&mut pages, place);
    }
    Ok(pages)
}

/// Where the node log may begin: the least address of the node zone that is of no inode.
pub(crate) fn log_start(
    alloc: Global,
    geometry: &Geometry,
    places: &Places,
) -> Result<u32, AllocError>
    requires { IsKept geometry.now places.now }
    ensures zone { IfOk result (λ at. IsTrue (is_in_node geometry.now at)) }
    ensures free { IfOk result (λ at. (ino : ℕ) (place : Place) → map.get places.now ino ≡ Some place → place.at ≢ at) }
{
    let nodes = nodes_of(alloc, geometry, places)?;
    Ok(nodes.least_missing().unwrap())
}
