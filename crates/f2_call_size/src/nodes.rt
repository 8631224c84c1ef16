//! The nodes that pages need beyond those that other pages of a file need.
ghost use Rattle.std.specs.Prelude.{◌≡◌, ◌+◌, ◌<◌, ◌≤◌, ◌^◌, ◌++◌, ◌∷◌, [], ℕ, List, OnOk, IfOk};
ghost use Rattle.std.specs.FinMap as map;
ghost use Rattle.f2_format.specs.Offsets.{node_count, nodes_over};
ghost use Rattle.f2_call_size.specs.Beyond.{IsBeyond, IsNear, noted, pages_below, pages_from};

use crate::numbers::Numbers;
use crate::ways::way_to;
use f2_files::Addresses;
use std::alloc::{AllocError, Global};

/// Notes a node, unless it is none or stands at the same place of one of two ways.
fn note(found: &mut Numbers, node: u32, before: u32, after: u32) -> Result<(), AllocError>
    ensures { OnOk result (found.new ≡ noted found.old node before after) }
{
    if node != 0 && node != before && node != after {
        found.insert(node)?;
    }
    Ok(())
}

/// Notes the nodes of a page that the nearest pages of a file don't need; then no page of it needs them.
fn note_page(found: &mut Numbers, page: u32, before: u32, after: u32) -> Result<(), AllocError>
    ensures { OnOk result ((own more : List ℕ) → IsNear own page before after → IsBeyond (nodes_over own) found.old (nodes_over (own ++ more)) → IsBeyond (nodes_over own) found.new (nodes_over (own ++ (more ++ page ∷ [])))) }
{
    let nodes = way_to(page);
    let left = way_to(before);
    let right = way_to(after);
    note(found, nodes[1], left[1], right[1])?;
    note(found, nodes[2], left[2], right[2])?;
    note(found, nodes[3], left[3], right[3])?;
    Ok(())
}

/// The page before and the page after a page that are nearest to it, itself where it is there; 0 where there is none.
fn near(own: &Addresses, page: u32) -> (u32, u32)
    ensures { IsNear (map.keys own.now) page result.0 result.1 }
{
    let before = own.last_to(page).unwrap_or(0);
    let after = own.first_from(page).unwrap_or(0);
    (before, after)
}

/// How many nodes a file needs for more pages beyond those that it has.
pub(crate) fn new_nodes(alloc: Global, own: &Addresses, more: &[u32]) -> Result<u64, AllocError>
    ensures nodes { IfOk result (λ count. node_count (map.keys own.now ++ more.now) ≡ node_count (map.keys own.now) + count) }
    ensures fits { IfOk result (λ count. count < 2 ^ 63) }
{
    let mut found = Numbers::new(alloc);
    for page in more {
        let (before, after) = near(own, *page);
        note_page(&mut found, *page, before, after)?;
    }
    Ok(found.len())
}

/// The last page before a number, and 0 where there is none.
fn last_below(own: &Addresses, end: u32) -> u32
    ensures { (page : ℕ) → end ≤ page → IsNear (pages_below own.now end) page result 0 }
{
    match end.checked_sub(1) {
        Some(last) => own.last_to(last).unwrap_or(0),
        None => 0,
    }
}

/// How many nodes a file needs for its pages from a number on beyond those that it needs for the pages before. These
/// pages are handed in.
pub(crate) fn lost_nodes(
    alloc: Global,
    own: &Addresses,
    end: u32,
    lost: &[u32],
) -> Result<u64, AllocError>
    requires { lost.now ≡ pages_from own.now end }
    ensures nodes { IfOk result (λ count. node_count (pages_below own.now end ++ lost.now) ≡ node_count (pages_below own.now end) + count) }
    ensures fits { IfOk result (λ count. count < 2 ^ 63) }
{
    let before = last_below(own, end);
    let mut found = Numbers::new(alloc);
    for page in lost {
        note_page(&mut found, *page, before, 0)?;
    }
    Ok(found.len())
}
