//! Cutting files.
ghost use Rattle.std.specs.Prelude.{◌≡◌, ◌==◌, ◌≤◌, ◌++◌, ℕ, List, not, nat_lt, length, if◌then◌else◌, OnOk, OnErr, IfOk};
ghost use Rattle.std.specs.List.{filter};
ghost use Rattle.std.specs.FinMap as map;
ghost use Rattle.std.specs.FinSet as set;
ghost use Rattle.f2_model.specs.Content.{begins_before};
ghost use Rattle.f2_model.specs.State as machine;
ghost use Rattle.f2_model.specs.declared.requests.Request.TheVariants.{Truncate};
ghost use Rattle.f2_spans.specs.Spans.{MOST_SIZE};
ghost use Rattle.f2_files.specs.Cuts.{has_page_in, nodes_gone, nodes_kept, page_cut, pages_past};
ghost use Rattle.f2_files.specs.Known.{ArePlacesCut, Follows, IsAllowed, LeadsTo};

use crate::addresses::Addresses;
use crate::files::Files;
use crate::pairs::Pairs;
use crate::shapes::Shape;
use crate::touches::directs_of;
use crate::writes::touch;
use f2_flights::Inos;
use f2_shape::{NODE_SLOTS, first_page};
use f2_spans::PAGE;
use std::alloc::{AllocError, Global};

/// What a cut takes out of a file, and what is dirty after it.
#[derive(Drop)]
struct Cut {
    /// The pages that go.
    pages: Vec<u32>,
    /// The direct nodes that go with them.
    nodes: Vec<u32>,
    /// The page that is cut.
    touched: Vec<u32>,
    /// The direct nodes that stay and change.
    reached: Vec<u32>,
}

/// How many pages a file may have that begin before a size.
fn pages_to(size: u64) -> u32
    requires { size ≤ MOST_SIZE }
    ensures { (page : ℕ) → nat_lt page result ≡ begins_before size page }
{
    size.div_ceil(PAGE) as u32
}

/// The page that a smaller size cuts, where it is there.
fn page_cut(alloc: Global, row: &Shape, size: u64) -> Result<Vec<u32>, AllocError>
    requires { size ≤ MOST_SIZE }
    ensures { IfOk result (λ pages. pages.items ≡ page_cut row.now size) }
{
    let mut pages = Vec::new(alloc);
    let page = (size / PAGE) as u32;
    if size < row.size && size % PAGE > 0 && row.pages.contains(page) {
        pages.push(page)?;
    }
    Ok(pages)
}

/// Whether a direct node has a page before a number.
fn has_page_in(pages: &Addresses, end: u32, node: u32) -> bool
    ensures { result ≡ has_page_in (map.retain_keys pages.now (λ page. nat_lt page end)) node }
{
    match first_page(node) {
        Some(first) => {
            let first = first as u32;
            pages.has_between(first, end.min(first + NODE_SLOTS))
        }
        None => false,
    }
}

/// Those of some direct nodes that have a page before a number.
fn nodes_kept(
    alloc: Global,
    pages: &Addresses,
    end: u32,
    nodes: &[u32],
) -> Result<Vec<u32>, AllocError>
    ensures { IfOk result (λ kept. kept.items ≡ filter (has_page_in (map.retain_keys pages.now (λ page. nat_lt page end))) nodes.now) }
{
    nodes
        .iter()
        .copied()
        .filter(|node| has_page_in(pages, end, *node))
        .collect(alloc)
}

/// Those that have none.
fn nodes_gone(
    alloc: Global,
    pages: &Addresses,
    end: u32,
    nodes: &[u32],
) -> Result<Vec<u32>, AllocError>
    ensures { IfOk result (λ gone. gone.items ≡ filter (λ node. not (has_page_in (map.retain_keys pages.now (λ page. nat_lt page end)) node)) nodes.now) }
{
    nodes
        .iter()
        .copied()
        .filter(|node| !has_page_in(pages, end, *node))
        .collect(alloc)
}

/// What a cut at a size takes out of a file, and what is dirty after it.
fn cut_of(alloc: Global, row: &Shape, size: u64) -> Result<Cut, AllocError>
    requires { size ≤ MOST_SIZE }
    ensures pages { IfOk result (λ cut. cut.pages.items ≡ pages_past row.now.pages size) }
    ensures nodes { IfOk result (λ cut. cut.nodes.items ≡ nodes_gone row.now.pages size) }
    ensures touched { IfOk result (λ cut. cut.touched.items ≡ page_cut row.now size) }
    ensures reached { IfOk result (λ cut. cut.reached.items ≡ nodes_kept row.now.pages size ++ machine.directs_of (page_cut row.now size)) }
{
    let end = pages_to(size);
    let pages = row.pages.numbers_from(alloc, end)?;
    let lost = directs_of(alloc, pages.as_slice())?;
    let nodes = nodes_gone(alloc, &row.pages, end, lost.as_slice())?;
    let mut reached = nodes_kept(alloc, &row.pages, end, lost.as_slice())?;
    let touched = page_cut(alloc, row, size)?;
    let own = directs_of(alloc, touched.as_slice())?;
    reached.extend_from_slice(own.as_slice())?;
    Ok(Cut {
        pages,
        nodes,
        touched,
        reached,
    })
}

/// Counts a file among those that shrank, where it lost a direct node. Where memory is refused nothing changes.
fn shrink(shrunk: &mut Inos, ino: u32, lost: &[u32]) -> Result<(), AllocError>
    ensures ok { OnOk result (shrunk.new ≡ (if length lost.now == 0 then shrunk.old else set.insert shrunk.old ino)) }
    ensures err { OnErr result (shrunk.new ≡ shrunk.old) }
{
    if lost.is_empty() {
        return Ok(());
    }
    shrunk.insert(ino)
}

/// Makes dirty what a cut of a file leaves dirty, and no longer what it takes out; a file that loses a direct node is one
/// that shrank. Where memory is refused nothing changes.
fn mark_cut(
    alloc: Global,
    dirty_pages: &mut Pairs,
    dirty_nodes: &mut Pairs,
    shrunk: &mut Inos,
    ino: u32,
    cut: &Cut,
) -> Result<(), AllocError>
    ensures pages { OnOk result (dirty_pages.new ≡ machine.without_pairs ino (machine.with_pairs ino dirty_pages.old cut.now.touched.items) cut.now.pages.items) }
    ensures nodes { OnOk result (dirty_nodes.new ≡ machine.without_pairs ino (machine.with_pairs ino dirty_nodes.old cut.now.reached.items) cut.now.nodes.items) }
    ensures shrunk { OnOk result (shrunk.new ≡ (if length cut.now.nodes.items == 0 then shrunk.old else set.insert shrunk.old ino)) }
    ensures err_pages { OnErr result (dirty_pages.new ≡ dirty_pages.old) }
    ensures err_nodes { OnErr result (dirty_nodes.new ≡ dirty_nodes.old) }
    ensures err_shrunk { OnErr result (shrunk.new ≡ shrunk.old) }
{
    let touched = touch(
        alloc,
        dirty_pages,
        dirty_nodes,
        ino,
        cut.touched.as_slice(),
        cut.reached.as_slice(),
    )?;
    match shrink(shrunk, ino, cut.nodes.as_slice()) {
        Ok(()) => {
            dirty_pages.remove_all(ino, cut.pages.as_slice());
            dirty_nodes.remove_all(ino, cut.nodes.as_slice());
            Ok(())
        }
        Err(error) => {
            dirty_pages.remove_all(ino, touched.pages.as_slice());
            dirty_nodes.remove_all(ino, touched.nodes.as_slice());
            Err(error)
        }
    }
}

impl Files {
    /// Cuts a file at a size, or raises its size. The pages that begin at the size or past it are gone, with whatever of
    /// them was dirty; the page that the size falls into is dirty, as are the direct nodes that lose a page and keep
    /// another, and a file that loses a direct node is one that shrank. Where memory is refused, or there is no such file,
    /// nothing changes.
    pub fn truncate(&mut self, ino: u32, size: u64) -> Result<(), AllocError>
        requires { size ≤ MOST_SIZE }
        ensures ok { OnOk result ((path : List (List ℕ)) → IsAllowed self.old (Truncate path size) → LeadsTo self.old path ino → Follows self.old self.new (Truncate path size) 0) }
        ensures places { OnOk result (ArePlacesCut self.old self.new ino size) }
        ensures err { OnErr result (self.new ≡ self.old) }
    {
        let Some(row) = self.shapes.get(ino) else {
            return Ok(());
        };
        let cut = cut_of(self.alloc, row, size)?;
        mark_cut(
            self.alloc,
            &mut self.dirty_pages,
            &mut self.dirty_nodes,
            &mut self.shrunk,
            ino,
            &cut,
        )?;
        self.shapes.cut(ino, size, cut.pages.as_slice());
        Ok(())
    }
}
