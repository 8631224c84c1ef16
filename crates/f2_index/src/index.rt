//! The pages of a file, and what is kept of its direct nodes.
ghost use Rattle.std.specs.Prelude.{◌≡◌, ℕ, ◌+◌, ◌<◌, ◌≤◌, ◌^◌, None, Some, IsSome, IsTrue, IfSome, IfNone, OnSome, OnOk, OnErr, IfOk};
ghost use Rattle.std.specs.List.Sorted.{IsStrictlyIncreasing};
ghost use Rattle.std.specs.FinMap as map;
ghost use Rattle.std.specs.FinSet as set;
ghost use Rattle.f2_format.specs.Offsets as format;
ghost use Rattle.f2_index.specs.Paged.{nodes_of_pages, with_address, IsCut};
ghost use Rattle.f2_index.specs.Nodes.{counted, with_pages, without_page};

use crate::nodes::NodeTable;
use crate::table::Table;
use f2_shape::direct_of;
use std::alloc::{AllocError, Global};
use std::marker::Model;

/// The pages of a file with their addresses, and which of its direct nodes are dirty.
///
/// An address of 0 stands for a page that was never written. A node is kept exactly while it has a page.
#[derive(Drop)]
pub struct Index {
    pages: Table<u32>,
    nodes: NodeTable,
}

impl Model for Index {
    ghost use Rattle.f2_index.specs.Paged.{Paged, paged_code};

    ghost Value = { Paged };

    ghost coded = { paged_code };

    ghost use Rattle.f2_index.specs.Nodes.{dirty_of, AreNodesOf};

    ghost view = { λ i. record { pages = i.pages; dirty = dirty_of i.nodes } };

    ghost invariant = { λ i. AreNodesOf i.pages i.nodes };
}

impl Index {
    /// An index without pages.
    pub fn new(alloc: Global) -> Self
        ensures { result ≡ record { pages = map.empty; dirty = set.empty } }
    {
        Index {
            pages: Table::new(alloc),
            nodes: NodeTable::new(alloc),
        }
    }

    /// The page's address, or `None` where the page isn't there.
    pub fn get(&self, page: u32) -> Option<u32>
        ensures { result ≡ map.get self.now.pages page }
    {
        self.pages.get(page)
    }

    /// Sets the page's address, and makes its direct node dirty. An error leaves the index as it was.
    pub fn set(&mut self, page: u32, at: u32) -> Result<(), AllocError>
        requires { page < format.page_limit }
        ensures ok { OnOk result (self.new ≡ with_address self.old page at) }
        ensures err { OnErr result (self.new ≡ self.old) }
    {
        if self.pages.get(page).is_some() {
            self.place(page, at);
            return Ok(());
        }
        add_page(&mut self.pages, &mut self.nodes, page, at)
    }

    /// Sets the address of a page that is there, and makes its direct node dirty. It takes no memory.
    pub fn place(&mut self, page: u32, at: u32)
        requires { IsSome (map.get self.old.pages page) }
        ensures { self.new ≡ with_address self.old page at }
    {
        self.pages.replace(page, at);
        touch(&mut self.nodes, page);
    }

    /// Takes out the pages from `from` on. A direct node that loses a page is dirty where it keeps one, and
    /// else is no node of the index any more.
    pub fn cut(&mut self, from: u32)
        ensures { IsCut from self.old self.new }
    {
        while self.cut_last(from).is_some() {}
    }

    /// Takes out the last page and returns it, where it isn't before `from`.
    fn cut_last(&mut self, from: u32) -> Option<u32>
        ensures last { IfSome result (λ page. from ≤ page) }
        ensures cut { IfSome result (λ page. IsCut page self.old self.new) }
        ensures shorter { OnSome result (map.len self.new.pages < map.len self.old.pages) }
        ensures none { IfNone result (IsCut from self.old self.new) }
    {
        let page = self.pages.pop_last_from(from)?;
        drop_page(&mut self.nodes, page);
        Some(page)
    }

    /// The offsets of the dirty direct nodes, rising. It looks at the dirty ones alone.
    pub fn dirty_nodes(&self) -> Result<Vec<u32>, AllocError>
        ensures dirty { IfOk result (λ offsets. set.from_list offsets.items ≡ self.now.dirty) }
        ensures rising { IfOk result (λ offsets. IsStrictlyIncreasing offsets.items) }
        ensures needed { IsTrue (set.is_subset self.now.dirty (nodes_of_pages self.now.pages)) }
    {
        self.nodes.dirty()
    }

    /// Makes a direct node clean.
    pub fn clean(&mut self, offset: u32)
        ensures { self.new ≡ record self.old { dirty = set.remove self.old.dirty offset } }
    {
        self.nodes.clean(offset);
    }
}

/// Counts a new page for its direct node, and sets its address.
fn add_page(
    pages: &mut Table<u32>,
    nodes: &mut NodeTable,
    page: u32,
    at: u32,
) -> Result<(), AllocError>
    requires new { map.get pages.old page ≡ None }
    requires room { (offset : ℕ) → counted (map.get nodes.old offset) + 1 < 2 ^ 32 }
    ensures pages { OnOk result (pages.new ≡ map.insert pages.old page at) }
    ensures nodes { OnOk result (nodes.new ≡ with_pages nodes.old (format.direct_of page) 1) }
    ensures err_pages { OnErr result (pages.new ≡ pages.old) }
    ensures err_nodes { OnErr result (nodes.new ≡ nodes.old) }
{
    let Some(offset) = direct_of(u64::from(page)) else {
        return pages.insert(page, at);
    };
    if let Some(node) = nodes.get(offset) {
        pages.insert(page, at)?;
        nodes.set_dirty(offset, node.pages + 1);
        return Ok(());
    }
    nodes.insert(offset)?;
    let done = pages.insert(page, at);
    if done.is_err() {
        nodes.remove(offset);
    }
    done
}

/// Makes the direct node of a page dirty, where it has one.
fn touch(nodes: &mut NodeTable, page: u32)
    requires { (offset : ℕ) → format.direct_of page ≡ Some offset → IsSome (map.get nodes.old offset) }
    ensures { nodes.new ≡ with_pages nodes.old (format.direct_of page) 0 }
{
    if let Some(offset) = direct_of(u64::from(page))
        && let Some(node) = nodes.get(offset)
    {
        nodes.set_dirty(offset, node.pages);
    }
}

/// Counts a page less for its direct node, where it has one: the node is dirty, or gone with its last page.
fn drop_page(nodes: &mut NodeTable, page: u32)
    ensures { nodes.new ≡ without_page nodes.old (format.direct_of page) }
{
    if let Some(offset) = direct_of(u64::from(page)) {
        match nodes.get(offset) {
            Some(node) if node.pages > 1 => nodes.set_dirty(offset, node.pages - 1),
            _ => nodes.remove(offset),
        }
    }
}
