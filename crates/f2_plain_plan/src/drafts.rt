//! Places for the inodes and pages of a tree, and the blocks of the pages.
ghost use Rattle.std.specs.Prelude.{◌≡◌, ◌+◌, ◌<◌, ◌≤◌, [], IfOk, OnOk};
ghost use Rattle.std.specs.FinMap as map;
ghost use Rattle.std.specs.FinSet as set;
ghost use Rattle.f2_format.specs.Offsets.{inode_pages};
ghost use Rattle.f2_laid.specs.Laid.{IsKept, IsStorable};
ghost use Rattle.f2_plain_plan.specs.Contents.{content_at, pages_before};
ghost use Rattle.f2_plain_plan.specs.Drafts.{AddsRow, IsDraftOf};
ghost use Rattle.f2_plain_plan.specs.Zones.{HasNodes, HasPages};

use crate::contents::{Contents, contents_of};
use crate::directories::{Directories, rows_of};
use crate::pages::add_pages;
use crate::zones::{nodes_of, pages_of};
use f2_bitset::BitSet;
use f2_laid::{Place, Places, Planned};
use f2_layout::Geometry;
use f2_model::Tree;
use std::alloc::{AllocError, Global};

/// What is planned so far: the addresses that aren't free, the places of files, and the blocks of their pages.
#[derive(Drop)]
pub(crate) struct Draft {
    pub(crate) nodes: BitSet,
    pub(crate) pages: BitSet,
    pub(crate) places: Places,
    pub(crate) blocks: Vec<Planned>,
}

impl Draft {
    /// Nothing is planned: the addresses of the last checkpoint aren't free.
    fn new(alloc: Global, geometry: &Geometry, old: &Places) -> Result<Draft, AllocError>
        requires { IsKept geometry.now old.now }
        ensures nodes { IfOk result (λ draft. HasNodes geometry.now old.now draft.nodes) }
        ensures pages { IfOk result (λ draft. HasPages geometry.now old.now draft.pages) }
        ensures places { IfOk result (λ draft. draft.places ≡ map.empty) }
        ensures blocks { IfOk result (λ draft. draft.blocks.items ≡ []) }
    {
        Ok(Draft {
            nodes: nodes_of(alloc, geometry, old)?,
            pages: pages_of(alloc, geometry, old)?,
            places: Places::new(alloc),
            blocks: Vec::new(alloc),
        })
    }

    /// Gives a file its place, and plans its pages.
    fn add_row(&mut self, ino: u32, contents: &Contents) -> Result<(), AllocError>
        requires first { 1 ≤ self.old.pages.first }
        requires nodes { set.len self.old.nodes.members < self.old.nodes.count }
        requires pages { set.len self.old.pages.members + pages_before (content_at contents.now) inode_pages ≤ self.old.pages.count }
        ensures { OnOk result (AddsRow ino (content_at contents.now) self.old self.new) }
    {
        let at = self.nodes.insert_least().unwrap();
        let addresses = add_pages(&mut self.pages, &mut self.blocks, contents)?;
        self.places.put(ino, Place { at, addresses })
    }
}

/// Gives each file of a tree a place away from the old ones, and plans its pages.
pub(crate) fn drafted(
    alloc: Global,
    geometry: &Geometry,
    tree: &Tree,
    old: &Places,
) -> Result<Draft, AllocError>
    requires storable { IsStorable geometry.now tree.now }
    requires kept { IsKept geometry.now old.now }
    ensures { IfOk result (λ draft. IsDraftOf geometry.now tree.now old.now draft.places draft.blocks.items) }
{
    let rows = rows_of(alloc, tree)?;
    let directories = Directories::of(alloc, tree)?;
    let mut draft = Draft::new(alloc, geometry, old)?;
    for row in &rows {
        let contents = contents_of(&directories, row)?;
        draft.add_row(row.ino, &contents)?;
    }
    Ok(draft)
}
