//! The rows of a tree without the contents of their pages.
ghost use Rattle.std.specs.Prelude.{◌≡◌, ◌≤◌, All, Some, None, OnOk, OnErr};
ghost use Rattle.std.specs.FinMap as map;
ghost use Rattle.std.specs.Option.{option_copied};
ghost use Rattle.f2_model.specs.Content.{end_of, raised_size};
ghost use Rattle.f2_spans.specs.Spans.{MOST_SIZE};
ghost use Rattle.f2_files.specs.Shape.{address_in, first_pages, nid_in, with_all_pages, without_all_pages};
ghost use Rattle.f2_files.specs.declared.shapes.Shape.{Shape};

use crate::addresses::Addresses;
use f2_blocks::Nids;
use f2_model::{Kind, Name, Piece};
use f2_spans::raised_size;
use std::alloc::{AllocError, Global};
use std::collections::BTreeMap;
use std::marker::Model;
use std::mem;

/// A file or a directory, without the contents of its pages.
#[derive(Drop)]
pub struct Shape {
    /// Its number; the root's is 3.
    pub ino: u32,
    pub kind: Kind,
    /// The ino of its directory; the root is its own parent.
    pub parent: u32,
    /// Its name there; the root's is empty.
    pub name: Name,
    /// Its length in bytes; 0 for a directory.
    pub size: u64,
    /// Where its pages stand; a directory's are its dentry blocks.
    pub pages: Addresses,
    /// The nids of its nodes, by their offsets.
    pub nids: Nids,
}

/// The rows of a tree, by their inos.
#[derive(Drop)]
pub(crate) struct Shapes {
    rows: BTreeMap<u32, Shape>,
}

impl Model for Shapes {
    ghost use Rattle.std.specs.Ordering.{nat_cmp};
    ghost use Rattle.std.specs.FinMap as map;
    ghost use Rattle.std.specs.Coded.{coded_ℕ};
    ghost use Rattle.f2_files.specs.declared.shapes.Shape.{Shape};
    ghost use Rattle.f2_files.specs.contracts.shapes.Shape as shape;

    ghost Value = { map.FinMap nat_cmp Shape };

    ghost coded = { map.code coded_ℕ shape.the_row.coded };

    ghost view = { λ s. map.from_entries s.rows.entries };
}

impl Shapes {
    /// No row, which takes no memory.
    pub(crate) fn new(alloc: Global) -> Shapes
        ensures { result ≡ map.empty }
    {
        Shapes {
            rows: BTreeMap::new(alloc),
        }
    }

    /// The row of an ino, or `None` where there is none.
    pub(crate) fn get(&self, ino: u32) -> Option<&Shape>
        ensures { option_copied result ≡ map.get self.now ino }
    {
        self.rows.get(&ino)
    }

    /// Puts a row at its ino, in the place of one that stood there. Where memory is refused nothing changes.
    pub(crate) fn put(&mut self, row: Shape) -> Result<(), AllocError>
        ensures ok { OnOk result (self.new ≡ map.insert self.old row.ino row) }
        ensures err { OnErr result (self.new ≡ self.old) }
    {
        self.rows.insert(row.ino, row)?;
        Ok(())
    }

    /// Takes the row of an ino out, and answers it; `None` where there is none.
    pub(crate) fn remove(&mut self, ino: u32) -> Option<Shape>
        ensures removed { result ≡ map.get self.old ino }
        ensures left { self.new ≡ map.remove self.old ino }
    {
        self.rows.remove(&ino)
    }

    /// Takes pages out of a row that is there, and sets its size.
    pub(crate) fn cut(&mut self, ino: u32, size: u64, pages: &[u32])
        ensures there { (row : Shape) → map.get self.old ino ≡ Some row → self.new ≡ map.insert self.old ino (record row { size = size; pages = without_all_pages row.pages pages.now }) }
        ensures missing { map.get self.old ino ≡ None → self.new ≡ self.old }
    {
        if let Some(row) = self.rows.get_mut(&ino) {
            row.pages.remove_all(pages);
            row.size = size;
        }
    }

    /// Gives a row that is there another directory and name, and answers those that it had.
    pub(crate) fn move_to(&mut self, ino: u32, parent: u32, name: Name) -> Option<(u32, Name)>
        ensures there { (row : Shape) → map.get self.old ino ≡ Some row → self.new ≡ map.insert self.old ino (record row { parent = parent; name = name }) }
        ensures was { (row : Shape) → map.get self.old ino ≡ Some row → result ≡ Some (row.parent, row.name) }
        ensures missing { map.get self.old ino ≡ None → self.new ≡ self.old }
    {
        match self.rows.get_mut(&ino) {
            Some(row) => {
                let parent = mem::replace(&mut row.parent, parent);
                let name = mem::replace(&mut row.name, name);
                Some((parent, name))
            }
            None => None,
        }
    }

    /// Sets the address of a page of a row that is there. Only a page that is new takes memory; where it is refused nothing
    /// changes.
    pub(crate) fn set_page(&mut self, ino: u32, page: u32, at: u32) -> Result<(), AllocError>
        ensures there { OnOk result ((row : Shape) → map.get self.old ino ≡ Some row → self.new ≡ map.insert self.old ino (record row { pages = map.insert row.pages page at })) }
        ensures missing { map.get self.old ino ≡ None → self.new ≡ self.old }
        ensures err { OnErr result (self.new ≡ self.old) }
        ensures only_new { OnErr result (address_in page (map.get self.old ino) ≡ None) }
    {
        match self.rows.get_mut(&ino) {
            Some(row) => row.pages.set(page, at),
            None => Ok(()),
        }
    }

    /// Makes the pages of a row that is there those below a number, at the addresses that they have, or at 0. Where memory
    /// is refused nothing changes.
    pub(crate) fn resize(&mut self, alloc: Global, ino: u32, end: u32) -> Result<(), AllocError>
        ensures there { OnOk result ((row : Shape) → map.get self.old ino ≡ Some row → self.new ≡ map.insert self.old ino (record row { pages = first_pages end row.pages })) }
        ensures missing { map.get self.old ino ≡ None → self.new ≡ self.old }
        ensures err { OnErr result (self.new ≡ self.old) }
    {
        match self.rows.get_mut(&ino) {
            Some(row) => row.pages.resize(alloc, end),
            None => Ok(()),
        }
    }

    /// Sets the nid of a node of a row that is there. Where memory is refused nothing changes.
    pub(crate) fn set_nid(&mut self, ino: u32, offset: u32, nid: u32) -> Result<(), AllocError>
        ensures there { OnOk result ((row : Shape) → map.get self.old ino ≡ Some row → self.new ≡ map.insert self.old ino (record row { nids = map.insert row.nids offset nid })) }
        ensures missing { map.get self.old ino ≡ None → self.new ≡ self.old }
        ensures err { OnErr result (self.new ≡ self.old) }
    {
        match self.rows.get_mut(&ino) {
            Some(row) => row.nids.put(offset, nid),
            None => Ok(()),
        }
    }

    /// Takes the nid of a node of a row that is there out, and answers it; `None` where it has none.
    pub(crate) fn take_nid(&mut self, ino: u32, offset: u32) -> Option<u32>
        ensures taken { result ≡ nid_in offset (map.get self.old ino) }
        ensures there { (row : Shape) → map.get self.old ino ≡ Some row → self.new ≡ map.insert self.old ino (record row { nids = map.remove row.nids offset }) }
        ensures missing { map.get self.old ino ≡ None → self.new ≡ self.old }
    {
        match self.rows.get_mut(&ino) {
            Some(row) => row.nids.take(offset),
            None => None,
        }
    }

    /// Puts the pages that pieces reach into a row that is there, at the address 0 where they aren't, and raises its size.
    /// Where memory is refused nothing changes.
    pub(crate) fn put_pieces(
        &mut self,
        alloc: Global,
        ino: u32,
        pages: &[u32],
        pieces: &[Piece],
    ) -> Result<(), AllocError>
        requires { All (λ piece. end_of piece ≤ MOST_SIZE) pieces.now }
        ensures there { OnOk result ((row : Shape) → map.get self.old ino ≡ Some row → self.new ≡ map.insert self.old ino (record row { size = raised_size row.size pieces.now; pages = with_all_pages row.pages pages.now })) }
        ensures missing { map.get self.old ino ≡ None → self.new ≡ self.old }
        ensures err { OnErr result (self.new ≡ self.old) }
    {
        match self.rows.get_mut(&ino) {
            Some(row) => put_into(alloc, row, pages, pieces),
            None => Ok(()),
        }
    }
}

/// Puts the pages that pieces reach into a row, at the address 0 where they aren't, and raises its size. Where memory is
/// refused the row stays.
fn put_into(
    alloc: Global,
    row: &mut Shape,
    pages: &[u32],
    pieces: &[Piece],
) -> Result<(), AllocError>
    requires { All (λ piece. end_of piece ≤ MOST_SIZE) pieces.now }
    ensures ok { OnOk result (row.new ≡ record row.old { size = raised_size row.old.size pieces.now; pages = with_all_pages row.old.pages pages.now }) }
    ensures err { OnErr result (row.new ≡ row.old) }
{
    row.pages.add_all(alloc, pages)?;
    row.size = raised_size(row.size, pieces);
    Ok(())
}
