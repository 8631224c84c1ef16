//! Where the pages of files stand, and the nids of their nodes.
ghost use Rattle.std.specs.Prelude.{◌≡◌, false, Some, None, IsSome, OnOk, OnErr};
ghost use Rattle.std.specs.FinMap as map;
ghost use Rattle.std.specs.Option.{option_copied};
ghost use Rattle.f2_model.specs.Tree.{Rows};
ghost use Rattle.f2_model.specs.declared.rows.Kind.TheVariants.{Directory};
ghost use Rattle.f2_files.specs.Led.{is_directory_there};
ghost use Rattle.f2_files.specs.Shape.{address_in, first_pages, nid_in, IsShapeOf};
ghost use Rattle.f2_files.specs.declared.shapes.Shape.{Shape};

use crate::files::Files;
use crate::shapes::Shape;
use std::alloc::AllocError;

impl Files {
    /// The row of an ino, or `None` where there is none.
    pub fn row(&self, ino: u32) -> Option<&Shape>
        ensures { option_copied result ≡ map.get self.now.shapes ino }
    {
        self.shapes.get(ino)
    }

    /// The address of a page, 0 where it was never written, or `None` where that page isn't there.
    pub fn address(&self, ino: u32, page: u32) -> Option<u32>
        ensures { result ≡ address_in page (map.get self.now.shapes ino) }
    {
        self.shapes.get(ino)?.pages.get(page)
    }

    /// Sets the address of a page. Only a page that is new takes memory (`only_new`); where it is refused nothing changes.
    pub fn set_address(&mut self, ino: u32, page: u32, at: u32) -> Result<(), AllocError>
        ensures ok { OnOk result ((row : Shape) → map.get self.old.shapes ino ≡ Some row → self.new ≡ record self.old { shapes = map.insert self.old.shapes ino (record row { pages = map.insert row.pages page at }) }) }
        ensures missing { map.get self.old.shapes ino ≡ None → self.new ≡ self.old }
        ensures keeps { OnOk result (IsSome (address_in page (map.get self.old.shapes ino)) → (tree : Rows) → IsShapeOf self.old.shapes tree → IsShapeOf self.new.shapes tree) }
        ensures err { OnErr result (self.new ≡ self.old) }
        ensures only_new { OnErr result (address_in page (map.get self.old.shapes ino) ≡ None) }
    {
        self.shapes.set_page(ino, page, at)
    }

    /// Gives a directory so many dentry pages, numbered from 0 on: those that are there keep their addresses, new ones have
    /// the address 0, and any others go. A file, or an ino without a row, stays as it is. Where memory is refused nothing
    /// changes.
    pub fn resize_directory(&mut self, ino: u32, blocks: u32) -> Result<(), AllocError>
        ensures ok { OnOk result ((row : Shape) → map.get self.old.shapes ino ≡ Some row → row.kind ≡ Directory → self.new ≡ record self.old { shapes = map.insert self.old.shapes ino (record row { pages = first_pages blocks row.pages }) }) }
        ensures none { is_directory_there (map.get self.old.shapes ino) ≡ false → self.new ≡ self.old }
        ensures keeps { (tree : Rows) → IsShapeOf self.old.shapes tree → IsShapeOf self.new.shapes tree }
        ensures err { OnErr result (self.new ≡ self.old) }
    {
        if !self.directories.contains(ino) {
            return Ok(());
        }
        self.shapes.resize(self.alloc, ino, blocks)
    }

    /// The nid of a node, or `None` where it has none yet.
    pub fn nid(&self, ino: u32, offset: u32) -> Option<u32>
        ensures { result ≡ nid_in offset (map.get self.now.shapes ino) }
    {
        self.shapes.get(ino)?.nids.get(offset)
    }

    /// Gives a node its nid. Only a node that has none takes memory; where it is refused nothing changes.
    pub fn set_nid(&mut self, ino: u32, offset: u32, nid: u32) -> Result<(), AllocError>
        ensures ok { OnOk result ((row : Shape) → map.get self.old.shapes ino ≡ Some row → self.new ≡ record self.old { shapes = map.insert self.old.shapes ino (record row { nids = map.insert row.nids offset nid }) }) }
        ensures missing { map.get self.old.shapes ino ≡ None → self.new ≡ self.old }
        ensures keeps { OnOk result ((tree : Rows) → IsShapeOf self.old.shapes tree → IsShapeOf self.new.shapes tree) }
        ensures err { OnErr result (self.new ≡ self.old) }
    {
        self.shapes.set_nid(ino, offset, nid)
    }

    /// Takes the nid of a node away, as one that is no more, and answers it; `None` where it has none.
    pub fn forget_nid(&mut self, ino: u32, offset: u32) -> Option<u32>
        ensures taken { result ≡ nid_in offset (map.get self.old.shapes ino) }
        ensures there { (row : Shape) → map.get self.old.shapes ino ≡ Some row → self.new ≡ record self.old { shapes = map.insert self.old.shapes ino (record row { nids = map.remove row.nids offset }) } }
        ensures missing { map.get self.old.shapes ino ≡ None → self.new ≡ self.old }
        ensures keeps { (tree : Rows) → IsShapeOf self.old.shapes tree → IsShapeOf self.new.shapes tree }
    {
        self.shapes.take_nid(ino, offset)
    }
}
