//! The content of a page as calls see it.
ghost use Rattle.std.specs.Prelude.{◌≡◌, true, Some, OnOk};
ghost use Rattle.std.specs.FinMap as map;
ghost use Rattle.f2_disk.specs.Using.{IsCaused};
ghost use Rattle.f2_model.specs.Content.{page_of};
ghost use Rattle.f2_model.specs.State.{State};
ghost use Rattle.f2_model.specs.declared.rows.Kind.TheVariants.{Regular};
ghost use Rattle.f2_model.specs.declared.rows.Row.{Row};
ghost use Rattle.f2_state.specs.Looks.{OnlyLooks};
ghost use Rattle.f2_state.specs.Standing.{StandsIn, is_between};

use crate::volume::Volume;
use f2_disk::{Block, Disk, ReadFault};

impl<D: Disk> Volume<D> {
    /// Reads a page of a file: the content that the disk doesn't have yet, else the block at its address, and zeros where
    /// the file hasn't the page. An error leaves anything in `into`.
    pub(crate) fn read_page(
        &mut self,
        ino: u32,
        page: u32,
        into: &mut Block,
    ) -> Result<(), ReadFault>
        ensures content { OnOk result ((from : State) (row : Row) → StandsIn (D.contents self.old.disk) self.old from → is_between from ≡ true → map.get from.live ino ≡ Some row → row.kind ≡ Regular
            → into.new ≡ page_of row.pages page) }
        ensures looks { OnlyLooks D.contents D.meter self.old self.new }
        ensures cause { IsCaused ReadFault.Read result D.meter self.old.disk self.new.disk }
    {
        if let Some(content) = self.pages.dirty((ino, page)) {
            *into = *content;
            return Ok(());
        }
        let at = self.files.address(ino, page).unwrap_or(0);
        if at == 0 {
            *into = [0; 4096];
            return Ok(());
        }
        self.pages.read(&mut self.disk, (ino, page), at, into)
    }
}
