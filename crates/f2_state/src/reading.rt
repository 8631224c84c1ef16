//! What a read finds.
ghost use Rattle.std.specs.Prelude.{◌≡◌, ◌<◌, ◌≤◌, ◌+◌, ◌*◌, ◌-◌, ◌++◌, ℕ, map as map_list, min, max, slice_index, true, None, Some, IfOk, OnOk};
ghost use Rattle.std.specs.List.{range_with_len};
ghost use Rattle.std.specs.FinMap as map;
ghost use Rattle.f2_disk.specs.Using.{IsCaused};
ghost use Rattle.f2_image_laws.specs.Rolled.{image_limits};
ghost use Rattle.f2_model.specs.Call.{answer, refusal};
ghost use Rattle.f2_model.specs.Content.{PAGE, bytes_between};
ghost use Rattle.f2_model.specs.State.{State};
ghost use Rattle.f2_model.specs.Tree.{Rows};
ghost use Rattle.f2_model.specs.declared.requests.Request.TheVariants as requests;
ghost use Rattle.f2_model.specs.declared.rows.Row.{Row};
ghost use Rattle.f2_files.specs.Shape.{IsShapeOf};
ghost use Rattle.f2_spans.specs.Spans.{MOST_SIZE};
ghost use Rattle.f2_state.specs.Looks.{HasOfFile, OnlyLooks};
ghost use Rattle.f2_state.specs.Standing.{StandsIn, is_between};

use crate::barring::MOST_SIZE;
use crate::volume::Volume;
use f2_disk::{Block, Disk, ReadFault};
use f2_files::Files;
use f2_model::{Bytes, Path, Reply};
use f2_spans::PAGE;
use std::alloc::AllocError;

/// Appends the bytes of a block from one place up to another; none where the second isn't past the first.
fn append(bytes: &mut Bytes, block: &Block, from: usize, to: usize) -> Result<(), AllocError>
    requires { to ≤ PAGE }
    ensures { OnOk result (bytes.new ≡ bytes.old ++ map_list (slice_index block.now) (range_with_len from (to - from))) }
{
    for at in from..to {
        bytes.push(block[at])?;
    }
    Ok(())
}

/// The offset at which a read of a file ends: behind so many bytes, or at the file's end where that comes first.
fn end_of_read(files: &Files, ino: u32, off: u64, len: u32) -> u64
    ensures most { result ≤ MOST_SIZE }
    ensures end { (tree : Rows) (row : Row) → IsShapeOf files.now.shapes tree → map.get tree ino ≡ Some row → row.size ≤ MOST_SIZE → result ≡ min (off + len) row.size }
{
    let size = match files.row(ino) {
        Some(row) => row.size,
        None => 0,
    };
    off.saturating_add(u64::from(len)).min(size).min(MOST_SIZE)
}

impl<D: Disk> Volume<D> {
    /// Appends those bytes of a file from one offset up to another that lie in one page. An error leaves anything in
    /// `bytes`.
    fn read_part(
        &mut self,
        bytes: &mut Bytes,
        ino: u32,
        page: u32,
        from: u64,
        to: u64,
    ) -> Result<(), ReadFault>
        requires before { page * PAGE < to }
        requires behind { from < page * PAGE + PAGE }
        ensures content { OnOk result (HasOfFile (D.contents self.old.disk) self.old ino (λ row. bytes.new ≡ bytes.old ++ bytes_between row.pages (max from (page * PAGE)) (min to (page * PAGE + PAGE)))) }
        ensures looks { OnlyLooks D.contents D.meter self.old self.new }
        ensures cause { IsCaused ReadFault.Read result D.meter self.old.disk self.new.disk }
    {
        let mut block = [0; 4096];
        self.read_page(ino, page, &mut block)?;
        let first = u64::from(page) * PAGE;
        let start = from.max(first) - first;
        let end = to.min(first + PAGE) - first;
        append(bytes, &block, start as usize, end as usize)?;
        Ok(())
    }

    /// The bytes of a file from one offset up to another; none where the second isn't past the first.
    fn read_bytes(&mut self, ino: u32, from: u64, to: u64) -> Result<Bytes, ReadFault>
        requires { to ≤ MOST_SIZE }
        ensures content { IfOk result (λ bytes. HasOfFile (D.contents self.old.disk) self.old ino (λ row. bytes ≡ bytes_between row.pages from to)) }
        ensures looks { OnlyLooks D.contents D.meter self.old self.new }
        ensures cause { IsCaused ReadFault.Read result D.meter self.old.disk self.new.disk }
    {
        let mut bytes = Bytes::new(self.alloc);
        if from >= to {
            return Ok(bytes);
        }
        for page in from / PAGE..(to - 1) / PAGE + 1 {
            self.read_part(&mut bytes, ino, page as u32, from, to)?;
        }
        Ok(bytes)
    }

    /// The bytes of the file at the end of a path, from an offset as far as asked or to the file's end. The path is one
    /// that a read isn't refused for.
    pub(crate) fn read(&mut self, path: &Path, off: u64, len: u32) -> Result<Reply, ReadFault>
        ensures content { IfOk result (λ told. (from : State) → StandsIn (D.contents self.old.disk) self.old from → is_between from ≡ true → refusal (image_limits self.old.geometry) from.live (requests.Read path.now off len) ≡ None
            → told ≡ answer from.live (requests.Read path.now off len)) }
        ensures looks { OnlyLooks D.contents D.meter self.old self.new }
        ensures cause { IsCaused ReadFault.Read result D.meter self.old.disk self.new.disk }
    {
        match self.files.walk(path.as_slice()) {
            Ok(ino) => {
                let end = end_of_read(&self.files, ino, off, len);
                let bytes = self.read_bytes(ino, off, end)?;
                Ok(Reply::Bytes(bytes))
            }
            Err(refused) => Ok(refused),
        }
    }
}
