//! Why an fsync makes a checkpoint.
ghost use Rattle.std.specs.Prelude.{◌≡◌, ◌≢◌, not, Some, IfOk};
ghost use Rattle.std.specs.FinMap as map;
ghost use Rattle.f2_files.specs.Known.{IsKnownOf};
ghost use Rattle.f2_model.specs.Fallback as machine;
ghost use Rattle.f2_model.specs.State.{State};
ghost use Rattle.f2_model.specs.Tree.{ROOT};
ghost use Rattle.f2_model.specs.declared.rows.Kind.TheVariants.{Regular};
ghost use Rattle.f2_model.specs.declared.rows.Row.{Row};
ghost use Rattle.f2_since.specs.Counted.{IsSince, IsRunning};

use crate::since::Since;
use f2_files::{Files, Shape};
use f2_model::{Kind, Limits, Name, Reason};
use std::alloc::AllocError;

impl Since {
    /// Whether the directory of a row is newer than the base.
    fn is_parent_new(&self, parent: u32) -> bool
        ensures held { result ≡ not (map.contains_key self.now.held.directories parent) }
        ensures exact { (state : State) (row : Row) → IsSince self.now state → IsRunning state → map.get state.live row.ino ≡ Some row → row.parent ≡ parent
            → result ≡ not (map.contains_key state.base row.parent) }
    {
        !self.held.has_dir(parent)
    }

    /// Whether another file of the base or of a mark has the name that a row has now.
    fn is_name_taken(&self, parent: u32, name: &Name) -> bool
        ensures { (state : State) (row : Row) → IsSince self.now state → IsRunning state → map.get state.live row.ino ≡ Some row → row.ino ≢ ROOT → row.parent ≡ parent → row.name ≡ name.now
            → result ≡ machine.is_name_taken state row }
    {
        self.parted.holder(parent, name).is_some()
    }

    /// Why an fsync of a row makes a checkpoint, or `None` where it rolls forward; also where there is no such row.
    ///
    /// It costs what is dirty of the file and of those in fsync, the file's pages, and the names of its directory. A
    /// file that has more blocks, or a longer name, than a volume grants counts as want of memory.
    pub fn reason(
        &self,
        files: &Files,
        limits: Limits,
        ino: u32,
    ) -> Result<Option<Reason>, AllocError>
        ensures { IfOk result (λ reason. (state : State) (row : Row) → IsKnownOf files.now state → IsSince self.now state → IsRunning state → map.get state.live ino ≡ Some row
            → reason ≡ machine.fallback limits state row) }
    {
        let Some(shape) = files.row(ino) else {
            return Ok(None);
        };
        match shape.kind {
            Kind::Directory => Ok(Some(Reason::NonRegular)),
            Kind::Regular => self.reason_of_file(files, limits, shape),
        }
    }

    /// The same of a regular file.
    fn reason_of_file(
        &self,
        files: &Files,
        limits: Limits,
        shape: &Shape,
    ) -> Result<Option<Reason>, AllocError>
        ensures { IfOk result (λ reason. (state : State) (row : Row) → IsKnownOf files.now state → IsSince self.now state → IsRunning state → map.get files.now.shapes shape.now.ino ≡ Some shape.now → map.get state.live shape.now.ino ≡ Some row → row.kind ≡ Regular
            → reason ≡ machine.fallback limits state row) }
    {
        if files.has_moved(shape.ino) {
            return Ok(Some(Reason::Renamed));
        }
        if self.is_parent_new(shape.parent) {
            return Ok(Some(Reason::ParentNew));
        }
        if self.is_name_taken(shape.parent, &shape.name) {
            return Ok(Some(Reason::NameTaken));
        }
        if files.has_shrunk(shape.ino) {
            return Ok(Some(Reason::Shrunk));
        }
        if self.lacks_room(files, limits, shape)? {
            return Ok(Some(Reason::Room));
        }
        Ok(None)
    }
}
