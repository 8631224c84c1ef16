//! Giving a row another directory and name.
ghost use Rattle.std.specs.Prelude.{◌≡◌, Some, None, OnOk, OnErr, IfOk};
ghost use Rattle.std.specs.FinMap as map;
ghost use Rattle.std.specs.FinSet as set;
ghost use Rattle.f2_model.specs.Tree.{last_name};
ghost use Rattle.f2_model.specs.declared.requests.Request.TheVariants.{Rename};
ghost use Rattle.f2_files.specs.Known.{ArePlacesKept, IsAllowed, Follows};
ghost use Rattle.f2_files.specs.Led.{bound_in, with_name, without_name};
ghost use Rattle.f2_files.specs.declared.shapes.Shape.{Shape};

use crate::directories::Directories;
use crate::files::Files;
use crate::refusals::led_parent;
use crate::shapes::Shapes;
use f2_flights::Inos;
use f2_model::{Kind, Name, Path};
use std::alloc::{AllocError, Global};

/// An equal copy of the last name of a path, empty for the root.
pub(crate) fn last_name(alloc: Global, path: &Path) -> Result<Name, AllocError>
    ensures { IfOk result (λ name. name ≡ last_name path.now) }
{
    match path.as_slice().last() {
        Some(name) => name.copy(alloc),
        None => Ok(Name::new(alloc)),
    }
}

/// Binds a row in a directory under a name that is free there, and counts it among those that moved. Where memory is
/// refused nothing changes.
fn bind_moved(
    alloc: Global,
    directories: &mut Directories,
    moved: &mut Inos,
    row: (u32, Kind),
    directory: u32,
    name: &Name,
) -> Result<(), AllocError>
    requires { bound_in directories.old directory name.now ≡ None }
    ensures names { OnOk result (directories.new ≡ with_name directories.old directory name.now row) }
    ensures moved { OnOk result (moved.new ≡ set.insert moved.old row.0) }
    ensures err_names { OnErr result (directories.new ≡ directories.old) }
    ensures err_moved { OnErr result (moved.new ≡ moved.old) }
{
    let key = name.copy(alloc)?;
    directories.bind(directory, key, row.0, row.1)?;
    match moved.insert(row.0) {
        Ok(()) => Ok(()),
        Err(error) => {
            directories.unbind(directory, name);
            Err(error)
        }
    }
}

/// Gives a row another directory and name, where it is bound under them, and takes out the name that it had.
fn put_moved(
    shapes: &mut Shapes,
    directories: &mut Directories,
    ino: u32,
    directory: u32,
    name: Name,
)
    ensures rows { (row : Shape) → map.get shapes.old ino ≡ Some row → shapes.new ≡ map.insert shapes.old ino (record row { parent = directory; name = name }) }
    ensures names { (row : Shape) → map.get shapes.old ino ≡ Some row → directories.new ≡ without_name directories.old row.parent row.name }
{
    if let Some((parent, old)) = shapes.move_to(ino, directory, name) {
        directories.unbind(parent, &old);
    }
}

impl Files {
    /// Gives a row another directory and name, and remembers that it moved. Where memory is refused nothing changes.
    pub fn rename(&mut self, from: &Path, to: &Path) -> Result<(), AllocError>
        requires { IsAllowed self.old (Rename from.now to.now) }
        ensures ok { OnOk result (Follows self.old self.new (Rename from.now to.now) 0) }
        ensures places { OnOk result (ArePlacesKept self.old self.new) }
        ensures err { OnErr result (self.new ≡ self.old) }
    {
        match self.directories.led(from.as_slice()) {
            Ok(row) => match led_parent(&self.directories, to.as_slice()) {
                Ok((directory, _)) => {
                    let name = last_name(self.alloc, to)?;
                    bind_moved(
                        self.alloc,
                        &mut self.directories,
                        &mut self.moved,
                        row,
                        directory,
                        &name,
                    )?;
                    put_moved(
                        &mut self.shapes,
                        &mut self.directories,
                        row.0,
                        directory,
                        name,
                    );
                    Ok(())
                }
                // The call isn't refused, so the directory is there.
                Err(_) => unreachable!(),
            },
            // And so is the row.
            Err(_) => unreachable!(),
        }
    }
}
