//! Adding a row: calls that make files and directories.
ghost use Rattle.std.specs.Prelude.{◌≡◌, ◌<◌, None, OnOk, OnErr, IfOk};
ghost use Rattle.std.specs.FinMap as map;
ghost use Rattle.f2_model.specs.Tree.{ROOT, last_name};
ghost use Rattle.f2_model.specs.declared.requests.Request.TheVariants.{Create, Mkdir};
ghost use Rattle.f2_files.specs.Known.{ArePlacesKept, IsAllowed, Follows};
ghost use Rattle.f2_files.specs.Led.{bound_in, with_name};
ghost use Rattle.f2_files.specs.Shape.{new_shape};

use crate::addresses::Addresses;
use crate::directories::Directories;
use crate::files::Files;
use crate::refusals::led_parent;
use crate::shapes::{Shape, Shapes};
use f2_blocks::Nids;
use f2_model::{Kind, Name, Path};
use std::alloc::{AllocError, Global};

/// Puts a row that is new, and binds its name in its directory. Where memory is refused nothing changes.
pub(crate) fn put_named(
    alloc: Global,
    shapes: &mut Shapes,
    directories: &mut Directories,
    row: Shape,
) -> Result<(), AllocError>
    requires { map.get shapes.old row.ino ≡ None }
    ensures rows { OnOk result (shapes.new ≡ map.insert shapes.old row.ino row) }
    ensures names { OnOk result (directories.new ≡ with_name directories.old row.parent row.name (row.ino, row.kind)) }
    ensures err_rows { OnErr result (shapes.new ≡ shapes.old) }
    ensures err_names { OnErr result (directories.new ≡ directories.old) }
{
    let name = row.name.copy(alloc)?;
    let (ino, kind, parent) = (row.ino, row.kind, row.parent);
    shapes.put(row)?;
    let done = directories.bind(parent, name, ino, kind);
    if done.is_err() {
        shapes.remove(ino);
    }
    done
}

/// The row of a kind that was just made, under the last name of a path.
fn new_row(
    alloc: Global,
    ino: u32,
    kind: Kind,
    parent: u32,
    path: &Path,
) -> Result<Shape, AllocError>
    ensures { IfOk result (λ row. row ≡ new_shape kind ino parent (last_name path.now)) }
{
    let name = match path.as_slice().last() {
        Some(name) => name.copy(alloc)?,
        None => Name::new(alloc),
    };
    Ok(Shape {
        ino,
        kind,
        parent,
        name,
        size: 0,
        pages: Addresses::new(alloc),
        nids: Nids::new(alloc),
    })
}

impl Files {
    /// Adds an empty regular file under a number that is new. Where memory is refused nothing changes.
    pub fn create(&mut self, path: &Path, ino: u32) -> Result<(), AllocError>
        requires allowed { IsAllowed self.old (Create path.now) }
        requires free { map.get self.old.shapes ino ≡ None }
        requires above { ROOT < ino }
        ensures ok { OnOk result (Follows self.old self.new (Create path.now) ino) }
        ensures places { OnOk result (ArePlacesKept self.old self.new) }
        ensures err { OnErr result (self.new ≡ self.old) }
    {
        match led_parent(&self.directories, path.as_slice()) {
            Ok((parent, _)) => {
                let row = new_row(self.alloc, ino, Kind::Regular, parent, path)?;
                put_named(self.alloc, &mut self.shapes, &mut self.directories, row)
            }
            // The call isn't refused, so the directory is there.
            Err(_) => unreachable!(),
        }
    }

    /// Adds an empty directory under a number that is new. Where memory is refused nothing changes.
    pub fn mkdir(&mut self, path: &Path, ino: u32) -> Result<(), AllocError>
        requires allowed { IsAllowed self.old (Mkdir path.now) }
        requires free { map.get self.old.shapes ino ≡ None }
        requires above { ROOT < ino }
        ensures ok { OnOk result (Follows self.old self.new (Mkdir path.now) ino) }
        ensures places { OnOk result (ArePlacesKept self.old self.new) }
        ensures err { OnErr result (self.new ≡ self.old) }
    {
        match led_parent(&self.directories, path.as_slice()) {
            Ok((parent, _)) => {
                let row = new_row(self.alloc, ino, Kind::Directory, parent, path)?;
                self.directories.add(ino)?;
                match put_named(self.alloc, &mut self.shapes, &mut self.directories, row) {
                    Ok(()) => Ok(()),
                    Err(error) => {
                        self.directories.remove(ino);
                        Err(error)
                    }
                }
            }
            // The call isn't refused, so the directory is there.
            Err(_) => unreachable!(),
        }
    }
}
