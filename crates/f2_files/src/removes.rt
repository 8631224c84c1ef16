//! Taking rows out: calls that remove files and directories.
ghost use Rattle.std.specs.Prelude.{◌≡◌, Some};
ghost use Rattle.std.specs.FinMap as map;
ghost use Rattle.f2_model.specs.declared.requests.Request.TheVariants.{Unlink, Rmdir};
ghost use Rattle.f2_files.specs.Known.{ArePlacesKept, IsAllowed, Follows};
ghost use Rattle.f2_files.specs.Led.{without_name};
ghost use Rattle.f2_files.specs.declared.shapes.Shape.{Shape};

use crate::directories::Directories;
use crate::files::Files;
use crate::shapes::Shapes;
use f2_model::Path;

/// Takes a row out, with its name in its directory.
fn take_named(shapes: &mut Shapes, directories: &mut Directories, ino: u32)
    ensures rows { shapes.new ≡ map.remove shapes.old ino }
    ensures names { (row : Shape) → map.get shapes.old ino ≡ Some row → directories.new ≡ without_name directories.old row.parent row.name }
{
    if let Some(row) = shapes.remove(ino) {
        directories.unbind(row.parent, &row.name);
    }
}

impl Files {
    /// Removes a regular file, of which nothing is dirty then.
    pub fn unlink(&mut self, path: &Path)
        requires { IsAllowed self.old (Unlink path.now) }
        ensures follows { Follows self.old self.new (Unlink path.now) 0 }
        ensures places { ArePlacesKept self.old self.new }
    {
        match self.directories.led(path.as_slice()) {
            Ok((ino, _)) => {
                take_named(&mut self.shapes, &mut self.directories, ino);
                self.dirty_pages.remove_ino(ino);
                self.dirty_nodes.remove_ino(ino);
            }
            // The call isn't refused, so the file is there.
            Err(_) => unreachable!(),
        }
    }

    /// Removes an empty directory.
    pub fn rmdir(&mut self, path: &Path)
        requires { IsAllowed self.old (Rmdir path.now) }
        ensures follows { Follows self.old self.new (Rmdir path.now) 0 }
        ensures places { ArePlacesKept self.old self.new }
    {
        match self.directories.led(path.as_slice()) {
            Ok((ino, _)) => {
                self.directories.remove(ino);
                take_named(&mut self.shapes, &mut self.directories, ino);
            }
            // The call isn't refused, so the directory is there.
            Err(_) => unreachable!(),
        }
    }
}
