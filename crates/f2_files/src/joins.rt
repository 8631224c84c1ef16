//! Taking over rows that a mount found.
ghost use Rattle.std.specs.Prelude.{◌≡◌, Bool, None, IfErr, OnOk, OnErr};
ghost use Rattle.std.specs.FinMap as map;
ghost use Rattle.f2_files.specs.Joins.{IsWrong, MayJoin, has_far_page, row_fault, with_own_names};
ghost use Rattle.f2_files.specs.Led.{with_name};

use crate::addresses::Addresses;
use crate::creates::put_named;
use crate::directories::Directories;
use crate::files::Files;
use crate::shapes::{Shape, Shapes};
use f2_model::{Kind, Limits, ROOT};
use f2_shape::PAGE_LIMIT;
use std::alloc::{AllocError, Global};

/// Why a row isn't taken over.
#[derive(Clone, Copy, Debug, PartialEq, Eq)]
pub enum RowFault {
    /// Its number isn't above the root's, or a row has it.
    BadIno,
    /// No directory has its parent's number.
    NoDirectory,
    /// Its name is none that a row may have.
    BadName,
    /// Another row has its name in its directory.
    NameTaken,
    /// It is longer than a file may be, or a directory with a size.
    BadSize,
    /// A page of it is past the last one that a file may have.
    BadPage,
    /// Memory was refused.
    Memory,
}

/// Whether a page is past the last one that a file may have.
fn has_far_page(pages: &Addresses) -> bool
    ensures { result ≡ has_far_page pages.now }
{
    pages.first_from(PAGE_LIMIT as u32).is_some()
}

/// The first fault of a row beside others, or `None` where it may join them.
fn row_fault(
    limits: Limits,
    shapes: &Shapes,
    directories: &Directories,
    row: &Shape,
) -> Option<RowFault>
    ensures { result ≡ row_fault limits.size shapes.now directories.now row.now }
{
    if row.ino <= ROOT || shapes.get(row.ino).is_some() {
        return Some(RowFault::BadIno);
    }
    if !directories.contains(row.parent) {
        return Some(RowFault::NoDirectory);
    }
    if !row.name.is_good() {
        return Some(RowFault::BadName);
    }
    if directories.get(row.parent, &row.name).is_some() {
        return Some(RowFault::NameTaken);
    }
    if row.size > limits.size || (row.kind == Kind::Directory && row.size > 0) {
        return Some(RowFault::BadSize);
    }
    if has_far_page(&row.pages) {
        return Some(RowFault::BadPage);
    }
    None
}

/// Puts a row that is new, binds its name in its directory, and gives it no names of its own yet where it is a directory.
/// Where memory is refused nothing changes.
fn put_row(
    alloc: Global,
    shapes: &mut Shapes,
    directories: &mut Directories,
    row: Shape,
) -> Result<(), AllocError>
    requires free { map.get shapes.old row.ino ≡ None }
    requires unnamed { map.get directories.old row.ino ≡ None }
    ensures rows { OnOk result (shapes.new ≡ map.insert shapes.old row.ino row) }
    ensures names { OnOk result (directories.new ≡ with_name (with_own_names directories.old row) row.parent row.name (row.ino, row.kind)) }
    ensures err_rows { OnErr result (shapes.new ≡ shapes.old) }
    ensures err_names { OnErr result (directories.new ≡ directories.old) }
{
    if row.kind == Kind::Regular {
        return put_named(alloc, shapes, directories, row);
    }
    let ino = row.ino;
    directories.add(ino)?;
    let done = put_named(alloc, shapes, directories, row);
    if done.is_err() {
        directories.remove(ino);
    }
    done
}

impl Files {
    /// Takes over a row that a mount found, with the addresses and nids that it has; the root's are set one by one. Its
    /// directory has to be there, so that rows come from the root down. A row with a fault is dropped, and nothing changes.
    pub fn add_row(&mut self, limits: Limits, row: Shape) -> Result<(), RowFault>
        ensures ok { OnOk result (self.new ≡ record self.old { shapes = map.insert self.old.shapes row.ino row }) }
        ensures joins { OnOk result (MayJoin limits.size self.old.shapes row) }
        ensures fault { IfErr result (λ fault. IsWrong limits.size self.old.shapes row fault) }
        ensures err { OnErr result (self.new ≡ self.old) }
    {
        if let Some(fault) = row_fault(limits, &self.shapes, &self.directories, &row) {
            return Err(fault);
        }
        match put_row(self.alloc, &mut self.shapes, &mut self.directories, row) {
            Ok(()) => Ok(()),
            Err(AllocError) => Err(RowFault::Memory),
        }
    }
}
