//! A running volume.
ghost use Rattle.std.specs.Prelude.{◌≡◌};

use f2_disk::Disk;
use f2_files::Files;
use f2_layout::Geometry;
use f2_model::{Log, Mode};
use f2_pages::PageStore;
use std::alloc::Global;
use std::marker::Model;

/// A volume on a disk, with what it keeps in memory.
#[derive(Drop)]
pub struct Volume<D: Disk> {
    pub(crate) disk: D,
    /// The sizes of its image.
    pub(crate) geometry: Geometry,
    /// Whether it is open.
    pub(crate) mode: Mode,
    /// Rows, where pages stand, what is dirty, and the calls in flight.
    pub(crate) files: Files,
    /// Contents of pages: those that the disk doesn't have yet, and some that were read.
    pub(crate) pages: PageStore,
    pub(crate) history: Log,
    pub(crate) alloc: Global,
}

impl<D: Disk> Model for Volume<D> {
    ghost use Rattle.std.specs.Coded.{codes};
    ghost use Rattle.f2_files.specs.contracts.files.Files as files_code;
    ghost use Rattle.f2_pages.specs.contracts.store.PageStore as pages_code;
    ghost use Rattle.f2_state.specs.Seen.{Seen};
    ghost use Rattle.f2_state.specs.Standing.{IsVolume};

    ghost Value = { Seen D };

    ghost coded = { Prim.hlevel (codes, files_code.the_row.coded, pages_code.the_row.coded) };

    ghost view = { λ v. record { disk = v.disk; geometry = v.geometry; mode = v.mode; files = v.files; pages = v.pages; history = v.history } };

    ghost invariant = { λ v. IsVolume (D.meter v.disk).blocks (D.contents v.disk) (record { disk = v.disk; geometry = v.geometry; mode = v.mode; files = v.files; pages = v.pages; history = v.history }) };
}

impl<D: Disk> Volume<D> {
    /// The disk.
    pub fn into_disk(self) -> D
        ensures { result ≡ self.disk }
    {
        let Volume { disk, .. } = self;
        disk
    }
}
