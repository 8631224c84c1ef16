//! Writing into files.
ghost use Rattle.std.specs.Prelude.{◌≡◌, ◌≤◌, All, OnOk, OnErr, IfOk};
ghost use Rattle.f2_model.specs.Content.{end_of};
ghost use Rattle.f2_model.specs.State.{with_pairs, without_pairs};
ghost use Rattle.f2_model.specs.declared.requests.Request.TheVariants.{Write};
ghost use Rattle.f2_spans.specs.Spans.{MOST_SIZE};
ghost use Rattle.f2_files.specs.Known.{ArePlacesKept, IsAllowed, Follows};

use crate::files::Files;
use crate::pairs::Pairs;
use crate::touches::directs_of;
use f2_model::{Path, Piece};
use f2_spans::pages_of_pieces;
use std::alloc::{AllocError, Global};

/// The pages and the direct nodes of a file that weren't dirty before.
#[derive(Drop)]
pub(crate) struct Touched {
    pub pages: Vec<u32>,
    pub nodes: Vec<u32>,
}

/// Makes pages and direct nodes of a file dirty, and answers those that weren't. Where memory is refused nothing changes.
pub(crate) fn touch(
    alloc: Global,
    dirty_pages: &mut Pairs,
    dirty_nodes: &mut Pairs,
    ino: u32,
    pages: &[u32],
    nodes: &[u32],
) -> Result<Touched, AllocError>
    ensures pages { OnOk result (dirty_pages.new ≡ with_pairs ino dirty_pages.old pages.now) }
    ensures nodes { OnOk result (dirty_nodes.new ≡ with_pairs ino dirty_nodes.old nodes.now) }
    ensures undo_pages { IfOk result (λ touched. without_pairs ino dirty_pages.new touched.pages.items ≡ dirty_pages.old) }
    ensures undo_nodes { IfOk result (λ touched. without_pairs ino dirty_nodes.new touched.nodes.items ≡ dirty_nodes.old) }
    ensures err_pages { OnErr result (dirty_pages.new ≡ dirty_pages.old) }
    ensures err_nodes { OnErr result (dirty_nodes.new ≡ dirty_nodes.old) }
{
    let new_pages = dirty_pages.add_all(alloc, ino, pages)?;
    match dirty_nodes.add_all(alloc, ino, nodes) {
        Ok(new_nodes) => Ok(Touched {
            pages: new_pages,
            nodes: new_nodes,
        }),
        Err(error) => {
            dirty_pages.remove_all(ino, new_pages.as_slice());
            Err(error)
        }
    }
}

impl Files {
    /// Puts the pages that pieces reach into a file, raises its size, and makes them and their direct nodes dirty. Where
    /// memory is refused nothing changes.
    pub fn write(&mut self, path: &Path, pieces: &[Piece]) -> Result<(), AllocError>
        requires allowed { IsAllowed self.old (Write path.now pieces.now) }
        requires within { All (λ piece. end_of piece ≤ MOST_SIZE) pieces.now }
        ensures ok { OnOk result (Follows self.old self.new (Write path.now pieces.now) 0) }
        ensures places { OnOk result (ArePlacesKept self.old self.new) }
        ensures err { OnErr result (self.new ≡ self.old) }
    {
        match self.directories.led(path.as_slice()) {
            Ok((ino, _)) => {
                let pages = pages_of_pieces(self.alloc, pieces)?;
                let nodes = directs_of(self.alloc, pages.as_slice())?;
                let touched = touch(
                    self.alloc,
                    &mut self.dirty_pages,
                    &mut self.dirty_nodes,
                    ino,
                    pages.as_slice(),
                    nodes.as_slice(),
                )?;
                match self
                    .shapes
                    .put_pieces(self.alloc, ino, pages.as_slice(), pieces)
                {
                    Ok(()) => Ok(()),
                    Err(error) => {
                        self.dirty_pages.remove_all(ino, touched.pages.as_slice());
                        self.dirty_nodes.remove_all(ino, touched.nodes.as_slice());
                        Err(error)
                    }
                }
            }
            // The call isn't refused, so the file is there.
            Err(_) => unreachable!(),
        }
    }
}
