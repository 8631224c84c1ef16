//! What keeps a call from taking effect.
ghost use Rattle.std.specs.Prelude.{◌≡◌, ℕ, MatchOption, length};
ghost use Rattle.f2_image_laws.specs.Rolled.{image_limits};
ghost use Rattle.f2_model.specs.State.{State};
ghost use Rattle.f2_model.specs.Step as machine;
ghost use Rattle.f2_model.specs.Tree.{IsGoodTree, walk};
ghost use Rattle.f2_files.specs.Known.{IsKnownOf};
ghost use Rattle.f2_state.specs.Barred.{IsBarred, IsHeard, IsLetIn, IsUnheard};
ghost use Rattle.f2_state.specs.Standing.{StandsIn};

use crate::volume::Volume;
use f2_disk::Disk;
use f2_files::Files;
use f2_layout::Geometry;
use f2_model::{Limits, Log, MOST_ENTRIES, Mode, Path, Reply, Request};

/// The nids of a block of the node address table.
const NIDS_A_BLOCK: u32 = 455;

/// The bytes of the longest file: the pages that an inode has addresses for, at 4,096 bytes each.
pub(crate) const MOST_SIZE: u64 = 1_057_053_439 * 4096;

/// Why a call isn't served.
#[derive(Drop)]
pub(crate) enum Barred {
    /// It didn't begin, and leaves nothing.
    Unheard(Reply),
    /// It was refused by its paths, the tree or its numbers, and leaves the entry of that.
    Refused(Reply),
}

/// What an image of these sizes grants.
pub(crate) fn limits(geometry: &Geometry) -> Limits
    ensures { result ≡ image_limits geometry.now }
{
    Limits {
        nodes: geometry.cn(),
        data_blocks: geometry.cd(),
        nids: NIDS_A_BLOCK * geometry.nat(),
        size: MOST_SIZE,
    }
}

/// The seat that keeps a seat from beginning a call: itself, or the one that makes a checkpoint.
fn barring_seat(files: &Files, seat: u8) -> Option<u8>
    ensures { (state : State) → IsKnownOf files.now state → result ≡ machine.barring_seat state seat }
{
    if files.flight(seat).is_some() {
        return Some(seat);
    }
    files.checking()
}

/// The seat that has the file at the end of a path in fsync.
fn holder(files: &Files, path: &Path) -> Option<u8>
    ensures { (most : ℕ) (state : State) → IsGoodTree most state.live → IsKnownOf files.now state → result ≡ machine.freezing_walked state (walk state.live path.now) }
{
    let ino = files.walk(path.as_slice()).ok()?;
    files.holder(ino)
}

/// The seat whose fsync keeps a call from changing, moving, removing or fsyncing its file.
fn freezing(files: &Files, request: &Request) -> Option<u8>
    ensures { (most : ℕ) (state : State) → IsGoodTree most state.live → IsKnownOf files.now state → result ≡ machine.freezing state request.now }
{
    match request {
        Request::Write { path, .. }
        | Request::Truncate { path, .. }
        | Request::Unlink { path }
        | Request::Rename { from: path, .. }
        | Request::Fsync { path } => holder(files, path),
        _ => None,
    }
}

/// Why a call of a seat isn't heard: the volume is closed, its history is full, or a seat stands in the way.
fn unheard(mode: Mode, history: &Log, files: &Files, seat: u8) -> Option<Reply>
    ensures { (state : State) → mode ≡ state.mode → state.entries ≡ length history.now.entries → IsKnownOf files.now state → MatchOption result (IsHeard state seat) (IsUnheard state seat) }
{
    if mode != Mode::Up {
        return Some(Reply::Closed);
    }
    if history.len() >= MOST_ENTRIES {
        return Some(Reply::Spent);
    }
    let by = barring_seat(files, seat)?;
    Some(Reply::Busy { by })
}

impl<D: Disk> Volume<D> {
    /// Why a call of a seat isn't served, by the first test that keeps it off; `None` where only want of space may.
    pub(crate) fn barred(&self, seat: u8, request: &Request) -> Option<Barred>
        ensures { (from : State) → StandsIn (D.contents self.now.disk) self.now from → MatchOption result (IsLetIn (image_limits self.now.geometry) from seat request.now) (IsBarred (image_limits self.now.geometry) from seat request.now) }
    {
        if let Some(reply) = unheard(self.mode, &self.history, &self.files, seat) {
            return Some(Barred::Unheard(reply));
        }
        if let Some(reply) = self.files.refusal(limits(&self.geometry), request) {
            return Some(Barred::Refused(reply));
        }
        let by = freezing(&self.files, request)?;
        Some(Barred::Unheard(Reply::Busy { by }))
    }
}
