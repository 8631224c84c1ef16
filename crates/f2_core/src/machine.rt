//! The core.
ghost use Rattle.std.specs.Prelude.{◌≡◌, ◌≢◌, ◌<◌, ◌≤◌, ◌⊎◌, [], Some, None, length, IfErr, IfOk, IsSome, OnErr, OnOk};
ghost use Rattle.std.specs.List.{AllByRecursion};
ghost use Rattle.std.specs.Option.{option_copied, option_map};
ghost use Rattle.f2_disk.specs.Meter.{HasFailed, HasMoreRoom, IsCalm, IsWithin};
ghost use Rattle.f2_image.specs.Faults.{MOST_VERSION};
ghost use Rattle.f2_model.specs.State.{State};
ghost use Rattle.f2_model.specs.Step as machine;
ghost use Rattle.f2_model.specs.declared.events.Answer.TheVariants as answers;
ghost use Rattle.f2_model.specs.declared.events.Event.TheVariants as events;
ghost use Rattle.f2_model.specs.Step.{IsSeat};
ghost use Rattle.f2_model.specs.declared.events.MountRefusal.TheVariants.{BadImage, NoMemory, WriteFailed};
ghost use Rattle.f2_model.specs.declared.requests.Request.TheVariants.{Sync};
ghost use Rattle.f2_core.specs.Changes.{IsChange};
ghost use Rattle.f2_core.specs.Events.{TellsFault};
ghost use Rattle.f2_core.specs.Writes.{checkpoint_writes, making_writes as most_making};

use crate::changes::{change_files, is_memory};
use crate::checkpoints::find;
use crate::entries::{add_checkpoint, add_did, add_fault, add_unfound};
use crate::volumes::Volume;
use f2_disk::{Bench, Disk};
use f2_layout::Geometry;
use f2_model::{
    Answer, Begun, BoxedRequest, Entry, Event, Log, MOST_ENTRIES, MOUNT_SEAT, MountRefusal, Reply,
    Request, Tree,
};
use f2_plain_save::{SaveFault, mkfs, save};
use std::alloc::{AllocError, Global};
use std::marker::Model;

/// The entries for which a mount takes room: those before a call may begin, and 32,768 more.
const HISTORY_ROOM: u32 = 294_912;

/// A volume on a disk, as a machine that takes one event at a time.
#[derive(Drop)]
pub struct Core<D: Disk> {
    disk: D,
    geometry: Geometry,
    volume: Option<Volume>,
    history: Log,
    alloc: Global,
}

impl<D: Disk> Model for Core<D> {
    ghost use Rattle.std.specs.Coded.{codes};
    ghost use Rattle.f2_core.specs.Seen.{Seen, IsCore};
    ghost use Rattle.f2_model.specs.contracts.trees.Tree as tree;
    ghost use Rattle.f2_laid.specs.contracts.places.Places as places;

    ghost Value = { Seen D };

    ghost coded = { Prim.hlevel (codes, tree.the_row.coded, places.the_row.coded) };

    ghost view = { λ c. record { disk = c.disk; geometry = c.geometry; volume = c.volume; history = c.history } };

    ghost invariant = { λ c. IsCore c.geometry (D.meter c.disk).blocks c.volume c.history };
}

/// The most writes that making an image of these sizes takes.
pub fn making_writes(geometry: &Geometry) -> u32
    ensures { result ≡ most_making geometry.now }
{
    geometry.data_first() + 2 + (geometry.nat() + 4)
}

/// The most writes that a checkpoint takes.
fn checkpoint_writes(geometry: &Geometry) -> u32
    ensures { result ≡ checkpoint_writes geometry.now }
{
    geometry.cn() + geometry.cd() + geometry.nat() + 3
}

/// Why an image isn't made, by why its blocks weren't written.
fn unsaved(fault: SaveFault) -> MountRefusal
    ensures write { fault ≡ SaveFault.Write → result ≡ WriteFailed }
    ensures memory { fault ≡ SaveFault.Memory → result ≡ NoMemory }
{
    match fault {
        SaveFault::Write => MountRefusal::WriteFailed,
        SaveFault::Memory => MountRefusal::NoMemory,
    }
}

impl<D: Disk> Core<D> {
    ghost use Rattle.f2_core.specs.Events.{IsServed, IsMade, ComesTo, ComeTo, ComeToFirst};
    ghost use Rattle.f2_core.specs.Seen.{IsIn, IsOpen, tree_of};

    /// Makes an image of these sizes with the root alone on a disk of any content, and gives a closed core on it, with an
    /// empty history. Where that fails the disk comes back; a fault of it may leave any part of the image.
    pub fn made(alloc: Global, disk: D, geometry: Geometry) -> Result<Core<D>, (MountRefusal, D)>
        requires blocks { geometry.blocks ≤ (D.meter disk).blocks }
        ensures made { IfOk result (λ core. IsSome (D.contents disk) → IsMade geometry (D.contents core.disk) core) }
        ensures told { IfOk result (λ core. IsSome (D.contents disk) → IsSome (D.contents core.disk)) }
        ensures fresh { IfOk result (λ core. core ≡ record { disk = core.disk; geometry = geometry; volume = None; history = record { entries = []; choices = []; spare = 0 } }) }
        ensures within { IfOk result (λ core. IsWithin (most_making geometry) (D.meter disk) (D.meter core.disk)) }
        ensures back { IfErr result (λ back. IsWithin (most_making geometry) (D.meter disk) (D.meter back.1)) }
        ensures cause { IfErr result (λ back. (back.0 ≡ NoMemory) ⊎ ((back.0 ≡ WriteFailed) × HasFailed (D.meter disk) (D.meter back.1))) }
    {
        let mut disk = disk;
        if let Err(fault) = mkfs(alloc, &mut disk, geometry) {
            return Err((unsaved(fault), disk));
        }
        Ok(Core {
            disk,
            geometry,
            volume: None,
            history: Log::new(alloc),
            alloc,
        })
    }

    /// One event; a sync and a mount make their whole checkpoint.
    pub fn step(&mut self, event: Event) -> Answer
        requires { IsServed event }
        ensures comes { (from : State) → IsSome (D.contents self.old.disk) → IsIn self.old.geometry (D.contents self.old.disk) self.old.volume self.old.history from
            → ¬ (HasFailed (D.meter self.old.disk) (D.meter self.new.disk))
            → ComesTo self.old self.new (D.contents self.new.disk) from event result }
        // A disk that tells what it holds tells it afterwards too.
        ensures told { IsSome (D.contents self.old.disk) → IsSome (D.contents self.new.disk) }
        // The tree of a closed core is found as long as the versions of checkpoints last.
        ensures finds { (from : State) → IsSome (D.contents self.old.disk) → IsIn self.old.geometry (D.contents self.old.disk) self.old.volume self.old.history from
            → length self.old.history.entries < MOST_VERSION → result ≢ answers.NotMounted BadImage }
        ensures geometry { self.new.geometry ≡ self.old.geometry }
        // A fault of the disk is answered only where its count rose.
        ensures cause { TellsFault result → HasFailed (D.meter self.old.disk) (D.meter self.new.disk) }
        ensures within { IsWithin (checkpoint_writes self.old.geometry) (D.meter self.old.disk) (D.meter self.new.disk) }
    {
        match event {
            Event::Begin {
                seat,
                request: Request::Sync,
            } => Answer::Began(Begun::Replied(self.sync(seat))),
            Event::Begin { seat, request } => {
                Answer::Began(Begun::Replied(self.change(seat, request)))
            }
            Event::Mount => self.mount(),
            _ => unreachable!(),
        }
    }

    /// Events one after another, and their answers. Where memory for the answers is refused, some first events
    /// were made.
    pub fn run(&mut self, events: Vec<Event>) -> Result<Vec<Answer>, AllocError>
        requires { AllByRecursion IsServed events.items }
        ensures ok { IfOk result (λ answers. (from : State) → IsSome (D.contents self.old.disk) → IsIn self.old.geometry (D.contents self.old.disk) self.old.volume self.old.history from
            → ¬ (HasFailed (D.meter self.old.disk) (D.meter self.new.disk)) → ComeTo self.old self.new (D.contents self.new.disk) from events.items answers.items) }
        ensures err { OnErr result ((from : State) → IsSome (D.contents self.old.disk) → IsIn self.old.geometry (D.contents self.old.disk) self.old.volume self.old.history from
            → ¬ (HasFailed (D.meter self.old.disk) (D.meter self.new.disk)) → ComeToFirst self.old self.new (D.contents self.new.disk) from events.items) }
        ensures told { IsSome (D.contents self.old.disk) → IsSome (D.contents self.new.disk) }
        ensures geometry { self.new.geometry ≡ self.old.geometry }
    {
        let mut answers = Vec::with_capacity(self.alloc, events.len())?;
        for event in events {
            answers.push(self.step(event))?;
        }
        Ok(answers)
    }

    /// The tree of an open volume.
    pub fn tree(&self) -> Option<&Tree>
        ensures { option_copied result ≡ tree_of self.now.volume }
    {
        self.volume.as_ref().map(|volume| volume.files.tree())
    }

    /// The most writes that an event makes.
    pub fn writes(&self) -> u32
        ensures { result ≡ checkpoint_writes self.now.geometry }
    {
        checkpoint_writes(&self.geometry)
    }

    /// The disk.
    pub fn into_disk(self) -> D
        ensures { result ≡ self.disk }
    {
        let Core { disk, .. } = self;
        disk
    }

    /// A seat changes files.
    fn change(&mut self, seat: u8, request: Request) -> Reply
        requires change { IsChange request }
        requires seat { IsSeat seat }
        ensures comes { (from : State) → IsIn self.old.geometry (D.contents self.old.disk) self.old.volume self.old.history from
            → ComesTo self.old self.new (D.contents self.new.disk) from (events.Begin seat request) (machine.replied result) }
        ensures kept { (self.new.geometry ≡ self.old.geometry) × (self.new.disk ≡ self.old.disk) }
        ensures calm { ¬ (TellsFault (machine.replied result)) }
    {
        let Some(mut volume) = self.volume.take() else {
            return Reply::Closed;
        };
        let reply = self.change_in(&mut volume, seat, request);
        self.volume = Some(volume);
        reply
    }

    /// A seat changes files of a volume that was taken out of the core.
    fn change_in(&mut self, volume: &mut Volume, seat: u8, request: Request) -> Reply
        requires opened { IsOpen self.old.geometry self.old.history volume.old }
        requires change { IsChange request }
        requires seat { IsSeat seat }
        ensures comes { (from : State) → IsIn self.old.geometry (D.contents self.old.disk) (Some volume.old) self.old.history from
            → ComesTo (record self.old { volume = Some volume.old }) (record self.new { volume = Some volume.new }) (D.contents self.new.disk) from (events.Begin seat request) (machine.replied result) }
        ensures opened { IsOpen self.new.geometry self.new.history volume.new }
        ensures kept { (self.new.geometry ≡ self.old.geometry) × (self.new.disk ≡ self.old.disk) }
        ensures calm { ¬ (TellsFault (machine.replied result)) }
    {
        if self.history.len() >= MOST_ENTRIES {
            return Reply::Spent;
        }
        let Ok(request) = BoxedRequest::new(self.alloc, request) else {
            return Reply::Memory;
        };
        let choice = match change_files(&mut volume.files, &self.geometry, request.get()) {
            Ok(choice) => choice,
            Err(refusal) => {
                if is_memory(&refusal) {
                    return refusal;
                }
                add_did(&mut self.history, seat, request, &refusal, None);
                return refusal;
            }
        };
        add_did(&mut self.history, seat, request, &Reply::Done, choice);
        Reply::Done
    }

    /// A seat makes a checkpoint of the whole tree.
    fn sync(&mut self, seat: u8) -> Reply
        requires { IsSeat seat }
        ensures comes { (from : State) → IsSome (D.contents self.old.disk) → IsIn self.old.geometry (D.contents self.old.disk) self.old.volume self.old.history from
            → ¬ (HasFailed (D.meter self.old.disk) (D.meter self.new.disk))
            → ComesTo self.old self.new (D.contents self.new.disk) from (events.Begin seat Sync) (machine.replied result) }
        ensures told { IsSome (D.contents self.old.disk) → IsSome (D.contents self.new.disk) }
        ensures geometry { self.new.geometry ≡ self.old.geometry }
        ensures cause { TellsFault (machine.replied result) → HasFailed (D.meter self.old.disk) (D.meter self.new.disk) }
        ensures within { IsWithin (checkpoint_writes self.old.geometry) (D.meter self.old.disk) (D.meter self.new.disk) }
    {
        let Some(volume) = self.volume.take() else {
            return Reply::Closed;
        };
        if self.history.len() >= MOST_ENTRIES {
            self.volume = Some(volume);
            return Reply::Spent;
        }
        let Ok(request) = BoxedRequest::new(self.alloc, Request::Sync) else {
            self.volume = Some(volume);
            return Reply::Memory;
        };
        let begun = Entry::Begin { seat, request };
        match save(
            self.alloc,
            &mut self.disk,
            &volume.stored,
            volume.files.tree(),
        ) {
            Ok(stored) => {
                let files = volume.files;
                self.volume = Some(Volume { files, stored });
                add_checkpoint(&mut self.history, begun, None, seat);
                Reply::Synced
            }
            Err(SaveFault::Write) => {
                let count = self.disk.faults();
                add_fault(&mut self.history, begun, None, seat, count);
                Reply::WriteFault
            }
            Err(SaveFault::Memory) => {
                drop(begun);
                self.volume = Some(volume);
                Reply::Memory
            }
        }
    }

    /// Opens the volume: reads its tree from the blocks, and makes the mount's checkpoint.
    fn mount(&mut self) -> Answer
        ensures comes { (from : State) → IsSome (D.contents self.old.disk) → IsIn self.old.geometry (D.contents self.old.disk) self.old.volume self.old.history from
            → ¬ (HasFailed (D.meter self.old.disk) (D.meter self.new.disk))
            → ComesTo self.old self.new (D.contents self.new.disk) from events.Mount result }
        ensures told { IsSome (D.contents self.old.disk) → IsSome (D.contents self.new.disk) }
        ensures finds { (from : State) → IsSome (D.contents self.old.disk) → IsIn self.old.geometry (D.contents self.old.disk) self.old.volume self.old.history from
            → length self.old.history.entries < MOST_VERSION → result ≢ answers.NotMounted BadImage }
        ensures geometry { self.new.geometry ≡ self.old.geometry }
        ensures cause { TellsFault result → HasFailed (D.meter self.old.disk) (D.meter self.new.disk) }
        ensures within { IsWithin (checkpoint_writes self.old.geometry) (D.meter self.old.disk) (D.meter self.new.disk) }
    {
        if self.volume.is_some() {
            return Answer::AlreadyMounted;
        }
        if self.history.room(HISTORY_ROOM).is_err() {
            return Answer::NotMounted(MountRefusal::NoMemory);
        }
        let Volume { files, stored } = match find(self.alloc, &mut self.disk, &self.geometry) {
            Ok(volume) => volume,
            Err(refused) => {
                add_unfound(&mut self.history, refused, self.disk.faults());
                return Answer::NotMounted(refused);
            }
        };
        match save(self.alloc, &mut self.disk, &stored, files.tree()) {
            Ok(stored) => {
                let mounted = Entry::Mounted { rows: 0 };
                add_checkpoint(&mut self.history, mounted, Some(0), MOUNT_SEAT);
                self.volume = Some(Volume { files, stored });
                Answer::Found(0)
            }
            Err(SaveFault::Write) => {
                let count = self.disk.faults();
                let mounted = Entry::Mounted { rows: 0 };
                add_fault(&mut self.history, mounted, Some(0), MOUNT_SEAT, count);
                Answer::NotMounted(MountRefusal::WriteFailed)
            }
            Err(SaveFault::Memory) => Answer::NotMounted(MountRefusal::NoMemory),
        }
    }
}

impl<D: Bench> Core<D> {
    ghost use Rattle.f2_disk.specs.Pick.{crashed};
    ghost use Rattle.f2_core.specs.Events.{HasCrashed};
    ghost use Rattle.f2_core.specs.Seen.{IsIn};

    /// Takes room for `n` writes of the bench. Where memory is refused it may have taken some; all else stays.
    pub fn ready(&mut self, n: u32) -> Result<(), AllocError>
        ensures room { OnOk result (n ≤ (D.meter self.new.disk).spare) }
        ensures more { HasMoreRoom (D.meter self.old.disk) (D.meter self.new.disk) }
        ensures contents { D.contents self.new.disk ≡ D.contents self.old.disk }
        ensures kept { self.new ≡ record self.old { disk = self.new.disk } }
    {
        self.disk.ready(n)
    }

    /// Loses power: the bench crashes with this pick, and the core forgets all that it knew but the history. Where
    /// memory for the history is refused nothing happens.
    pub fn crash(&mut self, pick: u64) -> Result<(), AllocError>
        ensures crashed { OnOk result ((from : State) → IsIn self.old.geometry (D.contents self.old.disk) self.old.volume self.old.history from
            → HasCrashed self.old self.new (D.contents self.new.disk) from) }
        // The pick says which image is left of those that may be.
        ensures contents { OnOk result (D.contents self.new.disk ≡ option_map (crashed pick) (D.contents self.old.disk)) }
        ensures told { IsSome (D.contents self.old.disk) → IsSome (D.contents self.new.disk) }
        ensures calm { OnOk result (IsCalm (D.meter self.old.disk).blocks (D.meter self.old.disk) (D.meter self.new.disk)) }
        ensures geometry { self.new.geometry ≡ self.old.geometry }
        ensures err { OnErr result (self.new ≡ self.old) }
    {
        self.history.room(1)?;
        self.disk.crash(pick);
        self.volume = None;
        self.history.add(Entry::Crash, None);
        Ok(())
    }
}
