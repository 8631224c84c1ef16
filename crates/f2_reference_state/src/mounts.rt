//! Mounts and crashes.
ghost use Rattle.std.specs.Prelude.{◌≡◌, ◌≤◌, map as map_list, take, length, vec_len, [], ◌∷◌, ◌++◌, OnOk, OnErr, IfOk, None};
ghost use Rattle.std.specs.FinMap as map;
ghost use Rattle.std.specs.FinSet as set;
ghost use Rattle.f2_model.specs.State.{InCheck, base_up_to, number_of, pending_with, rolled};
ghost use Rattle.f2_model.specs.Step as machine;
ghost use Rattle.f2_model.specs.declared.histories.Entry.TheVariants as entry;
ghost use Rattle.f2_model.specs.declared.replies.Plan.TheVariants as plans;
ghost use Rattle.f2_reference_state.specs.Parts.{mark_of};
ghost use Rattle.f2_reference_state.specs.Seen.{after_turn};

use crate::marks::Mark;
use crate::plain::Plain;
use f2_flights::{Flight, Flights};
use f2_model::{Entry, Format, Log, MOUNT_SEAT, Mode, Plan, Tree};
use std::alloc::{AllocError, Global};
use std::mem;

/// The flights of a mount: its own checkpoint alone.
fn mount_alone(alloc: Global) -> Result<Flights, AllocError>
    ensures { IfOk result (λ flights. flights ≡ map.insert map.empty machine.MOUNT_SEAT (InCheck plans.Sync)) }
{
    let mut flights = Flights::new(alloc);
    flights.insert(MOUNT_SEAT, Flight::Check { plan: Plan::Sync })?;
    Ok(flights)
}

/// Tells that a mount found marked rows, with the choice whether it found a pending tree, and that its checkpoint of a
/// format begins.
fn tell_mount(history: &mut Log, rows: u32, choice: u32, format: Format)
    requires { 2 ≤ history.old.spare }
    ensures entries { history.new.entries ≡ history.old.entries ++ (entry.Mounted rows ∷ entry.CpBegin machine.MOUNT_SEAT plans.Sync ∷ []) }
    ensures choices { history.new.choices ≡ history.old.choices ++ (choice ∷ number_of format ∷ []) }
{
    history.add(Entry::Mounted { rows }, Some(choice));
    let (seat, plan) = (MOUNT_SEAT, Plan::Sync);
    history.add(Entry::CpBegin { seat, plan }, Some(format.number()));
}

/// The first `count` marks.
fn first_marks(mut marks: Vec<Mark>, count: usize) -> Vec<Mark>
    ensures marks { map_list mark_of result.items ≡ take count (map_list mark_of marks.items) }
    ensures len { vec_len result ≡ length (take count (map_list mark_of marks.items)) }
{
    marks.truncate(count);
    marks
}

impl Plain {
    /// Nothing was written, moved or made dirty since the base, and there is no mark and no pending tree.
    pub(crate) fn forget(&mut self)
        ensures { self.new ≡ record self.old {
          state = record self.old.state {
            marks = [];
            acknowledged = 0;
            pending = None;
            dirty_pages = set.empty;
            dirty_nodes = set.empty;
            moved = set.empty;
            shrunk = set.empty;
            logged = set.empty;
            node_writes = 0;
            data_writes = 0;
          };
        } }
    {
        self.marks.clear();
        self.acknowledged = 0;
        self.pending = None;
        self.dirty_pages.clear();
        self.dirty_nodes.clear();
        self.moved.clear();
        self.shrunk.clear();
        self.logged.clear();
        self.node_writes = 0;
        self.data_writes = 0;
    }

    /// A mount finds the base with its first `count` marks, which are rolled over it to the tree given. Its own
    /// checkpoint begins, which is to write some blocks before its tail. Where memory is refused nothing changed.
    pub fn finds_marks(&mut self, count: usize, live: Tree, blocks: u32) -> Result<(), AllocError>
        requires there { count ≤ length self.old.state.marks }
        requires rolled { live ≡ rolled self.old.state.base (take count self.old.state.marks) }
        ensures ok { OnOk result (self.new ≡ record (after_turn self.old (machine.found self.old.state (base_up_to self.old.state count) 0)) { blocks = blocks }) }
        ensures err { OnErr result (self.new ≡ self.old) }
    {
        let rows = u32::try_from(count).map_err(|_| AllocError)?;
        self.history.room(2)?;
        let flights = mount_alone(self.alloc)?;
        tell_mount(&mut self.history, rows, 0, self.format);
        let marks = first_marks(mem::replace(&mut self.marks, Vec::new(self.alloc)), count);
        self.forget();
        self.acknowledged = marks.len();
        self.marks = marks;
        self.next_format = self.format;
        self.flights = flights;
        self.live = live;
        self.mode = Mode::Mounting;
        self.blocks = blocks;
        Ok(())
    }

    /// A mount finds the tree of a checkpoint whose tail was written, of which two are given. Its own checkpoint
    /// begins, which is to write some blocks before its tail. Where memory is refused, or the version is at its end,
    /// nothing changed.
    pub fn finds_pending(&mut self, base: Tree, live: Tree, blocks: u32) -> Result<(), AllocError>
        requires { live ≡ base }
        ensures ok { OnOk result (self.new ≡ record (after_turn self.old (machine.found self.old.state (pending_with self.old.state base) 1)) { blocks = blocks }) }
        ensures err { OnErr result (self.new ≡ self.old) }
    {
        let version = self.version.checked_add(1).ok_or(AllocError)?;
        self.history.room(2)?;
        let flights = mount_alone(self.alloc)?;
        tell_mount(&mut self.history, 0, 1, self.next_format);
        self.forget();
        self.flights = flights;
        self.base = base;
        self.format = self.next_format;
        self.version = version;
        self.live = live;
        self.mode = Mode::Mounting;
        self.blocks = blocks;
        Ok(())
    }

    /// Power is lost. Where memory is refused nothing changed.
    pub fn crashes(&mut self) -> Result<(), AllocError>
        ensures ok { OnOk result (self.new ≡ after_turn self.old (machine.crashed self.old.state)) }
        ensures err { OnErr result (self.new ≡ self.old) }
    {
        self.history.room(1)?;
        self.history.add(Entry::Crash, None);
        self.mode = Mode::Shut;
        self.flights.clear();
        Ok(())
    }
}
