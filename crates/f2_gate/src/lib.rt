//! The shared and exclusive gate of a volume.
//!
//! An fsync that rolls forward holds the gate shared, from its begin to its answer, so several of
//! them run side by side. A checkpoint needs a tree that stands still and holds the gate alone. In
//! the kernel these are the read and the write side of `cp_rwsem` (`f2fs_lock_op` and
//! `f2fs_lock_all` of fs/f2fs/f2fs.h). This gate makes nobody wait: a seat that can't come in is
//! told who is in its way.
//!
//! What the layer above uses: the gate is the list of the phases of its ten seats, each call changes
//! the phase of its own seat and no other, and [`Busy`] comes exactly where it must, with the seat
//! that is in the way. While one seat holds the gate alone, all others are out.
//!
//! The definitions stand in `specs/Seats.antt`.
#![tactic(auto)]

ghost use Rattle.std.specs.Prelude.{◌≡◌, ◌≢◌, ◌<◌, ◌↔◌, IsNone, IsErr, IfSome, IfErr, OnOk, OnErr, replicate, slice_set};
ghost use Rattle.f2_gate.specs.Seats.{phase_of, AnySeatIn, IsLeastIn, ExcludesOthers};
ghost use Rattle.f2_gate.specs.declared.Phase.TheVariants.{Out, Inside, Exclusive};
ghost use Rattle.f2_gate.specs.declared.TheConstants.{SEATS};

use std::marker::Model;

/// How many seats a gate has. They are numbered from 0.
pub const SEATS: usize = 10;

/// Where a seat stands.
#[derive(Clone, Copy, Debug, PartialEq, Eq)]
pub enum Phase {
    /// Not in: it holds nothing.
    Out,
    /// In, beside others that are in.
    Inside,
    /// In, and alone.
    Exclusive,
}

/// The gate can't be had now, because of the seat `by`.
#[derive(Clone, Copy, Debug, PartialEq, Eq)]
pub struct Busy {
    pub by: u8,
}

/// A gate that several seats may pass together, or one alone.
///
/// Contracts see it as the list of its seats' phases.
#[derive(Debug, Drop)]
pub struct Gate {
    phases: [Phase; SEATS],
}

impl Model for Gate {
    ghost use Rattle.std.specs.Prelude.{List};
    ghost use Rattle.f2_gate.specs.declared.Phase.{Phase};
    ghost use Rattle.f2_gate.specs.Seats.{ExcludesOthers};

    ghost Value = { List Phase };

    ghost view = { λ gate. gate.phases };

    ghost invariant = { λ gate. ExcludesOthers gate.phases };
}

impl Gate {
    /// A gate with nobody inside.
    pub fn new() -> Self
        ensures { result ≡ replicate 10 Out }
    {
        Gate {
            phases: [Phase::Out; SEATS],
        }
    }

    /// Lets a seat in beside the others.
    ///
    /// It is refused, and nothing changes, exactly where a seat holds the gate alone. [`Busy`] names
    /// that seat.
    pub fn enter(&mut self, seat: u8) -> Result<(), Busy>
        requires seat { seat < SEATS }
        requires out { phase_of self.old seat ≡ Out }
        ensures ok { OnOk result (self.new ≡ slice_set self.old seat Inside) }
        ensures busy { IsErr result ↔ AnySeatIn self.old Exclusive }
        ensures holder { IfErr result (λ busy. phase_of self.old busy.by ≡ Exclusive) }
        ensures err { OnErr result (self.new ≡ self.old) }
    {
        if let Some(by) = least_in(&self.phases, Phase::Exclusive) {
            return Err(Busy { by });
        }
        self.phases[seat as usize] = Phase::Inside;
        Ok(())
    }

    /// Ends what [`Gate::enter`] began.
    pub fn leave(&mut self, seat: u8)
        requires { phase_of self.old seat ≡ Inside }
        ensures { self.new ≡ slice_set self.old seat Out }
    {
        self.phases[seat as usize] = Phase::Out;
    }

    /// Gives a seat the gate alone.
    ///
    /// It is refused, and nothing changes, exactly where a seat is inside. [`Busy`] names the least
    /// such seat.
    pub fn close(&mut self, seat: u8) -> Result<(), Busy>
        requires seat { seat < SEATS }
        requires out { phase_of self.old seat ≡ Out }
        requires open { ¬ (AnySeatIn self.old Exclusive) }
        ensures ok { OnOk result (self.new ≡ slice_set self.old seat Exclusive) }
        ensures busy { IsErr result ↔ AnySeatIn self.old Inside }
        ensures least { IfErr result (λ busy. IsLeastIn self.old Inside busy.by) }
        ensures err { OnErr result (self.new ≡ self.old) }
    {
        if let Some(by) = least_in(&self.phases, Phase::Inside) {
            return Err(Busy { by });
        }
        self.phases[seat as usize] = Phase::Exclusive;
        Ok(())
    }

    /// Ends what [`Gate::close`] began.
    pub fn open(&mut self, seat: u8)
        requires { phase_of self.old seat ≡ Exclusive }
        ensures { self.new ≡ slice_set self.old seat Out }
    {
        self.phases[seat as usize] = Phase::Out;
    }

    /// Where a seat stands. A number that is no seat's is out.
    pub fn phase(&self, seat: u8) -> Phase
        ensures phase { result ≡ phase_of self.now seat }
        ensures excludes { ExcludesOthers self.now }
    {
        self.phases
            .get(seat as usize)
            .copied()
            .unwrap_or(Phase::Out)
    }
}

// The first seat in a phase that is not `Out`, if there is one.
fn least_in(phases: &[Phase; SEATS], phase: Phase) -> Option<u8>
    requires { phase ≢ Out }
    ensures none { IsNone result ↔ ¬ (AnySeatIn phases.now phase) }
    ensures least { IfSome result (IsLeastIn phases.now phase) }
{
    for seat in 0..SEATS {
        if phases[seat] == phase {
            return Some(seat as u8);
        }
    }
    None
}
