//! Where a line stops that goes on with a call.
ghost use Rattle.std.specs.Prelude.{◌≡◌};
ghost use Rattle.f2_play.specs.Calls.{is_over as is_over_step, is_slot as is_slot_step};
ghost use Rattle.f2_reference_run.specs.Runs.{stops};

use f2_model::Step;

/// Where a line stops that goes on with a call.
#[derive(Clone, Copy, Debug, PartialEq, Eq)]
pub enum Stop {
    /// At the first answer that tells more than a position which was drawn.
    Told,
    /// Where the call is over, or has to wait.
    Over,
}

/// Whether a step drew a position of the node log, and no more.
fn is_slot(step: &Step) -> bool
    ensures { result ≡ is_slot_step step.now }
{
    matches!(step, Step::Slot(_))
}

/// Whether a step leaves its seat with nothing in flight, or with a call that has to wait.
fn is_over(step: &Step) -> bool
    ensures { result ≡ is_over_step step.now }
{
    matches!(step, Step::None | Step::Again(_) | Step::Replied(_))
}

impl Stop {
    /// Whether a line stops at this step.
    pub fn is_at(self, step: &Step) -> bool
        ensures { result ≡ stops self step.now }
    {
        match self {
            Stop::Told => !is_slot(step),
            Stop::Over => is_over(step),
        }
    }
}
