//! What an event leaves open, and what decides it.
ghost use Rattle.f2_laws.specs.Choice.{ChoicesDecide};

/// Without a failure, the state and the choices that are told decide what an event comes to: its
/// answer, its entries and the state after it, whatever the disk's counts of faults.
pub fn choices_decide()
    ensures { ChoicesDecide }
{}
