//! What the beginning of a call comes to.
ghost use Rattle.f2_laws.specs.Beginning.{CallsHaveTheirOutcomes};

/// The events of the abstract machine are those of the tree: a call that nothing keeps off is answered
/// as the tree decides, and leaves the tree that it decides.
pub fn calls_have_their_outcomes()
    ensures { CallsHaveTheirOutcomes }
{}
