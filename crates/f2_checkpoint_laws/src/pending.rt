//! The tail of a checkpoint all of which was written and flushed.
ghost use Rattle.f2_checkpoint_laws.specs.Pending.{WrittenTreesArePending, TailsMakePending};

/// Once all of the live tree is written, a flush makes the disk hold it but for the tail.
pub fn written_trees_are_pending()
    ensures { WrittenTreesArePending }
{}

/// The write of the tail after that, made or failed, makes the live tree one that a crash may leave.
pub fn tails_make_pending()
    ensures { TailsMakePending }
{}
