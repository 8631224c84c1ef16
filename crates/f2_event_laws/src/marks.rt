//! The mark of a file, drawn.
ghost use Rattle.f2_event_laws.specs.Marks.{DrawnMarksKeep};
ghost use Rattle.f2_event_laws.specs.WholeMarks.{DrawnMarksKeepWhole, OwnersMayJoin};

/// The next position that an fsync draws for the marked inode of its file keeps it, once nothing of the file is dirty: the
/// file's row joins the marks.
pub fn drawn_marks_keep()
    ensures { DrawnMarksKeep }
{}

/// The next position that an fsync draws for the marked inode of its file keeps all that a running volume keeps.
pub fn drawn_marks_keep_whole()
    ensures { DrawnMarksKeepWhole }
{}

/// The pages of a file that were flushed may join the pages that marks own.
pub fn owners_may_join()
    ensures { OwnersMayJoin }
{}
