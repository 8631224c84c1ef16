//! The mark of a file, from what a volume knows of the file.
ghost use Rattle.f2_live_laws.specs.Marking.{LiveFilesGiveMarks};

/// A file of the live tree that may be marked has its mark in a block that tells its row, once the block is drawn.
pub fn live_files_give_marks()
    ensures { LiveFilesGiveMarks }
{}
