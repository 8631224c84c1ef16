//! The pages of a file: written, and flushed.
ghost use Rattle.f2_event_laws.specs.Pages.{FlushedPagesKeep, WrittenPagesKeep};
ghost use Rattle.f2_event_laws.specs.WholePages.{FlushedPagesKeepWhole, WrittenPagesKeepWhole};

/// The first flush of an fsync keeps what a running volume keeps; from then on its file's pages are flushed.
pub fn flushed_pages_keep()
    ensures { FlushedPagesKeep }
{}

/// The write of a dirty page to a free address keeps it, whoever made it; the node that tells the page's address is to be
/// written from then on.
pub fn written_pages_keep()
    ensures { WrittenPagesKeep }
{}

/// The first flush of an fsync keeps all that a running volume keeps.
pub fn flushed_pages_keep_whole()
    ensures { FlushedPagesKeepWhole }
{}

/// So does the write of a dirty page to a free address of the data zone: what is dirty has its row and its place.
pub fn written_pages_keep_whole()
    ensures { WrittenPagesKeepWhole }
{}
