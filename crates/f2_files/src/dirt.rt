//! Which pages and direct nodes are dirty.
ghost use Rattle.std.specs.Prelude.{◌≡◌, ◌==◌, ◌&&◌, ℕ};
ghost use Rattle.std.specs.FinSet as set;
ghost use Rattle.f2_model.specs.Fallback.{pairs_of};
ghost use Rattle.f2_model.specs.State.{State};
ghost use Rattle.f2_model.specs.Step as machine;
ghost use Rattle.f2_model.specs.declared.modes.Format.{Format};
ghost use Rattle.f2_model.specs.declared.modes.Mode.{Mode};
ghost use Rattle.f2_files.specs.Known.{IsKnownOf};

use crate::files::Files;

impl Files {
    /// The least dirty page of a file.
    pub fn least_dirty_page(&self, ino: u32) -> Option<u32>
        ensures { result ≡ machine.least_of self.now.dirty_pages ino }
    {
        self.dirty_pages.least_of(ino)
    }

    /// The offset of the least dirty direct node of a file.
    pub fn least_dirty_node(&self, ino: u32) -> Option<u32>
        ensures { result ≡ machine.least_of self.now.dirty_nodes ino }
    {
        self.dirty_nodes.least_of(ino)
    }

    /// The least dirty page, with its file, of all files that aren't in fsync.
    pub fn least_thawed_page(&self) -> Option<(u32, u32)>
        ensures { (state : State) → state.flights ≡ self.now.flights → result ≡ machine.least_thawed state self.now.dirty_pages }
    {
        self.dirty_pages.first_thawed(&self.flights)
    }

    /// The least dirty direct node, as its file and its offset, of all files that aren't in fsync.
    pub fn least_thawed_node(&self) -> Option<(u32, u32)>
        ensures { (state : State) → state.flights ≡ self.now.flights → result ≡ machine.least_thawed state self.now.dirty_nodes }
    {
        self.dirty_nodes.first_thawed(&self.flights)
    }

    /// How many pages of a file are dirty.
    pub fn dirty_pages_of(&self, ino: u32) -> usize
        ensures { result ≡ pairs_of ino self.now.dirty_pages }
    {
        self.dirty_pages.count_of(ino)
    }

    /// How many direct nodes of a file are dirty.
    pub fn dirty_nodes_of(&self, ino: u32) -> usize
        ensures { result ≡ pairs_of ino self.now.dirty_nodes }
    {
        self.dirty_nodes.count_of(ino)
    }

    /// Whether no page and no direct node of a file is dirty.
    pub fn is_file_clean(&self, ino: u32) -> bool
        ensures { result ≡ (pairs_of ino self.now.dirty_pages == 0 && pairs_of ino self.now.dirty_nodes == 0) }
    {
        self.least_dirty_page(ino).is_none() && self.least_dirty_node(ino).is_none()
    }

    /// Whether nothing is dirty.
    pub fn is_clean(&self) -> bool
        ensures { result ≡ (set.len self.now.dirty_pages == 0 && set.len self.now.dirty_nodes == 0) }
    {
        self.dirty_pages.is_empty() && self.dirty_nodes.is_empty()
    }

    /// A page of a file was written.
    pub fn page_written(&mut self, ino: u32, page: u32)
        ensures is { self.new ≡ record self.old { dirty_pages = set.remove self.old.dirty_pages (ino, page) } }
        ensures known { (state : State) → IsKnownOf self.old state → IsKnownOf self.new (machine.page_written state ino page) }
    {
        self.dirty_pages.remove(ino, page);
    }

    /// A direct node of a file was given a position of the node log, and written there.
    pub fn node_logged(&mut self, ino: u32, offset: u32)
        ensures is { self.new ≡ record self.old { dirty_nodes = set.remove self.old.dirty_nodes (ino, offset) } }
        ensures known { (state : State) → IsKnownOf self.old state → IsKnownOf self.new (machine.node_logged state ino offset) }
    {
        self.dirty_nodes.remove(ino, offset);
    }

    /// A checkpoint of the tree that is known is done: nothing is dirty, moved or shrunk since.
    pub fn settle(&mut self)
        ensures is { self.new ≡ record self.old { dirty_pages = set.empty; dirty_nodes = set.empty; moved = set.empty; shrunk = set.empty } }
        ensures known { (state : State) (format : Format) (version : ℕ) (mode : Mode) → IsKnownOf self.old state → IsKnownOf self.new (machine.with_base state state.live format version mode) }
    {
        self.dirty_pages.clear();
        self.dirty_nodes.clear();
        self.moved.clear();
        self.shrunk.clear();
    }
}
