//! What a running volume counts since its last checkpoint.
ghost use Rattle.std.specs.Prelude.{◌≡◌, ℕ, ◌+◌, ◌<◌, ◌^◌, Some};
ghost use Rattle.std.specs.FinMap as map;
ghost use Rattle.f2_held.specs.Recovered.{IsTakenOf};
ghost use Rattle.f2_model.specs.State.{State};
ghost use Rattle.f2_model.specs.Step as machine;
ghost use Rattle.f2_model.specs.declared.modes.Format.{Format};
ghost use Rattle.f2_model.specs.declared.modes.Mode.{Mode};
ghost use Rattle.f2_model.specs.declared.rows.Row.{Row};
ghost use Rattle.f2_since.specs.Counted.{nothing_since, IsSince, IsRunning};
ghost use Rattle.f2_since.specs.Events.{Fsyncs, IsAtRest};

use crate::parted::Parted;
use f2_held::Held;
use std::alloc::Global;
use std::marker::Model;

/// What a recovery may put together, the names that no row has any more, and the blocks written to each zone, all since
/// the last checkpoint.
#[derive(Drop)]
pub struct Since {
    pub(crate) held: Held,
    pub(crate) parted: Parted,
    pub(crate) nodes: u64,
    pub(crate) pages: u64,
    pub(crate) alloc: Global,
}

impl Model for Since {
    ghost use Rattle.std.specs.FinMap as map;
    ghost use Rattle.std.specs.Coded.{Coded, codes, coded_ℕ};
    ghost use Rattle.f2_dir.specs.Entries.{entries_code};
    ghost use Rattle.f2_held.specs.Sums.{taken_code};
    ghost use Rattle.f2_since.specs.Counted.{Counted, Parted as Names};

    ghost Value = { Counted };

    ghost coded = { let names : Coded Names = map.code coded_ℕ entries_code in
        Prim.hlevel (codes, taken_code, names) };

    ghost view = { λ s. record { held = s.held; parted = s.parted; nodes = s.nodes; pages = s.pages } };
}

impl Since {
    /// Nothing is held, parted or written, as before the first row of a base is taken in. It takes no memory.
    pub fn new(alloc: Global) -> Since
        ensures { result ≡ nothing_since }
    {
        Since {
            held: Held::new(alloc),
            parted: Parted::new(alloc),
            nodes: 0,
            pages: 0,
            alloc,
        }
    }

    /// A page of a file was written.
    pub fn wrote_page(&mut self)
        requires { self.old.pages < 2 ^ 63 }
        ensures is { self.new ≡ record self.old { pages = self.old.pages + 1 } }
        ensures since { (state : State) (ino page : ℕ) → IsSince self.old state → IsSince self.new (machine.page_written state ino page) }
    {
        self.pages += 1;
    }

    /// A direct node of a file was given a position of the node log.
    pub fn wrote_node(&mut self)
        requires { self.old.nodes < 2 ^ 63 }
        ensures is { self.new ≡ record self.old { nodes = self.old.nodes + 1 } }
        ensures since { (state : State) (ino offset : ℕ) → IsSince self.old state → IsSince self.new (machine.node_logged state ino offset) }
        ensures drawn { (state : State) (seat ino offset : ℕ) → IsSince self.old state → IsRunning state → Fsyncs state seat ino
            → IsSince self.new (machine.node_drawn state seat ino offset).after }
    {
        self.nodes += 1;
    }

    /// The marked inode of a file in fsync was given a position of the node log.
    pub fn marked(&mut self)
        requires { self.old.nodes < 2 ^ 63 }
        ensures is { self.new ≡ record self.old { nodes = self.old.nodes + 1 } }
        ensures since { (state : State) (seat ino : ℕ) (row : Row) → IsSince self.old state → IsRunning state → Fsyncs state seat ino → map.get state.live ino ≡ Some row
            → IsSince self.new (machine.mark_drawn state seat ino row).after }
    {
        self.nodes += 1;
    }

    /// A checkpoint is done, and what is held was made what its tree takes: no name has parted, and nothing was written.
    pub fn settle(&mut self)
        ensures is { self.new ≡ record nothing_since { held = self.old.held } }
        ensures since { (state : State) (format : Format) (version : ℕ) (mode : Mode) → IsTakenOf state.live (map.values state.live) self.old.held → IsAtRest state
            → IsSince self.new (machine.with_base state state.live format version mode) }
    {
        self.parted.clear();
        self.nodes = 0;
        self.pages = 0;
    }
}
