//! The state with its history.
ghost use Rattle.std.specs.Prelude.{◌≡◌, [], length, map as map_list};
ghost use Rattle.std.specs.Option.{option_copied};
ghost use Rattle.f2_model.specs.State.{initial};
ghost use Rattle.f2_reference_state.specs.Parts.{mark_of};

use crate::marks::Mark;
use crate::pairs::Pairs;
use f2_flights::{Flights, Inos};
use f2_model::{Format, Limits, Log, Mode, Tree};
use std::alloc::Global;
use std::marker::Model;

/// The state of a volume as the abstract machine has it, with the history that led to it.
#[derive(Debug, Drop)]
pub struct Plain {
    pub(crate) limits: Limits,
    pub(crate) live: Tree,
    pub(crate) base: Tree,
    pub(crate) marks: Vec<Mark>,
    pub(crate) acknowledged: usize,
    pub(crate) pending: Option<Tree>,
    pub(crate) format: Format,
    pub(crate) version: u64,
    pub(crate) next_format: Format,
    pub(crate) mode: Mode,
    pub(crate) flights: Flights,
    pub(crate) dirty_pages: Pairs,
    pub(crate) dirty_nodes: Pairs,
    pub(crate) moved: Inos,
    pub(crate) shrunk: Inos,
    pub(crate) logged: Inos,
    pub(crate) node_writes: usize,
    pub(crate) data_writes: usize,
    pub(crate) history: Log,
    /// How many blocks the checkpoint in flight still writes before its tail.
    pub(crate) blocks: u32,
    pub(crate) alloc: Global,
}

impl Model for Plain {
    ghost use Rattle.std.specs.Prelude.{◌+◌, ◌≤◌, length, ℕ, map as map_list};
    ghost use Rattle.std.specs.Coded.{Coded, codes, coded_ℕ, coded×};
    ghost use Rattle.std.specs.FinMap as map;
    ghost use Rattle.std.specs.FinSet as set;
    ghost use Rattle.std.specs.Ordering.{nat_cmp};
    ghost use Rattle.f2_model.specs.State as machine;
    ghost use Rattle.f2_model.specs.contracts.trees.Tree as coded_tree;
    ghost use Rattle.f2_model.specs.contracts.rows.Row as coded_row;
    ghost use Rattle.f2_reference_state.specs.Parts.{mark_of};
    ghost use Rattle.f2_reference_state.specs.Seen.{Seen};

    ghost Value = { Seen };

    ghost coded = { let seats : Coded (map.FinMap nat_cmp machine.Flight) = map.code coded_ℕ (Prim.hlevel codes) in
        let pairs : Coded machine.Pairs = set.code (coded× coded_ℕ coded_ℕ) in
        let inos : Coded machine.Inos = set.code coded_ℕ in
        Prim.hlevel (codes, coded_tree.the_row.coded, coded_row.the_row.coded, seats, pairs, inos) };

    ghost view = { λ p. record {
      limits = p.limits;
      state = record {
        live = p.live;
        base = p.base;
        marks = map_list mark_of p.marks.items;
        acknowledged = p.acknowledged;
        pending = p.pending;
        format = p.format;
        version = p.version;
        next_format = p.next_format;
        mode = p.mode;
        flights = p.flights;
        dirty_pages = p.dirty_pages;
        dirty_nodes = p.dirty_nodes;
        moved = p.moved;
        shrunk = p.shrunk;
        logged = p.logged;
        node_writes = p.node_writes;
        data_writes = p.data_writes;
        entries = length p.history.entries;
      };
      entries = p.history.entries;
      choices = p.history.choices;
      blocks = p.blocks;
    } };

    ghost invariant = { λ p. p.node_writes + p.data_writes ≤ length p.history.entries };
}

impl Plain {
    /// The state in which nothing is known but what a mount will find: a tree that is the base too, no mark, and the
    /// format and the version of the base's checkpoint. It takes no memory.
    pub fn initial(
        alloc: Global,
        limits: Limits,
        live: Tree,
        base: Tree,
        format: Format,
        version: u64,
    ) -> Plain
        requires { live ≡ base }
        ensures { result ≡ record { limits = limits; state = initial (record { base = base; marks = []; format = format; version = version }); entries = []; choices = []; blocks = 0 } }
    {
        Plain {
            limits,
            live,
            base,
            marks: Vec::new(alloc),
            acknowledged: 0,
            pending: None,
            format,
            version,
            next_format: format,
            mode: Mode::Shut,
            flights: Flights::new(alloc),
            dirty_pages: Pairs::new(alloc),
            dirty_nodes: Pairs::new(alloc),
            moved: Inos::new(alloc),
            shrunk: Inos::new(alloc),
            logged: Inos::new(alloc),
            node_writes: 0,
            data_writes: 0,
            history: Log::new(alloc),
            blocks: 0,
            alloc,
        }
    }

    /// What the image grants.
    pub fn limits(&self) -> Limits
        ensures { result ≡ self.now.limits }
    {
        self.limits
    }

    /// The tree that calls see.
    pub fn live(&self) -> &Tree
        ensures { result.now ≡ self.now.state.live }
    {
        &self.live
    }

    /// The tree of the last checkpoint.
    pub fn base(&self) -> &Tree
        ensures { result.now ≡ self.now.state.base }
    {
        &self.base
    }

    /// The files fsynced since then, in the order of their marks.
    pub fn marks(&self) -> &[Mark]
        ensures { map_list mark_of result.now ≡ self.now.state.marks }
    {
        self.marks.as_slice()
    }

    /// The place after the last acknowledged mark.
    pub fn acknowledged(&self) -> usize
        ensures { result ≡ self.now.state.acknowledged }
    {
        self.acknowledged
    }

    /// The tree of a checkpoint whose tail was written.
    pub fn pending(&self) -> Option<&Tree>
        ensures { option_copied result ≡ self.now.state.pending }
    {
        self.pending.as_ref()
    }

    /// The format of the base's checkpoint.
    pub fn format(&self) -> Format
        ensures { result ≡ self.now.state.format }
    {
        self.format
    }

    /// Whether the volume is open.
    pub fn mode(&self) -> Mode
        ensures { result ≡ self.now.state.mode }
    {
        self.mode
    }

    /// The calls in flight.
    pub fn flights(&self) -> &Flights
        ensures { result.now ≡ self.now.state.flights }
    {
        &self.flights
    }

    /// The pages of files that a call touched since their last write.
    pub fn dirty_pages(&self) -> &Pairs
        ensures { result.now ≡ self.now.state.dirty_pages }
    {
        &self.dirty_pages
    }

    /// The direct nodes of files that are to be written.
    pub fn dirty_nodes(&self) -> &Pairs
        ensures { result.now ≡ self.now.state.dirty_nodes }
    {
        &self.dirty_nodes
    }

    /// The files that a rename moved since the last checkpoint.
    pub fn moved(&self) -> &Inos
        ensures { result.now ≡ self.now.state.moved }
    {
        &self.moved
    }

    /// The files of which a truncate emptied a direct node since the last checkpoint.
    pub fn shrunk(&self) -> &Inos
        ensures { result.now ≡ self.now.state.shrunk }
    {
        &self.shrunk
    }

    /// The files with a node block in the node log since the last checkpoint.
    pub fn logged(&self) -> &Inos
        ensures { result.now ≡ self.now.state.logged }
    {
        &self.logged
    }

    /// The positions of the node log that were drawn since the last checkpoint.
    pub fn node_writes(&self) -> usize
        ensures { result ≡ self.now.state.node_writes }
    {
        self.node_writes
    }

    /// The data blocks written since the last checkpoint.
    pub fn data_writes(&self) -> usize
        ensures { result ≡ self.now.state.data_writes }
    {
        self.data_writes
    }

    /// The number of entries of the history.
    pub fn entries(&self) -> usize
        ensures { result ≡ self.now.state.entries }
    {
        self.history.len()
    }

    /// The history.
    pub fn history(&self) -> &Log
        ensures entries { result.now.entries ≡ self.now.entries }
        ensures choices { result.now.choices ≡ self.now.choices }
    {
        &self.history
    }

    /// How many blocks the checkpoint in flight still writes before its tail.
    pub fn blocks(&self) -> u32
        ensures { result ≡ self.now.blocks }
    {
        self.blocks
    }
}
