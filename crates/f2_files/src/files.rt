//! What a running volume knows of its files.
ghost use Rattle.std.specs.Prelude.{◌≡◌, ℕ, Some, Ok, IfOk};
ghost use Rattle.std.specs.FinMap as map;
ghost use Rattle.std.specs.Option.{option_copied};
ghost use Rattle.f2_format.specs.Packing.{blocks_of_names};
ghost use Rattle.f2_model.specs.Rising.{rising};
ghost use Rattle.f2_model.specs.Tree.{Rows, IsGoodTree, names_in, walk};
ghost use Rattle.f2_model.specs.Call.{refusal, names_told};
ghost use Rattle.f2_model.specs.declared.replies.Reply.TheVariants as reply;
ghost use Rattle.f2_model.specs.declared.rows.Row.{Row};
ghost use Rattle.f2_model.specs.declared.rows.Kind.TheVariants.{Directory};
ghost use Rattle.f2_files.specs.Known.{known_root};
ghost use Rattle.f2_files.specs.Led.{ino_at};
ghost use Rattle.f2_files.specs.Packed.{names_after};
ghost use Rattle.f2_files.specs.Shape.{IsShapeOf};

use crate::addresses::Addresses;
use crate::directories::Directories;
use crate::pairs::Pairs;
use crate::refusals::refused_by;
use crate::shapes::{Shape, Shapes};
use f2_blocks::Nids;
use f2_flights::{Flights, Inos};
use f2_model::{Kind, Limits, Name, Names, ROOT, Reply, Request};
use std::alloc::{AllocError, Global};
use std::marker::Model;

/// The rows of a volume without the contents of their pages, and what is dirty, moved, shrunk and in flight.
#[derive(Drop)]
pub struct Files {
    pub(crate) shapes: Shapes,
    /// The names of each directory.
    pub(crate) directories: Directories,
    pub(crate) dirty_pages: Pairs,
    pub(crate) dirty_nodes: Pairs,
    pub(crate) moved: Inos,
    pub(crate) shrunk: Inos,
    pub(crate) flights: Flights,
    pub(crate) alloc: Global,
}

impl Model for Files {
    ghost use Rattle.std.specs.Coded.{Coded, codes, coded_ℕ, coded×};
    ghost use Rattle.std.specs.FinMap as map;
    ghost use Rattle.std.specs.FinSet as set;
    ghost use Rattle.std.specs.Ordering.{nat_cmp};
    ghost use Rattle.f2_model.specs.State as machine;
    ghost use Rattle.f2_files.specs.contracts.shapes.Shapes as coded_shapes;
    ghost use Rattle.f2_files.specs.Known.{Known};
    ghost use Rattle.f2_files.specs.Led.{BindsNames};

    ghost Value = { Known };

    ghost coded = { let seats : Coded (map.FinMap nat_cmp machine.Flight) = map.code coded_ℕ (Prim.hlevel codes) in
        let pairs : Coded machine.Pairs = set.code (coded× coded_ℕ coded_ℕ) in
        let inos : Coded machine.Inos = set.code coded_ℕ in
        Prim.hlevel (codes, coded_shapes.the_row.coded, seats, pairs, inos) };

    ghost view = { λ f. record {
      shapes = f.shapes;
      dirty_pages = f.dirty_pages;
      dirty_nodes = f.dirty_nodes;
      moved = f.moved;
      shrunk = f.shrunk;
      flights = f.flights;
    } };

    ghost invariant = { λ f. BindsNames f.shapes f.directories };
}

impl Files {
    /// The ino at the end of a path, or the refusal of the first part that has no entry.
    pub fn walk(&self, path: &[Name]) -> Result<u32, Reply>
        ensures { (most : ℕ) (tree : Rows) → IsGoodTree most tree → IsShapeOf self.now.shapes tree → result ≡ ino_at (walk tree path.now) }
    {
        self.directories.ino_led(path)
    }

    /// The first refusal of a call, or `None` where there is none; want of space is asked apart.
    pub fn refusal(&self, limits: Limits, request: &Request) -> Option<Reply>
        ensures { (most : ℕ) (tree : Rows) → IsGoodTree most tree → IsShapeOf self.now.shapes tree → result ≡ refusal limits tree request.now }
    {
        refused_by(limits, &self.directories, request)
    }

    /// The names in a directory, in byte order.
    pub fn names(&self, ino: u32) -> Result<Names, AllocError>
        ensures { (most : ℕ) (tree : Rows) (row : Row) → IsGoodTree most tree → IsShapeOf self.now.shapes tree → map.get tree ino ≡ Some row → row.kind ≡ Directory
            → IfOk result (λ names. reply.Names names ≡ names_told tree (Ok row)) }
    {
        self.directories.list(ino)
    }

    /// The dentry blocks that the names of a directory fill after one left and one came, which stays where it is there
    /// already.
    ///
    /// It takes no memory and goes over all names of that directory, since no count of its blocks is kept.
    pub fn blocks_after(&self, directory: u32, gone: Option<&Name>, come: Option<&Name>) -> u64
        ensures { (most : ℕ) (tree : Rows) (row : Row) → IsGoodTree most tree → IsShapeOf self.now.shapes tree → map.get tree directory ≡ Some row → row.kind ≡ Directory
            → result ≡ blocks_of_names (rising (names_after (option_copied gone.entry) (option_copied come.entry) (names_in (map.values tree) directory))) }
    {
        self.directories.blocks_after(directory, gone, come)
    }

    /// What is known of the tree of the root alone: nothing is dirty, moved, shrunk or in flight.
    pub fn root_alone(alloc: Global) -> Result<Files, AllocError>
        ensures { IfOk result (λ files. files ≡ known_root) }
    {
        let mut shapes = Shapes::new(alloc);
        shapes.put(Shape {
            ino: ROOT,
            kind: Kind::Directory,
            parent: ROOT,
            name: Name::new(alloc),
            size: 0,
            pages: Addresses::new(alloc),
            nids: Nids::new(alloc),
        })?;
        let mut directories = Directories::new(alloc);
        directories.add(ROOT)?;
        Ok(Files {
            shapes,
            directories,
            dirty_pages: Pairs::new(alloc),
            dirty_nodes: Pairs::new(alloc),
            moved: Inos::new(alloc),
            shrunk: Inos::new(alloc),
            flights: Flights::new(alloc),
            alloc,
        })
    }
}
