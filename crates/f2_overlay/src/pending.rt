//! The newest blocks of the nodes of files since their last marks.
ghost use Rattle.std.specs.Prelude.{◌≡◌, ◌+◌, ℕ, None, Some, IfNone, IfSome, OnOk};
ghost use Rattle.std.specs.FinMap as map;
ghost use Rattle.f2_overlay.specs.Pending.{place_of, IsNoted, IsLeft};

use std::alloc::{AllocError, Global};
use std::collections::BTreeMap;
use std::marker::Model;

/// The newest blocks of the nodes of a file: their places in the node log, by the nodes' offsets.
#[derive(Drop)]
pub(crate) struct Newest {
    places: BTreeMap<u32, u32>,
}

impl Model for Newest {
    ghost use Rattle.std.specs.Prelude.{ℕ};
    ghost use Rattle.std.specs.Ordering.{nat_cmp};
    ghost use Rattle.std.specs.Coded.{coded_ℕ};
    ghost use Rattle.std.specs.FinMap as map;

    ghost Value = { map.FinMap nat_cmp ℕ };

    ghost coded = { map.code coded_ℕ coded_ℕ };

    ghost view = { λ n. map.from_entries n.places.entries };
}

impl Newest {
    /// No blocks, which takes no memory.
    pub(crate) fn new(alloc: Global) -> Newest
        ensures { result ≡ map.empty }
    {
        Newest {
            places: BTreeMap::new(alloc),
        }
    }

    /// Puts the place of a node's block, in place of one that is there.
    fn put(&mut self, offset: u32, place: u32) -> Result<(), AllocError>
        ensures { OnOk result (self.new ≡ map.insert self.old offset place) }
    {
        self.places.insert(offset, place)?;
        Ok(())
    }

    /// Takes out a node with the place of its block, or gives `None` where none is left.
    pub(crate) fn take_one(&mut self) -> Option<(u32, u32)>
        ensures taken { IfSome result (λ one. map.get self.old one.0 ≡ Some one.1) }
        ensures left { IfSome result (λ one. self.new ≡ map.remove self.old one.0) }
        ensures fewer { IfSome result (λ _. map.len self.old ≡ map.len self.new + 1) }
        ensures none { IfNone result ((offset : ℕ) → map.get self.old offset ≡ None) }
    {
        self.places.pop_first()
    }
}

/// The newest blocks of the nodes of all files, by the files' inos.
#[derive(Drop)]
pub(crate) struct Pending {
    files: BTreeMap<u32, Newest>,
    alloc: Global,
}

impl Model for Pending {
    ghost use Rattle.std.specs.Prelude.{ℕ};
    ghost use Rattle.std.specs.Ordering.{nat_cmp};
    ghost use Rattle.std.specs.Coded.{coded_ℕ};
    ghost use Rattle.std.specs.FinMap as map;

    ghost Value = { map.FinMap nat_cmp (map.FinMap nat_cmp ℕ) };

    ghost coded = { map.code coded_ℕ (map.code coded_ℕ coded_ℕ) };

    ghost view = { λ p. map.from_entries p.files.entries };
}

impl Pending {
    /// No blocks, which takes no memory.
    pub(crate) fn new(alloc: Global) -> Pending
        ensures { result ≡ map.empty }
    {
        Pending {
            files: BTreeMap::new(alloc),
            alloc,
        }
    }

    /// Puts the place of a block of a file's node, in place of one that is there.
    pub(crate) fn note(&mut self, ino: u32, offset: u32, place: u32) -> Result<(), AllocError>
        ensures { OnOk result (IsNoted self.old self.new ino offset place) }
    {
        let mut newest = self.take(ino);
        newest.put(offset, place)?;
        self.files.insert(ino, newest)?;
        Ok(())
    }

    /// Takes out all blocks of a file.
    pub(crate) fn take(&mut self, ino: u32) -> Newest
        ensures taken { (offset : ℕ) → map.get result offset ≡ place_of self.old ino offset }
        ensures left { IsLeft self.old self.new ino }
    {
        match self.files.remove(&ino) {
            Some(newest) => newest,
            None => Newest::new(self.alloc),
        }
    }
}
