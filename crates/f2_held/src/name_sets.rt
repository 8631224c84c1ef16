//! The names in a directory.
ghost use Rattle.std.specs.Prelude.{◌≡◌, ◌<◌, ◌≤◌, ◌^◌, OnOk, OnErr, IfOk, IfSome, IfNone, List, ℕ, false, ◌++◌, ◌∷◌, take, drop, All, length, true};
ghost use Rattle.std.specs.List.Sorted.{IsStrictlySortedBy};
ghost use Rattle.std.specs.Ordering.{nat_cmp};
ghost use Rattle.std.specs.Cmp.Lexicographic.{slice_cmp};
ghost use Rattle.std.specs.FinMap as map;
ghost use Rattle.f2_format.specs.Packing.{place_reached};
ghost use Rattle.f2_held.specs.Taken.{names_from, and_name, without_name, of_names};
ghost use Rattle.f2_held.specs.Sums.{IsNameSet, IsSmall, IsPlaceFor, IsPlaceOf, of_blocks, with_at};
ghost use Rattle.std.specs.List.{remove};

use crate::both::Both;
use crate::first_pages::nodes_of_first;
use crate::packing::{NOTHING_PACKED, Reach};
use f2_model::Name;
use std::alloc::{AllocError, Global};
use std::cmp::Ordering;
use std::marker::Model;

/// The most blocks of a directory, far beyond those for which there could be memory.
const MOST_BLOCKS: u64 = 1 << 29;

/// The names in a directory, and how far they fill its blocks.
#[derive(Debug, Drop)]
pub struct NameSet {
    names: Vec<Name>,
    reach: Reach,
    alloc: Global,
}

impl Model for NameSet {
    ghost use Rattle.f2_held.specs.Taken.{Names, names_from};
    ghost use Rattle.f2_held.specs.Sums.{IsNameSet, names_code};

    ghost Value = { Names };

    ghost coded = { names_code };

    ghost view = { λ s. names_from s.names.items };

    ghost invariant = { λ s. IsNameSet s.names.items s.reach };
}

impl NameSet {
    /// No name, which takes no memory.
    pub fn new(alloc: Global) -> NameSet
        ensures { result ≡ map.empty }
    {
        NameSet {
            names: Vec::new(alloc),
            reach: NOTHING_PACKED,
            alloc,
        }
    }

    /// What a directory takes with these names.
    pub fn size(&self) -> Both
        ensures size { result ≡ of_names self.now }
        ensures small { IsSmall result }
    {
        let reach = self.reach;
        size_of(reach.blocks)
    }

    /// What a directory takes with these names and one more. It fails only where that would be more
    /// blocks than there could be memory for.
    pub fn size_with(&self, name: &Name) -> Result<Both, AllocError>
        requires { length name.now ≤ 255 }
        ensures size { IfOk result (λ size. size ≡ of_names (and_name self.now name.now)) }
        ensures small { IfOk result IsSmall }
    {
        let Some(at) = place_for(&self.names, name) else {
            return Ok(self.size());
        };
        let reach = reach_with(&self.names, self.reach, at, name);
        if reach.blocks > MOST_BLOCKS {
            return Err(AllocError);
        }
        Ok(size_of(reach.blocks))
    }

    /// Puts a name in, where it isn't there. Where memory is refused the names stay as they were.
    ///
    /// A name behind all others costs no walk over them.
    pub fn bind(&mut self, name: &Name) -> Result<(), AllocError>
        requires { length name.now ≤ 255 }
        ensures ok { OnOk result (self.new ≡ and_name self.old name.now) }
        ensures err { OnErr result (self.new ≡ self.old) }
    {
        let Some(at) = place_for(&self.names, name) else {
            return Ok(());
        };
        let reach = reach_with(&self.names, self.reach, at, name);
        if reach.blocks > MOST_BLOCKS {
            return Err(AllocError);
        }
        let name = name.copy(self.alloc)?;
        self.names.insert(at, name)?;
        self.reach = reach;
        Ok(())
    }

    /// Takes a name out, where it is there. It walks over the names, and asks for no memory.
    pub fn leave(&mut self, name: &Name)
        ensures { self.new ≡ without_name self.old name.now }
    {
        let Some(at) = place_of(&self.names, name) else {
            return;
        };
        self.reach = reach_without(&self.names, self.reach, at);
        self.names.remove(at);
    }
}

/// What a directory of so many blocks takes.
fn size_of(blocks: u64) -> Both
    requires { blocks ≤ 2 ^ 29 }
    ensures size { result ≡ of_blocks blocks }
    ensures small { IsSmall result }
{
    Both {
        nodes: nodes_of_first(blocks),
        pages: blocks,
    }
}

/// Where a name has to stand among names in order, or `None` where it is there.
fn place_for(names: &[Name], name: &Name) -> Option<usize>
    requires { IsStrictlySortedBy (slice_cmp nat_cmp) names.now }
    ensures there { IfNone result (map.contains_key (names_from names.now) name.now ≡ true) }
    ensures place { IfSome result (IsPlaceFor name.now names.now) }
{
    let found = names.binary_search_by(
        |other: &Name| -> Ordering
            ensures { result ≡ slice_cmp nat_cmp other.now name.entry.now }
        { other.compare(name) },
    );
    match found {
        Ok(_) => None,
        Err(at) => Some(at),
    }
}

/// Where a name stands among names in order, or `None` where it isn't there.
fn place_of(names: &[Name], name: &Name) -> Option<usize>
    requires { IsStrictlySortedBy (slice_cmp nat_cmp) names.now }
    ensures absent { IfNone result (map.contains_key (names_from names.now) name.now ≡ false) }
    ensures place { IfSome result (IsPlaceOf name.now names.now) }
{
    let found = names.binary_search_by(
        |other: &Name| -> Ordering
            ensures { result ≡ slice_cmp nat_cmp other.now name.entry.now }
        { other.compare(name) },
    );
    match found {
        Ok(at) => Some(at),
        Err(_) => None,
    }
}

/// How far names fill a directory with one more at a place. Behind all others it goes on from where
/// they reach.
fn reach_with(names: &[Name], reach: Reach, at: usize, name: &Name) -> Reach
    requires names { IsNameSet names.now reach }
    requires at { at ≤ length names.now }
    requires name { length name.now ≤ 255 }
    requires fits { length names.now < 2 ^ 62 }
    ensures place { result ≡ place_reached (with_at names.now at name.now) }
    ensures slots { result.1 ≤ 214 }
{
    if at == names.len() {
        return reach.after(name);
    }
    NOTHING_PACKED
        .after_all(&names[..at])
        .after(name)
        .after_all(&names[at..])
}

/// How far names fill a directory without the one at a place.
fn reach_without(names: &[Name], reach: Reach, at: usize) -> Reach
    requires names { IsNameSet names.now reach }
    requires at { at < length names.now }
    requires fits { length names.now < 2 ^ 62 }
    ensures place { result ≡ place_reached (remove names.now at) }
    ensures slots { result.1 ≤ 214 }
{
    NOTHING_PACKED
        .after_all(&names[..at])
        .after_all(&names[at + 1..])
}
