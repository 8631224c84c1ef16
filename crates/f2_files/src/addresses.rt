//! Where the pages of a file stand.
ghost use Rattle.std.specs.Prelude.{◌≡◌, ◌++◌, ◌∷◌, [], ◌<◌, ◌^◌, ◌&&◌, not, None, OnOk, OnErr, IfOk, nat_lt};
ghost use Rattle.std.specs.List.{filter, list_any};
ghost use Rattle.std.specs.FinMap as map;
ghost use Rattle.f2_files.specs.Near.{IsMaybeFirstFrom, IsMaybeLastTo};
ghost use Rattle.f2_files.specs.Shape.{first_pages, with_all_pages, without_all_pages};

use std::alloc::{AllocError, Global};
use std::collections::BTreeMap;
use std::marker::Model;

/// The address of each page of a file, 0 for a page that was never written.
#[derive(Debug, Drop)]
pub struct Addresses {
    pages: BTreeMap<u32, u32>,
}

impl Model for Addresses {
    ghost use Rattle.std.specs.Prelude.{ℕ};
    ghost use Rattle.std.specs.Ordering.{nat_cmp};
    ghost use Rattle.std.specs.Coded.{coded_ℕ};
    ghost use Rattle.std.specs.FinMap as map;

    ghost Value = { map.FinMap nat_cmp ℕ };

    ghost coded = { map.code coded_ℕ coded_ℕ };

    ghost view = { λ a. map.from_entries a.pages.entries };
}

impl Addresses {
    /// No pages, which takes no memory.
    pub fn new(alloc: Global) -> Addresses
        ensures { result ≡ map.empty }
    {
        Addresses {
            pages: BTreeMap::new(alloc),
        }
    }

    /// The address of a page, or `None` where the page isn't there.
    pub fn get(&self, page: u32) -> Option<u32>
        ensures { result ≡ map.get self.now page }
    {
        self.pages.get(&page).copied()
    }

    /// Whether a page is there.
    pub fn contains(&self, page: u32) -> bool
        ensures { result ≡ map.contains_key self.now page }
    {
        self.get(page).is_some()
    }

    /// How many pages there are.
    pub fn len(&self) -> usize
        ensures len { result ≡ map.len self.now }
        ensures fits { result < 2 ^ 63 }
    {
        self.pages.len()
    }

    /// The numbers of all pages, rising.
    pub fn numbers(&self, alloc: Global) -> Result<Vec<u64>, AllocError>
        ensures { IfOk result (λ numbers. numbers.items ≡ map.keys self.now) }
    {
        self.pages
            .keys()
            .map(|page| u64::from(*page))
            .collect(alloc)
    }

    /// Sets the address of a page. Only a page that is new takes memory; an error changes nothing.
    pub fn set(&mut self, page: u32, at: u32) -> Result<(), AllocError>
        ensures ok { OnOk result (self.new ≡ map.insert self.old page at) }
        ensures err { OnErr result (self.new ≡ self.old) }
        ensures only_new { OnErr result (map.get self.old page ≡ None) }
    {
        self.pages.insert(page, at)?;
        Ok(())
    }

    /// Takes a page out, where it is there.
    pub fn remove(&mut self, page: u32)
        ensures { self.new ≡ map.remove self.old page }
    {
        self.pages.remove(&page);
    }

    /// Takes out the pages from a number on.
    pub fn cut(&mut self, from: u32)
        ensures { self.new ≡ map.retain_keys self.old (λ page. nat_lt page from) }
    {
        self.pages.retain(|page, _| *page < from);
    }

    /// The pages from a number on, rising.
    pub fn numbers_from(&self, alloc: Global, from: u32) -> Result<Vec<u32>, AllocError>
        ensures { IfOk result (λ numbers. numbers.items ≡ filter (λ page. not (nat_lt page from)) (map.keys self.now)) }
    {
        self.pages
            .range(from..)
            .map(|(page, _)| *page)
            .collect(alloc)
    }

    /// The last page up to a number, or `None` where there is none.
    pub fn last_to(&self, to: u32) -> Option<u32>
        ensures { IsMaybeLastTo self.now to result }
    {
        match self.pages.range(..=to).next_back() {
            Some((page, _)) => Some(*page),
            None => None,
        }
    }

    /// The first page from a number on, or `None` where there is none.
    pub fn first_from(&self, from: u32) -> Option<u32>
        ensures { IsMaybeFirstFrom self.now from result }
    {
        match self.pages.range(from..).next() {
            Some((page, _)) => Some(*page),
            None => None,
        }
    }

    /// Whether there is a page from one number up to another.
    pub(crate) fn has_between(&self, from: u32, to: u32) -> bool
        ensures { result ≡ list_any (λ page. not (nat_lt page from) && nat_lt page to) (map.keys self.now) }
    {
        from < to && self.pages.range(from..to).next().is_some()
    }

    /// Takes out pages, where they are there.
    pub(crate) fn remove_all(&mut self, numbers: &[u32])
        ensures { self.new ≡ without_all_pages self.old numbers.now }
    {
        for page in numbers {
            self.remove(*page);
        }
    }

    /// Puts a page that isn't there at the address 0, and appends it to those that were added. Where memory is refused
    /// nothing changes.
    fn add(&mut self, added: &mut Vec<u32>, page: u32) -> Result<(), AllocError>
        ensures pages { OnOk result (self.new ≡ map.insert self.old page 0) }
        ensures added { OnOk result (added.new.items ≡ added.old.items ++ page ∷ []) }
        ensures err_pages { OnErr result (self.new ≡ self.old) }
        ensures err_added { OnErr result (added.new.items ≡ added.old.items) }
    {
        added.push(page)?;
        match self.set(page, 0) {
            Ok(()) => Ok(()),
            Err(error) => {
                added.pop();
                Err(error)
            }
        }
    }

    /// Puts pages at the address 0 where they aren't there, and appends these to an empty list. Where memory is refused
    /// some of them are in.
    fn add_each(&mut self, added: &mut Vec<u32>, numbers: &[u32]) -> Result<(), AllocError>
        requires { added.old.items ≡ [] }
        ensures all { OnOk result (self.new ≡ with_all_pages self.old numbers.now) }
        ensures undo { without_all_pages self.new added.new.items ≡ self.old }
    {
        for page in numbers {
            if !self.contains(*page) {
                self.add(added, *page)?;
            }
        }
        Ok(())
    }

    /// Puts pages at the address 0 where they aren't there. Where memory is refused nothing changes.
    pub(crate) fn add_all(&mut self, alloc: Global, numbers: &[u32]) -> Result<(), AllocError>
        ensures all { OnOk result (self.new ≡ with_all_pages self.old numbers.now) }
        ensures err { OnErr result (self.new ≡ self.old) }
    {
        let mut added = Vec::new(alloc);
        match self.add_each(&mut added, numbers) {
            Ok(()) => Ok(()),
            Err(error) => {
                self.remove_all(added.as_slice());
                Err(error)
            }
        }
    }

    /// Makes the pages those below a number: those that are there keep their addresses, the others have the address 0.
    /// Where memory is refused nothing changes.
    pub(crate) fn resize(&mut self, alloc: Global, end: u32) -> Result<(), AllocError>
        ensures ok { OnOk result (self.new ≡ first_pages end self.old) }
        ensures err { OnErr result (self.new ≡ self.old) }
    {
        let numbers: Vec<u32> = (0..end).collect(alloc)?;
        self.add_all(alloc, numbers.as_slice())?;
        self.cut(end);
        Ok(())
    }
}
