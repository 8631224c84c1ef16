//! Where the pages of a file stand.
ghost use Rattle.std.specs.Prelude.{◌≡◌, ◌≤◌, ◌<◌, ◌^◌, ℕ, None, Some, IfNone, IfSome, IfOk, OnOk, OnErr, map as map_list};
ghost use Rattle.std.specs.FinMap as map;

use f2_recover::PageAt;
use std::alloc::{AllocError, Global};
use std::collections::BTreeMap;
use std::marker::Model;

/// The address of each page of a file that has a block.
#[derive(Debug, Drop)]
pub struct Addresses {
    pages: BTreeMap<u32, u32>,
}

impl Model for Addresses {
    ghost use Rattle.std.specs.Prelude.{ℕ};
    ghost use Rattle.std.specs.Ordering.{nat_cmp};
    ghost use Rattle.std.specs.Coded.{coded_ℕ};
    ghost use Rattle.std.specs.FinMap as map;

    ghost Value = { map.FinMap nat_cmp ℕ };

    ghost coded = { map.code coded_ℕ coded_ℕ };

    ghost view = { λ a. map.from_entries a.pages.entries };
}

impl Addresses {
    /// No pages, which takes no memory.
    pub fn new(alloc: Global) -> Addresses
        ensures { result ≡ map.empty }
    {
        Addresses {
            pages: BTreeMap::new(alloc),
        }
    }

    /// The address of a page, or `None` where the page isn't there.
    pub fn get(&self, page: u32) -> Option<u32>
        ensures { result ≡ map.get self.now page }
    {
        self.pages.get(&page).copied()
    }

    /// How many pages there are.
    pub fn len(&self) -> usize
        ensures len { result ≡ map.len self.now }
        ensures fits { result < 2 ^ 63 }
    {
        self.pages.len()
    }

    /// The last page, with its address, or `None` where there is no page.
    pub(crate) fn last(&self) -> Option<(u32, u32)>
        ensures there { IfSome result (λ last. map.get self.now last.0 ≡ Some last.1) }
        ensures last { IfSome result (λ last. (page at : ℕ) → map.get self.now page ≡ Some at → page ≤ last.0) }
        ensures none { IfNone result ((page : ℕ) → map.get self.now page ≡ None) }
    {
        let (page, at) = self.pages.last_key_value()?;
        Some((*page, *at))
    }

    /// The pages with their addresses, rising.
    pub fn listed(&self, alloc: Global) -> Result<Vec<PageAt>, AllocError>
        ensures { IfOk result (λ list. list.items ≡ map_list (λ entry. record { page = entry.0; at = entry.1 }) (map.entries self.now)) }
    {
        let mut list = Vec::with_capacity(alloc, self.pages.len())?;
        for (page, at) in &self.pages {
            list.push(PageAt {
                page: *page,
                at: *at,
            })?;
        }
        Ok(list)
    }

    /// Sets the address of a page. Only a page that is new takes memory; an error changes nothing.
    pub fn set(&mut self, page: u32, at: u32) -> Result<(), AllocError>
        ensures ok { OnOk result (self.new ≡ map.insert self.old page at) }
        ensures err { OnErr result (self.new ≡ self.old) }
        ensures only_new { OnErr result (map.get self.old page ≡ None) }
    {
        self.pages.insert(page, at)?;
        Ok(())
    }

    /// Takes a page out, where it is there.
    pub fn remove(&mut self, page: u32)
        ensures { self.new ≡ map.remove self.old page }
    {
        self.pages.remove(&page);
    }
}
