//! The pages of a file.
ghost use Rattle.std.specs.Prelude.{◌≡◌, ◌^◌, ◌<◌, ◌≤◌, OnOk, OnErr, IfOk, IsSome, nat_lt};
ghost use Rattle.std.specs.FinMap as map;
ghost use Rattle.std.specs.Option.{option_copied, option_map};
ghost use Rattle.f2_model.specs.Content.{PAGE, filled, page_of};

use crate::lists::{Items, Numbers};
use std::alloc::{AllocError, Global};
use std::collections::BTreeMap;
use std::marker::Model;

/// The bytes of one block, and of one page.
pub type Block = [u8; 4096];

/// Puts one byte at each place of a block from one up to another.
fn fill(content: &mut Block, from: usize, to: usize, byte: u8)
    requires order { from ≤ to }
    requires within { to ≤ PAGE }
    ensures { content.new ≡ filled content.old from to byte }
{
    content[from..to].fill(byte);
}

/// The pages of a file, by their numbers.
#[derive(Debug, Drop)]
pub struct Pages {
    pages: BTreeMap<u32, Box<Block>>,
    alloc: Global,
}

impl Model for Pages {
    ghost use Rattle.std.specs.Prelude.{List, ℕ, map as map_list};
    ghost use Rattle.std.specs.Ordering.{nat_cmp};
    ghost use Rattle.std.specs.FinMap as map;
    ghost use Rattle.std.specs.Coded.{coded_ℕ, coded_list};

    ghost Value = { map.FinMap nat_cmp (List ℕ) };

    ghost coded = { map.code coded_ℕ (coded_list coded_ℕ) };

    ghost view = { λ p. map.from_entries (map_list (λ e. (e.0, e.1.value)) p.pages.entries) };
}

impl Pages {
    /// No page, which takes no memory.
    pub fn new(alloc: Global) -> Pages
        ensures { result ≡ map.empty }
    {
        Pages {
            pages: BTreeMap::new(alloc),
            alloc,
        }
    }

    /// The number of pages.
    pub fn len(&self) -> usize
        ensures len { result ≡ map.len self.now }
        ensures fits { result < 2 ^ 63 }
    {
        self.pages.len()
    }

    /// The content of a page, or `None` where that page isn't there.
    pub fn get(&self, page: u32) -> Option<&Block>
        ensures { option_copied result ≡ map.get self.now page }
    {
        let content = self.pages.get(&page)?;
        Some(&**content)
    }

    /// Puts the content of a page, in the place of what it held. Where memory is refused the pages
    /// stay as they were.
    pub fn put(&mut self, page: u32, content: &Block) -> Result<(), AllocError>
        ensures ok { OnOk result (self.new ≡ map.insert self.old page content.now) }
        ensures err { OnErr result (self.new ≡ self.old) }
    {
        let content = Box::new(self.alloc, *content)?;
        self.pages.insert(page, content)?;
        Ok(())
    }

    /// Puts one byte at each place of a page from one up to another. The page has to be there; this takes no memory.
    pub fn fill(&mut self, page: u32, from: usize, to: usize, byte: u8)
        requires there { IsSome (map.get self.old page) }
        requires order { from ≤ to }
        requires within { to ≤ PAGE }
        ensures { self.new ≡ map.insert self.old page (filled (page_of self.old page) from to byte) }
    {
        if let Some(content) = self.pages.get_mut(&page) {
            fill(content, from, to, byte);
        }
    }

    /// Takes a page out, where it is there.
    pub fn remove(&mut self, page: u32)
        ensures { self.new ≡ map.remove self.old page }
    {
        self.pages.remove(&page);
    }

    /// The numbers of all pages, rising.
    pub fn numbers(&self) -> Result<Numbers, AllocError>
        ensures { IfOk result (λ numbers. numbers ≡ map.keys self.now) }
    {
        let numbers = self.pages.keys().copied().collect(self.alloc)?;
        Ok(Items::from_vec(numbers))
    }

    /// Takes out the pages from a number on.
    pub fn cut(&mut self, from: u32)
        ensures { self.new ≡ map.retain_keys self.old (λ page. nat_lt page from) }
    {
        self.pages.retain(|page, _| *page < from);
    }
}
