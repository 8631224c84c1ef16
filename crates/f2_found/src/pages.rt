//! Where the pages of a row stand.
ghost use Rattle.std.specs.Prelude.{◌≡◌, ◌++◌, ◌∷◌, [], IfOk, OnOk, OnErr, true};
ghost use Rattle.f2_found.specs.Pages.{AreInOrder, IsNext, numbers_of};

use f2_recover::PageAt;
use std::alloc::{AllocError, Global};
use std::marker::Model;

/// The pages of a file, rising, each with its address.
#[derive(Drop)]
pub struct FoundPages {
    list: Vec<PageAt>,
    alloc: Global,
}

impl Model for FoundPages {
    ghost use Rattle.std.specs.Prelude.{List};
    ghost use Rattle.std.specs.Coded.{coded_list};
    ghost use Rattle.f2_recover.specs.declared.nodes.PageAt.{PageAt};
    ghost use Rattle.f2_recover.specs.contracts.nodes.PageAt as page;
    ghost use Rattle.f2_found.specs.Pages.{AreInOrder};

    ghost Value = { List PageAt };

    ghost coded = { coded_list page.the_row.coded };

    ghost view = { λ p. p.list.items };

    ghost invariant = { λ p. AreInOrder p.list.items };
}

impl FoundPages {
    /// No pages, which takes no memory.
    pub fn new(alloc: Global) -> FoundPages
        ensures { result ≡ [] }
    {
        FoundPages {
            list: Vec::new(alloc),
            alloc,
        }
    }

    /// Whether a page can come behind all others.
    pub(crate) fn is_next(&self, page: u32) -> bool
        ensures next { result ≡ true → IsNext self.now page }
        ensures passed { IsNext self.now page → result ≡ true }
    {
        let within = u64::from(page) < f2_shape::PAGE_LIMIT;
        match self.list.last() {
            Some(last) => within && last.page < page,
            None => within,
        }
    }

    /// Puts a page behind all others. Where memory is refused nothing changes.
    pub(crate) fn push(&mut self, listed: PageAt) -> Result<(), AllocError>
        requires { IsNext self.old listed.page }
        ensures ok { OnOk result (self.new ≡ self.old ++ listed ∷ []) }
        ensures err { OnErr result (self.new ≡ self.old) }
    {
        self.list.push(listed)?;
        Ok(())
    }

    /// The pages, rising.
    pub fn as_slice(&self) -> &[PageAt]
        ensures list { result.now ≡ self.now }
        ensures order { AreInOrder result.now }
    {
        self.list.as_slice()
    }

    /// The numbers of the pages.
    pub fn numbers(&self) -> Result<Vec<u64>, AllocError>
        ensures numbers { IfOk result (λ numbers. numbers.items ≡ numbers_of self.now) }
        ensures order { AreInOrder self.now }
    {
        let mut numbers = Vec::with_capacity(self.alloc, self.list.len())?;
        for listed in &self.list {
            numbers.push(u64::from(listed.page))?;
        }
        Ok(numbers)
    }
}
