//! Where the pages of a file stand, whoever keeps it.
ghost use Rattle.std.specs.Prelude.{◌≡◌, ℕ};
ghost use Rattle.std.specs.Ordering.{nat_cmp};
ghost use Rattle.std.specs.FinMap as map;

use f2_index::Index;

/// The pages of a file with their addresses, as a layer keeps them.
pub trait PageAddresses {
    /// The map from page to address.
    ghost addresses: { Self → map.FinMap nat_cmp ℕ };

    /// The address of a page, or `None` where the file hasn't the page.
    fn address(&self, page: u32) -> Option<u32>
        ensures { result ≡ map.get (addresses self.now) page };
}

impl PageAddresses for Index {
    ghost addresses = { λ index. index.pages };

    fn address(&self, page: u32) -> Option<u32> {
        self.get(page)
    }
}
