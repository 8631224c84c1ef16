//! Paths: what makes one good, and copies of them.
ghost use Rattle.std.specs.Prelude.{◌≡◌, IfOk};
ghost use Rattle.std.specs.List.{list_all};
ghost use Rattle.f2_model.specs.Names.{is_good_name, is_good_path};

use crate::lists::Items;
use std::alloc::{AllocError, Global};

impl Items<Items<u8>> {
    /// An equal path.
    pub fn copy(&self, alloc: Global) -> Result<Items<Items<u8>>, AllocError>
        ensures { IfOk result (λ path. path ≡ self.now) }
    {
        let mut path = Items::new(alloc);
        for name in self.as_slice() {
            path.push(name.copy(alloc)?)?;
        }
        Ok(path)
    }

    /// Whether it has at most 16 names, all of them good.
    pub fn is_good(&self) -> bool
        ensures { result ≡ is_good_path self.now }
    {
        self.len() <= 16 && are_good(self.as_slice())
    }
}

/// Whether each name is good.
fn are_good(names: &[Items<u8>]) -> bool
    ensures { result ≡ list_all is_good_name names.now }
{
    names.iter().all(|name| name.is_good())
}
