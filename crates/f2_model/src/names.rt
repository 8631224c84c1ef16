//! Names: what makes one good, and how two compare.
ghost use Rattle.std.specs.Prelude.{◌≡◌, ◌↔◌, IfOk, IsTrue};
ghost use Rattle.std.specs.List.{list_all};
ghost use Rattle.std.specs.Ordering.{nat_cmp};
ghost use Rattle.std.specs.Cmp.Lexicographic.{slice_cmp};
ghost use Rattle.f2_model.specs.Names.{is_name_byte, is_dots, is_good_name};

use crate::lists::Items;
use std::alloc::{AllocError, Global};
use std::cmp::Ordering;

impl Items<u8> {
    /// An equal name.
    pub fn copy(&self, alloc: Global) -> Result<Items<u8>, AllocError>
        ensures { IfOk result (λ name. name ≡ self.now) }
    {
        Items::from_slice(alloc, self.as_slice())
    }

    /// Whether it has 1 to 255 bytes, none of them 0 or `/`, and is neither `.` nor `..`.
    pub fn is_good(&self) -> bool
        ensures { result ≡ is_good_name self.now }
    {
        let bytes = self.as_slice();
        if bytes.is_empty() || bytes.len() > 255 {
            return false;
        }
        has_name_bytes(bytes) && !is_dots(bytes)
    }

    /// Whether two names have the same bytes.
    pub fn is_same(&self, other: &Items<u8>) -> bool
        ensures { IsTrue result ↔ (self.now ≡ other.now) }
    {
        self.as_slice() == other.as_slice()
    }

    /// How two names stand to each other in the order of their bytes.
    pub fn compare(&self, other: &Items<u8>) -> Ordering
        ensures { result ≡ slice_cmp nat_cmp self.now other.now }
    {
        self.as_slice().cmp(other.as_slice())
    }
}

/// Whether each byte may stand in a name.
fn has_name_bytes(bytes: &[u8]) -> bool
    ensures { result ≡ list_all is_name_byte bytes.now }
{
    bytes.iter().all(|byte| *byte != 0 && *byte != b'/')
}

/// Whether a name is `.` or `..`.
fn is_dots(name: &[u8]) -> bool
    ensures { result ≡ is_dots name.now }
{
    name == b".".as_slice() || name == b"..".as_slice()
}
