//! How far names fill the dentry blocks of a directory.
ghost use Rattle.std.specs.Prelude.{◌≡◌, List, ℕ, ◌+◌, ◌<◌, ◌≤◌, ◌^◌, ◌∷◌, Some};
ghost use Rattle.std.specs.Option.{option_copied};
ghost use Rattle.f2_format.specs.Packing.{nothing_packed, place_after, place_after_all};
ghost use Rattle.f2_files.specs.Packed.{and_come, is_gone, number_of};

use f2_model::Name;
use std::cmp::Ordering;
use std::marker::Model;

/// The name slots of a dentry block.
const SLOTS_A_BLOCK: u64 = 214;

/// The bytes of a name slot.
const BYTES_A_SLOT: u64 = 8;

/// The blocks begun, and the slots taken of the last of them.
#[derive(Clone, Copy, Debug)]
pub(crate) struct Reach {
    pub blocks: u64,
    pub slots: u64,
}

impl Model for Reach {
    ghost use Rattle.f2_format.specs.Packing.{Reach as Place};

    ghost Value = { Place };

    ghost view = { λ r. (r.blocks, r.slots) };

    ghost inverse = { λ r. record { blocks = r.0; slots = r.1 } };
}

/// No block is begun, so there is no slot left.
pub(crate) const NOTHING_PACKED: Reach = Reach {
    blocks: 0,
    slots: SLOTS_A_BLOCK,
};

impl Reach {
    /// One name more.
    pub(crate) fn after(self, name: &[u8]) -> Reach
        requires blocks { self.0 + 1 < 2 ^ 64 }
        requires slots { self.1 < 2 ^ 62 }
        ensures place { result ≡ place_after self name.now }
        ensures slots { result.1 < 2 ^ 62 }
        ensures blocks { result.0 ≤ self.0 + 1 }
    {
        let slots = (name.len() as u64 + (BYTES_A_SLOT - 1)) / BYTES_A_SLOT;
        if self.slots + slots <= SLOTS_A_BLOCK {
            Reach {
                blocks: self.blocks,
                slots: self.slots + slots,
            }
        } else {
            Reach {
                blocks: self.blocks + 1,
                slots,
            }
        }
    }
}

/// Whether a name is the one that goes.
pub(crate) fn is_gone(gone: Option<&Name>, name: &[u8]) -> bool
    ensures { result ≡ is_gone (option_copied gone.entry) name.now }
{
    match gone {
        Some(gone) => gone.as_slice().cmp(name) == Ordering::Equal,
        None => false,
    }
}

/// One name more in the order of the bytes, after the one that comes in if that stands before it; and the one that has
/// still to come.
pub(crate) fn placed<'a>(
    reach: Reach,
    come: Option<&'a Name>,
    name: &[u8],
) -> (Reach, Option<&'a Name>)
    requires blocks { reach.0 + 2 < 2 ^ 64 }
    requires slots { reach.1 < 2 ^ 62 }
    ensures place { (rest : List (List ℕ)) → place_after_all result.0 (and_come (option_copied result.1) rest) ≡ place_after_all reach (and_come (option_copied come.entry) (name.now ∷ rest)) }
    ensures slots { result.0.1 < 2 ^ 62 }
    ensures blocks { result.0.0 + number_of result.1 ≤ reach.0 + number_of come.entry + 1 }
{
    let Some(new) = come else {
        return (reach.after(name), None);
    };
    match new.as_slice().cmp(name) {
        Ordering::Less => (reach.after(new.as_slice()).after(name), None),
        Ordering::Equal => (reach.after(name), None),
        Ordering::Greater => (reach.after(name), come),
    }
}
