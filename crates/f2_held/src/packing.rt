//! How far names fill the dentry blocks of a directory.
ghost use Rattle.std.specs.Prelude.{◌≡◌, ℕ, ◌+◌, ◌<◌, ◌≤◌, ◌^◌, ◌++◌, ◌∷◌, All, length, take, drop};
ghost use Rattle.f2_format.specs.Packing.{nothing_packed, place_after, place_after_all, place_reached};

use f2_model::Name;
use std::marker::Model;

const SLOTS_A_BLOCK: u64 = 214;

const BYTES_A_SLOT: u64 = 8;

/// The blocks begun, and the slots taken of the last of them.
#[derive(Clone, Copy, Debug)]
pub struct Reach {
    pub blocks: u64,
    pub slots: u64,
}

impl Model for Reach {
    ghost use Rattle.f2_format.specs.Packing.{Reach as Place};

    ghost Value = { Place };

    ghost view = { λ r. (r.blocks, r.slots) };

    ghost inverse = { λ r. record { blocks = r.0; slots = r.1 } };
}

/// No block is begun, so there is no slot left.
pub const NOTHING_PACKED: Reach = Reach {
    blocks: 0,
    slots: SLOTS_A_BLOCK,
};

impl Reach {
    /// One name more.
    pub fn after(self, name: &Name) -> Reach
        requires name { length name.now ≤ 255 }
        requires blocks { self.0 < 2 ^ 63 }
        requires slots { self.1 ≤ 214 }
        ensures place { result ≡ place_after self name.now }
        ensures slots { result.1 ≤ 214 }
        ensures blocks { result.0 ≤ self.0 + 1 }
    {
        let slots = (name.len() as u64 + (BYTES_A_SLOT - 1)) / BYTES_A_SLOT;
        if self.slots + slots <= SLOTS_A_BLOCK {
            Reach {
                blocks: self.blocks,
                slots: self.slots + slots,
            }
        } else {
            Reach {
                blocks: self.blocks + 1,
                slots,
            }
        }
    }

    /// Names more, one after another.
    pub fn after_all(self, names: &[Name]) -> Reach
        requires names { All (λ name. length name ≤ 255) names.now }
        requires blocks { self.0 + length names.now < 2 ^ 63 }
        requires slots { self.1 ≤ 214 }
        ensures place { result ≡ place_after_all self names.now }
        ensures slots { result.1 ≤ 214 }
        ensures blocks { result.0 ≤ self.0 + length names.now }
    {
        let mut reach = self;
        for name in names {
            reach = reach.after(name);
        }
        reach
    }
}
