//! The pages that have the addresses of the data zone.
ghost use Rattle.std.specs.Prelude.{◌≡◌, ◌≢◌, ◌≤◌, ◌<◌, ◌^◌, ℕ, Some, true, length, Err, IfErr, OnOk, IfOk};
ghost use Rattle.std.specs.FinMap as map;
ghost use Rattle.std.specs.Option.{option_copied};
ghost use Rattle.f2_format.specs.Geometry.{is_in_data, nid_limit};
ghost use Rattle.f2_image.specs.Images.{Image};
ghost use Rattle.f2_image.specs.Packs.{Checkpoint};
ghost use Rattle.f2_image.specs.Faults.{HasTable};
ghost use Rattle.f2_image.specs.Reached.{IsPage};
ghost use Rattle.f2_recover.specs.Faults.{IsRightFault};
ghost use Rattle.f2_recover.specs.Walking.{IsBaseRead};
ghost use Rattle.f2_recover.specs.declared.faults.MountFault.{MountFault};
ghost use Rattle.f2_overlay.specs.Owning.{IsMore, AreRight, HasListed, AreListed, AreBaseTo};

use f2_layout::Geometry;
use f2_recover::{BadImage, MountFault, PageAt, Walk};
use std::alloc::Global;
use std::collections::BTreeMap;
use std::marker::Model;

/// The entries of a block of the node address table.
const ENTRIES_A_NAT_BLOCK: u32 = 455;

/// The page that has an address.
#[derive(Clone, Copy, Debug)]
pub(crate) struct Owner {
    /// The ino of its file.
    pub ino: u32,
    pub page: u32,
}

/// The pages of base and marks, by their addresses.
#[derive(Drop)]
pub(crate) struct Owners {
    pages: BTreeMap<u32, Owner>,
}

impl Model for Owners {
    ghost use Rattle.std.specs.Ordering.{nat_cmp};
    ghost use Rattle.std.specs.FinMap as map;
    ghost use Rattle.std.specs.Coded.{coded_ℕ};
    ghost use Rattle.f2_overlay.specs.declared.owners.Owner.{Owner};
    ghost use Rattle.f2_overlay.specs.contracts.owners.Owner as owner;

    ghost Value = { map.FinMap nat_cmp Owner };

    ghost coded = { map.code coded_ℕ owner.the_row.coded };

    ghost view = { λ o. map.from_entries o.pages.entries };
}

impl Owners {
    /// No pages, which takes no memory.
    fn new(alloc: Global) -> Owners
        ensures { result ≡ map.empty }
    {
        Owners {
            pages: BTreeMap::new(alloc),
        }
    }

    /// The page that has an address, or `None` where none has it.
    fn get(&self, at: u32) -> Option<Owner>
        ensures { result ≡ map.get self.now at }
    {
        self.pages.get(&at).copied()
    }

    /// How many addresses have pages.
    pub(crate) fn len(&self) -> usize
        ensures len { result ≡ map.len self.now }
        ensures fits { result < 2 ^ 63 }
    {
        self.pages.len()
    }

    /// Gives an address to a page of base or marks, unless it isn't in the data zone or another page has it.
    pub(crate) fn claim(&mut self, g: &Geometry, owner: Owner, at: u32) -> Result<(), MountFault>
        ensures inside { OnOk result (is_in_data g.now at ≡ true) }
        ensures alone { OnOk result ((other : Owner) → map.get self.old at ≡ Some other → other ≡ owner) }
        ensures put { OnOk result (self.new ≡ map.insert self.old at owner) }
        ensures fault { IfErr result (λ fault. (image : Image) (ckpt : Checkpoint) → HasTable ckpt → ckpt.geom ≡ g.now → AreRight image ckpt self.old → IsPage image ckpt owner.ino owner.page at → IsRightFault image ckpt fault) }
        ensures no_read { result ≢ Err MountFault.Read }
    {
        if !g.in_data(at) {
            return Err(MountFault::Bad(BadImage::OutOfZone { at }));
        }
        if let Some(other) = self.get(at) {
            if other.ino != owner.ino || other.page != owner.page {
                return Err(MountFault::Bad(BadImage::Shared { at }));
            }
        }
        self.pages.insert(at, owner)?;
        Ok(())
    }

    /// Gives their addresses to the pages of a file.
    fn claim_all(&mut self, g: &Geometry, ino: u32, list: &[PageAt]) -> Result<(), MountFault>
        ensures more { OnOk result (IsMore self.old self.new) }
        ensures listed { OnOk result (HasListed ino list.now (length list.now) self.new) }
        ensures right { OnOk result ((image : Image) (ckpt : Checkpoint) → ckpt.geom ≡ g.now → AreListed image ckpt ino list.now → AreRight image ckpt self.old → AreRight image ckpt self.new) }
        ensures fault { IfErr result (λ fault. (image : Image) (ckpt : Checkpoint) → HasTable ckpt → ckpt.geom ≡ g.now → AreListed image ckpt ino list.now → AreRight image ckpt self.old → IsRightFault image ckpt fault) }
        ensures no_read { result ≢ Err MountFault.Read }
    {
        for listed in list {
            let owner = Owner {
                ino,
                page: listed.page,
            };
            self.claim(g, owner, listed.at)?;
        }
        Ok(())
    }
}

/// The pages of the base.
pub(crate) fn owners_of_base(alloc: Global, g: &Geometry, walk: &Walk) -> Result<Owners, MountFault>
    ensures base { IfOk result (λ owners. (image : Image) (ckpt : Checkpoint) → HasTable ckpt → ckpt.geom ≡ g.now → IsBaseRead image ckpt walk.now → AreBaseTo image ckpt (nid_limit g.now) owners) }
    ensures fault { IfErr result (λ fault. (image : Image) (ckpt : Checkpoint) → HasTable ckpt → ckpt.geom ≡ g.now → IsBaseRead image ckpt walk.now → IsRightFault image ckpt fault) }
    ensures no_read { result ≢ Err MountFault.Read }
{
    let mut owners = Owners::new(alloc);
    for ino in 0..ENTRIES_A_NAT_BLOCK * g.nat() {
        if let Some(row) = walk.rows.get(ino) {
            owners.claim_all(g, ino, &row.file.nodes.list)?;
        }
    }
    Ok(owners)
}
