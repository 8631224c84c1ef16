//! The files that were marked, as their last marks have them.
ghost use Rattle.std.specs.Prelude.{◌≡◌, ◌≤◌, ◌<◌, ◌^◌, length, Err, IfErr, IfOk, OnOk, OnErr};
ghost use Rattle.std.specs.FinMap as map;
ghost use Rattle.std.specs.Option.{option_copied};
ghost use Rattle.f2_disk.specs.Meter.{HasFailed};
ghost use Rattle.f2_image.specs.Images.{Image};
ghost use Rattle.f2_image.specs.Packs.{Checkpoint};
ghost use Rattle.f2_image.specs.Chains.{chain};
ghost use Rattle.f2_recover.specs.Told.{Tells, OnlyReads};
ghost use Rattle.f2_recover.specs.Faults.{IsRightFault};
ghost use Rattle.f2_recover.specs.Walking.{IsBaseRead};
ghost use Rattle.f2_recover.specs.declared.faults.MountFault.{MountFault};
ghost use Rattle.f2_scan.specs.Laws.{HasNoLogFault};
ghost use Rattle.f2_overlay.specs.Names.{HasRightMarks};
ghost use Rattle.f2_overlay.specs.Rolls.{AreRolls, HasRightPages};
ghost use Rattle.f2_overlay.specs.Rolling.{IsGround, IsRolledTo};

use crate::addresses::Addresses;
use crate::marks::{Rolling, roll_block};
use crate::owners::owners_of_base;
use crate::pending::Pending;
use crate::taking::RollNodes;
use f2_disk::Disk;
use f2_layout::Geometry;
use f2_model::Name;
use f2_recover::{BadImage, MountFault, Walk};
use f2_scan::LogBlock;
use std::alloc::{AllocError, Global};
use std::collections::BTreeMap;
use std::marker::Model;

/// A file that was marked since the checkpoint, as its last mark has it.
#[derive(Drop)]
pub struct Roll {
    /// The ino of its directory.
    pub parent: u32,
    /// Its name there.
    pub name: Name,
    /// Its length in bytes.
    pub size: u64,
    /// Where its pages stand; a page that isn't there has no block.
    pub pages: Addresses,
    /// Its nodes that stand in the node log: its inode, and the newest block up to the mark of each direct node that has one
    /// there. All others are those of the base.
    pub nodes: RollNodes,
}

/// The files that were marked, by their inos.
#[derive(Drop)]
pub struct Rolls {
    rolls: BTreeMap<u32, Roll>,
}

impl Model for Rolls {
    ghost use Rattle.std.specs.Ordering.{nat_cmp};
    ghost use Rattle.std.specs.FinMap as map;
    ghost use Rattle.std.specs.Coded.{coded_ℕ};
    ghost use Rattle.f2_overlay.specs.declared.rolls.Roll.{Roll};
    ghost use Rattle.f2_overlay.specs.contracts.rolls.Roll as roll;

    ghost Value = { map.FinMap nat_cmp Roll };

    ghost coded = { map.code coded_ℕ roll.the_row.coded };

    ghost view = { λ r. map.from_entries r.rolls.entries };
}

impl Rolls {
    /// The file of an ino, or `None` where it wasn't marked.
    pub fn get(&self, ino: u32) -> Option<&Roll>
        ensures { option_copied result ≡ map.get self.now ino }
    {
        self.rolls.get(&ino)
    }

    /// No file, which takes no memory.
    fn new(alloc: Global) -> Rolls
        ensures { result ≡ map.empty }
    {
        Rolls {
            rolls: BTreeMap::new(alloc),
        }
    }

    /// Puts a file. Where memory is refused nothing changes.
    pub(crate) fn put(&mut self, ino: u32, roll: Roll) -> Result<(), AllocError>
        ensures ok { OnOk result (self.new ≡ map.insert self.old ino roll) }
        ensures err { OnErr result (self.new ≡ self.old) }
    {
        self.rolls.insert(ino, roll)?;
        Ok(())
    }

    /// Takes a file out, or gives `None` where it isn't there.
    pub(crate) fn take(&mut self, ino: u32) -> Option<Roll>
        ensures taken { result ≡ map.get self.old ino }
        ensures left { self.new ≡ map.remove self.old ino }
    {
        self.rolls.remove(&ino)
    }
}

/// Each file that was marked in the node log, as its last mark has it.
///
/// The pages of the base are walked once, with each nid that the node address table has room for. Then each block of the log
/// is looked at once, and of a file's pages those alone whose addresses its mark or a direct node before it tells. Of the
/// pages' contents at most one is read for each mark. Nothing is written.
pub fn roll_files<D: Disk>(
    alloc: Global,
    disk: &mut D,
    g: &Geometry,
    walk: &Walk,
    log: &[LogBlock],
) -> Result<Rolls, MountFault>
    requires device { g.now.blocks ≤ (D.meter disk.old).blocks }
    requires few { length log.now < 2 ^ 31 }
    ensures rolls { IfOk result (λ rolls. (image : Image) (ckpt : Checkpoint) → Tells (D.contents disk.old) image → ckpt.geom ≡ g.now → IsBaseRead image ckpt walk.now → log.now ≡ chain image ckpt
        → HasNoLogFault image ckpt → HasRightMarks image ckpt → AreRolls image ckpt walk.now rolls) }
    ensures pages { OnOk result ((image : Image) (ckpt : Checkpoint) → Tells (D.contents disk.old) image → ckpt.geom ≡ g.now → IsBaseRead image ckpt walk.now → log.now ≡ chain image ckpt
        → HasNoLogFault image ckpt → HasRightMarks image ckpt → HasRightPages image ckpt) }
    ensures fault { IfErr result (λ fault. (image : Image) (ckpt : Checkpoint) → Tells (D.contents disk.old) image → ckpt.geom ≡ g.now → IsBaseRead image ckpt walk.now → log.now ≡ chain image ckpt
        → HasNoLogFault image ckpt → HasRightMarks image ckpt → IsRightFault image ckpt fault) }
    ensures reads { OnlyReads (D.contents disk.old) (D.meter disk.old) (D.contents disk.new) (D.meter disk.new) }
    ensures cause { result ≡ Err MountFault.Read → HasFailed (D.meter disk.old) (D.meter disk.new) }
{
    let rolling = roll_log(alloc, disk, g, walk, log)?;
    let limit = 2 * g.cd();
    if rolling.owners.len() > limit as usize {
        return Err(MountFault::Bad(BadImage::TooFull { limit }));
    }
    Ok(rolling.rolls)
}

/// Walks the log to its end.
fn roll_log<D: Disk>(
    alloc: Global,
    disk: &mut D,
    g: &Geometry,
    walk: &Walk,
    log: &[LogBlock],
) -> Result<Rolling, MountFault>
    requires device { g.now.blocks ≤ (D.meter disk.old).blocks }
    requires few { length log.now < 2 ^ 31 }
    ensures rolled { IfOk result (λ rolling. (image : Image) (ckpt : Checkpoint) → IsGround (D.contents disk.old) g.now image ckpt walk.now log.now → IsRolledTo image ckpt walk.now (length log.now) rolling) }
    ensures fault { IfErr result (λ fault. (image : Image) (ckpt : Checkpoint) → IsGround (D.contents disk.old) g.now image ckpt walk.now log.now → IsRightFault image ckpt fault) }
    ensures reads { OnlyReads (D.contents disk.old) (D.meter disk.old) (D.contents disk.new) (D.meter disk.new) }
    ensures cause { result ≡ Err MountFault.Read → HasFailed (D.meter disk.old) (D.meter disk.new) }
{
    let mut rolling = Rolling {
        rolls: Rolls::new(alloc),
        pending: Pending::new(alloc),
        owners: owners_of_base(alloc, g, walk)?,
    };
    for place in 0..log.len() {
        roll_block(alloc, disk, g, walk, log, place as u32, &mut rolling)?;
    }
    Ok(rolling)
}
