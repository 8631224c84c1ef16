//! The nids and the addresses of the blocks of a node log.
ghost use Rattle.std.specs.Prelude.{◌≡◌, ◌≢◌, ℕ, ◌+◌, ◌<◌, List, true, false, length, Err, IfErr, IfSome, IsNone, OnOk};
ghost use Rattle.f2_footer.specs.Footer.{footer_of};
ghost use Rattle.f2_image.specs.Images.{Image};
ghost use Rattle.f2_image.specs.Packs.{Checkpoint};
ghost use Rattle.f2_image.specs.Chains.{chain};
ghost use Rattle.f2_image.specs.Reached.{IsNode, IsTaken};
ghost use Rattle.f2_image.specs.Faults.{IsBadNat};
ghost use Rattle.f2_recover.specs.Faults.{IsRightFault};
ghost use Rattle.f2_recover.specs.Walking.{IsBaseRead};
ghost use Rattle.f2_recover.specs.declared.faults.MountFault.{MountFault};
ghost use Rattle.f2_overlay.specs.Lasts.{AreLastMarks};
ghost use Rattle.f2_overlay.specs.Nodes.{HasRightNids, IsApart};
ghost use Rattle.f2_overlay.specs.Nids.{IsFitNid, IsClaimed, IsClaimFault, IsCheckedTo};

use crate::holders::{Holder, Holders};
use crate::lasts::LastMarks;
use f2_footer::Footer;
use f2_recover::{BadImage, MountFault, Walk};
use f2_scan::LogBlock;
use std::alloc::Global;

/// The least nid that a file can have.
const LEAST_NID: u32 = 4;

/// Looks at the nids of the blocks that recovery takes, and at where all blocks of the log stand: each nid is one that a file
/// can have and belongs to one node alone, and no block stands where a node of the base does.
pub fn check_nids(
    alloc: Global,
    walk: &Walk,
    log: &[LogBlock],
    lasts: &LastMarks,
) -> Result<(), MountFault>
    requires lasts { AreLastMarks log.now lasts.now }
    ensures nids { OnOk result ((image : Image) (ckpt : Checkpoint) → IsBaseRead image ckpt walk.now → log.now ≡ chain image ckpt → HasRightNids image ckpt) }
    ensures apart { OnOk result ((image : Image) (ckpt : Checkpoint) → IsBaseRead image ckpt walk.now → log.now ≡ chain image ckpt → IsApart image ckpt) }
    ensures fault { IfErr result (λ fault. (image : Image) (ckpt : Checkpoint) → IsBaseRead image ckpt walk.now → log.now ≡ chain image ckpt → IsRightFault image ckpt fault) }
    ensures no_read { result ≢ Err MountFault.Read }
{
    let mut owners = Holders::new(alloc);
    for place in 0..log.len() {
        check_block(walk, log, lasts, place, &mut owners)?;
    }
    Ok(())
}

/// Looks at the block at a place of the log, once those before it were looked at.
fn check_block(
    walk: &Walk,
    log: &[LogBlock],
    lasts: &LastMarks,
    place: usize,
    owners: &mut Holders,
) -> Result<(), MountFault>
    requires lasts { AreLastMarks log.now lasts.now }
    requires within { place < length log.now }
    ensures checked { OnOk result ((image : Image) (ckpt : Checkpoint) → IsBaseRead image ckpt walk.now → log.now ≡ chain image ckpt → IsCheckedTo image ckpt place owners.old → IsCheckedTo image ckpt (place + 1) owners.new) }
    ensures fault { IfErr result (λ fault. (image : Image) (ckpt : Checkpoint) → IsBaseRead image ckpt walk.now → log.now ≡ chain image ckpt → IsCheckedTo image ckpt place owners.old → IsRightFault image ckpt fault) }
    ensures no_read { result ≢ Err MountFault.Read }
{
    let logged = &log[place];
    if walk.zones.has_node(logged.at) {
        return Err(MountFault::Bad(BadImage::Shared { at: logged.at }));
    }
    if !lasts.takes_at(log, place) {
        return Ok(());
    }
    let footer = f2_footer::read(&logged.block);
    if !is_fit(walk, &footer) {
        return Err(MountFault::Bad(BadImage::BadNat { nid: footer.nid }));
    }
    claim(owners, &footer)
}

/// Whether a block may have its nid beside the nodes of the base.
fn is_fit(walk: &Walk, footer: &Footer) -> bool
    ensures fit { result ≡ true → (image : Image) (ckpt : Checkpoint) → IsBaseRead image ckpt walk.now → IsFitNid image ckpt footer.now.ino footer.now.offset footer.now.nid }
    ensures unfit { result ≡ false → (image : Image) (ckpt : Checkpoint) (place : ℕ) (block : List ℕ) → IsBaseRead image ckpt walk.now → footer.now ≡ footer_of block
        → IsTaken image ckpt place block → IsBadNat image ckpt footer.now.nid }
{
    if footer.nid < LEAST_NID || footer.nid >= walk.zones.nid_limit() {
        return false;
    }
    if footer.offset == 0 && footer.nid != footer.ino {
        return false;
    }
    match nid_of(walk, footer.ino, footer.offset) {
        Some(own) => own == footer.nid,
        None => !walk.zones.has_nid(footer.nid),
    }
}

/// The nid of a node of the base, or `None` where the base hasn't the node.
fn nid_of(walk: &Walk, ino: u32, offset: u32) -> Option<u32>
    ensures is { IfSome result (λ nid. (image : Image) (ckpt : Checkpoint) → IsBaseRead image ckpt walk.now → IsNode image ckpt ino offset nid) }
    ensures none { IsNone result → (image : Image) (ckpt : Checkpoint) (nid : ℕ) → IsBaseRead image ckpt walk.now → ¬ (IsNode image ckpt ino offset nid) }
{
    let row = walk.rows.get(ino)?;
    row.file.nodes.nids.get(offset)
}

/// Gives the node of a block its nid, unless another has it.
fn claim(owners: &mut Holders, footer: &Footer) -> Result<(), MountFault>
    ensures claimed { OnOk result (IsClaimed owners.old owners.new footer.now.nid (record { ino = footer.now.ino; offset = footer.now.offset })) }
    ensures fault { IfErr result (IsClaimFault owners.old footer.now.nid (record { ino = footer.now.ino; offset = footer.now.offset })) }
{
    let owner = Holder {
        ino: footer.ino,
        offset: footer.offset,
    };
    if let Some(other) = owners.get(footer.nid) {
        if other.ino != owner.ino || other.offset != owner.offset {
            return Err(MountFault::Bad(BadImage::BadNat { nid: footer.nid }));
        }
        return Ok(());
    }
    owners.put(footer.nid, owner)?;
    Ok(())
}
