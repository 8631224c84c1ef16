//! A file as one of its marks has it.
ghost use Rattle.std.specs.Prelude.{◌≡◌, ◌≢◌, ◌+◌, ◌≤◌, ◌<◌, ℕ, List, None, Ok, true, length, Err, IfErr, IfOk, OnOk};
ghost use Rattle.std.specs.FinMap as map;
ghost use Rattle.f2_disk.specs.Meter.{HasFailed};
ghost use Rattle.f2_format.specs.Inode.{inode_of};
ghost use Rattle.f2_image.specs.Images.{Image};
ghost use Rattle.f2_image.specs.Packs.{Checkpoint};
ghost use Rattle.f2_footer.specs.Footer.{footer_of};
ghost use Rattle.f2_image.specs.Nodes.{node};
ghost use Rattle.f2_image.specs.Chains.{block_in, is_marked};
ghost use Rattle.f2_image.specs.Reached.{IsMarkedAt};
ghost use Rattle.f2_image.specs.Faults.{IsForeign};
ghost use Rattle.f2_node_block.specs.Inodes.{checked_inode};
ghost use Rattle.f2_recover.specs.Told.{OnlyReads};
ghost use Rattle.f2_recover.specs.Faults.{IsRightFault};
ghost use Rattle.f2_recover.specs.Seeing.{IsList};
ghost use Rattle.f2_recover.specs.Walking.{IsBaseRead};
ghost use Rattle.f2_recover.specs.declared.faults.MountFault.{MountFault};
ghost use Rattle.f2_recover.specs.declared.faults.BadImage.{BadImage};
ghost use Rattle.f2_overlay.specs.Owning.{Pages};
ghost use Rattle.f2_overlay.specs.Rolling.{IsGround, IsNamedAs, IsRolledTo, StartAs, StartNodesAs};
ghost use Rattle.f2_overlay.specs.Pending.{ArePending};

use crate::addresses::Addresses;
use crate::ends::check_end;
use crate::owners::{Owner, Owners};
use crate::pending::Pending;
use crate::putting::{put_addresses, put_nodes};
use crate::rolls::{Roll, Rolls};
use crate::taking::{RollNodes, node_at};
use f2_disk::Disk;
use f2_footer::Footer;
use f2_layout::Geometry;
use f2_model::Name;
use f2_node_block::{Inode, read_inode};
use f2_recover::{BadImage, MountFault, PageAt, Walk};
use f2_scan::LogBlock;
use std::alloc::{AllocError, Global};

/// What is known of the files that were marked, as far as the log was walked.
#[derive(Drop)]
pub(crate) struct Rolling {
    /// Each file as its last mark so far has it.
    pub rolls: Rolls,
    /// The blocks of direct nodes that no mark has taken yet.
    pub pending: Pending,
    /// The addresses of all pages of base and marks.
    pub owners: Owners,
}

/// The inode in a marked block.
fn inode_at(logged: &LogBlock) -> Result<Inode, MountFault>
    ensures inode { IfOk result (λ inode. checked_inode (inode_of logged.now.block) ≡ Ok inode) }
    ensures odd { IfErr result (λ _. IsForeign logged.now.block) }
    ensures fault { IfErr result (λ fault. fault ≡ MountFault.Bad (BadImage.BadInode logged.now.at)) }
{
    match read_inode(&logged.block) {
        Ok(inode) => Ok(inode),
        Err(_) => Err(MountFault::Bad(BadImage::BadInode { at: logged.at })),
    }
}

/// The addresses of the pages of a list.
fn addresses_of(alloc: Global, list: &[PageAt]) -> Result<Addresses, AllocError>
    ensures { IfOk result (λ addresses. (limit : ℕ) (pages : Pages) → IsList limit pages list.now → (page : ℕ) → map.get addresses page ≡ map.get pages page) }
{
    let mut addresses = Addresses::new(alloc);
    for listed in list {
        addresses.set(listed.page, listed.at)?;
    }
    Ok(addresses)
}

/// The pages and the nodes with which a mark of a file begins: those of its mark before, which is taken out, else the pages of
/// the base and no nodes of the log.
fn start_file(
    alloc: Global,
    walk: &Walk,
    rolls: &mut Rolls,
    ino: u32,
) -> Result<(Addresses, RollNodes), AllocError>
    ensures pages { IfOk result (λ start. StartAs (map.get rolls.old ino) (map.get walk.now.rows ino) start.0) }
    ensures nodes { IfOk result (λ start. StartNodesAs (map.get rolls.old ino) start.1) }
    ensures others { (other : ℕ) → other ≢ ino → map.get rolls.new other ≡ map.get rolls.old other }
{
    if let Some(roll) = rolls.take(ino) {
        return Ok((roll.pages, roll.nodes));
    }
    let nodes = RollNodes::new(alloc);
    match walk.rows.get(ino) {
        Some(row) => Ok((addresses_of(alloc, &row.file.nodes.list)?, nodes)),
        None => Ok((Addresses::new(alloc), nodes)),
    }
}

/// The directory and the name of a marked file: those of the base, else those that its inode brings.
fn place_of(alloc: Global, walk: &Walk, ino: u32, inode: &Inode) -> Result<(u32, Name), AllocError>
    ensures { IfOk result (λ place. IsNamedAs inode.now (map.get walk.now.rows ino) place.0 place.1) }
{
    match walk.rows.get(ino) {
        Some(row) => Ok((row.parent, row.name.copy(alloc)?)),
        None => {
            let name = &inode.name[..inode.name_len as usize];
            Ok((inode.pino, Name::from_slice(alloc, name)?))
        }
    }
}

/// Whether an ino that the base hasn't is the nid of no other node there.
fn check_ino(walk: &Walk, footer: Footer) -> Result<(), MountFault>
    ensures free { OnOk result ((image : Image) (ckpt : Checkpoint) → IsBaseRead image ckpt walk.now → map.get walk.now.rows footer.ino ≡ None → node image ckpt footer.ino ≡ None) }
    ensures fault { IfErr result (λ fault. (image : Image) (ckpt : Checkpoint) (place : ℕ) (block : List ℕ) → IsBaseRead image ckpt walk.now → IsMarkedAt image ckpt place block → footer ≡ footer_of block → IsRightFault image ckpt fault) }
    ensures no_read { result ≢ Err MountFault.Read }
{
    if walk.rows.contains(footer.ino) {
        return Ok(());
    }
    if walk.zones.has_nid(footer.ino) {
        return Err(MountFault::Bad(BadImage::BadNat { nid: footer.nid }));
    }
    Ok(())
}

/// Puts a file as the mark at a place of the log has it.
fn roll_mark<D: Disk>(
    alloc: Global,
    disk: &mut D,
    g: &Geometry,
    walk: &Walk,
    log: &[LogBlock],
    place: u32,
    rolling: &mut Rolling,
) -> Result<(), MountFault>
    requires device { g.now.blocks ≤ (D.meter disk.old).blocks }
    requires within { place < length log.now }
    requires marked { is_marked (block_in log.now place) ≡ true }
    requires pending { ArePending log.now place rolling.old.pending }
    ensures rolled { OnOk result ((image : Image) (ckpt : Checkpoint) → IsGround (D.contents disk.old) g.now image ckpt walk.now log.now → IsRolledTo image ckpt walk.now place rolling.old
        → IsRolledTo image ckpt walk.now (place + 1) rolling.new) }
    ensures pending { OnOk result (ArePending log.now (place + 1) rolling.new.pending) }
    ensures fault { IfErr result (λ fault. (image : Image) (ckpt : Checkpoint) → IsGround (D.contents disk.old) g.now image ckpt walk.now log.now → IsRolledTo image ckpt walk.now place rolling.old → IsRightFault image ckpt fault) }
    ensures reads { OnlyReads (D.contents disk.old) (D.meter disk.old) (D.contents disk.new) (D.meter disk.new) }
    ensures cause { result ≡ Err MountFault.Read → HasFailed (D.meter disk.old) (D.meter disk.new) }
{
    let logged = &log[place as usize];
    let footer = f2_footer::read(&logged.block);
    let ino = footer.ino;
    check_ino(walk, footer)?;
    let inode = inode_at(logged)?;
    let newest = rolling.pending.take(ino);
    let (mut pages, mut nodes) = start_file(alloc, walk, &mut rolling.rolls, ino)?;
    let first = Owner { ino, page: 0 };
    put_addresses(g, &mut rolling.owners, &mut pages, first, &inode.addr)?;
    put_nodes(
        g,
        &mut rolling.owners,
        &mut pages,
        &mut nodes,
        ino,
        log,
        newest,
    )?;
    nodes.put(0, node_at(logged))?;
    check_end(disk, g, ino, inode.size, &pages)?;
    let (parent, name) = place_of(alloc, walk, ino, &inode)?;
    let roll = Roll {
        parent,
        name,
        size: inode.size,
        pages,
        nodes,
    };
    rolling.rolls.put(ino, roll)?;
    Ok(())
}

/// Walks over the block at a place of the log.
pub(crate) fn roll_block<D: Disk>(
    alloc: Global,
    disk: &mut D,
    g: &Geometry,
    walk: &Walk,
    log: &[LogBlock],
    place: u32,
    rolling: &mut Rolling,
) -> Result<(), MountFault>
    requires device { g.now.blocks ≤ (D.meter disk.old).blocks }
    requires within { place < length log.now }
    requires pending { ArePending log.now place rolling.old.pending }
    ensures rolled { OnOk result ((image : Image) (ckpt : Checkpoint) → IsGround (D.contents disk.old) g.now image ckpt walk.now log.now → IsRolledTo image ckpt walk.now place rolling.old
        → IsRolledTo image ckpt walk.now (place + 1) rolling.new) }
    ensures pending { OnOk result (ArePending log.now (place + 1) rolling.new.pending) }
    ensures fault { IfErr result (λ fault. (image : Image) (ckpt : Checkpoint) → IsGround (D.contents disk.old) g.now image ckpt walk.now log.now → IsRolledTo image ckpt walk.now place rolling.old → IsRightFault image ckpt fault) }
    ensures reads { OnlyReads (D.contents disk.old) (D.meter disk.old) (D.contents disk.new) (D.meter disk.new) }
    ensures cause { result ≡ Err MountFault.Read → HasFailed (D.meter disk.old) (D.meter disk.new) }
{
    let logged = &log[place as usize];
    let footer = f2_footer::read(&logged.block);
    if footer.offset != 0 {
        rolling.pending.note(footer.ino, footer.offset, place)?;
        return Ok(());
    }
    if footer.fsync {
        return roll_mark(alloc, disk, g, walk, log, place, rolling);
    }
    Ok(())
}
