//! The names that marks bring.
ghost use Rattle.std.specs.Prelude.{◌≡◌, ◌≢◌, ◌+◌, ℕ, List, true, false, Ok, Err, Some, IfErr, IfOk, OnOk};
ghost use Rattle.f2_footer.specs.Footer.{footer_of};
ghost use Rattle.f2_format.specs.Inode.{inode_of};
ghost use Rattle.f2_image.specs.Images.{Image};
ghost use Rattle.f2_image.specs.Packs.{Checkpoint};
ghost use Rattle.f2_image.specs.Bases.{IsReached, inode_kind};
ghost use Rattle.f2_image.specs.Chains.{chain, is_marked as is_marked_block};
ghost use Rattle.f2_image.specs.Reached.{IsMarkedAt};
ghost use Rattle.f2_image.specs.Faults.{BringsName, IsForeign};
ghost use Rattle.f2_node_block.specs.Inodes.{checked_inode};
ghost use Rattle.f2_recover.specs.Faults.{IsRightFault};
ghost use Rattle.f2_recover.specs.Walking.{IsBaseRead};
ghost use Rattle.f2_recover.specs.declared.faults.BadImage.{BadImage};
ghost use Rattle.f2_recover.specs.declared.faults.MountFault.{MountFault};
ghost use Rattle.f2_overlay.specs.Brought.{AreRightTo, IsFitName, IsLoggedAt};
ghost use Rattle.f2_overlay.specs.Names.{HasRightMarks, IsRightMark};

use crate::brought::Brought;
use f2_disk::Block;
use f2_footer::Footer;
use f2_model::{Kind, Name};
use f2_node_block::{Inode, read_inode};
use f2_recover::{BadImage, MountFault, Walk};
use f2_scan::LogBlock;
use std::alloc::Global;

/// Looks at the files that are marked and at the names that they bring: each is a regular file, and one that the base hasn't
/// says that it brings its name, a good one, into a directory of the base that hasn't it, and no other file brings the same.
pub fn check_names(alloc: Global, walk: &Walk, log: &[LogBlock]) -> Result<(), MountFault>
    ensures marks { OnOk result ((image : Image) (ckpt : Checkpoint) → IsBaseRead image ckpt walk.now → log.now ≡ chain image ckpt → HasRightMarks image ckpt) }
    ensures fault { IfErr result (λ fault. (image : Image) (ckpt : Checkpoint) → IsBaseRead image ckpt walk.now → log.now ≡ chain image ckpt → IsRightFault image ckpt fault) }
    ensures no_read { result ≢ Err MountFault.Read }
{
    let mut brought = Brought::new(alloc);
    for logged in log {
        if is_marked(&logged.block) {
            check_mark(alloc, walk, logged, &mut brought)?;
        }
    }
    Ok(())
}

/// Whether a block is an inode with the fsync mark.
fn is_marked(block: &Block) -> bool
    ensures { result ≡ is_marked_block block.now }
{
    let footer = f2_footer::read(block);
    footer.offset == 0 && footer.fsync
}

/// Looks at a marked block and at the name that it brings, after the marks before it.
fn check_mark(
    alloc: Global,
    walk: &Walk,
    logged: &LogBlock,
    brought: &mut Brought,
) -> Result<(), MountFault>
    ensures right { OnOk result ((image : Image) (ckpt : Checkpoint) (place : ℕ) → IsBaseRead image ckpt walk.now → IsLoggedAt image ckpt place logged.now → AreRightTo image ckpt place brought.old → AreRightTo image ckpt (place + 1) brought.new) }
    ensures fault { IfErr result (λ fault. (image : Image) (ckpt : Checkpoint) (place : ℕ) → IsBaseRead image ckpt walk.now → IsLoggedAt image ckpt place logged.now → AreRightTo image ckpt place brought.old → IsRightFault image ckpt fault) }
    ensures no_read { result ≢ Err MountFault.Read }
{
    let inode = read_mark(logged)?;
    let footer = f2_footer::read(&logged.block);
    if check_file(walk, footer, inode.kind)? {
        let name = Name::from_slice(alloc, &inode.name[..inode.name_len as usize])?;
        check_name(walk, footer.ino, inode.pino, &name)?;
        brought.bring(inode.pino, name, footer.ino)?;
    }
    Ok(())
}

/// The inode in a block of the log.
fn read_mark(logged: &LogBlock) -> Result<Inode, MountFault>
    ensures inode { IfOk result (λ inode. checked_inode (inode_of logged.now.block) ≡ Ok inode) }
    ensures odd { IfErr result (λ _. IsForeign logged.now.block) }
    ensures fault { IfErr result (λ fault. fault ≡ MountFault.Bad (BadImage.BadInode logged.now.at)) }
{
    match read_inode(&logged.block) {
        Ok(inode) => Ok(inode),
        Err(_) => Err(MountFault::Bad(BadImage::BadInode { at: logged.at })),
    }
}

/// Looks at a marked file of a kind, and tells whether it brings its name, as a file does that the base hasn't.
fn check_file(walk: &Walk, footer: Footer, kind: Kind) -> Result<bool, MountFault>
    ensures right { OnOk result ((image : Image) (ckpt : Checkpoint) (block : List ℕ) → IsBaseRead image ckpt walk.now → footer ≡ footer_of block → inode_kind block ≡ Some kind → IsRightMark image ckpt block) }
    ensures fresh { IfOk result (λ brings. brings ≡ true → (image : Image) (ckpt : Checkpoint) → IsBaseRead image ckpt walk.now → ¬ (IsReached image ckpt footer.ino)) }
    ensures old { IfOk result (λ brings. brings ≡ false → (image : Image) (ckpt : Checkpoint) → IsBaseRead image ckpt walk.now → IsReached image ckpt footer.ino) }
    ensures fault { IfErr result (λ fault. (image : Image) (ckpt : Checkpoint) (place : ℕ) (block : List ℕ) → IsBaseRead image ckpt walk.now → IsMarkedAt image ckpt place block → footer ≡ footer_of block
        → inode_kind block ≡ Some kind → IsRightFault image ckpt fault) }
    ensures no_read { result ≢ Err MountFault.Read }
{
    let ino = footer.ino;
    if kind == Kind::Directory || walk.names.get(ino).is_some() {
        return Err(MountFault::Bad(BadImage::BadTree { ino }));
    }
    if walk.rows.contains(ino) {
        return Ok(false);
    }
    if !footer.dent {
        return Err(MountFault::Bad(BadImage::BadTree { ino }));
    }
    Ok(true)
}

/// Looks at a name that a file brings into a directory, whatever other marks bring.
fn check_name(walk: &Walk, ino: u32, directory: u32, name: &Name) -> Result<(), MountFault>
    ensures fit { OnOk result ((image : Image) (ckpt : Checkpoint) → IsBaseRead image ckpt walk.now → IsFitName image ckpt directory name.now) }
    ensures fault { IfErr result (λ fault. (image : Image) (ckpt : Checkpoint) (place : ℕ) → IsBaseRead image ckpt walk.now → BringsName image ckpt place ino directory name.now → IsRightFault image ckpt fault) }
    ensures no_read { result ≢ Err MountFault.Read }
{
    if !name.is_good() {
        return Err(MountFault::Bad(BadImage::BadTree { ino }));
    }
    let Some(names) = walk.names.get(directory) else {
        return Err(MountFault::Bad(BadImage::NoParent { ino }));
    };
    if names.get(name).is_some() {
        return Err(MountFault::Bad(BadImage::Conflict { ino }));
    }
    Ok(())
}
