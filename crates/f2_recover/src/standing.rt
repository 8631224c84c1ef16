//! Where a file of the base may stand, and of which kind it is there.
ghost use Rattle.std.specs.Prelude.{◌≡◌, ◌≢◌, ◌≤◌, ℕ, List, true, false, Err, IfErr, OnOk};
ghost use Rattle.f2_model.specs.Tree.{ROOT as root, most_depth as most};
ghost use Rattle.f2_model.specs.declared.rows.Kind.TheVariants.{Directory};
ghost use Rattle.f2_image.specs.Images.{Image};
ghost use Rattle.f2_image.specs.Packs.{Checkpoint};
ghost use Rattle.f2_image.specs.Bases.{IsInode};
ghost use Rattle.f2_image.specs.Faults.{HasTable, IsBelow};
ghost use Rattle.f2_recover.specs.Faults.{IsRightFault};
ghost use Rattle.f2_recover.specs.Standing.{IsNamedAs};

use crate::faults::{BadImage, MountFault};
use crate::nodes::ROOT;
use f2_model::Kind;

/// The most names below the root of a directory.
const MOST_DEPTH: u32 = 15;

/// Whether the root is a directory.
pub(crate) fn check_root(kind: Kind) -> Result<(), MountFault>
    ensures directory { OnOk result (kind ≡ Directory) }
    ensures fault { IfErr result (λ fault. (image : Image) (ckpt : Checkpoint) (inode : List ℕ) → HasTable ckpt → IsInode image ckpt root kind inode → IsRightFault image ckpt fault) }
    ensures no_read { result ≢ Err MountFault.Read }
{
    match kind {
        Kind::Directory => Ok(()),
        Kind::Regular => Err(MountFault::Bad(BadImage::BadTree { ino: ROOT })),
    }
}

/// Whether a file is of the kind that its dentry tells.
pub(crate) fn check_kind(ino: u32, told: Kind, kind: Kind) -> Result<(), MountFault>
    ensures same { OnOk result (kind ≡ told) }
    ensures fault { IfErr result (λ fault. (image : Image) (ckpt : Checkpoint) (inode : List ℕ) → HasTable ckpt → IsInode image ckpt ino kind inode → IsNamedAs image ckpt ino told → IsRightFault image ckpt fault) }
    ensures no_read { result ≢ Err MountFault.Read }
{
    if !is_same(told, kind) {
        return Err(MountFault::Bad(BadImage::BadTree { ino }));
    }
    Ok(())
}

/// Whether two kinds are the same.
fn is_same(a: Kind, b: Kind) -> bool
    ensures same { result ≡ true → b ≡ a }
    ensures other { result ≡ false → b ≢ a }
{
    match a {
        Kind::Regular => matches!(b, Kind::Regular),
        Kind::Directory => matches!(b, Kind::Directory),
    }
}

/// Whether a file of a kind may stand so many names below the root.
pub(crate) fn check_depth(ino: u32, depth: u32, kind: Kind) -> Result<(), MountFault>
    ensures depth { OnOk result (depth ≤ most kind) }
    ensures fault { IfErr result (λ fault. (image : Image) (ckpt : Checkpoint) (inode : List ℕ) → HasTable ckpt → IsInode image ckpt ino kind inode → IsBelow image ckpt depth ino → IsRightFault image ckpt fault) }
    ensures no_read { result ≢ Err MountFault.Read }
{
    if depth > most_depth(kind) {
        return Err(MountFault::Bad(BadImage::BadTree { ino }));
    }
    Ok(())
}

/// The most names below the root of a file of a kind.
fn most_depth(kind: Kind) -> u32
    ensures { result ≡ most kind }
{
    match kind {
        Kind::Directory => MOST_DEPTH,
        Kind::Regular => MOST_DEPTH + 1,
    }
}
