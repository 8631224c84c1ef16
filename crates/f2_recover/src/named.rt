//! The file that a name of a directory brings.
ghost use Rattle.std.specs.Prelude.{◌≡◌, ◌≢◌, ◌+◌, ◌-◌, ◌≤◌, ◌<◌, ℕ, false, List, length, slice_index_or, Err, IfErr, IfOk, OnOk};
ghost use Rattle.std.specs.Ordering.{nat_cmp};
ghost use Rattle.std.specs.FinSet as set;
ghost use Rattle.f2_disk.specs.Meter.{HasFailed};
ghost use Rattle.f2_format.specs.Geometry.{nid_limit};
ghost use Rattle.f2_model.specs.Tree.{most_depth};
ghost use Rattle.f2_model.specs.declared.rows.Kind.TheVariants.{Regular};
ghost use Rattle.f2_dentry_block.specs.declared.dents.Dent.{Dent};
ghost use Rattle.f2_image.specs.Images.{Image};
ghost use Rattle.f2_image.specs.Packs.{Checkpoint};
ghost use Rattle.f2_image.specs.Bases.{IsReached};
ghost use Rattle.f2_image.specs.Reached.{IsBasePage};
ghost use Rattle.f2_image.specs.Faults.{IsBelow, IsPastSize};
ghost use Rattle.f2_recover.specs.Told.{OnlyReads};
ghost use Rattle.f2_recover.specs.Faults.{IsRightFault};
ghost use Rattle.f2_recover.specs.Files.{IsFileRead};
ghost use Rattle.f2_recover.specs.Reading.{IsRead};
ghost use Rattle.f2_recover.specs.Standing.{IsNamedAs};
ghost use Rattle.f2_recover.specs.Taking.{AreTaken};
ghost use Rattle.f2_recover.specs.Dents.{no_dent, AreDentsAt, IsFitDent};
ghost use Rattle.f2_recover.specs.Walking.{IsWalkedTo, IsQueue, IsLonger, AreFirstNames};

use crate::faults::{BadImage, MountFault};
use crate::files::{File, read_file};
use crate::rows::BaseRow;
use crate::sizes::check_size;
use crate::standing::{check_depth, check_kind};
use crate::walk::Walk;
use crate::zones::Zones;
use f2_dentry_block::Dent;
use f2_dir::Dir;
use f2_disk::Disk;
use f2_layout::Geometry;
use f2_model::{Kind, Name};
use std::alloc::Global;

/// Reads the file that a name of a directory brings, and keeps both.
pub(crate) fn take_dent<D: Disk>(
    alloc: Global,
    disk: &mut D,
    g: &Geometry,
    table: &[u32],
    walk: &mut Walk,
    names: &mut Dir,
    directory: u32,
    depth: u32,
    dent: Dent,
) -> Result<(), MountFault>
    requires device { g.now.blocks ≤ (D.meter disk.old).blocks }
    requires geom { walk.old.zones.geom ≡ g.now }
    requires queue { IsQueue g.now walk.old.rows walk.old.order.items }
    requires fit { IsFitDent dent }
    requires depth { depth ≤ 17 }
    requires below { 1 ≤ depth }
    ensures walked { OnOk result ((image : Image) (ckpt : Checkpoint) (done : set.FinSet nat_cmp) (places : List (ℕ × ℕ)) (dents : List Dent) (count : ℕ) → IsRead (D.contents disk.old) g.now table.now image ckpt
        → set.contains done directory ≡ false → AreDentsAt image ckpt directory places dents → count < length dents → slice_index_or dents count no_dent ≡ dent → IsBelow image ckpt (depth - 1) directory
        → AreFirstNames dents count names.old → IsWalkedTo image ckpt done directory places count walk.old
        → IsWalkedTo image ckpt done directory places (count + 1) walk.new × AreFirstNames dents (count + 1) names.new) }
    ensures geom { OnOk result (walk.new.zones.geom ≡ g.now) }
    ensures longer { OnOk result (IsLonger walk.old walk.new) }
    ensures queue { OnOk result (IsQueue g.now walk.new.rows walk.new.order.items) }
    ensures fault { IfErr result (λ fault. (image : Image) (ckpt : Checkpoint) (done : set.FinSet nat_cmp) (places : List (ℕ × ℕ)) (dents : List Dent) (count : ℕ) → IsRead (D.contents disk.old) g.now table.now image ckpt
        → set.contains done directory ≡ false → AreDentsAt image ckpt directory places dents → count < length dents → slice_index_or dents count no_dent ≡ dent → IsBelow image ckpt (depth - 1) directory
        → AreFirstNames dents count names.old → IsWalkedTo image ckpt done directory places count walk.old → IsRightFault image ckpt fault) }
    ensures reads { OnlyReads (D.contents disk.old) (D.meter disk.old) (D.contents disk.new) (D.meter disk.new) }
    ensures cause { result ≡ Err MountFault.Read → HasFailed (D.meter disk.old) (D.meter disk.new) }
{
    if walk.rows.contains(dent.ino) || names.get(&dent.name).is_some() {
        return Err(MountFault::Bad(BadImage::BadTree { ino: dent.ino }));
    }
    let file = read_named(alloc, disk, g, table, &mut walk.zones, depth, &dent)?;
    let name = Name::from_slice(alloc, dent.name.as_slice())?;
    names.put(name, dent.ino, dent.kind)?;
    walk.order.push(dent.ino)?;
    let row = BaseRow {
        parent: directory,
        name: dent.name,
        depth,
        file,
    };
    walk.rows.put(dent.ino, row)?;
    Ok(())
}

/// Reads the file that a name brings, which stands so many names below the root.
fn read_named<D: Disk>(
    alloc: Global,
    disk: &mut D,
    g: &Geometry,
    table: &[u32],
    zones: &mut Zones,
    depth: u32,
    dent: &Dent,
) -> Result<File, MountFault>
    requires device { g.now.blocks ≤ (D.meter disk.old).blocks }
    requires geom { zones.old.geom ≡ g.now }
    ensures file { IfOk result (λ file. (image : Image) (ckpt : Checkpoint) (inos : set.FinSet nat_cmp) → IsRead (D.contents disk.old) g.now table.now image ckpt → IsReached image ckpt dent.now.ino
        → AreTaken image ckpt inos dent.now.ino 0 0 zones.old → IsFileRead image ckpt inos dent.now.ino zones.new file) }
    ensures ends { IfOk result (λ file. (image : Image) (ckpt : Checkpoint) (inos : set.FinSet nat_cmp) → IsRead (D.contents disk.old) g.now table.now image ckpt → IsReached image ckpt dent.now.ino
        → AreTaken image ckpt inos dent.now.ino 0 0 zones.old → file.kind ≡ Regular → (page at : ℕ) → IsBasePage image ckpt dent.now.ino page at → ¬ (IsPastSize image file.size page at)) }
    ensures kind { IfOk result (λ file. file.kind ≡ dent.now.kind) }
    ensures depth { IfOk result (λ file. depth ≤ most_depth file.kind) }
    ensures within { OnOk result (dent.now.ino < nid_limit g.now) }
    ensures geom { OnOk result (zones.new.geom ≡ g.now) }
    ensures fault { IfErr result (λ fault. (image : Image) (ckpt : Checkpoint) (inos : set.FinSet nat_cmp) → IsRead (D.contents disk.old) g.now table.now image ckpt → IsReached image ckpt dent.now.ino
        → IsNamedAs image ckpt dent.now.ino dent.now.kind → IsBelow image ckpt depth dent.now.ino → AreTaken image ckpt inos dent.now.ino 0 0 zones.old → IsRightFault image ckpt fault) }
    ensures reads { OnlyReads (D.contents disk.old) (D.meter disk.old) (D.contents disk.new) (D.meter disk.new) }
    ensures cause { result ≡ Err MountFault.Read → HasFailed (D.meter disk.old) (D.meter disk.new) }
{
    let file = read_file(alloc, disk, table, zones, dent.ino)?;
    check_kind(dent.ino, dent.kind, file.kind)?;
    check_depth(dent.ino, depth, file.kind)?;
    if file.kind == Kind::Regular {
        check_size(disk, g, dent.ino, &file)?;
    }
    Ok(file)
}
