//! The walk from the root along the names of directories.
ghost use Rattle.std.specs.Prelude.{◌≡◌, ◌≢◌, ◌-◌, ◌≤◌, ℕ, false, List, [], length, Err, IfErr, IfOk, OnOk, Some};
ghost use Rattle.std.specs.Ordering.{nat_cmp};
ghost use Rattle.std.specs.FinMap as map;
ghost use Rattle.std.specs.FinSet as set;
ghost use Rattle.f2_disk.specs.Meter.{HasFailed};
ghost use Rattle.f2_model.specs.declared.rows.Kind.TheVariants.{Directory};
ghost use Rattle.f2_image.specs.Images.{Image};
ghost use Rattle.f2_image.specs.Packs.{Checkpoint};
ghost use Rattle.f2_image.specs.Faults.{IsBelow};
ghost use Rattle.f2_recover.specs.Told.{OnlyReads};
ghost use Rattle.f2_recover.specs.Faults.{IsRightFault};
ghost use Rattle.f2_recover.specs.Reading.{IsRead};
ghost use Rattle.f2_recover.specs.Dents.{AreDentsAt, AreFit};
ghost use Rattle.f2_recover.specs.declared.rows.BaseRow.{BaseRow};
ghost use Rattle.f2_recover.specs.Walking.{HasRow, IsWalkedTo, IsWalked, IsQueue, IsLonger, AreFirstNames};

use crate::faults::MountFault;
use crate::files::read_file;
use crate::named::take_dent;
use crate::names::read_names;
use crate::nodes::ROOT;
use crate::rows::{BaseNames, BaseRow, BaseRows};
use crate::standing::check_root;
use crate::zones::Zones;
use f2_dentry_block::Dent;
use f2_dir::Dir;
use f2_disk::Disk;
use f2_layout::Geometry;
use f2_model::{Kind, Name};
use std::alloc::Global;

/// The base, as far as it was walked.
#[derive(Drop)]
pub struct Walk {
    /// The addresses and nids in use.
    pub zones: Zones,
    pub rows: BaseRows,
    pub names: BaseNames,
    /// The inos of the rows, in the order in which they were reached.
    pub order: Vec<u32>,
}

/// Walks the base of an image with this node address table from the root down: reads each file once, and each directory's
/// names.
pub(crate) fn walk_base<D: Disk>(
    alloc: Global,
    disk: &mut D,
    g: &Geometry,
    table: &[u32],
) -> Result<Walk, MountFault>
    requires device { g.now.blocks ≤ (D.meter disk.old).blocks }
    ensures walked { IfOk result (λ walk. (image : Image) (ckpt : Checkpoint) → IsRead (D.contents disk.old) g.now table.now image ckpt → IsWalked image ckpt walk) }
    ensures geom { IfOk result (λ walk. walk.zones.geom ≡ g.now) }
    ensures queue { IfOk result (λ walk. IsQueue g.now walk.rows walk.order.items) }
    ensures fault { IfErr result (λ fault. (image : Image) (ckpt : Checkpoint) → IsRead (D.contents disk.old) g.now table.now image ckpt → IsRightFault image ckpt fault) }
    ensures reads { OnlyReads (D.contents disk.old) (D.meter disk.old) (D.contents disk.new) (D.meter disk.new) }
    ensures cause { result ≡ Err MountFault.Read → HasFailed (D.meter disk.old) (D.meter disk.new) }
{
    let mut walk = begin(alloc, disk, g, table)?;
    let mut next = 0;
    while next < walk.order.len() {
        let ino = walk.order[next];
        walk_row(alloc, disk, g, table, &mut walk, ino)?;
        next += 1;
    }
    Ok(walk)
}

/// The root alone.
fn begin<D: Disk>(
    alloc: Global,
    disk: &mut D,
    g: &Geometry,
    table: &[u32],
) -> Result<Walk, MountFault>
    requires device { g.now.blocks ≤ (D.meter disk.old).blocks }
    ensures walked { IfOk result (λ walk. (image : Image) (ckpt : Checkpoint) → IsRead (D.contents disk.old) g.now table.now image ckpt → IsWalkedTo image ckpt set.empty 0 [] 0 walk) }
    ensures geom { IfOk result (λ walk. walk.zones.geom ≡ g.now) }
    ensures queue { IfOk result (λ walk. IsQueue g.now walk.rows walk.order.items) }
    ensures fault { IfErr result (λ fault. (image : Image) (ckpt : Checkpoint) → IsRead (D.contents disk.old) g.now table.now image ckpt → IsRightFault image ckpt fault) }
    ensures reads { OnlyReads (D.contents disk.old) (D.meter disk.old) (D.contents disk.new) (D.meter disk.new) }
    ensures cause { result ≡ Err MountFault.Read → HasFailed (D.meter disk.old) (D.meter disk.new) }
{
    let mut walk = Walk {
        zones: Zones::new(alloc, g)?,
        rows: BaseRows::new(alloc),
        names: BaseNames::new(alloc),
        order: Vec::new(alloc),
    };
    let file = read_file(alloc, disk, table, &mut walk.zones, ROOT)?;
    check_root(file.kind)?;
    walk.order.push(ROOT)?;
    let row = BaseRow {
        parent: ROOT,
        name: Name::new(alloc),
        depth: 0,
        file,
    };
    walk.rows.put(ROOT, row)?;
    Ok(walk)
}

/// Reads the names of a row that is a directory, and the files that they name.
fn walk_row<D: Disk>(
    alloc: Global,
    disk: &mut D,
    g: &Geometry,
    table: &[u32],
    walk: &mut Walk,
    ino: u32,
) -> Result<(), MountFault>
    requires device { g.now.blocks ≤ (D.meter disk.old).blocks }
    requires geom { walk.old.zones.geom ≡ g.now }
    requires queue { IsQueue g.now walk.old.rows walk.old.order.items }
    ensures walked { OnOk result ((image : Image) (ckpt : Checkpoint) (done : set.FinSet nat_cmp) → IsRead (D.contents disk.old) g.now table.now image ckpt → set.contains done ino ≡ false
        → IsWalkedTo image ckpt done 0 [] 0 walk.old → HasRow walk.old.rows ino (λ row. row.file.kind ≡ Directory) → IsWalkedTo image ckpt (set.insert done ino) 0 [] 0 walk.new) }
    ensures file { OnOk result ((row : BaseRow) → map.get walk.old.rows ino ≡ Some row → row.file.kind ≢ Directory → walk.new ≡ walk.old) }
    ensures geom { OnOk result (walk.new.zones.geom ≡ g.now) }
    ensures queue { OnOk result (IsQueue g.now walk.new.rows walk.new.order.items) }
    ensures longer { OnOk result (IsLonger walk.old walk.new) }
    ensures fault { IfErr result (λ fault. (image : Image) (ckpt : Checkpoint) (done : set.FinSet nat_cmp) → IsRead (D.contents disk.old) g.now table.now image ckpt → set.contains done ino ≡ false
        → IsWalkedTo image ckpt done 0 [] 0 walk.old → IsRightFault image ckpt fault) }
    ensures reads { OnlyReads (D.contents disk.old) (D.meter disk.old) (D.contents disk.new) (D.meter disk.new) }
    ensures cause { result ≡ Err MountFault.Read → HasFailed (D.meter disk.old) (D.meter disk.new) }
{
    let Some(row) = walk.rows.get(ino) else {
        return Ok(());
    };
    if row.file.kind == Kind::Regular {
        return Ok(());
    }
    let depth = row.depth + 1;
    let dents = read_names(alloc, disk, g, &row.file.nodes.list)?;
    let names = take_dents(alloc, disk, g, table, walk, ino, depth, dents)?;
    walk.names.put(ino, names)?;
    Ok(())
}

/// Reads the files that the names of a directory bring, each so many names below the root, and gives the names.
fn take_dents<D: Disk>(
    alloc: Global,
    disk: &mut D,
    g: &Geometry,
    table: &[u32],
    walk: &mut Walk,
    directory: u32,
    depth: u32,
    dents: Vec<Dent>,
) -> Result<Dir, MountFault>
    requires device { g.now.blocks ≤ (D.meter disk.old).blocks }
    requires geom { walk.old.zones.geom ≡ g.now }
    requires queue { IsQueue g.now walk.old.rows walk.old.order.items }
    requires fit { AreFit dents.items }
    requires below { 1 ≤ depth }
    requires depth { depth ≤ 17 }
    ensures walked { IfOk result (λ names. (image : Image) (ckpt : Checkpoint) (done : set.FinSet nat_cmp) (places : List (ℕ × ℕ)) → IsRead (D.contents disk.old) g.now table.now image ckpt → set.contains done directory ≡ false
        → AreDentsAt image ckpt directory places dents.items → IsBelow image ckpt (depth - 1) directory → IsWalkedTo image ckpt done directory places 0 walk.old
        → IsWalkedTo image ckpt done directory places (length dents.items) walk.new × AreFirstNames dents.items (length dents.items) names) }
    ensures geom { OnOk result (walk.new.zones.geom ≡ g.now) }
    ensures queue { OnOk result (IsQueue g.now walk.new.rows walk.new.order.items) }
    ensures longer { OnOk result (IsLonger walk.old walk.new) }
    ensures fault { IfErr result (λ fault. (image : Image) (ckpt : Checkpoint) (done : set.FinSet nat_cmp) (places : List (ℕ × ℕ)) → IsRead (D.contents disk.old) g.now table.now image ckpt → set.contains done directory ≡ false
        → AreDentsAt image ckpt directory places dents.items → IsBelow image ckpt (depth - 1) directory → IsWalkedTo image ckpt done directory places 0 walk.old → IsRightFault image ckpt fault) }
    ensures reads { OnlyReads (D.contents disk.old) (D.meter disk.old) (D.contents disk.new) (D.meter disk.new) }
    ensures cause { result ≡ Err MountFault.Read → HasFailed (D.meter disk.old) (D.meter disk.new) }
{
    let mut names = Dir::new(alloc);
    for dent in dents {
        take_dent(
            alloc, disk, g, table, walk, &mut names, directory, depth, dent,
        )?;
    }
    Ok(names)
}
