//! Making an image.
ghost use Rattle.std.specs.Prelude.{◌≡◌, ◌+◌, ◌≤◌, Err, IfOk, false, length};
ghost use Rattle.std.specs.FinMap as map;
ghost use Rattle.f2_format.specs.Geometry.{IsGeometry, data_start};
ghost use Rattle.f2_disk.specs.Contents.{WhereTold};
ghost use Rattle.f2_disk.specs.Using.{IsCaused, WritesAtMost};
ghost use Rattle.f2_laid.specs.Laid.{IsKept, root_alone};
ghost use Rattle.f2_laid.specs.Planned.{IsPlanOf};
ghost use Rattle.f2_pack.specs.declared.packs.Side.TheVariants as side;
ghost use Rattle.f2_plain_save.specs.Saves.{IsMade};

use crate::blanks::write_blank;
use crate::faults::SaveFault;
use crate::writing::write_plan;
use f2_disk::Disk;
use f2_laid::{Places, Stored};
use f2_layout::Geometry;
use f2_model::{Kind, Name, Pages, Row, Tree};
use f2_pack::Side;
use f2_plain_plan::{Next, Plan, plan};
use std::alloc::{AllocError, Global};

/// The ino of the root.
const ROOT: u32 = 3;

/// Makes an image of these sizes that has the root alone, on a disk of any content, and gives what its checkpoint
/// tells: version 1, side A and the first copy of the node address table.
///
/// Memory is taken before the first write, so want of it changes nothing. Then come zeros in all blocks below the data
/// zone, both superblocks, a flush, and the checkpoint as [`save`](crate::save) writes one. After
/// [`SaveFault::Write`], and after a crash in the middle, anything may be there.
pub fn mkfs<D: Disk>(alloc: Global, disk: &mut D, geometry: Geometry) -> Result<Stored, SaveFault>
    requires { geometry.blocks ≤ (D.meter disk.old).blocks }

    ensures geometry { IfOk result (λ next. next.geometry ≡ geometry) }
    ensures side { IfOk result (λ next. next.side ≡ Side.A) }
    ensures version { IfOk result (λ next. next.version ≡ 1) }
    ensures second { IfOk result (λ next. next.second ≡ false) }
    ensures kept { IfOk result (λ next. IsKept next.geometry next.places) }

    ensures made { IfOk result (λ next. WhereTold (D.contents disk.old) (D.contents disk.new) (IsMade next)) }

    ensures memory { result ≡ Err SaveFault.Memory
        → (D.contents disk.new ≡ D.contents disk.old) × (D.meter disk.new ≡ D.meter disk.old) }
    ensures writes { WritesAtMost (data_start geometry + 2 + (geometry.nat + 4)) D.contents D.meter disk.old disk.new }
    ensures cause { IsCaused SaveFault.Write result D.meter disk.old disk.new }
{
    let plan = plan_first(alloc, geometry)?;
    write_blank(disk, &geometry)?;
    write_plan(disk, &plan)?;
    Ok(plan.stored)
}

/// Plans the first checkpoint of an image, with the root alone.
fn plan_first(alloc: Global, geometry: Geometry) -> Result<Plan, AllocError>
    ensures plan { IfOk result (λ plan. IsPlanOf root_alone map.empty plan.stored plan.blocks.items plan.tail) }
    ensures geometry { IfOk result (λ plan. plan.stored.geometry ≡ geometry) }
    ensures side { IfOk result (λ plan. plan.stored.side ≡ Side.A) }
    ensures version { IfOk result (λ plan. plan.stored.version ≡ 1) }
    ensures second { IfOk result (λ plan. plan.stored.second ≡ false) }
    ensures kept { IfOk result (λ plan. IsKept geometry plan.stored.places) }
    ensures sound { IsGeometry geometry }
    ensures most { IfOk result (λ plan. length plan.blocks.items ≤ geometry.nat + 3) }
{
    let room = geometry.cn();
    prove!(room >= 1);
    let tree = root_alone(alloc)?;
    let first = Next {
        geometry,
        side: Side::A,
        version: 1,
        second: false,
    };
    plan(alloc, &tree, &Places::new(alloc), first)
}

/// The tree of the root alone.
pub(crate) fn root_alone(alloc: Global) -> Result<Tree, AllocError>
    ensures { IfOk result (λ tree. tree ≡ root_alone) }
{
    let root = Row {
        ino: ROOT,
        kind: Kind::Directory,
        parent: ROOT,
        name: Name::new(alloc),
        size: 0,
        pages: Pages::new(alloc),
    };
    let mut tree = Tree::new(alloc);
    tree.put(root)?;
    Ok(tree)
}
