//! Plans of small trees.
ghost use Rattle.std.specs.Prelude.{◌≡◌, ◌∷◌, [], IfOk};
ghost use Rattle.f2_format.specs.Geometry.{ImageGeometry, IsGeometry};
ghost use Rattle.f2_laid.specs.Laid.{IsKept, IsStorable, root_row};

use f2_disk::Block;
use f2_laid::Places;
use f2_layout::Geometry;
use f2_model::{Kind, Name, Pages, Row, Tree};
use f2_node_block::read_inode;
use f2_pack::Side;
use f2_plain_plan::{Next, Plan, plan};
use std::alloc::{AllocError, Global};
use std::test::Fail;

const ROOT: u32 = 3;

/// The row of the root.
fn root(alloc: Global) -> Row
    ensures { result ≡ root_row }
{
    Row {
        ino: ROOT,
        kind: Kind::Directory,
        parent: ROOT,
        name: Name::new(alloc),
        size: 0,
        pages: Pages::new(alloc),
    }
}

/// A file in the root under a name of one byte, with these pages.
fn file(alloc: Global, ino: u32, name: u8, size: u64, pages: Pages) -> Result<Row, AllocError>
    ensures { IfOk result (λ row. row ≡ record { ino = ino; kind = Kind.Regular; parent = 3; name = name ∷ []; size = size; pages = pages }) }
{
    Ok(Row {
        ino,
        kind: Kind::Regular,
        parent: ROOT,
        name: Name::from_slice(alloc, &[name])?,
        size,
        pages,
    })
}

/// The root alone.
fn alone(alloc: Global) -> Result<Tree, AllocError>
    ensures { IfOk result (λ tree. (geom : ImageGeometry) → IsGeometry geom → IsStorable geom tree) }
{
    let mut tree = Tree::new(alloc);
    tree.put(root(alloc))?;
    Ok(tree)
}

/// The root with a file `b` of one page and a file `a` without.
fn two(alloc: Global, block: &Block) -> Result<Tree, AllocError>
    ensures { IfOk result (λ tree. (geom : ImageGeometry) → IsGeometry geom → IsStorable geom tree) }
{
    let mut pages = Pages::new(alloc);
    pages.put(0, block)?;
    let mut tree = Tree::new(alloc);
    tree.put(root(alloc))?;
    tree.put(file(alloc, 4, b'b', 4096, pages)?)?;
    tree.put(file(alloc, 5, b'a', 0, Pages::new(alloc))?)?;
    Ok(tree)
}

/// A first checkpoint.
fn first(geometry: Geometry) -> Next
    ensures geometry { result.geometry ≡ geometry }
    ensures version { result.version ≡ 1 }
{
    Next {
        geometry,
        side: Side::A,
        version: 1,
        second: false,
    }
}

/// The checkpoint after it.
fn second(geometry: Geometry) -> Next
    ensures geometry { result.geometry ≡ geometry }
    ensures version { result.version ≡ 2 }
{
    Next {
        geometry,
        side: Side::B,
        version: 2,
        second: true,
    }
}

/// No place.
fn nothing(alloc: Global) -> Places
    ensures { (geom : ImageGeometry) → IsKept geom result }
{
    Places::new(alloc)
}

/// The addresses of a plan, in the order in which they are written.
fn addresses(alloc: Global, plan: &Plan) -> Result<Vec<u32>, AllocError> {
    plan.blocks.iter().map(|one| one.at).collect(alloc)
}

#[test]
fn the_root_alone_takes_four_blocks(rt: HostRuntime) -> Result<(), Fail> {
    let alloc = rt.alloc();
    let geometry = Geometry::new(128, 1)?;
    let plan = plan(alloc, &alone(alloc)?, &nothing(alloc), first(geometry))?;
    assert_eq!(rt;
        addresses(alloc, &plan)?.as_slice(),
        [10, 8, 3, 2].as_slice()
    );
    Ok(())
}

fn old_places_are_not_taken(alloc: Global) -> Result<bool, Fail> {
    let mut holds = true;
    let geometry = Geometry::new(128, 1)?;
    let tree = two(alloc, &[7; 4096])?;
    let base = plan(alloc, &tree, &nothing(alloc), first(geometry))?;
    let next = plan(alloc, &tree, &base.stored.places, second(geometry))?;
    holds &= addresses(alloc, &base)?.as_slice() == [37, 38, 10, 11, 12, 8, 3, 2].as_slice();
    holds &= addresses(alloc, &next)?.as_slice() == [39, 40, 13, 14, 15, 9, 6, 5].as_slice();
    Ok(holds)
}

fn inodes_tell_names_and_parents(alloc: Global) -> Result<bool, Fail> {
    let mut holds = true;
    let tree = two(alloc, &[7; 4096])?;
    let plan = plan(alloc, &tree, &nothing(alloc), first(Geometry::new(128, 1)?))?;
    let inode = read_inode(&plan.blocks.get(3).ok_or("no inode")?.block)?;
    holds &= (inode.pino, inode.name_len, inode.name[0]) == (3, 1, b'b');
    holds &= (inode.size, inode.addr[0]) == (4096, 38);
    Ok(holds)
}

#[test]
fn all_of_plain_plan(rt: HostRuntime) -> Result<(), Fail> {
    assert!(rt; old_places_are_not_taken(rt.alloc())?);
    assert!(rt; inodes_tell_names_and_parents(rt.alloc())?);
    Ok(())
}
