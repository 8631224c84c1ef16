//! Adding a file.
ghost use Rattle.std.specs.Prelude.{◌≡◌, ◌+◌, ◌<◌, ◌^◌, None, Ok, Err, OnOk, OnErr, MatchResult};
ghost use Rattle.std.specs.FinMap as map;
ghost use Rattle.f2_format.specs.Geometry.{ImageGeometry};
ghost use Rattle.f2_model.specs.Call.{new_row};
ghost use Rattle.f2_model.specs.Tree.{ROOT as root};
ghost use Rattle.f2_model.specs.declared.replies.Space.TheVariants as space;
ghost use Rattle.f2_model.specs.declared.rows.Kind.TheVariants as kind;
ghost use Rattle.f2_flat.specs.Kept.{HasRootFiles, BindsNames, AreCounts};
ghost use Rattle.f2_flat.specs.Steps.{IsGranted, MakesPlace, told_beyond, told_for_file, with_file};

use crate::counts::Counts;
use crate::rooms::grant_data;
use crate::walks::{walk, walk_parent};
use f2_dir::Dir;
use f2_model::{Kind, Name, Pages, Path, ROOT, Reply, Row, Space, Tree};
use std::alloc::Global;

/// The name of a file that may be made at a path, which is the path's last, or the first refusal.
pub(crate) fn place_for<'a>(tree: &Tree, names: &Dir, path: &'a Path) -> Result<&'a Name, Reply>
    requires files { HasRootFiles tree.now }
    requires names { BindsNames tree.now names.now }
    ensures { (geom : ImageGeometry) → MatchResult result (λ name. MakesPlace geom tree.now path.now (Ok name.now)) (λ refused. MakesPlace geom tree.now path.now (Err refused)) }
{
    if !path.is_good() {
        return Err(Reply::BadName);
    }
    let Some(name) = path.as_slice().last() else {
        return Err(Reply::Exists);
    };
    walk_parent(tree, names, path.as_slice())?;
    if walk(tree, names, path.as_slice()).is_ok() {
        return Err(Reply::Exists);
    }
    Ok(name)
}

/// The refusal of a tree with so many rows and one more, where it has more nodes than are granted.
pub(crate) fn node_refusal(rows: u32, limit: u32) -> Option<Reply>
    requires { rows < 2 ^ 31 }
    ensures { result ≡ told_beyond space.Node (rows + 1) limit }
{
    let need = rows + 1;
    (limit < need).then_some(Reply::NoSpace {
        space: Space::Node,
        need,
        limit,
    })
}

/// The row of an empty file in the root.
fn new_file(alloc: Global, ino: u32, name: Name) -> Row
    ensures { result ≡ new_row kind.Regular ino root name }
{
    Row {
        ino,
        kind: Kind::Regular,
        parent: ROOT,
        name,
        size: 0,
        pages: Pages::new(alloc),
    }
}

/// Puts an empty file into a tree that has these counts with it, or tells the refusal where its data blocks are more than
/// are granted. Then, and where memory is refused, the tree stays.
pub(crate) fn put_file(
    alloc: Global,
    tree: &mut Tree,
    ino: u32,
    name: Name,
    counts: Counts,
    limit: u32,
) -> Result<(), Reply>
    requires free { map.get tree.old ino ≡ None }
    requires files { HasRootFiles (with_file tree.old ino name) }
    requires counts { AreCounts (with_file tree.old ino name) counts }
    ensures granted { IsGranted (told_for_file tree.old ino name limit) result }
    ensures added { OnOk result (tree.new ≡ with_file tree.old ino name) }
    ensures kept { OnErr result (tree.new ≡ tree.old) }
{
    tree.put(new_file(alloc, ino, name))?;
    if let Err(refusal) = grant_data(alloc, tree, counts, 0, limit) {
        tree.remove(ino);
        return Err(refusal);
    }
    Ok(())
}
