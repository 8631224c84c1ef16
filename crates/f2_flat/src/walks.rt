//! Where paths lead, by the names that are kept.
ghost use Rattle.std.specs.Prelude.{◌≡◌, MatchResult, Ok, Err};
ghost use Rattle.std.specs.Option.{option_copied};
ghost use Rattle.f2_model.specs.Tree.{ROOT as root, child, walk};
ghost use Rattle.f2_model.specs.Call.{walk_parent};
ghost use Rattle.f2_flat.specs.Kept.{HasRootFiles, BindsNames};

use f2_dir::Dir;
use f2_model::{Kind, Name, ROOT, Reply, Row, Tree};

/// The file under a name in the root.
fn child<'a>(tree: &'a Tree, names: &Dir, name: &Name) -> Option<&'a Row>
    requires files { HasRootFiles tree.now }
    requires names { BindsNames tree.now names.now }
    ensures { option_copied result ≡ child tree.now root name.now }
{
    let (ino, _) = names.get(name)?;
    tree.get(ino)
}

/// The row at the end of a path, which begins at the root, or the refusal of the first part that has none.
pub(crate) fn walk<'a>(tree: &'a Tree, names: &Dir, path: &[Name]) -> Result<&'a Row, Reply>
    requires files { HasRootFiles tree.now }
    requires names { BindsNames tree.now names.now }
    ensures { MatchResult result (λ row. walk tree.now path.now ≡ Ok row.now) (λ refusal. walk tree.now path.now ≡ Err refusal) }
{
    let mut row = tree.get(ROOT).ok_or(Reply::NoEnt)?;
    for name in path {
        if row.kind != Kind::Directory {
            return Err(Reply::NotDir);
        }
        row = child(tree, names, name).ok_or(Reply::NoEnt)?;
    }
    Ok(row)
}

/// The directory in which the last name of a path stands, or would stand.
pub(crate) fn walk_parent<'a>(tree: &'a Tree, names: &Dir, path: &[Name]) -> Result<&'a Row, Reply>
    requires files { HasRootFiles tree.now }
    requires names { BindsNames tree.now names.now }
    ensures { MatchResult result (λ row. walk_parent tree.now path.now ≡ Ok row.now) (λ refusal. walk_parent tree.now path.now ≡ Err refusal) }
{
    let last = path.len().saturating_sub(1);
    let row = walk(tree, names, &path[..last])?;
    if row.kind != Kind::Directory {
        return Err(Reply::NotDir);
    }
    Ok(row)
}
