//! Where paths lead in a tree.
ghost use Rattle.std.specs.Prelude.{◌≡◌, MatchResult, Ok, Err};
ghost use Rattle.std.specs.Option.{option_copied};
ghost use Rattle.f2_model.specs.Tree.{child, is_in, stands_at, walk};
ghost use Rattle.f2_model.specs.Call.{to_directory, walk_parent};

use f2_model::{Kind, Name, ROOT, Reply, Row, Tree};

/// Whether a row stands under a name in a directory.
fn stands_at(row: &Row, directory: u32, name: &Name) -> bool
    ensures { result ≡ stands_at directory name.now row.now }
{
    row.ino != ROOT && row.parent == directory && row.name.is_same(name)
}

/// Whether a row stands in a directory.
pub(crate) fn is_in(row: &Row, directory: u32) -> bool
    ensures { result ≡ is_in directory row.now }
{
    row.ino != ROOT && row.parent == directory
}

/// The row under a name in a directory.
fn child<'a>(tree: &'a Tree, directory: u32, name: &Name) -> Option<&'a Row>
    ensures { option_copied result ≡ child tree.now directory name.now }
{
    tree.rows().find(|row| stands_at(row, directory, name))
}

/// The row at the end of a path, which begins at the root, or the refusal of the first part that has none.
pub fn walk<'a>(tree: &'a Tree, path: &[Name]) -> Result<&'a Row, Reply>
    ensures { MatchResult result (λ row. walk tree.now path.now ≡ Ok row.now) (λ refusal. walk tree.now path.now ≡ Err refusal) }
{
    let mut row = tree.get(ROOT).ok_or(Reply::NoEnt)?;
    for name in path {
        if row.kind != Kind::Directory {
            return Err(Reply::NotDir);
        }
        row = child(tree, row.ino, name).ok_or(Reply::NoEnt)?;
    }
    Ok(row)
}

/// The directory at the end of a path, or the first refusal; a file there is refused too.
pub(crate) fn walk_directory<'a>(tree: &'a Tree, path: &[Name]) -> Result<&'a Row, Reply>
    ensures { MatchResult result (λ row. to_directory (walk tree.now path.now) ≡ Ok row.now) (λ refusal. to_directory (walk tree.now path.now) ≡ Err refusal) }
{
    let row = walk(tree, path)?;
    if row.kind != Kind::Directory {
        return Err(Reply::NotDir);
    }
    Ok(row)
}

/// The directory in which the last name of a path stands, or would stand, or the first refusal on the way.
pub fn walk_parent<'a>(tree: &'a Tree, path: &[Name]) -> Result<&'a Row, Reply>
    ensures { MatchResult result (λ row. walk_parent tree.now path.now ≡ Ok row.now) (λ refusal. walk_parent tree.now path.now ≡ Err refusal) }
{
    let names = path.len().saturating_sub(1);
    walk_directory(tree, &path[..names])
}
