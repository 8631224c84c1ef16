//! The reasons, in their order.
ghost use Rattle.std.specs.Prelude.{◌≡◌, ◌==◌, not, ◌&&◌, IfOk};
ghost use Rattle.std.specs.FinMap as map;
ghost use Rattle.std.specs.List.{list_any};
ghost use Rattle.f2_model.specs.Tree.{names_of, stands_at};
ghost use Rattle.f2_model.specs.Fallback as machine;

use crate::holding::held;
use crate::owing::{needed, owed};
use f2_model::{Kind, ROOT, Reason, Row, Tree};
use f2_reference_state::{Mark, Plain};
use std::alloc::{AllocError, Global};

/// Whether another row has the name of a row.
fn has_same_name(other: &Row, row: &Row) -> bool
    ensures { result ≡ (not (other.now.ino == row.now.ino) && list_any (λ at. stands_at at.0 at.1 other.now) (names_of row.now)) }
{
    other.ino != row.ino
        && row.ino != ROOT
        && other.ino != ROOT
        && other.parent == row.parent
        && other.name.is_same(&row.name)
}

/// Whether another row of a tree has the name of a row.
fn is_named_in_tree(tree: &Tree, row: &Row) -> bool
    ensures { result ≡ list_any (λ other. not (other.ino == row.now.ino) && list_any (λ at. stands_at at.0 at.1 other) (names_of row.now)) (map.values tree.now) }
{
    tree.rows().any(|other| has_same_name(other, row))
}

/// Whether another file among marks has the name of a row.
fn is_named_in_marks(marks: &[Mark], row: &Row) -> bool
    ensures { result ≡ list_any (λ mark. not (mark.row.ino == row.now.ino) && list_any (λ at. stands_at at.0 at.1 mark.row) (names_of row.now)) marks.now }
{
    marks.iter().any(|mark| has_same_name(&mark.row, row))
}

/// Whether another file of the base or of a mark has the name of a row.
pub fn is_name_taken(plain: &Plain, row: &Row) -> bool
    ensures { result ≡ machine.is_name_taken plain.now.state row.now }
{
    is_named_in_tree(plain.base(), row) || is_named_in_marks(plain.marks(), row)
}

/// Whether a zone lacks room for one more fsync of a file: for what is to be written since the base, or for what
/// recovery may find.
pub fn lacks_room(alloc: Global, plain: &Plain, ino: u32) -> Result<bool, AllocError>
    ensures { IfOk result (λ lacks. lacks ≡ machine.lacks_room plain.now.limits plain.now.state ino) }
{
    let owed = owed(alloc, plain)?;
    let needed = needed(plain, ino);
    let held = held(alloc, plain, ino)?;
    let nodes = plain.node_writes() as u128 + owed.nodes + needed.nodes;
    let pages = plain.data_writes() as u128 + owed.pages + needed.pages;
    let limits = plain.limits();
    let most_nodes = u128::from(limits.nodes);
    let most_pages = u128::from(limits.data_blocks);
    Ok(
        nodes > most_nodes
            || pages > most_pages
            || held.nodes > most_nodes
            || held.pages > most_pages,
    )
}

/// Why an fsync of a row makes a checkpoint, or `None` where it rolls forward.
pub fn fallback(alloc: Global, plain: &Plain, row: &Row) -> Result<Option<Reason>, AllocError>
    ensures { IfOk result (λ reason. reason ≡ machine.fallback plain.now.limits plain.now.state row.now) }
{
    if row.kind == Kind::Directory {
        return Ok(Some(Reason::NonRegular));
    }
    if plain.moved().contains(row.ino) {
        return Ok(Some(Reason::Renamed));
    }
    if plain.base().get(row.parent).is_none() {
        return Ok(Some(Reason::ParentNew));
    }
    if is_name_taken(plain, row) {
        return Ok(Some(Reason::NameTaken));
    }
    if plain.shrunk().contains(row.ino) {
        return Ok(Some(Reason::Shrunk));
    }
    if lacks_room(alloc, plain, row.ino)? {
        return Ok(Some(Reason::Room));
    }
    Ok(None)
}
