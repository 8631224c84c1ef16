//! Each call of the definitions run once. What calls come to is shown by the scripts that checks/reference runs.
ghost use Rattle.std.specs.Prelude.{IfOk};
ghost use Rattle.f2_reference_calls.specs.Given.{IsFitting};

use f2_model::{Kind, Limits, Name, Pages, Path, ROOT, Reply, Request, Row, Tree};
use f2_reference_calls::{
    answer, copy_row, copy_tree, data_of_row, data_of_tree, direct_of, has_direct, nodes_of_row,
    nodes_of_tree, outcome, refusal, removed, space_refusal, touched, walk_parent,
};
use std::alloc::{AllocError, Global};

const LIMITS: Limits = Limits {
    nodes: 9,
    data_blocks: 30,
    nids: 455,
    size: 4_329_690_886_144,
};

/// The tree of the root alone.
fn root_alone(alloc: Global) -> Result<Tree, AllocError>
    ensures { IfOk result IsFitting }
{
    let mut tree = Tree::new(alloc);
    tree.put(Row {
        ino: ROOT,
        kind: Kind::Directory,
        parent: ROOT,
        name: Name::new(alloc),
        size: 0,
        pages: Pages::new(alloc),
    })?;
    Ok(tree)
}

/// A file with pages 0, 1 and 923, each of 1s.
fn file(alloc: Global) -> Result<Row, AllocError> {
    let mut pages = Pages::new(alloc);
    for number in [0, 1, 923] {
        pages.put(number, &[1; 4096])?;
    }
    let row = Row {
        ino: 4,
        kind: Kind::Regular,
        parent: ROOT,
        name: Name::from_slice(alloc, b"a")?,
        size: 3_784_704,
        pages,
    };
    copy_row(alloc, &row)
}

fn a_cut_removes_and_touches(alloc: Global) -> Result<bool, AllocError> {
    let row = file(alloc)?;
    let path = Path::new(alloc);
    let cut = Request::Truncate { path, size: 4097 };
    let gone = removed(alloc, &row, &cut)?;
    let changed = touched(alloc, &row, &cut)?;
    Ok(gone.as_slice() == [923].as_slice() && changed.as_slice() == [1].as_slice())
}

fn a_file_is_counted(alloc: Global) -> Result<bool, AllocError> {
    let row = file(alloc)?;
    let nodes = nodes_of_row(alloc, &[], &row)?;
    let blocks = data_of_row(alloc, &[], &row)?;
    Ok((nodes, blocks) == (2, 3) && has_direct(&row, 1)? && direct_of(923) == Some(1))
}

fn a_tree_is_counted(alloc: Global) -> Result<bool, AllocError> {
    let tree = root_alone(alloc)?;
    let nodes = nodes_of_tree(alloc, &tree)?;
    let blocks = data_of_tree(alloc, &tree)?;
    let fits = space_refusal(alloc, LIMITS, &tree)?.is_none();
    Ok((nodes, blocks) == (1, 0) && fits && copy_tree(alloc, &tree)?.len() == 1)
}

fn a_list_is_answered(alloc: Global) -> Result<bool, AllocError> {
    let tree = root_alone(alloc)?;
    let path = Path::new(alloc);
    let list = Request::List { path };
    let (told, _) = outcome(alloc, LIMITS, &tree, &list, 4)?;
    let is_there = walk_parent(&tree, &[]).map_or(0, |root| root.ino) == 3;
    if refusal(LIMITS, &tree, &list).is_some() {
        return Ok(false);
    }
    let alone = answer(alloc, &tree, &list)?;
    Ok(is_there && matches!((told, alone), (Reply::Names(_), Reply::Names(_))))
}

#[test]
fn all_of_plain_calls(rt: HostRuntime) -> Result<(), AllocError> {
    assert!(rt; a_cut_removes_and_touches(rt.alloc())?);
    assert!(rt; a_file_is_counted(rt.alloc())?);
    assert!(rt; a_tree_is_counted(rt.alloc())?);
    assert!(rt; a_list_is_answered(rt.alloc())?);
    Ok(())
}
