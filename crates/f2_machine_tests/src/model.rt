//! Each call once, with ample memory.
use f2_model::{Block, Entry, Items, Kind, Log, Name, Pages, Path, Piece, Request, Row, Tree};
use std::alloc::{AllocError, Global};
use std::cmp::Ordering;
use std::test::Fail;

static ONES: Block = [1; 4096];

static TWOS: Block = [2; 4096];

fn row(alloc: Global, ino: u32, name: &[u8]) -> Result<Row, AllocError> {
    Ok(Row {
        ino,
        kind: Kind::Regular,
        parent: 3,
        name: Name::from_slice(alloc, name)?,
        size: 0,
        pages: Pages::new(alloc),
    })
}

fn pages_by_their_numbers(alloc: Global) -> Result<bool, Fail> {
    let mut pages = Pages::new(alloc);
    pages.put(7, &TWOS)?;
    pages.put(2, &ONES)?;
    let numbers = pages.numbers()?;
    pages.cut(7);
    Ok(numbers.as_slice() == [2, 7].as_slice() && pages.len() == 1)
}

fn rows_by_their_inos(alloc: Global) -> Result<bool, Fail> {
    let mut tree = Tree::new(alloc);
    tree.put(row(alloc, 9, b"a")?)?;
    tree.put(row(alloc, 4, b"b")?)?;
    let inos = tree.inos()?;
    let gone = tree.remove(4).is_some();
    Ok(inos.as_slice() == [4, 9].as_slice() && gone && tree.rows().count() == 1)
}

fn entries_in_order(alloc: Global) -> Result<bool, Fail> {
    let mut holds = true;
    let mut log = Log::new(alloc);
    log.room(2)?;
    holds &= log.spare() == 2;
    log.add(Entry::Crash, None);
    log.add(Entry::Mounted { rows: 5 }, Some(4));
    holds &= log.len() == 2;
    holds &= log.spare() == 0;
    holds &= matches!(log.at(1), Entry::Mounted { rows: 5 });
    Ok(holds)
}

fn names_and_paths(alloc: Global) -> Result<bool, Fail> {
    let mut holds = true;
    for (bytes, good) in [
        (b"a".as_slice(), true),
        (b"...".as_slice(), true),
        (b"".as_slice(), false),
        (b".".as_slice(), false),
        (b"..".as_slice(), false),
        (b"a/b".as_slice(), false),
        (b"a\0".as_slice(), false),
        ([b'n'; 255].as_slice(), true),
        ([b'n'; 256].as_slice(), false),
    ] {
        let name = Name::from_slice(alloc, bytes)?;
        holds &= name.is_good() == good;
        holds &= name.copy(alloc)?.is_same(&name);
        let mut path = Path::new(alloc);
        path.push(name)?;
        holds &= path.is_good() == good;
    }
    Ok(holds)
}

fn requests_are_copied(alloc: Global) -> Result<bool, Fail> {
    let mut holds = true;
    let mut path = Path::new(alloc);
    path.push(Name::from_slice(alloc, b"a")?)?;
    path.push(Name::from_slice(alloc, b"b")?)?;
    holds &= path.at(0).compare(path.at(1)) == Ordering::Less;
    let piece = Piece {
        off: 7,
        len: 1,
        byte: 65,
    };
    let pieces = Items::from_slice(alloc, [piece].as_slice())?;
    let Request::Write { path, pieces } = (Request::Write { path, pieces }).copy(alloc)? else {
        return Err(Fail::from("another request"));
    };
    holds &= path.len() == 2;
    holds &= pieces.as_slice() == [piece].as_slice();
    Ok(holds)
}

fn pages_are_filled_and_taken_out(alloc: Global) -> Result<bool, Fail> {
    let mut pages = Pages::new(alloc);
    pages.put(2, &TWOS)?;
    pages.fill(2, 1, 3, 9);
    let is_filled = &pages.get(2).ok_or("page 2")?[..4] == [2, 9, 9, 2].as_slice();
    pages.remove(2);
    Ok(is_filled && pages.len() == 0)
}

fn rows_are_replaced(alloc: Global) -> Result<bool, Fail> {
    let mut tree = Tree::new(alloc);
    tree.put(row(alloc, 9, b"old")?)?;
    let old = tree.replace(row(alloc, 9, b"new")?).ok();
    Ok(old.ok_or("a row")?.name.as_slice() == b"old".as_slice() && tree.len() == 1)
}

#[test]
fn all_of_model(rt: HostRuntime) -> Result<(), Fail> {
    assert!(rt; pages_by_their_numbers(rt.alloc())?);
    assert!(rt; rows_by_their_inos(rt.alloc())?);
    assert!(rt; entries_in_order(rt.alloc())?);
    assert!(rt; names_and_paths(rt.alloc())?);
    assert!(rt; requests_are_copied(rt.alloc())?);
    assert!(rt; pages_are_filled_and_taken_out(rt.alloc())?);
    assert!(rt; rows_are_replaced(rt.alloc())?);
    Ok(())
}
