//! A write over a file with one page, with ample memory.
use f2_model::{Block, Pages, Piece};
use f2_pieces::{fresh, put};
use std::alloc::Global;
use std::test::Fail;

static ONES: Block = [1; 4096];

/// Bytes of the pages 0 to 2, some of which the second piece puts anew, then one of page 5, and nothing at page 9.
static PIECES: [Piece; 4] = [
    Piece {
        off: 4095,
        len: 4098,
        byte: 7,
    },
    Piece {
        off: 8192,
        len: 2,
        byte: 8,
    },
    Piece {
        off: 20_482,
        len: 1,
        byte: 9,
    },
    Piece {
        off: 36_865,
        len: 0,
        byte: 9,
    },
];

fn pieces_are_put(alloc: Global) -> Result<bool, Fail> {
    let mut holds = true;
    let mut pages = Pages::new(alloc);
    pages.put(1, &ONES)?;
    let fresh = fresh(alloc, &pages, &PIECES)?;
    holds &= fresh.as_slice() == [0, 2, 5].as_slice();
    put(&mut pages, &PIECES, &fresh)?;
    holds &= pages.numbers()?.as_slice() == [0, 1, 2, 5].as_slice();
    holds &= &pages.get(0).ok_or("page 0")?[4094..] == [0, 7].as_slice();
    holds &= pages.get(1).ok_or("page 1")?[4095] == 7;
    holds &= &pages.get(2).ok_or("page 2")?[..3] == [8, 8, 0].as_slice();
    Ok(holds)
}

#[test]
fn all_of_pieces(rt: HostRuntime) -> Result<(), Fail> {
    assert!(rt; pieces_are_put(rt.alloc())?);
    Ok(())
}
