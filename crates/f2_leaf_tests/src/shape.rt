use f2_shape::{Route, direct_of, first_page, nodes_of, path_of};
use std::test::Fail;

fn pages_have_these_ways() -> Result<bool, Fail> {
    let mut holds = true;
    let ways = [
        (922, 1, [0, 0, 0, 0], [922, 0, 0, 0]),
        (923, 2, [0, 1, 0, 0], [0, 0, 0, 0]),
        (2_075_607, 4, [0, 2041, 2042, 2043], [4, 0, 0, 0]),
        (
            1_057_053_438,
            4,
            [0, 2041, 1_038_365, 1_039_383],
            [4, 1017, 1017, 1017],
        ),
    ];
    for (page, levels, nodes, slots) in ways {
        let route = Route {
            levels,
            nodes,
            slots,
        };
        holds &= path_of(page) == Some(route);
    }
    holds &= path_of(1_057_053_439) == None;
    holds &= direct_of(922) == None;
    holds &= direct_of(2_075_607) == Some(2043);
    Ok(holds)
}

fn offsets_have_these_first_pages() -> Result<bool, Fail> {
    let mut holds = true;
    let pages = [
        (1, 923),
        (2, 1941),
        (4, 2959),
        (1023, 1_039_283),
        (2043, 2_075_607),
    ];
    for (offset, page) in pages {
        holds &= first_page(offset) == Some(page);
    }
    for offset in [0, 3, 1022, 2041, 2042, 1_039_384, u32::MAX] {
        holds &= first_page(offset) == None;
    }
    Ok(holds)
}

fn nodes_are_counted_once() -> Result<bool, Fail> {
    let mut holds = true;
    holds &= nodes_of(&[]) == 1;
    holds &= nodes_of(&[0, 922, 923, 924]) == 2;
    holds &= nodes_of(&[922, 2959, 3977, 2_075_607, 1_057_053_438]) == 9;
    Ok(holds)
}

#[test]
fn all_of_shape(rt: HostRuntime) -> Result<(), Fail> {
    assert!(rt; pages_have_these_ways()?);
    assert!(rt; offsets_have_these_first_pages()?);
    assert!(rt; nodes_are_counted_once()?);
    Ok(())
}
