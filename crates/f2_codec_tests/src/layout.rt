//! Worked geometries, and the bytes of a superblock.

use f2_layout::{BadGeometry, Geometry, Limit, read_super, write_super};
use std::test::Fail;

fn the_smallest_image() -> Result<bool, Fail> {
    let mut holds = true;
    let g = Geometry::new(128, 1)?;
    holds &= (g.blocks(), g.nat(), g.cn(), g.cd()) == (128, 1, 9, 30);
    holds &= (g.nat_at(0, false), g.nat_at(0, true)) == (8, 9);
    holds &= (g.node_first(), g.data_first()) == (10, 37);
    holds &= g.in_node(36) && !g.in_node(37) && !g.in_node(9);
    holds &= g.in_data(126) && !g.in_data(127) && !g.in_data(36);
    Ok(holds)
}

fn limits_in_their_order() -> Result<bool, Fail> {
    let mut holds = true;
    let zones = BadGeometry {
        limit: Limit::Zones,
        value: 0,
    };
    holds &= Geometry::new(128, 60) == Err(zones);
    let nids = BadGeometry {
        limit: Limit::Nids,
        value: 15_925,
    };
    holds &= Geometry::new(65_536, 35) == Err(nids);
    Ok(holds)
}

fn a_superblock_reads_back() -> Result<bool, Fail> {
    let mut holds = true;
    let g = Geometry::new(128, 1)?;
    let mut block = [7; 4096];
    write_super(&mut block, &g);
    let head = [
        0x10, 0x20, 0xf5, 0xf2, 0x46, 0x32, 0x4e, 0x50, 0x52, 0x4f, 0x46, 0x31,
    ];
    holds &= &block[1024..1036] == head.as_slice();
    holds &= read_super(&block, 128) == Ok(g);
    holds &= read_super(&block, 127).is_err();
    Ok(holds)
}

#[test]
fn all_of_layout(rt: HostRuntime) -> Result<(), Fail> {
    assert!(rt; the_smallest_image()?);
    assert!(rt; limits_in_their_order()?);
    assert!(rt; a_superblock_reads_back()?);
    Ok(())
}
