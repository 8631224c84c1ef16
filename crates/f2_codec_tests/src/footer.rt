use f2_footer::*;
use std::test::Fail;

const DIRECT: Footer = Footer {
    nid: 5,
    ino: 4,
    offset: 1,
    fsync: false,
    dent: false,
    cp_ver: 2,
    next: 12,
};

const INODE: Footer = Footer {
    nid: 4,
    ino: 4,
    offset: 0,
    fsync: true,
    dent: true,
    cp_ver: 2,
    next: 13,
};

fn footers_have_their_bytes() -> Result<bool, Fail> {
    let mut holds = true;
    let mut block = [0; 4096];
    write(&mut block, DIRECT);
    let direct = [
        5, 0, 0, 0, 4, 0, 0, 0, 8, 0, 0, 0, 2, 0, 0, 0, 0, 0, 0, 0, 12, 0, 0, 0,
    ];
    holds &= &block[4072..] == direct.as_slice();
    holds &= read(&block) == DIRECT;
    write(&mut block, INODE);
    let inode = [
        4, 0, 0, 0, 4, 0, 0, 0, 6, 0, 0, 0, 2, 0, 0, 0, 0, 0, 0, 0, 13, 0, 0, 0,
    ];
    holds &= &block[4072..] == inode.as_slice();
    holds &= read(&block) == INODE;
    Ok(holds)
}

#[test]
fn all_of_footer(rt: HostRuntime) -> Result<(), Fail> {
    assert!(rt; footers_have_their_bytes()?);
    Ok(())
}
