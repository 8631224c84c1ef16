//! An inode's bytes and its faults, and the words of a node.

use f2_bytes::Block;
use f2_model::Kind;
use f2_node_block::{Inode, InodeFault, read_inode, read_word, write_inode, write_word};
use std::test::Fail;

/// A file of one page, at address 40, under the name `log` in the root.
fn file() -> Inode {
    let mut inode = Inode {
        kind: Kind::Regular,
        size: 4096,
        pino: 3,
        name_len: 3,
        name: [0; 255],
        addr: [0; 923],
        nid: [0; 5],
    };
    inode.name[0] = b'l';
    inode.name[1] = b'o';
    inode.name[2] = b'g';
    inode.addr[0] = 40;
    inode.nid[4] = 7;
    inode
}

/// The file's inode over a block of sevens.
fn written() -> Block {
    let mut block = [7; 4096];
    write_inode(&mut block, &file(), 2);
    block
}

fn an_inode_has_its_bytes() -> Result<bool, Fail> {
    let mut holds = true;
    let block = written();
    holds &= (block[0], block[1]) == (0xA4, 0x81);
    holds &= &block[12..18] == [1, 0, 0, 0, 0, 16].as_slice();
    holds &= &block[24..26] == [2, 0].as_slice();
    let name = [3, 0, 0, 0, 3, 0, 0, 0, b'l', b'o', b'g', 0];
    holds &= &block[84..96] == name.as_slice();
    holds &= (block[360], block[4068], block[4072]) == (40, 7, 7);
    holds &= read_inode(&block) == Ok(file());
    Ok(holds)
}

fn faults_come_in_their_order() -> Result<bool, Fail> {
    let mut holds = true;
    let mut block = written();
    block[22] = 1;
    holds &= read_inode(&block) == Err(InodeFault::SizeTooBig);
    block[89] = 1;
    holds &= read_inode(&block) == Err(InodeFault::NameLength);
    block[1] = 0xA1;
    holds &= read_inode(&block) == Err(InodeFault::Kind);
    Ok(holds)
}

fn words_have_their_slots() -> Result<bool, Fail> {
    let mut holds = true;
    let mut block = [0; 4096];
    write_word(&mut block, 1017, 0x0403_0201);
    holds &= &block[4067..4073] == [0, 1, 2, 3, 4, 0].as_slice();
    holds &= (read_word(&block, 1017), read_word(&block, 0)) == (0x0403_0201, 0);
    Ok(holds)
}

#[test]
fn all_of_node_block(rt: HostRuntime) -> Result<(), Fail> {
    assert!(rt; an_inode_has_its_bytes()?);
    assert!(rt; faults_come_in_their_order()?);
    assert!(rt; words_have_their_slots()?);
    Ok(())
}
