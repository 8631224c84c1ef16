//! Places for the pages of a row.
ghost use Rattle.std.specs.Prelude.{◌+◌, ◌<◌, ◌≤◌, IfOk};
ghost use Rattle.std.specs.FinSet as set;
ghost use Rattle.f2_format.specs.Offsets.{inode_pages};
ghost use Rattle.f2_plain_plan.specs.Contents.{content_at, pages_before};
ghost use Rattle.f2_plain_plan.specs.Pages.{AddsBlock, AddsPages};

use crate::contents::Contents;
use f2_bitset::BitSet;
use f2_disk::Block;
use f2_laid::Planned;
use std::alloc::AllocError;

/// The pages whose addresses an inode holds.
const PAGES: usize = 923;

/// Plans a block at the least free address.
fn add_block(
    taken: &mut BitSet,
    blocks: &mut Vec<Planned>,
    content: &Block,
) -> Result<u32, AllocError>
    requires { set.len taken.old.members < taken.old.count }
    ensures { IfOk result (AddsBlock content.now taken.old taken.new blocks.old.items blocks.new.items) }
{
    let at = taken.insert_least().unwrap();
    blocks.push(Planned {
        at,
        block: *content,
    })?;
    Ok(at)
}

/// Plans the pages of a row at free addresses, and gives these addresses: 0 where there is no page.
pub(crate) fn add_pages(
    taken: &mut BitSet,
    blocks: &mut Vec<Planned>,
    contents: &Contents,
) -> Result<[u32; PAGES], AllocError>
    requires first { 1 ≤ taken.old.first }
    requires room { set.len taken.old.members + pages_before (content_at contents.now) inode_pages ≤ taken.old.count }
    ensures { IfOk result (AddsPages (content_at contents.now) inode_pages taken.old taken.new blocks.old.items blocks.new.items) }
{
    let mut addresses = [0; PAGES];
    for page in 0..PAGES {
        if let Some(content) = contents.get(page as u32) {
            addresses[page] = add_block(taken, blocks, content)?;
        }
    }
    Ok(addresses)
}
