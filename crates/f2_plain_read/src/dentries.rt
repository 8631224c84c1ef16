//! The names of a directory.
ghost use Rattle.std.specs.Prelude.{◌≡◌, ◌≢◌, ◌++◌, List, ℕ, None, Err, IfOk, OnOk, All, map};
ghost use Rattle.std.specs.List.{flat_map};
ghost use Rattle.f2_dentry_block.specs.Dents.{dentry_of};
ghost use Rattle.f2_format.specs.Dentry.{dentries_of, dentry_fault};
ghost use Rattle.f2_plain_read.specs.Files.{AreBlocks};

use crate::faults::BuildFault;
use f2_dentry_block::{Dent, UnpackFault, unpack};
use f2_disk::Block;
use f2_model::Pages;
use std::alloc::Global;

/// The pages of a file that an inode has addresses for.
const INODE_PAGES: u32 = 923;

/// The names in the pages of a directory, page by page. `Bad` is for a page that is no dentry block.
pub(crate) fn dents_of(alloc: Global, pages: &Pages) -> Result<Vec<Dent>, BuildFault>
    ensures dents { IfOk result (λ dents. (blocks : List (List ℕ)) → AreBlocks pages.now blocks → map dentry_of dents.items ≡ flat_map dentries_of blocks) }
    ensures bad { result ≡ Err BuildFault.Bad → (blocks : List (List ℕ)) → AreBlocks pages.now blocks → ¬ (All (λ block. dentry_fault block ≡ None) blocks) }
{
    let mut dents = Vec::new(alloc);
    for page in 0..INODE_PAGES {
        if let Some(block) = pages.get(page) {
            add_dents(alloc, &mut dents, block)?;
        }
    }
    Ok(dents)
}

/// Appends the names of a dentry block.
fn add_dents(alloc: Global, dents: &mut Vec<Dent>, block: &Block) -> Result<(), BuildFault>
    ensures dents { OnOk result (map dentry_of dents.new.items ≡ map dentry_of dents.old.items ++ dentries_of block.now) }
    ensures bad { result ≡ Err BuildFault.Bad → dentry_fault block.now ≢ None }
{
    for dent in unpack_block(alloc, block)? {
        dents.push(dent)?;
    }
    Ok(())
}

/// The names of a dentry block.
fn unpack_block(alloc: Global, block: &Block) -> Result<Vec<Dent>, BuildFault>
    ensures dents { IfOk result (λ dents. map dentry_of dents.items ≡ dentries_of block.now) }
    ensures bad { result ≡ Err BuildFault.Bad → dentry_fault block.now ≢ None }
{
    match unpack(alloc, block) {
        Ok(dents) => Ok(dents),
        Err(UnpackFault::Dent { .. }) => Err(BuildFault::Bad),
        Err(UnpackFault::Memory) => Err(BuildFault::Memory),
    }
}
