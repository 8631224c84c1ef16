//! The addresses of pages that a mark tells.
ghost use Rattle.std.specs.Prelude.{◌≡◌, ◌≢◌, ◌+◌, ◌≤◌, ◌<◌, ℕ, List, length, slice_index, Err, IfErr, OnOk};
ghost use Rattle.std.specs.FinMap as map;
ghost use Rattle.f2_format.specs.Inode.{node_word};
ghost use Rattle.f2_format.specs.Offsets.{page_limit};
ghost use Rattle.f2_image.specs.Images.{Image};
ghost use Rattle.f2_image.specs.Packs.{Checkpoint};
ghost use Rattle.f2_image.specs.Faults.{HasTable};
ghost use Rattle.f2_image.specs.Reached.{IsPage};
ghost use Rattle.f2_recover.specs.Faults.{IsRightFault};
ghost use Rattle.f2_recover.specs.declared.faults.MountFault.{MountFault};
ghost use Rattle.f2_overlay.specs.Owning.{IsMore, AreRight, AreOwn, ArePagesFrom};
ghost use Rattle.f2_overlay.specs.Pending.{AreWithin};
ghost use Rattle.f2_overlay.specs.Putting.{IsPut, ArePut, AreNodesPut, AreNodePages};
ghost use Rattle.f2_overlay.specs.Taking.{AreNodesTaken};

use crate::addresses::Addresses;
use crate::owners::{Owner, Owners};
use crate::pending::Newest;
use crate::taking::{RollNodes, node_at};
use f2_disk::Block;
use f2_layout::Geometry;
use f2_node_block::read_word;
use f2_recover::MountFault;
use f2_scan::LogBlock;
use f2_shape::{NODE_SLOTS, first_page};

/// The addresses of a direct node.
const DIRECT_WORDS: usize = 1018;

/// Puts the address of a page of a marked file, which then is its own; 0 takes the page out.
fn put_page(
    g: &Geometry,
    owners: &mut Owners,
    pages: &mut Addresses,
    owner: Owner,
    at: u32,
) -> Result<(), MountFault>
    requires { owner.page < page_limit }
    ensures put { OnOk result (IsPut owner.page at pages.old pages.new) }
    ensures more { OnOk result (IsMore owners.old owners.new) }
    ensures own { OnOk result (AreOwn owner.ino pages.old owners.old → AreOwn owner.ino pages.new owners.new) }
    ensures right { OnOk result ((image : Image) (ckpt : Checkpoint) → ckpt.geom ≡ g.now → (at ≢ 0 → IsPage image ckpt owner.ino owner.page at) → AreRight image ckpt owners.old → AreRight image ckpt owners.new) }
    ensures fault { IfErr result (λ fault. (image : Image) (ckpt : Checkpoint) → HasTable ckpt → ckpt.geom ≡ g.now → (at ≢ 0 → IsPage image ckpt owner.ino owner.page at) → AreRight image ckpt owners.old → IsRightFault image ckpt fault) }
    ensures no_read { result ≢ Err MountFault.Read }
{
    if at == 0 {
        pages.remove(owner.page);
        return Ok(());
    }
    owners.claim(g, owner, at)?;
    pages.set(owner.page, at)?;
    Ok(())
}

/// Puts the addresses of pages of a marked file, one after another.
pub(crate) fn put_addresses(
    g: &Geometry,
    owners: &mut Owners,
    pages: &mut Addresses,
    first: Owner,
    addresses: &[u32],
) -> Result<(), MountFault>
    requires { first.page + length addresses.now ≤ page_limit }
    ensures put { OnOk result (ArePut first.page addresses.now pages.old pages.new) }
    ensures more { OnOk result (IsMore owners.old owners.new) }
    ensures own { OnOk result (AreOwn first.ino pages.old owners.old → AreOwn first.ino pages.new owners.new) }
    ensures right { OnOk result ((image : Image) (ckpt : Checkpoint) → ckpt.geom ≡ g.now → ArePagesFrom image ckpt first.ino first.page addresses.now → AreRight image ckpt owners.old → AreRight image ckpt owners.new) }
    ensures fault { IfErr result (λ fault. (image : Image) (ckpt : Checkpoint) → HasTable ckpt → ckpt.geom ≡ g.now → ArePagesFrom image ckpt first.ino first.page addresses.now → AreRight image ckpt owners.old → IsRightFault image ckpt fault) }
    ensures no_read { result ≢ Err MountFault.Read }
{
    for (slot, at) in addresses.iter().enumerate() {
        let owner = Owner {
            ino: first.ino,
            page: first.page + slot as u32,
        };
        put_page(g, owners, pages, owner, *at)?;
    }
    Ok(())
}

/// The words of a direct node.
fn words_of(block: &Block) -> [u32; DIRECT_WORDS]
    ensures size { length result ≡ 1018 }
    ensures words { (slot : ℕ) → slot < 1018 → slice_index result slot ≡ node_word block.now slot }
{
    let mut words = [0; DIRECT_WORDS];
    for slot in 0..DIRECT_WORDS {
        words[slot] = read_word(block, slot as u16);
    }
    words
}

/// Puts the addresses that direct nodes of the log tell of the pages of a marked file, and takes these nodes as the file's.
pub(crate) fn put_nodes(
    g: &Geometry,
    owners: &mut Owners,
    pages: &mut Addresses,
    nodes: &mut RollNodes,
    ino: u32,
    log: &[LogBlock],
    mut newest: Newest,
) -> Result<(), MountFault>
    requires { AreWithin log.now newest }
    ensures put { OnOk result (AreNodesPut log.now newest map.empty pages.old pages.new) }
    ensures nodes { OnOk result (AreNodesTaken log.now newest map.empty nodes.old nodes.new) }
    ensures more { OnOk result (IsMore owners.old owners.new) }
    ensures own { OnOk result (AreOwn ino pages.old owners.old → AreOwn ino pages.new owners.new) }
    ensures right { OnOk result ((image : Image) (ckpt : Checkpoint) → ckpt.geom ≡ g.now → AreNodePages image ckpt ino log.now newest → AreRight image ckpt owners.old → AreRight image ckpt owners.new) }
    ensures fault { IfErr result (λ fault. (image : Image) (ckpt : Checkpoint) → HasTable ckpt → ckpt.geom ≡ g.now → AreNodePages image ckpt ino log.now newest → AreRight image ckpt owners.old → IsRightFault image ckpt fault) }
    ensures no_read { result ≢ Err MountFault.Read }
{
    while let Some((offset, place)) = newest.take_one() {
        if let Some(page) = first_page(offset) {
            let logged = &log[place as usize];
            let words = words_of(&logged.block);
            let first = Owner {
                ino,
                page: page as u32,
            };
            put_addresses(g, owners, pages, first, &words)?;
            nodes.put(offset, node_at(logged))?;
        }
    }
    Ok(())
}
