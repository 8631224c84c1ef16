//! The place of a block in the chain.

ghost use Rattle.std.specs.Prelude.{◌≡◌, take};
ghost use Rattle.f2_format.specs.Footer.{FOOTER_VERSION};
ghost use Rattle.f2_footer.specs.Footer.{footer_of};
ghost use Rattle.f2_warm_log.specs.Link.{linked_block};

use f2_bytes::{put32, put64};
use f2_disk::Block;

const VERSION_AT: usize = 4084;

const NEXT_AT: usize = 4092;

/// Writes version and next address into the footer of a node's block (`fill_node_footer_blkaddr` of fs/f2fs/node.h).
/// Every other byte stays.
pub(crate) fn link(b: &mut Block, version: u64, next: u32)
    ensures written { b.new ≡ linked_block b.old version next }
    ensures footer { footer_of b.new ≡ record (footer_of b.old) { cp_ver = version; next = next } }
    ensures kept { take FOOTER_VERSION b.new ≡ take FOOTER_VERSION b.old }
{
    put64(b, VERSION_AT, version);
    put32(b, NEXT_AT, next);
}
