//! The version by which the blocks of a node log are known.
ghost use Rattle.std.specs.Prelude.{◌≡◌};
ghost use Rattle.f2_format.specs.Pack.{recovery_version_of, written_seal};
ghost use Rattle.f2_pack.specs.Packs.{fields_of};

use f2_bytes::get32;
use f2_pack::{Head, write_head};

/// The flags of a head in the newer format, and the bit of the flags that tells it.
const NEWER_FORMAT: u32 = 1;

/// Where the seal of a head stands.
const SEAL_AT: usize = 4092;

/// What a seal counts in the upper half of a version.
const UPPER_HALF: u64 = 1 << 32;

/// The version that the blocks of the node log carry after a checkpoint with this head, in an image with `nat` blocks in each
/// copy of its node address table.
///
/// In the older format it is the checkpoint's own. In the newer one the seal of the head, as it is written with these fields,
/// is added in the upper half; what passes 64 bits is lost.
pub fn recovery_version(head: &Head, nat: u32) -> u64
    ensures { result ≡ recovery_version_of (fields_of head.now nat) }
{
    if head.flags & NEWER_FORMAT == 0 {
        return head.version;
    }
    let seal = seal_in_newer_format(head, nat);
    head.version.wrapping_add(u64::from(seal) * UPPER_HALF)
}

/// The seal of the head that is written with these fields in the newer format.
fn seal_in_newer_format(head: &Head, nat: u32) -> u32
    ensures { result ≡ written_seal (fields_of head.now nat) }
{
    let written = Head {
        flags: NEWER_FORMAT,
        ..*head
    };
    let mut block = [0; 4096];
    write_head(&mut block, &written, nat);
    get32(&block, SEAL_AT)
}
