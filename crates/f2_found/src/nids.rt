//! The nids of an image.
ghost use Rattle.std.specs.Prelude.{◌≡◌};
ghost use Rattle.f2_format.specs.Geometry.{nid_limit};

use f2_layout::Geometry;

/// The entries of a block of the node address table.
const ENTRIES_A_NAT_BLOCK: u32 = 455;

/// How many nids the node address table has room for, from 0 on.
pub(crate) fn nid_count(g: &Geometry) -> u32
    ensures { result ≡ nid_limit g.now }
{
    ENTRIES_A_NAT_BLOCK * g.nat()
}
