//! Where the pack of a checkpoint stands.
ghost use Rattle.std.specs.Prelude.{◌≡◌, ◌<◌};
ghost use Rattle.f2_format.specs.Geometry.{IsGeometry};
ghost use Rattle.f2_image.specs.Packs.{other_side as other, tail_address};
ghost use Rattle.f2_laid.specs.Laid.{side_of};

use f2_layout::Geometry;
use f2_pack::Side;

const TAIL_A: u32 = 4;

const TAIL_B: u32 = 7;

/// The other one of the two packs.
pub(crate) fn other_side(side: Side) -> Side
    ensures { side_of result ≡ other (side_of side) }
{
    match side {
        Side::A => Side::B,
        Side::B => Side::A,
    }
}

/// The address of a pack's tail, which every image has.
pub(crate) fn tail_at(geometry: &Geometry, side: Side) -> u32
    ensures address { result ≡ tail_address (side_of side) }
    ensures there { result < geometry.now.blocks }
    ensures sound { IsGeometry geometry.now }
{
    let blocks = geometry.blocks();
    let at = match side {
        Side::A => TAIL_A,
        Side::B => TAIL_B,
    };
    prove!(at < blocks);
    at
}
