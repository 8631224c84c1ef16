//! What a checkpoint tells of its image.
use crate::places::Places;
use f2_layout::Geometry;
use f2_pack::Side;

/// What a checkpoint of an image that is laid out plainly tells: its sizes, the side and the version of its pack,
/// whether the second copy of the node address table counts, and where the files stand.
#[derive(Debug, Drop)]
pub struct Stored {
    pub geometry: Geometry,
    pub side: Side,
    pub version: u64,
    pub second: bool,
    pub places: Places,
}
