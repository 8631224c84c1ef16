//! Which of two packs counts.

ghost use Rattle.std.specs.Prelude.{◌≡◌};
ghost use Rattle.std.specs.Result.{result_ok};
ghost use Rattle.f2_pack.specs.Packs.{newest_of};

use crate::packs::{Pack, Side};
use thiserror::Error;

/// Neither side has a valid pack.
#[derive(Clone, Copy, Debug, PartialEq, Eq, Error)]
#[error("no checkpoint")]
pub struct NoCheckpoint;

/// The newest of the valid packs of the sides A and B (f2fs_get_valid_checkpoint of checkpoint.c): the one with the
/// greater version, and A's where they have the same. There is none exactly where neither side has one.
pub fn newest(a: Option<Pack>, b: Option<Pack>) -> Result<(Pack, Side), NoCheckpoint>
    ensures { result_ok result ≡ newest_of a b }
{
    match (a, b) {
        (Some(a), Some(b)) if a.head.version < b.head.version => Ok((b, Side::B)),
        (Some(a), _) => Ok((a, Side::A)),
        (None, Some(b)) => Ok((b, Side::B)),
        (None, None) => Err(NoCheckpoint),
    }
}
