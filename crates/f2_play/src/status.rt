//! How a run ends.
ghost use Rattle.std.specs.Prelude.{◌≡◌};
ghost use Rattle.f2_play.specs.declared.status.Status.TheVariants.{Memory};
ghost use Rattle.f2_recover.specs.Faults.{number_of as number_of_bad_image};
ghost use Rattle.f2_play.specs.Endings.{number_of, bad_image_head as head_of_bad_image, limit_head as head_of_limit};

use f2_layout::Limit;
use f2_recover::BadImage;
use std::alloc::AllocError;

/// How a run ended.
#[derive(Clone, Copy, Debug, PartialEq, Eq)]
pub enum Status {
    /// The script was read, and run to its end.
    Done,
    /// The words aren't a command.
    Usage,
    /// The script has more than 1,048,576 bytes or 65,536 lines.
    TooLong,
    /// This line, counted from 1, is the first that isn't in the grammar; nothing was run.
    Script { line: u32 },
    /// A read of the source failed.
    SourceFault,
    /// A write to the sink failed; what went out is the beginning of what was to be printed.
    SinkFault,
    /// A call of the disk failed.
    DiskFault,
    /// The image stands for no tree: this condition stands in it.
    BadImage(BadImage),
    /// The sizes of a `mkfs` line, or of the command `mkfs`, break this limit, by this number.
    Geometry { limit: Limit, value: u32 },
    /// Memory was refused; the line that it was refused to printed nothing.
    Memory,
}

impl From<AllocError> for Status {
    ghost from_gives = { λ _ status. status ≡ Memory };

    fn from(_error: AllocError) -> Status {
        Status::Memory
    }
}

impl Status {
    /// The exit status of the program, 0 to 9.
    pub fn number(&self) -> u8
        ensures { result ≡ number_of self.now }
    {
        match self {
            Status::Done => 0,
            Status::Usage => 1,
            Status::TooLong => 2,
            Status::Script { .. } => 3,
            Status::SourceFault => 4,
            Status::SinkFault => 5,
            Status::DiskFault => 6,
            Status::BadImage(_) => 7,
            Status::Geometry { .. } => 8,
            Status::Memory => 9,
        }
    }
}

/// What stands before the number in the line of a broken limit.
pub fn limit_head(limit: Limit) -> &'static [u8]
    ensures { result.now ≡ head_of_limit limit }
{
    match limit {
        Limit::Blocks => b"f2n: geometry blocks ",
        Limit::Nat => b"f2n: geometry nat ",
        Limit::Zones => b"f2n: geometry zones ",
        Limit::Nids => b"f2n: geometry nids ",
        Limit::Device => b"f2n: geometry device ",
    }
}

/// What stands before the number in the line of a condition of an image.
pub fn bad_image_head(bad: &BadImage) -> &'static [u8]
    ensures { result.now ≡ head_of_bad_image bad.now }
{
    match bad {
        BadImage::BadSuper => b"f2n: badimage badsuper ",
        BadImage::NoCheckpoint => b"f2n: badimage nocheckpoint ",
        BadImage::VersionEnd { .. } => b"f2n: badimage versionend ",
        BadImage::Journal { .. } => b"f2n: badimage journal ",
        BadImage::BadNat { .. } => b"f2n: badimage badnat ",
        BadImage::BadInode { .. } => b"f2n: badimage badinode ",
        BadImage::DentFault { .. } => b"f2n: badimage dentfault ",
        BadImage::ChainLong { .. } => b"f2n: badimage chainlong ",
        BadImage::OutOfZone { .. } => b"f2n: badimage outofzone ",
        BadImage::Shared { .. } => b"f2n: badimage shared ",
        BadImage::Conflict { .. } => b"f2n: badimage conflict ",
        BadImage::NoParent { .. } => b"f2n: badimage noparent ",
        BadImage::BadTree { .. } => b"f2n: badimage badtree ",
        BadImage::TooFull { .. } => b"f2n: badimage toofull ",
    }
}

/// The number that is told of a condition of an image.
pub fn bad_image_number(bad: &BadImage) -> u64
    ensures { result ≡ number_of_bad_image bad.now }
{
    match bad {
        BadImage::BadSuper | BadImage::NoCheckpoint => 0,
        BadImage::VersionEnd { version } => *version,
        BadImage::Journal { count } => u64::from(*count),
        BadImage::BadNat { nid } => u64::from(*nid),
        BadImage::BadInode { at }
        | BadImage::DentFault { at }
        | BadImage::ChainLong { at }
        | BadImage::OutOfZone { at }
        | BadImage::Shared { at } => u64::from(*at),
        BadImage::Conflict { ino } | BadImage::NoParent { ino } | BadImage::BadTree { ino } => {
            u64::from(*ino)
        }
        BadImage::TooFull { limit } => u64::from(*limit),
    }
}
