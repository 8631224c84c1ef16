//! Whether a volume is open, and the formats of images.
ghost use Rattle.std.specs.Prelude.{◌≡◌};
ghost use Rattle.f2_model.specs.State.{number_of};

/// Whether a volume is open.
#[derive(Clone, Copy, Debug, PartialEq, Eq)]
pub enum Mode {
    /// It is closed; a call in flight finds that out at its next event.
    Shut,
    /// It has found its tree, and makes the checkpoint of its mount.
    Mounting,
    /// It is open.
    Up,
}

/// The format of an image, which the newest checkpoint's head tells.
#[derive(Clone, Copy, Debug, PartialEq, Eq)]
pub enum Format {
    /// Node blocks of the log carry the checkpoint's version alone.
    One,
    /// They carry the version and, in the upper half, the seal of the checkpoint's head.
    Two,
}

impl Format {
    /// Its number, 1 or 2.
    pub fn number(self) -> u32
        ensures { result ≡ number_of self }
    {
        match self {
            Format::One => 1,
            Format::Two => 2,
        }
    }
}
