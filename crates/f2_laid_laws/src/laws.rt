//! Laws about images that are laid out plainly.
ghost use Rattle.f2_laid.specs.Laws.{LaidImagesMean, OneLaid};

/// An image that is laid out plainly stands for its tree, with no marks, and is clean.
pub fn laid_images_mean()
    ensures { LaidImagesMean }
{}

/// An image has one tree at most that is laid out so, and with it what its checkpoint tells.
pub fn one_laid()
    ensures { OneLaid }
{}
