//! What an image stands for depends on few of its blocks.
ghost use Rattle.f2_image_laws.specs.Depending.{SameBlocksSameMeaning};

/// What an image stands for depends on its checkpoint and its node log, and on the blocks alone that its base and
/// its marks are read from: another image with these stands for the same, and is as sound.
pub fn same_blocks_same_meaning()
    ensures { SameBlocksSameMeaning }
{}
