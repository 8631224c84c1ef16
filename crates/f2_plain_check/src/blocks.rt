//! The dentry blocks of a directory.
ghost use Rattle.f2_plain_check.specs.Blocks.{SixNamesABlock};

/// Names of 1 to 255 bytes take at most a dentry block for each six of them: a name takes at most 32 of the 214 slots
/// of a block, so a block is full only once it has six.
pub fn names_take_few_blocks()
    ensures { SixNamesABlock }
{}
