//! Laws about images.
ghost use Rattle.f2_image.specs.Laws.{OneCheckpoint, OneBase, OneListOfMarks, SoundMeans, ChainsEnd, SameBlocksSameBase};

/// An image has one checkpoint at most, and with it one base and one list of marks.
pub fn one_meaning()
    ensures checkpoint { OneCheckpoint }
    ensures base { OneBase }
    ensures marks { OneListOfMarks }
{}

/// An image that is sound stands for a base and a list of marks; by `one_meaning` it stands for no other.
pub fn sound_images_mean()
    ensures { SoundMeans }
{}

/// The chain of every image ends.
pub fn chains_end()
    ensures { ChainsEnd }
{}

/// A base depends on the blocks alone that it is read from.
pub fn same_blocks_same_base()
    ensures { SameBlocksSameBase }
{}
