//! The chains of the images of a disk.
ghost use Rattle.f2_image_laws.specs.Chained.{ContentsAreLists, ChainsOfDisks};

/// The chain of every image that a crash may leave of a disk is a first part of the positions of its node log: it
/// has each position up to the first one whose block the image lacks. Within the disk a position's contents are its
/// list; past the end an image reads as no bytes.
pub fn chains_of_disks()
    ensures contents { ContentsAreLists }
    ensures chains { ChainsOfDisks }
{}
