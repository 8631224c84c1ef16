//! Packed layouts of the directories of an image.
ghost use Rattle.f2_packed_laws.specs.Packed.{PackedLayoutsExist, PackedLayoutsMayBeTaken, PackedLayoutsHaveRoom, SoundImagesAreTakenOver, KeptTreesAreTakenOver};

/// The directories of a sound image can be laid out anew with the names that they have once its marks are rolled over
/// its base, each in as many pages as these names take packed.
pub fn packed_layouts_exist()
    ensures { PackedLayoutsExist }
{}

/// Such a layout may be taken for that tree, where the image is one of whole blocks: new files' directories are among
/// those that are laid out anew, their pages have the names of the tree, each once, and each page's names are those of a
/// whole block.
pub fn packed_layouts_may_be_taken()
    ensures { PackedLayoutsMayBeTaken }
{}

/// With such a layout the tree of the image has no more nodes and no more pages than a third of each zone holds.
pub fn packed_layouts_have_room()
    ensures { PackedLayoutsHaveRoom }
{}

/// So the tree of each sound image of whole blocks may be taken over by a mount, and on a disk that keeps a state, with
/// no checkpoint pending, the tree of its base and marks.
pub fn sound_images_are_taken_over()
    ensures images { SoundImagesAreTakenOver }
    ensures disks { KeptTreesAreTakenOver }
{}
