//! Images that read alike.
ghost use Rattle.f2_image_laws.specs.Alike.{ImagesReadAlike};

/// Images that agree on what a sound image depends on read alike as far as its base goes, whatever their node logs
/// are: they have the same nodes, and the same inodes, directories and pages of the base.
pub fn images_read_alike()
    ensures { ImagesReadAlike }
{}
