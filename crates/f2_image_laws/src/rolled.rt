//! The trees that images stand for.
ghost use Rattle.f2_image_laws.specs.Rolled.{RolledTreesAreProper};

/// The base of a sound image of whole blocks, with its marks rolled over it, is a good tree within the limits of the
/// image: each ino has an entry in the table, and nodes and data blocks take no more than a third of their zones.
pub fn rolled_trees_are_proper()
    ensures { RolledTreesAreProper }
{}
