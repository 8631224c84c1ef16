//! What an image stands for in which a tree stands at its places.
ghost use Rattle.f2_place_laws.specs.Meaning.{TreesAtPlacesMean};

/// With no node log an image in which a proper tree stands at its places stands for that tree, with no marks.
pub fn trees_at_places_mean()
    ensures { TreesAtPlacesMean }
{}
