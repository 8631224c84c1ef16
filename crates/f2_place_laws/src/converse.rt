//! Sound images have places.
ghost use Rattle.f2_place_laws.specs.Converse.{SoundImagesHavePlaces};

/// The base of an image stands at places in it, whatever its node log is.
pub fn sound_images_have_places()
    ensures { SoundImagesHavePlaces }
{}
