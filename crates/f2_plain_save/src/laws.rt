//! Laws about plans and the images that they are written to.
ghost use Rattle.f2_laid.specs.Laws.{PlansMakeLaid, LaidImagesStay, LaidImagesAreReady};

/// After all blocks of a plan and its tail were written, the tree is laid out.
pub fn plans_make_laid()
    ensures { PlansMakeLaid }
{}

/// As long as the tail isn't written, the tree of the last checkpoint stays laid out.
pub fn laid_images_stay()
    ensures { LaidImagesStay }
{}

/// A checkpoint may be written to an image on which the last one is laid out.
pub fn laid_images_are_ready()
    ensures { LaidImagesAreReady }
{}
