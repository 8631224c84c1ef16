//! The marks of sound images.
ghost use Rattle.f2_image_laws.specs.Fitting.{SoundMarksFit, SoundRunsStayFit};

/// The marks of a sound image of whole blocks go with its base and with each other: each is a file's, in a directory
/// of the base, under a good name that no other file of the base or of a mark has there. So it stays in every run
/// from what the image stands for, whatever fails and however often it crashes, and each tree that a crash may leave
/// is good and within the limits of the image.
pub fn sound_marks_fit()
    ensures marks { SoundMarksFit }
    ensures runs { SoundRunsStayFit }
{}
