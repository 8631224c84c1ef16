//! An image in which all is right.
ghost use Rattle.f2_overlay_laws.specs.Sound.{AllRightIsSound};

/// An image is sound where its base was read, its node log has none of its faults, what the log brings is right, and the
/// tree fits.
///
/// Nids that were right of the marked blocks alone would break it: a direct node of the log could have the nid of a node of
/// the base.
pub fn all_right_is_sound()
    ensures { AllRightIsSound }
{}
