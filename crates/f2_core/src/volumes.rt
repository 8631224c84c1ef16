//! What a core knows of an open volume.
use f2_flat::Files;
use f2_laid::Stored;

/// An open volume: its files, and what the last checkpoint tells of the image.
#[derive(Drop)]
pub struct Volume {
    pub files: Files,
    pub stored: Stored,
}
