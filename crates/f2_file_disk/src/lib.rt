//! A disk that is an image file.
//!
//! What a file holds is the system's to say, and no clause here tells it. What is said is which calls a [`FileDisk`]
//! answers as failed, that each of these raises its count of faults by one, and where in the file a block stands.
#![tactic(auto)]

mod file_disk;
mod place;

pub use file_disk::FileDisk;
