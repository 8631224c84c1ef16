//! What an image that is laid out plainly stands for.
//!
//! No program runs this crate. What such an image is stands in `f2_laid`, in `specs/Laid`, and the statements in its
//! `specs/Laws`. Each function below has an empty body, and its contract is a law about these images: they stand for
//! their tree, with no marks, and are clean ([`laid_images_mean`]), and each has one tree at most ([`one_laid`]). So a
//! program that lays a tree out makes an image that stands for it, and one that finds a tree laid out has found the
//! tree of the image.
#![tactic(auto)]

mod laws;

pub use laws::{laid_images_mean, one_laid};
