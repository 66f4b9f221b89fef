//! What several crates of tests need: the grammar file of the profile, modules, readers and writers that fail, and the
//! way in which a test speaks with the library of `tests/refuse`.
#![tactic(auto)]

mod fakes;
mod growths;
mod image;
mod modules;
mod profile;
mod rows;
mod sample;

pub use fakes::{Failures, Pieces, Shelf, Trouble};
pub use growths::{Told, WrongAnswer, each_refused};
pub use image::image_of;
pub use modules::{CALL_OF_LATER_FUNCTION, LOAD_WITH_MASK, LOOP_WITH_PHI, SMALLEST_KERNEL};
pub use profile::PROFILE;
pub use rows::CHECKED_TO_VALUES;
pub use sample::Sample;
