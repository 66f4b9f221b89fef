//! What is written of a module for people to look at: its text with comments, a page, and graphs; and why a text fails.
#![tactic(auto)]

mod beginning;
mod finding;
pub mod laws;
pub mod text_fault;
mod view;
mod viewing;

pub use view::{View, ViewError};
pub use viewing::{Viewed, view_image, view_stream};
