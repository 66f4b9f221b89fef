//! The text for reading: the lines of a module's text with what helps a reader beside them.
#![tactic(auto)]

mod buffer;
mod calls;
mod comment;
mod contents;
mod draft;
mod drafted;
mod edges;
mod finding;
mod firsts;
mod html;
pub mod html_laws;
mod html_page;
mod known;
pub mod laws;
mod linked;
mod literals;
mod look;
mod names;
mod numbers;
mod opencl;
mod outline;
pub mod page_laws;
mod page_pen;
mod piece;
mod section;
mod seen;
mod short;
mod standing;
mod style;
mod tame;
mod text;
mod text_pen;
mod uses;
mod values;
mod walk;
mod words;
mod writer;

pub use finding::Finding;
pub use html_page::page;
pub use piece::{Pen, Piece};
pub use text::annotate;
pub use text_pen::TextPen;
pub use writer::annotate_with;
