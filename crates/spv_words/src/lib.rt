//! The words of a SPIR-V module: byte streams, byte orders and the header.
//!
//! [`read_image`] reads a module's bytes from a [`Source`] into an [`Image`], which is a list of 32-bit words whose
//! header fits, and [`image_of`] takes them from memory; [`write_image`] writes an image to a [`Sink`] in either byte
//! order. (Khronos SPIR-V Specification 1.6, section 2.3.) A [`Draft`] is an image that is put together word by word,
//! and [`write_all`] writes any bytes. A [`Versioned`] source can give a module of version 1.0 to 1.5 as one of 1.6,
//! and [`replace_version`] makes it one in memory.
#![tactic(auto)]

mod draft;
mod front;
mod image;
pub mod laws;
mod limits;
mod order;
mod reading;
mod stream;
mod version;
mod versioned;
mod words;
mod writing;

pub use draft::Draft;
pub use image::{Image, word};
pub use limits::{GREATEST_BOUND, GREATEST_LENGTH, GREATEST_SIZE, MAGIC_NUMBER, VERSION};
pub use reading::{image_from, image_of, read_image, read_octets};
pub use stream::{Failed, FromRead, FromWrite, Sink, Source};
pub use version::replace_version;
pub use versioned::{VersionSource, Versioned};
pub use words::{Header, Order, WordError};
pub use writing::{write_all, write_image};
