//! From a module to its words and to its text, by a grammar table: the encoder, with the laws that join it with the
//! decoder, and the printer.
#![tactic(auto)]

mod buffer;
mod encode_error;
mod encoder;
mod encoding;
mod fast_line;
mod fast_operand;
mod fast_text;
mod fit;
mod image;
mod inst;
mod listed_line;
mod name;
mod named;
mod names;
mod number;
mod operand;
mod printer;
mod quoted;
mod shown;

pub use encode_error::{EncodeCode, EncodeError};
pub use encoder::encode;
pub use encoding::{
    decodes_back, encodes_back, encoding_examples, image_or_refused, listed_or_stopped, one_image,
    one_stop,
};
pub use image::show_image;
pub use inst::{show_inst, show_insts};
pub use quoted::push_quoted;
pub use shown::{show, show_listed};
