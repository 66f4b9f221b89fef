//! The way through an instruction's operands by its pattern: for crates that read or write instructions in another form
//! than words.

pub use crate::definitions::Definitions;
pub use crate::enumerant::{joined, knows, knows_bits, mask_kinds, value_kinds};
pub use crate::instruction::{Read, read_apart};
pub use crate::items::DueItems;
pub use crate::known::known_after;
pub use crate::number::{context_width, switch_width};
pub use crate::pending::{Asked, Pending};
pub use crate::plain::{Next, next_kind};
pub use crate::reader::{Known, Refusal, Scene, Slot, Taken, take_operand};
pub use crate::written::{push_operand, read_text};
pub use spv_table::{Form, Leaf, form_in};
