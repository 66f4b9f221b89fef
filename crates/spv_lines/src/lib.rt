//! The text of a module: what the shown and the read text are, where a text fails, and what follows of these; and the
//! parts of a line: numbers, names, masks and texts in quotes.
#![tactic(auto)]

mod asm_error;
mod examples;
mod front;
mod laws;
mod mask;
mod misread;
mod name;
mod narrow;
mod number;
mod plain;
mod quoted;
mod split;

pub use asm_error::{AsmCode, AsmError};
pub use examples::{
    failure_examples, line_examples, name_examples, number_examples, operand_examples,
    text_examples,
};
pub use front::{Cell, read_front};
pub use laws::{
    one_failure, one_reading, one_shown, read_or_fails, read_spelled, shown_assembled,
    shown_reads_back, tidy_by_kinds,
};
pub use misread::Misread;
pub use name::{is_plain, read_mask, read_value};
pub use narrow::is_narrow;
pub use number::{
    read_behind, read_id, read_number, read_result_id, read_short, read_type_id, read_word,
};
pub use plain::{push_hex, push_plain};
pub use quoted::{Quotation, read_quoted, read_unescaped};
pub use split::{behind, split_around, split_before, split_line, split_token};
