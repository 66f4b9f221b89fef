//! What the type ids of a module declare, the parts of these types, and the types that ids are declared with.
#![tactic(auto)]

mod definitions;
mod form;
mod gathering;
mod laws;
mod matching;
mod meaning;
mod nulls;
mod objects;
mod parts;
mod reach;
mod several;
mod types;

pub use definitions::{DECLARATIONS, Definitions, is_constant, is_constant_opcode, type_in};
pub use form::{Components, Form, Scalar, Sort, form_in};
pub use gathering::{MOST, gather};
pub use matching::Matching;
pub use meaning::Meaning;
pub use nulls::Nulls;
pub use objects::{
    Image, image_in, image_of, is_range, is_range_struct, is_size_array, is_size_int, pipe_access,
};
pub use parts::{Parts, after_result, count, length, parts_of};
pub use reach::{leads_by_ints, reaches};
pub use several::{all_pairs_of_type, all_pointees, fills, is_typed, stands_for_int};
pub use spv_type_kinds::{Object, after_head, has_words, id_count, result_type, word_count};
pub use types::{
    has_sort, is_bool, is_data, is_int, is_noted_wide, is_number, is_object, is_plain, points_to,
};
