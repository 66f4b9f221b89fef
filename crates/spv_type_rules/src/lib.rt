//! The rules Y but for Y5, which is that of spv_ops: the roles in which ids are used (Y1), declarations, constants,
//! functions, parameters, returns and calls.
#![tactic(auto)]

mod alike;
mod concern;
mod constant;
mod counted;
mod declaration;
mod fingerprint;
mod function;
mod key;
pub mod laws;
mod repeat;
pub mod roles;
mod rules;

pub use alike::are_alike;
pub use concern::{is_operation, is_silent};
pub use constant::{Constant, constant_of, fits_width, is_typed_part};
pub use counted::next_count;
pub use declaration::{
    Declaration, declaration_of, is_float_width, is_int_width, is_length, is_pointee,
    is_pointer_after, is_returned, is_sampled, is_sampled_type, is_sound_image, is_vector_count,
};
pub use function::{
    Function, count_parameters, function_of, function_type, parameter_type, signature,
};
pub use repeat::Seen;
pub use rules::{Known, Rules};
