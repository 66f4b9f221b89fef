//! The conditions of which the rows of types are made (Y5): each is defined once, and decided by one function.
#![tactic(auto)]

mod asked;
mod block;
mod chain;
mod components;
mod constituents;
mod decide;
mod first;
mod further;
mod group;
mod image;
mod kind;
mod laws;
mod path;
mod rest;
mod seat;
mod texels;
mod variable;

pub use asked::{Asked, Asks, Each, Rest, Texels};
pub use block::{
    after_block, are_taken, front_id, function_type, invoked_of, is_local_size, takes,
};
pub use chain::{base_in, chosen, first_index, front, indexes_of, led_by, led_to};
pub use components::both_sizes;
pub use constituents::part_of;
pub use decide::{holds, is_of};
pub use first::first_failing;
pub use further::{is_in_block, may_stand};
pub use group::{enumerant, id_at};
pub use path::{part_within, stop_at};
pub use rest::reached_in;
pub use seat::{Seat, type_at};
pub use spv_type_kinds::{Images, Kind, Relation, function_type_in};
pub use variable::{all_initialize, is_class_at};
