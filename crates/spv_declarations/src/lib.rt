//! Entry points, execution modes, names and decorations, forward pointers and widths of a kernel of OpenCL: the rules
//! O3 and O5 to O13 (SPIR-V Specification 1.6, sections 2.16.1, 2.18.2, 3.20, 3.49.3, 3.49.5).
#![tactic(auto)]

mod built_in;
mod capable;
mod decorated;
mod entry;
mod found;
mod front;
mod initialized;
mod kinds;
pub mod laws;
mod linked;
mod member;
mod misdeclared;
mod misplaced;
mod pairs;
mod pointer;
mod said;
mod second;
mod sets;
mod shown;
mod spans;
mod stands;
mod table;

pub use decorated::{given, group_of, member_given};
pub use entry::named;
pub use found::Found;
pub use misdeclared::first_misdeclared;
pub use misplaced::decorates_with_id;
pub use shown::{
    Mixture, Target, bad_target, half_built_in, linking_entry, other_inst, outside_inst,
};
pub use stands::{is_never_on_members, stands_on};
