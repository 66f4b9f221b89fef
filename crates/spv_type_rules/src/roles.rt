//! The roles in which a module uses its ids (rule Y1).

mod asked;
mod check;
pub mod laws;
mod role;

pub use check::roles_check;
pub use role::plays;
pub use spv_ids::used_id;
