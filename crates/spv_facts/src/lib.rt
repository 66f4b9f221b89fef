//! What tells a person or a program what shows a fault: facts in numbers, their keys, and the words that lines and
//! members of JSON share.
#![tactic(auto)]

mod about;
mod conditions;
mod fact;
mod facts;
mod key;
pub mod laws;
mod needs;
mod owners;
mod place;
mod refused;
mod shapes;
mod standard;
mod texts;
mod types;
mod versions;
mod words;

pub use about::{About, push_capability, push_id, push_number, push_value};
pub use conditions::condition_words;
pub use fact::{Detail, Fact, Place, Thing};
pub use key::Key;
pub use needs::needs_of;
pub use owners::Owners;
pub use refused::{Front, found_in, front_of, help_for};
pub use shapes::{push_row_of, role_name};
pub use texts::{entry_part_words, listed_names, push_due, side_words};
pub use versions::{extensions, push_since};
pub use words::facts_of_words;
