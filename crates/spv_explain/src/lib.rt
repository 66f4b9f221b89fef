//! Why a module is refused: a fault with what shows it, and the lines that tell it to a person.
#![tactic(auto)]

mod answers;
mod evidence;
mod kinds;
pub mod laws;
mod reading;
mod rules;
mod standard;
mod stream;

pub use answers::{Answer, Unread, check_json, error_json, explain_json};
pub use reading::{Explained, explain};
pub use rules::rules_json;
pub use spv_evidence::{Condition, EntryPart, Evidence, Kind, Lister, Relation, Side};
pub use spv_facts::Detail;
pub use spv_rules::{Code, rules_text};
pub use stream::{
    Explanation, Told, explain_bytes, explain_stream, explained, octets_told, too_long_told,
};
