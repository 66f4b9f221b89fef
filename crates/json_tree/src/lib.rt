//! JSON as a tree that borrows its texts, in eight bytes a node.
//!
//! `Tree::from_slice` reads a text by the tokens of `json::Reader` and gives what `serde_json` reads
//! of it: the same numbers, at most 127 levels, and of equal keys the last value. Its contract says
//! so in `serde_json`'s own words (`Read.read`, `Data.Data`), so whoever knows what a `Value` of
//! `serde_json` means knows what a `Tree` means; `specs/View.antt` is the step between the two.
//!
//! A tree is one list of nodes in the order of the text. A text without an escape is kept as its
//! place in the source. So a tree takes at most four bytes for each byte of a text of JSON, and
//! eight where the text has mostly negative numbers, fractions or texts with an escape. A `Node` is
//! a place in a tree; to go past one takes one step, whatever lies in it.
//!
//! ```rust
//! let mut scratch = Scratch::new(alloc);
//! let tree = Tree::from_slice(alloc, br#"{"opcode":17}"#, &mut scratch)?;
//! let opcode = tree.root().get("opcode").and_then(|found| found.as_number());
//! ```
#![tactic(auto)]

mod content;
pub mod laws;
mod node;
mod nodes;
mod number;
mod of;
mod read;
mod tree;
mod walk;

pub use node::Node;
pub use read::Refused;
pub use tree::Tree;
pub use walk::{Items, Members};
