//! The verdict on a module: whether it breaks a rule, and which it breaks first.
#![tactic(auto)]

mod checked;
mod extended;
pub mod flow;
mod fork;
mod judged;
mod judging;
pub mod laws;
mod line;
mod operation;
mod reading;
mod standard;
mod std_types;
mod stream;
pub mod types;
mod verdict_line;

pub use checked::{Checked, Parts, Verdict};
pub use flow::{Flow, flow_check};
pub use fork::fork_of;
pub use judged::{Judged, Reached, judge};
pub use judging::check;
pub use line::Line;
pub use operation::op_holds;
pub use reading::read;
pub use stream::check_stream;
pub use types::{Types, type_check};
pub use verdict_line::{Judgment, line_for};
