//! The commands of `spv`, over values: the words of the command line, and what a command answers of the bytes of its
//! files. It opens no file, so a program of its own can call it on any bytes, and on any readers and writers.
#![tactic(auto)]

mod answering;
pub mod asked;
mod assembling;
mod judging;
pub mod laws;
mod name;
mod outgoing;
mod reasons;
mod replying;
mod showing;
mod text_fault;
mod trace_lines;
mod tracing;
mod trouble;
mod writing;

pub use answering::{answer, table_in};
pub use assembling::read_all;
pub use judging::{Judging, Part, Telling, judge_file, tell};
pub use name::write_label;
pub use outgoing::Output;
pub use reasons::{entry_points, refusal_help};
pub use replying::{Reply, assembled, fault, reply_to, shown, too_long, traced};
pub use spv_builtin::grammar_reason;
pub use spv_command_line::{
    AnyCode, Code, Color, Command, ErrorCode, Form, Naming, Scope, Task, UseError, advice,
    arguments, arguments_in, help, is_verbose, text_asked,
};
pub use spv_extended::Reach;
pub use spv_table::Table;
pub use trouble::{Trouble, report};
pub use writing::write_on;
