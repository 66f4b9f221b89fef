//! The words of the command line of `spv`, and the command that they give.
#![tactic(auto)]

mod command_line;
pub mod laws;
mod manual;
mod misfit;
mod number;
mod options;
mod program;

pub use command_line::{
    Color, Command, Form, Naming, Task, UseError, arguments, arguments_in, help, is_verbose,
    text_asked,
};
pub use misfit::{advice, shown_word};
pub use spv_rules::{AnyCode, Code, ErrorCode};
pub use spv_scope::Scope;
