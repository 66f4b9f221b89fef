//! What a command writes.
ghost use Rattle.std.specs.Prelude.{◌≡◌, ◌≤◌, ◌↔◌, ◌++◌, ℕ, Some, IfErr, IfSome, IsErrOf, OnOk, length, take};
ghost use Rattle.std.specs.Io.KnownBytes.{Appends};
ghost use Rattle.spv_words.specs.declared.words.WordError.TheVariants.{W1};
ghost use Rattle.spv_check.specs.Outcome.{HasFailed};
ghost use Rattle.spv_commands.specs.Output.{output_of};

use crate::trace_lines::write_trace;
use spv_verdict::{Line, Trace};
use spv_words::{Sink, WordError, write_all};

/// What a command writes to the standard output.
#[derive(Drop)]
pub enum Output {
    /// A line.
    Line(Line),
    /// Any bytes.
    Bytes(Vec<u8>),
    /// The lines of a run. They are made as they are written, so that a run takes eight bytes a step.
    Run(Trace),
}

impl Output {
    /// Writes it. It takes no memory.
    ///
    /// # Errors
    ///
    /// Only `W1`, where a write failed or took nothing. A beginning of it was then written.
    pub fn write<W: Sink>(&self, w: &mut W) -> Result<(), WordError>
        ensures all { OnOk result (Appends (W.contents w.old) (W.contents w.new) (output_of self.now)) }
        ensures begun { IfSome (W.contents w.old)
            (λ xs. (n : ℕ) × (n ≤ length (output_of self.now))
            × (W.contents w.new ≡ Some (xs ++ take n (output_of self.now)))) }
        ensures only { IfErr result (λ e. e ≡ W1) }
        ensures count { HasFailed W.failures w.old w.new ↔ IsErrOf result W1 }
        ensures steady { OnOk result (W.failures w.new ≡ W.failures w.old) }
    {
        match self {
            Output::Line(line) => write_all(line.as_slice(), w),
            Output::Bytes(bytes) => write_all(bytes.as_slice(), w),
            Output::Run(run) => write_trace(run.steps.as_slice(), run.ending, w),
        }
    }
}
