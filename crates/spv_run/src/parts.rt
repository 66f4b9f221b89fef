//! What a trace is made of.

ghost use Rattle.std.specs.Prelude.{◌≡◌};
ghost use Rattle.spv_run.specs.declared.parts.TraceError.TheVariants.{Memory};

use spv_ids::Ids;
use spv_module::Inst;
use std::alloc::AllocError;
use thiserror::Error;

/// The instructions of a module, and what is known of them.
#[derive(Clone, Copy)]
pub struct Code<'m, 'a> {
    /// The instructions, numbered from 0.
    pub insts: &'m [Inst<'a>],
    /// Which instruction defines each id.
    pub ids: &'m Ids,
    /// How many function definitions there are: as many frames as memory is taken for at the start of a run.
    pub definitions: u32,
}

/// How a run ends (own).
#[derive(Clone, Copy, PartialEq, Eq)]
pub enum Ending {
    /// The last frame returned.
    Finished,
    /// An OpUnreachable was executed.
    Unreachable,
    /// As many steps as were asked for are done, and the run goes on.
    Limit,
    /// No choice is left at an OpBranchConditional or an OpSwitch.
    NoChoice,
    /// There is no target of the number that was chosen.
    BadChoice,
}

/// An instruction that was executed.
#[derive(Clone, Copy, PartialEq, Eq)]
pub struct Step {
    /// How many frames are below its own.
    pub depth: u32,
    /// The number of the instruction, from 0.
    pub inst: u32,
}

/// The steps of a run, and how it ended.
#[derive(Drop)]
pub struct Trace {
    pub steps: Vec<Step>,
    pub ending: Ending,
}

/// Why there is no trace.
#[derive(Clone, Copy, Debug, Drop, Error, PartialEq, Eq)]
pub enum TraceError {
    /// The id is the function of no OpEntryPoint.
    #[error("the id is no entry point's function")]
    NoEntry,
    /// A growth of memory was refused.
    #[error("out of memory")]
    Memory,
}

impl From<AllocError> for TraceError {
    ghost from_gives = { λ _ e. e ≡ Memory };

    fn from(_e: AllocError) -> TraceError {
        TraceError::Memory
    }
}
