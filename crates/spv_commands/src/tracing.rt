//! What `trace` makes of the words of a module.
ghost use Rattle.std.specs.Prelude.{◌≡◌, ◌⊎◌, ℕ, List, IfErr, IfOk, IsErrOf, Ok};
ghost use Rattle.spv_words.specs.Header.{IsModule};
ghost use Rattle.spv_words.specs.declared.words.Order.{Order};
ghost use Rattle.spv_table.specs.Table.{Table};
ghost use Rattle.spv_extended.specs.declared.reach.Reach.{Reach};
ghost use Rattle.spv_check.specs.Broken.{IsSound};
ghost use Rattle.spv_run.specs.Tracing.{IsRunOf};
ghost use Rattle.spv_names.specs.Chosen.{IsChosen};
ghost use Rattle.spv_commands.specs.Trace.{HasNoEntry, HasSeveral, IsTracing};
ghost use Rattle.spv_commands.specs.inner.Traced.{WhyNoRun, WhyNotChosen, is_run, output_of, traced_stop};
ghost use Rattle.spv_commands.specs.declared.trouble.Trouble.TheVariants as trouble;

use crate::trouble::Trouble;
use spv_extended::Reach;
use spv_names::{Chosen, NameError, function_of};
use spv_table::Table;
use spv_verdict::{Checked, Judgment, Trace, TraceError, Verdict, check, trace};
use spv_words::Image;
use std::alloc::Global;

/// What is written of bytes.
#[derive(Drop)]
pub enum Traced {
    /// The run of a valid module.
    Run(Trace),
    /// The verdict line of bytes that are no valid module.
    Line(Judgment),
}

/// What the error of a trace is told as.
fn stopped(error: TraceError) -> Trouble
    ensures { result ≡ traced_stop error }
{
    match error {
        TraceError::NoEntry => Trouble::NoEntry,
        TraceError::Memory => Trouble::Memory,
    }
}

/// The id of a function of a valid module.
fn id_in(checked: &Checked<'_>, function: Chosen<'_>) -> Result<u32, Trouble>
    ensures id { IfOk result (λ id. IsChosen checked.now.insts function.entry (Ok id)) }
    ensures why { IfErr result (WhyNotChosen checked.now.insts function.entry) }
{
    let parts = checked.parts();
    match function_of(parts.module.insts.as_slice(), function) {
        Ok(id) => Ok(id),
        Err(NameError::Absent) => Err(Trouble::NoEntry),
        Err(NameError::Several) => Err(Trouble::SeveralFunctions),
    }
}

/// The run of a function of a valid module.
fn run_of(
    alloc: Global,
    checked: &Checked<'_>,
    function: Chosen<'_>,
    choices: &[u32],
    limit: u32,
) -> Result<Trace, Trouble>
    ensures run { IfOk result (λ t. (id : ℕ) × IsChosen checked.now.insts function.entry (Ok id)
        × ((G : Table) (reach : Reach) → IsSound G reach checked.now.bound checked.now.insts
        → IsRunOf G checked.now id choices.now limit t)) }
    ensures why { IfErr result (WhyNoRun checked.now.insts function.entry) }
{
    let id = id_in(checked, function)?;
    match trace(alloc, checked, id, choices, limit) {
        Ok(run) => Ok(run),
        Err(error) => Err(stopped(error)),
    }
}

/// What is written of the words of a module.
pub fn traced_of(
    alloc: Global,
    table: &Table,
    reach: Reach,
    image: &Image,
    function: Chosen<'_>,
    choices: &[u32],
    limit: u32,
) -> Result<Traced, Trouble>
    ensures traced { (bytes : List ℕ) (order : Order) → IsModule order bytes image.now
        → IfOk result (λ t. IsTracing table.now reach function.entry choices.now limit bytes (output_of t) (is_run t)) }
    ensures stranger { (bytes : List ℕ) (order : Order) → IsModule order bytes image.now
        → IsErrOf result trouble.NoEntry → HasNoEntry table.now reach bytes function.entry }
    ensures several { (bytes : List ℕ) (order : Order) → IsModule order bytes image.now
        → IsErrOf result trouble.SeveralFunctions → HasSeveral table.now reach bytes function.entry }
    ensures only { IfErr result (λ t. (t ≡ trouble.NoEntry) ⊎ (t ≡ trouble.SeveralFunctions) ⊎ (t ≡ trouble.Memory)) }
{
    match check(alloc, table, reach, image) {
        Ok(Verdict::Valid(checked)) => match run_of(alloc, &checked, function, choices, limit) {
            Ok(run) => Ok(Traced::Run(run)),
            Err(trouble) => Err(trouble),
        },
        Ok(Verdict::Fault(fault)) => Ok(Traced::Line(Judgment::Broken(fault))),
        Err(_) => Err(Trouble::Memory),
    }
}
