//! What the view of a module tells of its fault.
ghost use Rattle.std.specs.Prelude.{◌≡◌, ◌++◌, List, ℕ, IfOk, option_map, string_bytes};
ghost use Rattle.spv_check.specs.Text.{line_of};
ghost use Rattle.spv_check.specs.declared.verdict_line.Judgment.TheVariants.{Broken};
ghost use Rattle.spv_views.specs.Finding.{told_in, told_of};
ghost use Rattle.spv_views.specs.inner.Finding.{tells};

use spv_annotate::Finding;
use spv_check::Judgment;
use spv_explain::Explanation;
use spv_module::Fault;
use std::alloc::{AllocError, Global};

/// What is told of the fault of a module.
#[derive(Drop)]
pub struct Found {
    /// The number of the instruction at which it is told.
    inst: u32,
    /// The line of the verdict, and those that explain it.
    lines: String,
}

/// The line of a fault, and after it those that explain it.
fn lines_of(alloc: Global, fault: Fault, explanation: &Explanation) -> Result<String, AllocError>
    requires { explanation.now.judgment ≡ Broken fault }
    ensures { IfOk result (λ t. string_bytes t ≡ line_of (Broken fault) ++ string_bytes explanation.now.lines) }
{
    let bytes = explanation.bytes(alloc)?;
    match String::from_utf8(bytes) {
        Ok(lines) => Ok(lines),
        Err(_) => unreachable!(),
    }
}

/// What is told of the fault of a module, where its verdict is one.
pub fn found_in(alloc: Global, explanation: &Explanation) -> Result<Option<Found>, AllocError>
    ensures { (walk : List ℕ) → IfOk result (λ f. option_map (tells walk) f ≡ told_of explanation.now walk) }
{
    match explanation.judgment {
        Judgment::Broken(fault) => Ok(Some(Found {
            inst: fault.inst,
            lines: lines_of(alloc, fault, explanation)?,
        })),
        Judgment::Valid | Judgment::Refused(_) => Ok(None),
    }
}

/// The same, lent, with the blocks of the walk that shows it.
pub fn lent<'f>(found: &'f Option<Found>, walk: &'f [u32]) -> Option<Finding<'f>>
    ensures { option_map told_in result ≡ option_map (tells walk.now) found.now }
{
    match found {
        Some(found) => Some(Finding {
            inst: found.inst,
            lines: &found.lines,
            walk,
        }),
        None => None,
    }
}
