//! The verdict on the words of a module.
ghost use Rattle.std.specs.Prelude.{◌↔◌, List, ℕ, IfOk};
ghost use Rattle.spv_words.specs.Header.{IsModule};
ghost use Rattle.spv_words.specs.declared.words.Order.{Order};
ghost use Rattle.spv_check.specs.Answer.{IsAnswer, SaysValid, StopsAs};
ghost use Rattle.spv_check.specs.Valid.{IsValid};

use crate::checked::Verdict;
use crate::judged::{Judged, judge};
use crate::reading::read;
use spv_extended::Reach;
use spv_inst::{listed_or_dead, one_death, one_listing};
use spv_module::Stop;
use spv_table::{Memory, Table};
use spv_words::Image;
use std::alloc::Global;

/// What a refusal of words comes to: a fault is a verdict.
fn stopped<'a>(stop: Stop) -> Result<Verdict<'a>, Memory>
    ensures { StopsAs stop result }
{
    match stop {
        Stop::Fault(fault) => Ok(Verdict::Fault(fault)),
        Stop::Memory => Err(Memory),
    }
}

/// The verdict on the words of a module, under a grammar table. It is `Valid` exactly where the bytes that these words
/// stand for are a valid module: they spell a list of instructions of the table, which breaks no rule. `reach` is how
/// far it is looked at: as the profile asks, or with all that extended instructions take, as a loader does well to ask.
///
/// A `Fault` tells the first instruction that fails, by I1 to I12, with its number and the word by which that is told
/// (SPIR-V Specification 1.6, section 2.3; instructions and words from 0); or, where the words spell a list, the first
/// rule that it breaks, by stage, then by instruction, then by rule, with the first word of the instruction. The stages
/// are P, L, D, Y1, then C, M, E and the other rules Y, then F, A, G, Y9, Y10, and at last O; `lay_out`, `number`,
/// `type_check`, `flow_check` and `standard_check` tell their rules, `first_miscalled` tells Y9, and `first_miscalls`
/// of a kernel of OpenCL both Y9 and Y10.
///
/// `Memory` comes only where a growth of memory was refused.
pub fn check<'a>(
    alloc: Global,
    table: &Table,
    reach: Reach,
    image: &'a Image,
) -> Result<Verdict<'a>, Memory>
    // `Valid` has the one list of the words, which breaks no rule. A fault is the one of the words.
    ensures verdict { IfOk result (λ v. IsAnswer table.now reach image.now v) }
    // It is `Valid` exactly where the bytes are.
    ensures exactly { (bytes : List ℕ) (order : Order) → IsModule order bytes image.now
        → IfOk result (λ v. SaysValid v ↔ IsValid table.now reach bytes) }
{
    spv_words::laws::one_word_list();
    spv_words::laws::one_refusal();
    one_death();
    one_listing();
    listed_or_dead();
    let module = match read(alloc, table, reach, image) {
        Ok(module) => module,
        Err(stop) => return stopped(stop),
    };
    match judge(alloc, table, reach, module)? {
        Judged::Valid(checked) => Ok(Verdict::Valid(checked)),
        Judged::Broken { fault, .. } => Ok(Verdict::Fault(fault)),
    }
}
