//! Checks modules, for C.
ghost use Rattle.std.specs.Prelude.{◌≡◌};
ghost use Rattle.spv_table.specs.Table.{Table as TableView};
ghost use base.Fml.{Lft, Share};
ghost use types.Logic.{sem};
ghost use Rattle.spvk.specs.Held.{shown};
ghost use Rattle.spvk.specs.Answer.{Answers, AnswersAsked, AnswersAt, AnswersWith, status_alone};
ghost use Rattle.spvk.specs.Flags as spec;
ghost use Rattle.spv_scope.specs.Scope.{reach_of, taken};
ghost use Rattle.spv_extended.specs.declared.reach.Reach.TheVariants.{Profile};
ghost use Rattle.spv_words.specs.Version.{as_1_6};

use crate::flags::asked_by;
use crate::judging::judge;
use crate::numbers::{Answer, NOWHERE, Verdict, numbers};
use crate::status::{MEMORY, NO_FLAG, NO_GRAMMAR, OK};
use crate::versions::copy_as_1_6;
use spv_extended::Reach;
use spv_scope::Scope;
use spv_table::Table;
use std::alloc::Global;
use std::ptr;

/// A status without a verdict.
fn alone(status: u32) -> Answer
    ensures { result ≡ status_alone status }
{
    Answer {
        status,
        code: NOWHERE,
        inst: NOWHERE,
        word: NOWHERE,
    }
}

/// The answer of a check by a table.
fn answer_of(alloc: Global, table: &Table, reach: Reach, bytes: &[u8]) -> Answer
    ensures { Answers table.now reach bytes.now result }
{
    match judge(alloc, table, reach, bytes) {
        Ok(judgment) => {
            let Verdict { code, inst, word } = numbers(judgment);
            Answer {
                status: OK,
                code,
                inst,
                word,
            }
        }
        Err(_) => alone(MEMORY),
    }
}

/// The same of the bytes with version 1.6 in place of another version.
fn answer_as_1_6_of(alloc: Global, table: &Table, reach: Reach, bytes: &[u8]) -> Answer
    ensures { Answers table.now reach (as_1_6 bytes.now) result }
{
    let Ok(copy) = copy_as_1_6(alloc, bytes) else {
        return alone(MEMORY);
    };
    answer_of(alloc, table, reach, copy.as_slice())
}

/// The answer of a check without a flag.
pub(crate) fn answer_by(alloc: Global, table: &Table, bytes: &[u8]) -> Answer
    ensures { Answers table.now Profile bytes.now result }
{
    answer_of(alloc, table, Reach::Profile, bytes)
}

/// The same of the bytes with version 1.6 in place of another version.
pub(crate) fn answer_as_1_6_by(alloc: Global, table: &Table, bytes: &[u8]) -> Answer
    ensures { Answers table.now Profile (as_1_6 bytes.now) result }
{
    answer_as_1_6_of(alloc, table, Reach::Profile, bytes)
}

/// The answer of a check as it is asked for.
fn answer_asked(alloc: Global, table: &Table, scope: Scope, bytes: &[u8]) -> Answer
    ensures { Answers table.now (reach_of scope bytes.now) (taken scope bytes.now) result }
{
    let reach = scope.reach(bytes);
    if scope.takes_as_1_6() {
        answer_as_1_6_of(alloc, table, reach, bytes)
    } else {
        answer_of(alloc, table, reach, bytes)
    }
}

/// The answer of a check by flags.
fn answer_with_by(alloc: Global, table: &Table, bytes: &[u8], flags: u32) -> Answer
    ensures { AnswersAsked (spec.asked_by flags) table.now bytes.now result }
{
    match asked_by(flags) {
        Some(scope) => answer_asked(alloc, table, scope, bytes),
        None => alone(NO_FLAG),
    }
}

/// The answer of a check without a grammar.
fn no_grammar() -> Answer
    ensures { result ≡ status_alone 2 }
{
    alone(NO_GRAMMAR)
}

/// The verdict on a module's bytes by the grammar behind a handle's pointer, which other calls may read at the same
/// time.
#[unsafe(no_mangle)]
pub unsafe extern "C" fn spvk_raw_check(alloc: Global, grammar: *const u8, bytes: &[u8]) -> Answer
    ghost lent: { Lft × Share × TableView }
    requires* { sem 𝓛 (shown grammar lent) }
    ensures* { sem 𝓛 (shown grammar lent) ∗ ⌜ AnswersAt grammar lent.2 Profile bytes.now result ⌝ }
{
    if grammar == ptr::null() {
        no_grammar()
    } else {
        answer_by(alloc, &*(grammar as *const Table), bytes)
    }
}

/// The same of the bytes with version 1.6 in place of another version.
#[unsafe(no_mangle)]
pub unsafe extern "C" fn spvk_raw_check_as_1_6(
    alloc: Global,
    grammar: *const u8,
    bytes: &[u8],
) -> Answer
    ghost lent: { Lft × Share × TableView }
    requires* { sem 𝓛 (shown grammar lent) }
    ensures* { sem 𝓛 (shown grammar lent) ∗ ⌜ AnswersAt grammar lent.2 Profile (as_1_6 bytes.now) result ⌝ }
{
    if grammar == ptr::null() {
        no_grammar()
    } else {
        answer_as_1_6_by(alloc, &*(grammar as *const Table), bytes)
    }
}

/// The same by flags: `SPVK_AS_1_6` (1), `SPVK_EXTENDED` (2), or both, or `SPVK_OPENCL` (4); 0 for none.
#[unsafe(no_mangle)]
pub unsafe extern "C" fn spvk_raw_check_with(
    alloc: Global,
    grammar: *const u8,
    bytes: &[u8],
    flags: u32,
) -> Answer
    ghost lent: { Lft × Share × TableView }
    requires* { sem 𝓛 (shown grammar lent) }
    ensures* { sem 𝓛 (shown grammar lent) ∗ ⌜ AnswersWith grammar lent.2 flags bytes.now result ⌝ }
{
    if grammar == ptr::null() {
        no_grammar()
    } else {
        answer_with_by(alloc, &*(grammar as *const Table), bytes, flags)
    }
}
