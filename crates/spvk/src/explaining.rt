//! Explains verdicts, for C.
ghost use Rattle.std.specs.Prelude.{◌≡◌, ◌++◌, Some, IfOk, string_bytes};
ghost use Rattle.spv_table.specs.Table.{Table as TableView};
ghost use base.Fml.{Lft, Share};
ghost use types.Logic.{sem};
ghost use Rattle.spvk.specs.Held.{shown};
ghost use Rattle.spvk.specs.Explain.{IsExplaining};
ghost use Rattle.spvk.specs.Flags as spec;
ghost use Rattle.spvk.specs.Make.{Makes, MakesAsked, MakesAt, MakesWith};
ghost use Rattle.spv_extended.specs.declared.reach.Reach.TheVariants.{Profile};
ghost use Rattle.spv_check.specs.Text.{line_of};
ghost use Rattle.spv_words.specs.Version.{as_1_6};

use crate::buffer::Buffer;
use crate::flags::asked_by;
use crate::making::{Making, put, put_as_1_6, put_asked};
use crate::numbers::numbers;
use crate::status::NO_GRAMMAR;
use crate::text::Text;
use spv_explain::{Detail, Explanation, explain_bytes};
use spv_extended::Reach;
use spv_table::{Memory, Table};
use std::alloc::{AllocError, Global};
use std::ptr;

/// The lines of an explanation, for C. The error is that memory ran out.
fn buffer_of(alloc: Global, explanation: &Explanation) -> Result<Buffer, AllocError>
    ensures { IfOk result (λ b. b.bytes ≡ Some
        (line_of explanation.now.judgment ++ string_bytes explanation.now.lines)) }
{
    Buffer::of(alloc, explanation.bytes(alloc)?)
}

/// What explains the verdict on these bytes. The error is that memory ran out.
pub fn explained_bytes(
    alloc: Global,
    table: &Table,
    reach: Reach,
    bytes: &[u8],
) -> Result<Text, Memory>
    ensures { IfOk result (λ t. IsExplaining table.now reach bytes.now t) }
{
    let explanation = explain_bytes(alloc, table, reach, Detail::Short, bytes)?;
    match buffer_of(alloc, &explanation) {
        Ok(buffer) => Ok(Text {
            verdict: numbers(explanation.judgment),
            buffer,
        }),
        Err(_) => Err(Memory),
    }
}

/// Explains the verdict on a module's bytes by a table, without a flag.
fn explain_by(alloc: Global, table: &Table, bytes: &[u8], text: &mut Text) -> u32
    ensures { Makes (IsExplaining table.now Profile bytes.now) text.old text.new result }
{
    put(alloc, table, Making::Lines, Reach::Profile, bytes, text)
}

/// The same of the bytes with version 1.6 in place of another version.
fn explain_as_1_6_by(alloc: Global, table: &Table, bytes: &[u8], text: &mut Text) -> u32
    ensures { Makes (IsExplaining table.now Profile (as_1_6 bytes.now)) text.old text.new result }
{
    put_as_1_6(alloc, table, Making::Lines, Reach::Profile, bytes, text)
}

/// The same by flags.
fn explain_with_by(alloc: Global, table: &Table, bytes: &[u8], flags: u32, text: &mut Text) -> u32
    ensures { MakesAsked (spec.asked_by flags) (IsExplaining table.now) bytes.now text.old text.new result }
{
    put_asked(alloc, table, Making::Lines, asked_by(flags), bytes, text)
}

/// The verdict on a module's bytes with the lines that explain it, by the grammar behind a handle's pointer, which
/// other calls may read at the same time. The text that was there is let go.
#[unsafe(no_mangle)]
pub unsafe extern "C" fn spvk_raw_explain(
    alloc: Global,
    grammar: *const u8,
    bytes: &[u8],
    text: &mut Text,
) -> u32
    ghost lent: { Lft × Share × TableView }
    requires* { sem 𝓛 (shown grammar lent) }
    ensures* { sem 𝓛 (shown grammar lent) ∗
        ⌜ MakesAt grammar (IsExplaining lent.2 Profile bytes.now) text.old text.new result ⌝ }
{
    if grammar == ptr::null() {
        NO_GRAMMAR
    } else {
        explain_by(alloc, &*(grammar as *const Table), bytes, text)
    }
}

/// The same of the bytes with version 1.6 in place of another version.
#[unsafe(no_mangle)]
pub unsafe extern "C" fn spvk_raw_explain_as_1_6(
    alloc: Global,
    grammar: *const u8,
    bytes: &[u8],
    text: &mut Text,
) -> u32
    ghost lent: { Lft × Share × TableView }
    requires* { sem 𝓛 (shown grammar lent) }
    ensures* { sem 𝓛 (shown grammar lent) ∗
        ⌜ MakesAt grammar (IsExplaining lent.2 Profile (as_1_6 bytes.now)) text.old text.new result ⌝ }
{
    if grammar == ptr::null() {
        NO_GRAMMAR
    } else {
        explain_as_1_6_by(alloc, &*(grammar as *const Table), bytes, text)
    }
}

/// The same by flags: `SPVK_AS_1_6` (1), `SPVK_EXTENDED` (2), or both, or `SPVK_OPENCL` (4); 0 for none.
#[unsafe(no_mangle)]
pub unsafe extern "C" fn spvk_raw_explain_with(
    alloc: Global,
    grammar: *const u8,
    bytes: &[u8],
    flags: u32,
    text: &mut Text,
) -> u32
    ghost lent: { Lft × Share × TableView }
    requires* { sem 𝓛 (shown grammar lent) }
    ensures* { sem 𝓛 (shown grammar lent) ∗
        ⌜ MakesWith grammar (IsExplaining lent.2) flags bytes.now text.old text.new result ⌝ }
{
    if grammar == ptr::null() {
        NO_GRAMMAR
    } else {
        explain_with_by(alloc, &*(grammar as *const Table), bytes, flags, text)
    }
}
