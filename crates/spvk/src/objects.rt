//! Explains verdicts as JSON objects, for C.
ghost use Rattle.std.specs.Prelude.{IfOk};
ghost use Rattle.spv_table.specs.Table.{Table as TableView};
ghost use base.Fml.{Lft, Share};
ghost use types.Logic.{sem};
ghost use Rattle.spvk.specs.Held.{shown};
ghost use Rattle.spvk.specs.Make.{Makes, MakesAsked, MakesAt, MakesWith};
ghost use Rattle.spvk.specs.Object.{IsTelling};
ghost use Rattle.spvk.specs.Flags as spec;
ghost use Rattle.spv_extended.specs.declared.reach.Reach.TheVariants.{Profile};
ghost use Rattle.spv_words.specs.Version.{as_1_6};

use crate::buffer::Buffer;
use crate::flags::asked_by;
use crate::making::{Making, put, put_as_1_6, put_asked};
use crate::numbers::numbers;
use crate::status::NO_GRAMMAR;
use crate::text::Text;
use spv_explain::explain_json;
use spv_extended::Reach;
use spv_table::{Memory, Table};
use std::alloc::Global;
use std::ptr;

/// The verdict on these bytes and the object that explains it. The error is that memory ran out.
pub fn object_of(alloc: Global, table: &Table, reach: Reach, bytes: &[u8]) -> Result<Text, Memory>
    ensures { IfOk result (λ t. IsTelling table.now reach bytes.now t) }
{
    let answer = explain_json(alloc, table, reach, None, bytes)?;
    let verdict = numbers(answer.judgment);
    match Buffer::of(alloc, answer.text) {
        Ok(buffer) => Ok(Text { verdict, buffer }),
        Err(_) => Err(Memory),
    }
}

/// Explains the verdict on a module's bytes by a table, as an object, without a flag.
fn tell_by(alloc: Global, table: &Table, bytes: &[u8], text: &mut Text) -> u32
    ensures { Makes (IsTelling table.now Profile bytes.now) text.old text.new result }
{
    put(alloc, table, Making::Object, Reach::Profile, bytes, text)
}

/// The same of the bytes with version 1.6 in place of another version.
fn tell_as_1_6_by(alloc: Global, table: &Table, bytes: &[u8], text: &mut Text) -> u32
    ensures { Makes (IsTelling table.now Profile (as_1_6 bytes.now)) text.old text.new result }
{
    put_as_1_6(alloc, table, Making::Object, Reach::Profile, bytes, text)
}

/// The same by flags.
fn tell_with_by(alloc: Global, table: &Table, bytes: &[u8], flags: u32, text: &mut Text) -> u32
    ensures { MakesAsked (spec.asked_by flags) (IsTelling table.now) bytes.now text.old text.new result }
{
    put_asked(alloc, table, Making::Object, asked_by(flags), bytes, text)
}

/// The verdict on a module's bytes with the JSON object that explains it, by the grammar behind a handle's pointer,
/// which other calls may read at the same time. The text that was there is let go.
#[unsafe(no_mangle)]
pub unsafe extern "C" fn spvk_raw_explain_json(
    alloc: Global,
    grammar: *const u8,
    bytes: &[u8],
    text: &mut Text,
) -> u32
    ghost lent: { Lft × Share × TableView }
    requires* { sem 𝓛 (shown grammar lent) }
    ensures* { sem 𝓛 (shown grammar lent) ∗
        ⌜ MakesAt grammar (IsTelling lent.2 Profile bytes.now) text.old text.new result ⌝ }
{
    if grammar == ptr::null() {
        NO_GRAMMAR
    } else {
        tell_by(alloc, &*(grammar as *const Table), bytes, text)
    }
}

/// The same of the bytes with version 1.6 in place of another version.
#[unsafe(no_mangle)]
pub unsafe extern "C" fn spvk_raw_explain_json_as_1_6(
    alloc: Global,
    grammar: *const u8,
    bytes: &[u8],
    text: &mut Text,
) -> u32
    ghost lent: { Lft × Share × TableView }
    requires* { sem 𝓛 (shown grammar lent) }
    ensures* { sem 𝓛 (shown grammar lent) ∗
        ⌜ MakesAt grammar (IsTelling lent.2 Profile (as_1_6 bytes.now)) text.old text.new result ⌝ }
{
    if grammar == ptr::null() {
        NO_GRAMMAR
    } else {
        tell_as_1_6_by(alloc, &*(grammar as *const Table), bytes, text)
    }
}

/// The same by flags: `SPVK_AS_1_6` (1), `SPVK_EXTENDED` (2), or both, or `SPVK_OPENCL` (4); 0 for none.
#[unsafe(no_mangle)]
pub unsafe extern "C" fn spvk_raw_explain_json_with(
    alloc: Global,
    grammar: *const u8,
    bytes: &[u8],
    flags: u32,
    text: &mut Text,
) -> u32
    ghost lent: { Lft × Share × TableView }
    requires* { sem 𝓛 (shown grammar lent) }
    ensures* { sem 𝓛 (shown grammar lent) ∗
        ⌜ MakesWith grammar (IsTelling lent.2) flags bytes.now text.old text.new result ⌝ }
{
    if grammar == ptr::null() {
        NO_GRAMMAR
    } else {
        tell_with_by(alloc, &*(grammar as *const Table), bytes, flags, text)
    }
}
