//! Shows modules, for C.
ghost use Rattle.std.specs.Prelude.{◌≡◌, ℕ, List, IfOk};
ghost use Rattle.spv_words.specs.Header.{IsModule, RefusesBytes};
ghost use Rattle.spv_words.specs.declared.words.Order.{Order};
ghost use Rattle.spv_table.specs.Table.{Table as TableView};
ghost use base.Fml.{Lft, Share};
ghost use types.Logic.{sem};
ghost use Rattle.spvk.specs.Held.{shown};
ghost use Rattle.spvk.specs.Make.{Makes, MakesAt};
ghost use Rattle.spvk.specs.Show.{IsShowing, IsShowingForOpenCl};
ghost use Rattle.spv_words.specs.Version.{as_1_6};
ghost use Rattle.spv_extended.specs.declared.reach.Reach.{Reach as ReachView};
ghost use Rattle.spv_extended.specs.declared.reach.Reach.TheVariants.{Profile};

use crate::judging::refusal;
use crate::making::{Making, put, put_as_1_6};
use crate::status::NO_GRAMMAR;
use crate::text::Text;
use spv_check::Judgment;
use spv_extended::Reach;
use spv_module::Stop;
use spv_printer::show_image;
use spv_scope::Scope;
use spv_table::{Memory, Table};
use spv_words::{Image, WordError, image_of};
use std::alloc::Global;
use std::ptr;

/// What is shown of the words of an image. The error is that memory ran out.
fn shown_image(alloc: Global, table: &Table, reach: Reach, image: &Image) -> Result<Text, Memory>
    ensures { (bytes : List ℕ) (order : Order) → IsModule order bytes image.now
        → IfOk result (λ t. IsShowing table.now reach bytes t) }
{
    match show_image(alloc, table, image) {
        Ok(text) => Text::of(alloc, Judgment::Valid, reach, text),
        Err(Stop::Fault(fault)) => Ok(Text::none(Judgment::Broken(fault))),
        Err(Stop::Memory) => Err(Memory),
    }
}

/// What is shown of bytes that gave no image. The error is that memory ran out.
fn refused(code: WordError) -> Result<Text, Memory>
    ensures { (bytes : List ℕ) (G : TableView) (reach : ReachView) → RefusesBytes code bytes
        → IfOk result (λ t. IsShowing G reach bytes t) }
{
    match refusal(code) {
        Ok(judgment) => Ok(Text::none(judgment)),
        Err(memory) => Err(memory),
    }
}

/// What is shown of these bytes. The error is that memory ran out.
pub fn shown_bytes(alloc: Global, table: &Table, reach: Reach, bytes: &[u8]) -> Result<Text, Memory>
    ensures { IfOk result (λ t. IsShowing table.now reach bytes.now t) }
{
    match image_of(alloc, bytes) {
        Ok((image, _)) => shown_image(alloc, table, reach, &image),
        Err(code) => refused(code),
    }
}

/// Shows a module's bytes by a table.
fn show_by(alloc: Global, table: &Table, bytes: &[u8], text: &mut Text) -> u32
    ensures { Makes (IsShowing table.now Profile bytes.now) text.old text.new result }
{
    put(alloc, table, Making::Shown, Reach::Profile, bytes, text)
}

/// The same of the bytes with version 1.6 in place of another version.
fn show_as_1_6_by(alloc: Global, table: &Table, bytes: &[u8], text: &mut Text) -> u32
    ensures { Makes (IsShowing table.now Profile (as_1_6 bytes.now)) text.old text.new result }
{
    put_as_1_6(alloc, table, Making::Shown, Reach::Profile, bytes, text)
}

/// The same of a module of OpenCL, of version 1.0 to 1.6: the text tells the version that the bytes tell.
fn show_opencl_by(alloc: Global, table: &Table, bytes: &[u8], text: &mut Text) -> u32
    ensures { Makes (IsShowingForOpenCl table.now bytes.now) text.old text.new result }
{
    let reach = Scope::OpenCl.reach(bytes);
    put_as_1_6(alloc, table, Making::Shown, reach, bytes, text)
}

/// The text of a module, or the rule by which its bytes are no list of instructions, by the grammar behind a handle's
/// pointer, which other calls may read at the same time. The text that was there is let go.
#[unsafe(no_mangle)]
pub unsafe extern "C" fn spvk_raw_show(
    alloc: Global,
    grammar: *const u8,
    bytes: &[u8],
    text: &mut Text,
) -> u32
    ghost lent: { Lft × Share × TableView }
    requires* { sem 𝓛 (shown grammar lent) }
    ensures* { sem 𝓛 (shown grammar lent) ∗
        ⌜ MakesAt grammar (IsShowing lent.2 Profile bytes.now) text.old text.new result ⌝ }
{
    if grammar == ptr::null() {
        NO_GRAMMAR
    } else {
        show_by(alloc, &*(grammar as *const Table), bytes, text)
    }
}

/// The same of the bytes with version 1.6 in place of another version.
#[unsafe(no_mangle)]
pub unsafe extern "C" fn spvk_raw_show_as_1_6(
    alloc: Global,
    grammar: *const u8,
    bytes: &[u8],
    text: &mut Text,
) -> u32
    ghost lent: { Lft × Share × TableView }
    requires* { sem 𝓛 (shown grammar lent) }
    ensures* { sem 𝓛 (shown grammar lent) ∗
        ⌜ MakesAt grammar (IsShowing lent.2 Profile (as_1_6 bytes.now)) text.old text.new result ⌝ }
{
    if grammar == ptr::null() {
        NO_GRAMMAR
    } else {
        show_as_1_6_by(alloc, &*(grammar as *const Table), bytes, text)
    }
}

/// The same of a module of OpenCL, of version 1.0 to 1.6: the text tells the version that the bytes tell.
#[unsafe(no_mangle)]
pub unsafe extern "C" fn spvk_raw_show_opencl(
    alloc: Global,
    grammar: *const u8,
    bytes: &[u8],
    text: &mut Text,
) -> u32
    ghost lent: { Lft × Share × TableView }
    requires* { sem 𝓛 (shown grammar lent) }
    ensures* { sem 𝓛 (shown grammar lent) ∗
        ⌜ MakesAt grammar (IsShowingForOpenCl lent.2 bytes.now) text.old text.new result ⌝ }
{
    if grammar == ptr::null() {
        NO_GRAMMAR
    } else {
        show_opencl_by(alloc, &*(grammar as *const Table), bytes, text)
    }
}
