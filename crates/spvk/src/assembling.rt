//! Assembles texts, for C.
ghost use Rattle.std.specs.Prelude.{◌≡◌, ◌≢◌, ℕ, List, IfOk};
ghost use Rattle.spv_words.specs.declared.words.Order.TheVariants as orders;
ghost use Rattle.spv_table.specs.Table.{Table as TableView};
ghost use base.Fml.{Lft, Share};
ghost use types.Logic.{sem};
ghost use Rattle.spvk.specs.Held.{shown};
ghost use Rattle.spvk.specs.Assemble.{Assembles, AssemblesAt, ComesTo};
ghost use Rattle.spvk.specs.inner.Faulty.{faulty_of};

use crate::image::Assembled;
use crate::status::{MEMORY, NO_GRAMMAR, NOT_TEXT, OK};
use simdutf8::basic::from_utf8;
use spv_parser::{AsmCode, AsmError, assemble};
use spv_table::{Memory, Table};
use spv_words::Order;
use std::alloc::Global;
use std::{mem, ptr};

/// What a text comes to that has no image: S6 is out of memory, and any other fault is told.
fn faulty(error: AsmError) -> Result<AsmError, Memory>
    ensures { result ≡ faulty_of error }
{
    match error.code {
        AsmCode::S6 => Err(Memory),
        _ => Ok(error),
    }
}

/// What a text comes to. The error is that memory ran out.
fn assembled_text(
    alloc: Global,
    table: &Table,
    order: Order,
    text: &str,
) -> Result<Assembled, Memory>
    ensures { IfOk result (λ a. ComesTo table.now order text.now a) }
{
    match assemble(alloc, table, text) {
        Ok(image) => Assembled::of(alloc, order, &image),
        Err(error) => Ok(Assembled::none(faulty(error)?)),
    }
}

/// Assembles a text by a table.
pub(crate) fn assemble_by(
    alloc: Global,
    table: &Table,
    order: Order,
    text: &[u8],
    image: &mut Assembled,
) -> u32
    ensures { Assembles table.now order text.now image.old image.new result }
{
    let text = match from_utf8(text) {
        Ok(text) => text,
        Err(_) => return NOT_TEXT,
    };
    match assembled_text(alloc, table, order, text) {
        Ok(made) => {
            mem::replace(image, made).let_go(alloc);
            OK
        }
        Err(_) => MEMORY,
    }
}

/// Assembles a text by a table, the lowest byte of a word first.
fn assemble_little_by(alloc: Global, table: &Table, text: &[u8], image: &mut Assembled) -> u32
    ensures { Assembles table.now orders.Little text.now image.old image.new result }
{
    assemble_by(alloc, table, Order::Little, text, image)
}

/// Assembles a text by a table, the highest byte of a word first.
fn assemble_big_by(alloc: Global, table: &Table, text: &[u8], image: &mut Assembled) -> u32
    ensures { Assembles table.now orders.Big text.now image.old image.new result }
{
    assemble_by(alloc, table, Order::Big, text, image)
}

/// The bytes of the module that a text stands for, the lowest of a word first, or the text's first fault, by the
/// grammar behind a handle's pointer, which other calls may read at the same time. The bytes that were there are let
/// go.
#[unsafe(no_mangle)]
pub unsafe extern "C" fn spvk_raw_assemble_little(
    alloc: Global,
    grammar: *const u8,
    text: &[u8],
    image: &mut Assembled,
) -> u32
    ghost lent: { Lft × Share × TableView }
    requires* { sem 𝓛 (shown grammar lent) }
    ensures* { sem 𝓛 (shown grammar lent) ∗ ⌜ AssemblesAt grammar lent.2 orders.Little text.now image.old
        image.new result ⌝ }
{
    if grammar == ptr::null() {
        NO_GRAMMAR
    } else {
        assemble_little_by(alloc, &*(grammar as *const Table), text, image)
    }
}

/// The same with the highest byte of a word first.
#[unsafe(no_mangle)]
pub unsafe extern "C" fn spvk_raw_assemble_big(
    alloc: Global,
    grammar: *const u8,
    text: &[u8],
    image: &mut Assembled,
) -> u32
    ghost lent: { Lft × Share × TableView }
    requires* { sem 𝓛 (shown grammar lent) }
    ensures* { sem 𝓛 (shown grammar lent) ∗ ⌜ AssemblesAt grammar lent.2 orders.Big text.now image.old image.new
        result ⌝ }
{
    if grammar == ptr::null() {
        NO_GRAMMAR
    } else {
        assemble_big_by(alloc, &*(grammar as *const Table), text, image)
    }
}
