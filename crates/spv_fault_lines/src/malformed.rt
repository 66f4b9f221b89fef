//! The lines of words that spell no instruction.
ghost use Rattle.std.specs.Prelude.{◌≡◌, ◌+◌, ◌-◌, ◌++◌, [], OnOk, drop};
ghost use Rattle.std.specs.Prelude.{string_bytes};
ghost use Rattle.spv_module.specs.Module.{plain_insts};
ghost use Rattle.spv_fault_lines.specs.Lines.{text_of};
ghost use Rattle.spv_facts.specs.Words as words;

use crate::lines::push_lines;
use spv_evidence::Evidence;
use spv_facts::{About, Detail, Fact, facts_of_words};
use spv_module::Module;
use spv_table::Table;
use spv_words::Image;
use std::alloc::{AllocError, Global};

/// Adds the lines of facts about a module that has no instructions.
fn push_lone_lines(about: About<'_, '_>, out: &mut String, facts: &[Fact]) -> Result<(), AllocError>
    requires none { plain_insts about.«module».now ≡ [] }
    ensures { OnOk result (string_bytes out.new ≡ string_bytes out.old ++ text_of about.entry.detail
        about.entry.table.now [] [] facts.now) }
{
    push_lines(out, &about, facts)
}

/// Adds the lines of an instruction of an image that breaks a rule at a word: its words, the one that fails, and what
/// the evidence tells.
///
/// An `AllocError` comes only where a growth of memory was refused.
pub fn push_malformed(
    out: &mut String,
    alloc: Global,
    table: &Table,
    detail: Detail,
    image: &Image,
    inst: u32,
    place: u32,
    evidence: Evidence,
) -> Result<(), AllocError>
    ensures { OnOk result (string_bytes out.new ≡ string_bytes out.old ++ text_of detail table.now [] []
        (words.malformed_facts (drop 5 image.now) inst (place - 5) evidence)) }
{
    let module = Module::new(alloc, image.header());
    let about = About {
        alloc,
        table,
        detail,
        module: &module,
    };
    let facts = facts_of_words(about, image, inst, place, evidence)?;
    push_lone_lines(about, out, &facts)
}
