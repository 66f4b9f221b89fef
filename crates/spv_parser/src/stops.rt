//! Where the reading of a line stops.

ghost use Rattle.std.specs.Prelude.{◌≡◌, ◌∷◌, [], ℕ, List, Option, IfOk, map, option_and_then, option_map};
ghost use Rattle.spv_table.specs.declared.table.Entry as code;
ghost use Rattle.spv_table.specs.Table.{entry_of, kind_of, pattern_of};
ghost use Rattle.spv_table.specs.declared.form.Form.TheVariants.{Leaf as LeafForm};
ghost use Rattle.spv_table.specs.inner.Form.{form_at, form_of};
ghost use Rattle.spv_table.specs.Table as grammar;
ghost use Rattle.spv_inst.specs.inner.Known.{Knows};
ghost use Rattle.spv_inst.specs.inner.Pending.{items_of, plain_slot};
ghost use Rattle.spv_inst.specs.Flat.{Due, OneOf, due};
ghost use Rattle.spv_module.specs.Operand.{Context, PlainInst};
ghost use Rattle.spv_module.specs.Width as widths;
ghost use Rattle.spv_lines.specs.Operand.{is_float_type};
ghost use Rattle.spv_lines.specs.Refusal.{IsBreak};
ghost use Rattle.spv_parser.specs.Reason.{behind_space, wanted_at, wanted_number, word_behind};
ghost use Rattle.spv_parser.specs.inner.Reading.{IsAt, RefusesOr};
ghost use Rattle.spv_parser.specs.inner.Stopping.{HasFront, HasOutcome, HaveOutcome, IsLeft, StopsAt, plain_stop};

use crate::line::{cut_front, look_up};
use crate::operands::{Buffers, Known, Line, Setting, differ, take_operand};
use crate::text_reason::Wanted;
use crate::token::{type_of_first, width_of};
use spv_inst::due::{Asked, Definitions, Leaf};
use spv_lines::{AsmCode, Misread, behind, read_behind, split_token};
use spv_module::opcode;
use spv_table::{PatternRef, Table};
use std::alloc::AllocError;

/// Where the reading of a line stopped.
#[derive(Clone, Copy)]
pub struct Stop<'a> {
    pub code: AsmCode,
    /// What is left of the line.
    pub rest: &'a str,
    pub wanted: Wanted,
}

/// What became of a line, or of its operands.
#[derive(Clone, Copy)]
pub enum Outcome<'a> {
    Read(Line),
    Stopped(Stop<'a>),
}

/// Why what stands in front of ` = ` is not the result of an instruction.
#[derive(Clone, Copy)]
pub struct Lack {
    pub code: AsmCode,
    pub wanted: Wanted,
}

/// What stands behind the space at the front.
fn skip_space(text: &str) -> &str
    ensures { result.now ≡ behind_space text.now }
{
    match behind(text, b' ') {
        Some(rest) => rest,
        None => text,
    }
}

/// The word behind the space at the front, and what follows it; all from the space on where no word stands there.
fn skip_to_word(text: &str) -> &str
    ensures { result.now ≡ word_behind text.now }
{
    let rest = skip_space(text);
    let (word, _) = split_token(rest);
    if word.is_empty() { text } else { rest }
}

/// A number of a width, if that is known, in bits.
fn number_wanted(width: Option<u32>, hexadecimal: bool) -> Wanted
    ensures { result ≡ wanted_number hexadecimal width }
{
    match width {
        Some(width) => Wanted::Number {
            words: if width <= 32 { 1 } else { 2 },
            hexadecimal,
        },
        None => Wanted::KnownWidth,
    }
}

/// A number whose type is that id, if there is one.
fn typed_wanted(definitions: &Definitions, type_id: Option<u32>) -> Wanted
    ensures { (before : List PlainInst) → Knows definitions.now before
        → result ≡ wanted_number (is_float_type before type_id) (option_and_then (widths.width_of before) type_id) }
{
    number_wanted(
        width_of(definitions, type_id),
        definitions.is_float(type_id),
    )
}

/// What the leaf that is due wants.
fn leaf_wanted(setting: &Setting<'_, '_>, known: Known, asked: Asked) -> Wanted
    ensures { (c : Context) → IsAt setting.now.definitions.now known c
        → form_at (kind_of setting.now.table.now asked.slot.kind) ≡ LeafForm asked.leaf
        → result ≡ wanted_at setting.now.table.now c (plain_slot asked.slot) }
{
    let word = Wanted::Number {
        words: 1,
        hexadecimal: false,
    };
    match asked.leaf {
        Leaf::ResultType => Wanted::Id,
        Leaf::Result => Wanted::Result,
        Leaf::Id => Wanted::Id,
        Leaf::Word => word,
        Leaf::Integer => {
            if asked.slot.paired && known.opcode == opcode::SWITCH {
                let type_id = type_of_first(setting.definitions, known);
                return typed_wanted(setting.definitions, type_id);
            }
            word
        }
        Leaf::ContextNumber => typed_wanted(setting.definitions, known.type_id),
        Leaf::Value => Wanted::Value(asked.slot.kind),
        Leaf::Mask => Wanted::Mask(asked.slot.kind),
        Leaf::Text => Wanted::Text,
        Leaf::Nothing => Wanted::Nothing(asked.slot.kind),
    }
}

/// Where a line stops whose rest the leaf that is due refuses.
///
/// An `AllocError` comes of S6 alone.
fn refused<'a>(
    setting: &Setting<'_, '_>,
    known: Known,
    asked: Asked,
    rest: &'a str,
    code: AsmCode,
) -> Result<Stop<'a>, AllocError>
    ensures { (r : Option ℕ) (c : Context) (ds : List Due) → IsAt setting.now.definitions.now known c
        → form_at (kind_of setting.now.table.now asked.slot.kind) ≡ LeafForm asked.leaf
        → RefusesOr setting.now.table.now r c (plain_slot asked.slot) rest.now code
        → IfOk result (λ s. StopsAt setting.now.table.now r c (OneOf (plain_slot asked.slot) ∷ ds) rest.now s.code
        (plain_stop s)) }
{
    match code {
        AsmCode::S6 => Err(AllocError),
        _ => Ok(Stop {
            code,
            rest: skip_space(rest),
            wanted: leaf_wanted(setting, known, asked),
        }),
    }
}

/// Where a line stops of which nothing is due, and something is left, or its result has no place.
fn left_over<'a>(rest: &'a str) -> Stop<'a>
    ensures { (G : grammar.Table) (r : Option ℕ) (c : Context) → IsLeft r c rest.now
        → StopsAt G r c [] rest.now result.code (plain_stop result) }
{
    if rest.is_empty() {
        return Stop {
            code: AsmCode::S3,
            rest,
            wanted: Wanted::NoResult,
        };
    }
    Stop {
        code: AsmCode::S3,
        rest: skip_to_word(rest),
        wanted: Wanted::End,
    }
}

/// Reads the operands of a line by the pattern of its instruction, up to where they stop. The words of operands that
/// are read are then those of the buffers.
///
/// An `AllocError` comes only where a growth of memory was refused.
fn operands_or_stop<'t, 'a>(
    setting: &Setting<'t, '_>,
    buffers: &mut Buffers<'t>,
    opcode: u16,
    result_id: Option<u32>,
    pattern: &PatternRef<'t>,
    operands: &'a str,
) -> Result<Outcome<'a>, AllocError>
    requires forms { setting.now.forms.now ≡ map form_of setting.now.table.now.kinds }
    requires known { (before : List PlainInst) × Knows setting.now.definitions.now before }
    requires broken { IsBreak operands.now }
    ensures { (before : List PlainInst) → Knows setting.now.definitions.now before
        → IfOk result
        (λ o. HaveOutcome setting.now.table.now result_id before opcode (map due (items_of pattern.now)) operands.now
        buffers.new.words.items o) }
{
    buffers.words.clear();
    buffers.pending.start(pattern);
    let mut known = Known::new(opcode);
    let mut rest = operands;
    loop {
        let more = !rest.is_empty() || differ(result_id, known.result);
        let Some(asked) = buffers
            .pending
            .next_leaf(setting.table, setting.forms, more)?
        else {
            if more {
                return Ok(Outcome::Stopped(left_over(rest)));
            }
            return Ok(Outcome::Read(known.line()));
        };
        match take_operand(setting, buffers, known, result_id, asked, rest) {
            Ok(front) => {
                known = front.known;
                rest = front.text;
            }
            Err(code) => {
                let stop = refused(setting, known, asked, rest, code)?;
                return Ok(Outcome::Stopped(stop));
            }
        }
    }
}

/// Reads what stands in front of ` = `, if a line has it, or tells what is wanted there.
fn result_or_lack(table: &Table, opcode: u16, front: Option<&str>) -> Result<Option<u32>, Lack>
    ensures { (c : Context) (entry : code.Entry) → entry_of table.now opcode ≡ Some entry
        → HasFront table.now c (pattern_of entry) (option_map (λ t. t.now) front.entry) result }
{
    let Some(text) = front else {
        if table.has_result(opcode, false) {
            return Err(Lack {
                code: AsmCode::S3,
                wanted: Wanted::Result,
            });
        }
        return Ok(None);
    };
    if !table.has_result(opcode, true) {
        return Err(Lack {
            code: AsmCode::S3,
            wanted: Wanted::NoResult,
        });
    }
    match read_behind(b'%', text.as_bytes()) {
        Ok(id) => Ok(Some(id)),
        Err(Misread::IllFormed) => Err(Lack {
            code: AsmCode::S3,
            wanted: Wanted::ResultId,
        }),
        Err(Misread::TooLarge) => Err(Lack {
            code: AsmCode::S4,
            wanted: Wanted::ResultId,
        }),
    }
}

/// Where a line stops before its operands.
fn stopped<'a>(code: AsmCode, rest: &'a str, wanted: Wanted) -> Outcome<'a>
    ensures { result ≡ Outcome.Stopped (record { code = code; rest = rest.entry; wanted = wanted }) }
{
    Outcome::Stopped(Stop { code, rest, wanted })
}

/// Reads a line, up to where it stops. The further words of a line that is read are then those of the buffers.
///
/// An `AllocError` comes only where a growth of memory was refused.
pub fn read_or_stop<'t, 'a>(
    setting: &Setting<'t, '_>,
    buffers: &mut Buffers<'t>,
    line: &'a str,
) -> Result<Outcome<'a>, AllocError>
    requires forms { setting.now.forms.now ≡ map form_of setting.now.table.now.kinds }
    requires known { (before : List PlainInst) × Knows setting.now.definitions.now before }
    ensures { (before : List PlainInst) (written : ℕ) → Knows setting.now.definitions.now before
        → IfOk result (λ o. HasOutcome setting.now.table.now before written line.now buffers.new.words.items o) }
{
    let Some((front, text)) = cut_front(line) else {
        let (_, rest) = split_token(line);
        return Ok(stopped(AsmCode::S2, skip_to_word(rest), Wanted::Equals));
    };
    let (name, operands) = split_token(text);
    let Some(named) = look_up(setting.table, name) else {
        return Ok(stopped(AsmCode::S2, text, Wanted::Name));
    };
    let opcode = named.opcode;
    match result_or_lack(setting.table, opcode, front) {
        Ok(result_id) => {
            let pattern = named.entry.operands();
            let outcome = operands_or_stop(setting, buffers, opcode, result_id, pattern, operands)?;
            Ok(outcome)
        }
        Err(lack) => Ok(stopped(lack.code, line, lack.wanted)),
    }
}
