//! The line of an instruction.

ghost use Rattle.std.specs.Prelude.{◌≡◌, ◌<◌, ◌≤◌, ◌++◌, ◌∷◌, ℕ, List, Some, None, true};
ghost use Rattle.std.specs.Prelude.{false, IfOk, IfErr, IfSome};
ghost use Rattle.std.specs.Prelude.{MatchOption, map, option_map};
ghost use Rattle.spv_table.specs.declared.table.Entry as code;
ghost use Rattle.spv_table.specs.Table as grammar;
ghost use Rattle.spv_table.specs.Table.{entry_of, pattern_of};
ghost use Rattle.spv_table.specs.Lookups.{opcode_named};
ghost use Rattle.spv_table.specs.inner.Form.{form_of};
ghost use Rattle.spv_inst.specs.inner.Known.{Knows};
ghost use Rattle.spv_module.specs.Operand.{Context, PlainInst};
ghost use Rattle.spv_lines.specs.Line as spec;
ghost use Rattle.spv_lines.specs.Line.{IsInstName, before_space, from_space, parts_of};
ghost use Rattle.spv_lines.specs.inner.Answer.{IsNamed};
ghost use Rattle.spv_parser.specs.inner.Heading.{IsFront, IsKnown, IsOpcodeText};
ghost use Rattle.spv_parser.specs.inner.Reading.{IsLine, LineFailsOr};
ghost use Rattle.spv_parser.specs.inner.Seen.{IsSeen};

use crate::fast::fast_operands;
use crate::operands::{Buffers, Line, Setting, is_break, read_operands};
use crate::seen::Seen;
use spv_lines::{AsmCode, Misread, behind, is_plain, read_behind, split_token};
use spv_table::{EntryRef, Table};

/// An instruction of the table.
#[derive(Drop)]
pub struct Named<'t> {
    pub opcode: u16,
    pub entry: EntryRef<'t>,
}

impl<'t> Named<'t> {
    /// The same instruction once more.
    #[inline(always)]
    fn again(&self) -> Named<'t>
        ensures { result ≡ self.now }
    {
        Named {
            opcode: self.opcode,
            entry: self.entry.again(),
        }
    }
}

/// Cuts off what stands in front of ` = `, where a line begins with `%`. None where it does and has no ` = `.
pub fn cut_front(line: &str) -> Option<(Option<&str>, &str)>
    ensures { option_map (λ p. spec.parts_behind (option_map (λ t. t.now) p.0) (p.1).now) result
        ≡ parts_of line.now }
{
    let Some(_) = behind(line, b'%') else {
        return Some((None, line));
    };
    let Some((front, back)) = line.split_once(" = ") else {
        return None;
    };
    Some((Some(front), back))
}

/// The opcode that a plain name looks up. None where the name is not plain, or looks up none.
fn named_opcode(table: &Table, name: &str) -> Option<u16>
    ensures { IsNamed (opcode_named table.now.entries) name.now result }
{
    if is_plain(name) {
        table.named(name)
    } else {
        None
    }
}

/// The opcode that a text stands for: a plain name of it, or `#N`.
fn opcode_of(table: &Table, name: &str) -> Option<u16>
    ensures { IsOpcodeText (opcode_named table.now.entries) name.now result }
{
    match named_opcode(table, name) {
        Some(opcode) => Some(opcode),
        None => match read_behind(b'#', name.as_bytes()) {
            Ok(number) => {
                if number < 65536 {
                    Some(number as u16)
                } else {
                    None
                }
            }
            Err(_) => None,
        },
    }
}

/// The instruction that a name stands for. None where the table has none.
pub fn look_up<'t>(table: &'t Table, name: &str) -> Option<Named<'t>>
    ensures { MatchOption result ((opcode : ℕ) (entry : code.Entry) → IsInstName table.now name.now opcode entry
        → ⊥) (λ n. IsInstName table.now name.now n.opcode n.entry) }
{
    let Some(opcode) = opcode_of(table, name) else {
        return None;
    };
    let Some(entry) = table.entry(opcode) else {
        return None;
    };
    Some(Named { opcode, entry })
}

/// The instruction of the last line that bore its own name, if a text begins with that too and then ends or has a
/// space, and what stands from there on.
#[inline(always)]
fn named_again<'t, 'a>(last: &Option<Named<'t>>, text: &'a str) -> Option<(Named<'t>, &'a str)>
    ensures { (G : grammar.Table) → IsKnown G last.now
        → IfSome result (λ p. IsInstName G (before_space text.now) p.0.opcode p.0.entry
        × (p.1.now ≡ from_space text.now)) }
{
    let Some(named) = last else {
        return None;
    };
    let Some(rest) = text.strip_prefix(named.entry.name()) else {
        return None;
    };
    if is_break(rest) {
        return Some((named.again(), rest));
    }
    None
}

/// The instruction that the name at the front of a text stands for, by that of the last line first, and what stands
/// from the end of the name on.
fn name_in<'t, 'a>(
    table: &'t Table,
    last: &mut Option<Named<'t>>,
    text: &'a str,
) -> Option<(Named<'t>, &'a str)>
    requires { IsKnown table.now last.old }
    ensures named { MatchOption result ((opcode : ℕ) (entry : code.Entry)
        → IsInstName table.now (before_space text.now) opcode entry → ⊥)
        (λ p. IsInstName table.now (before_space text.now) p.0.opcode p.0.entry
        × (p.1.now ≡ from_space text.now)) }
    ensures last { IsKnown table.now last.new }
{
    if let Some((named, operands)) = named_again(&*last, text) {
        return Some((named, operands));
    }
    let (name, operands) = split_token(text);
    let Some(named) = look_up(table, name) else {
        return None;
    };
    if named.entry.name() == name {
        *last = Some(named.again());
    }
    Some((named, operands))
}

/// Reads what stands in front of ` = `, if a line has it.
///
/// # Errors
///
/// `S3`: it is missing where the pattern always has a result, or there where the pattern has none, or no id. `S4`: it
/// is an id of over 32 bits.
fn read_result(table: &Table, opcode: u16, front: Option<&str>) -> Result<Option<u32>, AsmCode>
    ensures { (c : Context) (entry : code.Entry) → entry_of table.now opcode ≡ Some entry
        → IsFront table.now c (pattern_of entry) (option_map (λ t. t.now) front.entry) result }
{
    let Some(text) = front else {
        if table.has_result(opcode, false) {
            return Err(AsmCode::S3);
        }
        return Ok(None);
    };
    if !table.has_result(opcode, true) {
        return Err(AsmCode::S3);
    }
    match read_behind(b'%', text.as_bytes()) {
        Ok(id) => Ok(Some(id)),
        Err(Misread::IllFormed) => Err(AsmCode::S3),
        Err(Misread::TooLarge) => Err(AsmCode::S4),
    }
}

/// Reads a line. Its further words are then those of the buffers.
///
/// # Errors
///
/// `S2`: no known name of an instruction stands at its place. `S3`: an operand or a result is missing, one too many,
/// ill-formed or unknown. `S4`: a number is too large for its place. `S6`: a growth of memory was refused.
pub fn read_line<'t, 'a>(
    setting: &Setting<'t, '_>,
    buffers: &mut Buffers<'t>,
    last: &mut Option<Named<'t>>,
    seen: &mut Option<Seen<'t, 'a>>,
    line: &'a str,
) -> Result<Line, AsmCode>
    requires forms { setting.now.forms.now ≡ map form_of setting.now.table.now.kinds }
    requires known { (before : List PlainInst) × Knows setting.now.definitions.now before }
    requires last { IsKnown setting.now.table.now last.old }
    requires seen { IsSeen setting.now.table.now seen.old }
    ensures read { (before : List PlainInst) → Knows setting.now.definitions.now before
        → IfOk result (λ l. IsLine setting.now.table.now before line.now buffers.new.words.items l) }
    ensures failed { (before : List PlainInst) (written : ℕ) → Knows setting.now.definitions.now before
        → IfErr result (λ e. LineFailsOr setting.now.table.now before written line.now e) }
    ensures last { IsKnown setting.now.table.now last.new }
    ensures seen { IsSeen setting.now.table.now seen.new }
{
    let Some((front, text)) = cut_front(line) else {
        return Err(AsmCode::S2);
    };
    let Some((named, operands)) = name_in(setting.table, last, text) else {
        return Err(AsmCode::S2);
    };
    let opcode = named.opcode;
    let pattern = named.entry.operands();
    let words = &mut buffers.words;
    let fast = fast_operands(setting, seen, words, opcode, front, pattern, operands)?;
    if let Some(line) = fast {
        return Ok(line);
    }
    let result_id = read_result(setting.table, opcode, front)?;
    let line = read_operands(setting, buffers, opcode, result_id, pattern, operands)?;
    Ok(line)
}
