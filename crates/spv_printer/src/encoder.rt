//! From instructions to words.

ghost use Rattle.std.specs.Prelude.{◌≡◌, ◌≤◌, ◌<◌, ◌+◌, ◌^◌, ◌↔◌, IsTrue, ◌*◌};
ghost use Rattle.std.specs.Prelude.{◌++◌, List, length, drop, map, IfOk, IfErr, OnOk};
ghost use Rattle.spv_words.specs.Header.{IsHeader, greatest_length};
ghost use Rattle.spv_table.specs.inner.Form.{form_of};
ghost use Rattle.spv_module.specs.Operand.{PlainInst, Context, start};
ghost use Rattle.spv_module.specs.Module.{plain_operand, plain_operands, plain_inst, plain_insts};
ghost use Rattle.spv_module.specs.Instruction.{IsListing};
ghost use Rattle.spv_inst.specs.inner.Known.{IsNear, Knows};
ghost use Rattle.spv_inst.specs.inner.Pending.{items_of, pending_due};
ghost use Rattle.spv_inst.specs.Outcome.{IsHeaderOf};
ghost use Rattle.spv_inst.specs.Limits.{HeaderFits};
ghost use Rattle.spv_printer.specs.Encoding.{RefusesModule};
ghost use Rattle.spv_inst.specs.inner.Written.{header_words};
ghost use Rattle.spv_printer.specs.inner.Written.{IsStep, IsSpelling, Adds, IsWritten, PreventsOrMemory};
ghost use Rattle.spv_printer.specs.inner.Written.{told};

use crate::encode_error::{EncodeCode, EncodeError};
use crate::fit::fits;
use spv_inst::due::{Definitions, Form, Known, Pending, known_after, push_operand, read_text};
use spv_module::{Inst, Module, Operand};
use spv_table::{PatternRef, Table};
use spv_words::{Draft, GREATEST_BOUND, GREATEST_LENGTH, Header, Image, MAGIC_NUMBER, VERSION};
use std::alloc::{AllocError, Global};

/// The greatest number of words of an instruction, its first one too. (2.3)
const GREATEST_COUNT: usize = 65_535;

/// What does not change while an instruction is encoded.
#[derive(Clone, Copy)]
struct Setting<'t, 'd> {
    table: &'t Table,
    /// The form of each kind.
    forms: &'d [Form],
    /// The definitions before the instruction.
    definitions: &'d Definitions,
}

/// Writes the words of one operand, if it fits what is due. Where memory runs out, nothing is said of what is left.
fn write_next<'t>(
    setting: &Setting<'t, '_>,
    pending: &mut Pending<'t>,
    words: &mut Vec<u32>,
    known: Known,
    operand: &Operand,
) -> Result<bool, AllocError>
    requires { setting.now.forms.now ≡ map form_of setting.now.table.now.kinds }
    ensures { (d : Context) → IsNear setting.now.definitions.now known d
        → IfOk result
        (λ b. IsStep b setting.now.table.now d (pending_due setting.now.table.now pending.old)
        (pending_due setting.now.table.now pending.new) (plain_operand operand.now) words.old.items words.new.items) }
{
    let Some(asked) = pending.next_leaf(setting.table, setting.forms, true)? else {
        return Ok(false);
    };
    if !fits(setting.table, setting.definitions, known, asked, operand) {
        return Ok(false);
    }
    read_text(operand);
    push_operand(words, operand)?;
    pending.open(setting.table, operand)?;
    Ok(true)
}

/// Writes the further words of an instruction, if any words spell its operands by the pattern. Where memory runs out,
/// nothing is said of what is left.
fn write_operands<'t>(
    setting: &Setting<'t, '_>,
    pending: &mut Pending<'t>,
    words: &mut Vec<u32>,
    pattern: &PatternRef<'t>,
    inst: &Inst,
) -> Result<bool, AllocError>
    requires { setting.now.forms.now ≡ map form_of setting.now.table.now.kinds }
    ensures { (before : List PlainInst) → Knows setting.now.definitions.now before
        → IfOk result
        (λ b. IsSpelling setting.now.table.now (start before inst.now.opcode) (items_of pattern.now)
        (plain_operands inst.now.operands) b words.new.items) }
{
    words.clear();
    pending.start(pattern);
    let mut known = Known::new(inst.opcode);
    let operands = inst.operands.as_slice();
    for (number, operand) in operands.iter().enumerate() {
        if !write_next(setting, pending, words, known, operand)? {
            return Ok(false);
        }
        known = known_after(known, &operands[..number], operand);
    }
    match pending.next_leaf(setting.table, setting.forms, false)? {
        None => Ok(true),
        Some(_) => Ok(false),
    }
}

/// Adds words to a draft. Where memory runs out, nothing is said of what is left.
fn put_words(draft: &mut Draft, words: &[u32]) -> Result<(), AllocError>
    ensures { OnOk result (draft.new ≡ draft.old ++ words.now) }
{
    for word in words {
        draft.push(*word)?;
    }
    Ok(())
}

/// Adds an instruction to a draft. After an error nothing is said of what is left.
fn put_instruction<'t>(
    setting: &Setting<'t, '_>,
    pending: &mut Pending<'t>,
    words: &mut Vec<u32>,
    draft: &mut Draft,
    inst: &Inst,
) -> Result<(), EncodeCode>
    requires forms { setting.now.forms.now ≡ map form_of setting.now.table.now.kinds }
    requires short { length draft.old ≤ greatest_length }
    ensures added { (before : List PlainInst) → Knows setting.now.definitions.now before
        → OnOk result (Adds setting.now.table.now before (plain_inst inst.now) draft.old draft.new) }
    ensures short { OnOk result (length draft.new ≤ greatest_length) }
    ensures prevented { (before : List PlainInst) → Knows setting.now.definitions.now before
        → IfErr result
        (λ e. PreventsOrMemory e setting.now.table.now before (length draft.old) (plain_inst inst.now)) }
{
    let Some(entry) = setting.table.entry(inst.opcode) else {
        return Err(EncodeCode::N2);
    };
    if !write_operands(setting, pending, words, entry.operands(), inst)? {
        return Err(EncodeCode::N2);
    }
    let count = words.len() + 1;
    if count > GREATEST_COUNT {
        return Err(EncodeCode::N3);
    }
    if draft.len() + count > GREATEST_LENGTH {
        return Err(EncodeCode::N3);
    }
    draft.push(65536 * count as u32 + u32::from(inst.opcode))?;
    put_words(draft, words.as_slice())?;
    Ok(())
}

/// Whether a header is one of version 1.6, with a bound that fits and schema 0. (2.3)
fn fits_header(header: Header) -> bool
    ensures { IsTrue result ↔ HeaderFits header }
{
    header.version == VERSION
        && header.bound >= 1
        && header.bound <= GREATEST_BOUND
        && header.schema == 0
}

/// Adds the words of a header to a draft. Where memory runs out, nothing is said of what is left.
fn put_header(draft: &mut Draft, header: Header) -> Result<(), AllocError>
    ensures { OnOk result (draft.new ≡ draft.old ++ header_words header) }
{
    let words = [
        MAGIC_NUMBER,
        header.version,
        header.generator,
        header.bound,
        header.schema,
    ];
    put_words(draft, &words)
}

/// What stops the encoding of the instruction of a number.
fn error_at(code: EncodeCode, number: usize) -> EncodeError
    requires { number < 2 ^ 32 }
    ensures { result ≡ record { code = code; inst = told code number } }
{
    let inst = match code {
        EncodeCode::N1 => 0,
        EncodeCode::N2 => number as u32,
        EncodeCode::N3 => number as u32,
        EncodeCode::Memory => 0,
    };
    EncodeError { code, inst }
}

/// Adds the instructions of a module to the words of its header. After an error nothing is said of what is left.
fn put_instructions(
    alloc: Global,
    table: &Table,
    module: &Module<'_>,
    draft: &mut Draft,
) -> Result<(), EncodeError>
    requires header { draft.old ≡ header_words «module».now.header }
    requires fits { HeaderFits «module».now.header }
    ensures written { OnOk result (IsWritten table.now «module».now draft.new) }
    ensures refused { IfErr result (λ e. RefusesModule e.code table.now «module».now e.inst) }
{
    let mut definitions = Definitions::new(alloc);
    let mut pending = Pending::new(alloc);
    let mut words = Vec::new(alloc);
    for (number, inst) in module.insts.iter().enumerate() {
        let setting = Setting {
            table,
            forms: table.forms(),
            definitions: &definitions,
        };
        match put_instruction(&setting, &mut pending, &mut words, draft, inst) {
            Ok(()) => {}
            Err(code) => return Err(error_at(code, number)),
        }
        definitions.add(inst.opcode, inst.operands.as_slice())?;
    }
    Ok(())
}

/// The image of a module by a grammar table: its header's words, and after them those that spell its instructions.
///
/// # Errors
///
/// `N1`: the header is not one of version 1.6 with schema 0 and a bound from 1 to 4,194,303 (2.3). Else the first
/// instruction that has no words of its own, or too many: `N2`: its opcode has no entry in the table, or no words spell
/// its operands by the entry's pattern. `N3`: words spell it, but it has over 65,535 of them (2.3), or with it the
/// module has over 4,194,304. `Memory`: a growth of memory was refused.
pub fn encode(alloc: Global, table: &Table, module: &Module<'_>) -> Result<Image, EncodeError>
    // The words from word 5 on are the joined spellings of the module's instructions.
    ensures spelled { IfOk result (λ i. IsListing table.now (plain_insts «module».now) (drop 5 i)) }
    // Words 1 to 4 are the module's header.
    ensures header { IfOk result (λ i. IsHeaderOf i «module».now.header) }
    // Word 0 is the magic number, and the header fits.
    ensures begins { IfOk result (λ i. IsHeader i) }
    // An error tells the header, or the first instruction that is hindered, and why.
    ensures refused { IfErr result (λ e. RefusesModule e.code table.now «module».now e.inst) }
{
    if !fits_header(module.header) {
        return Err(EncodeError {
            code: EncodeCode::N1,
            inst: 0,
        });
    }
    let mut draft = Draft::new(alloc);
    put_header(&mut draft, module.header)?;
    put_instructions(alloc, table, module, &mut draft)?;
    Ok(draft.finish())
}
