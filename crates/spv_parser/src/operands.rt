//! The operands of a line, one by one, whatever they are.

ghost use Rattle.std.specs.Prelude.{◌≡◌, ◌≢◌, ◌++◌, ◌∷◌, [], ℕ, List, Option, None, true};
ghost use Rattle.std.specs.Prelude.{false, IfOk};
ghost use Rattle.std.specs.Prelude.{IfErr, OnOk, MatchOption, map, string_bytes};
ghost use Rattle.spv_table.specs.Table as grammar;
ghost use Rattle.spv_table.specs.Table.{kind_of};
ghost use Rattle.spv_table.specs.declared.form.Form.TheVariants.{Leaf as LeafForm};
ghost use Rattle.spv_table.specs.inner.Form.{form_at, form_of};
ghost use Rattle.spv_inst.specs.inner.Known.{Knows};
ghost use Rattle.spv_inst.specs.inner.Pending.{items_of, opened_kinds, pending_due, plain_slot};
ghost use Rattle.spv_inst.specs.inner.Written.{is_without_zero, operand_words};
ghost use Rattle.spv_inst.specs.Flat.{OneOf, due};
ghost use Rattle.spv_module.specs.Module.{plain_operand};
ghost use Rattle.spv_module.specs.Operand.{Context, Plain, PlainInst, start};
ghost use Rattle.spv_module.specs.Operand as plain;
ghost use Rattle.spv_module.specs.Shape.{AsResult, AsText, alone, shape_of};
ghost use Rattle.spv_module.specs.Width.{first_id};
ghost use Rattle.spv_lines.specs.Refusal.{IsBreak, is_front};
ghost use Rattle.spv_parser.specs.inner.Kept as kept;
ghost use Rattle.spv_parser.specs.inner.Kept.{IsOf, IsOfOperands};
ghost use Rattle.spv_parser.specs.inner.Reading.{AreRead, HasQuoted, IsAt, IsDueToken, OperandsFailOr, RefusesOr};
ghost use Rattle.spv_parser.specs.inner.Reading.{Takes, told};

use crate::token::read_token;
use spv_inst::due::{Asked, Definitions, Form, Leaf, Pending, push_operand, read_text};
use spv_lines::{AsmCode, Misread, behind, read_quoted, split_token};
use spv_module::{Operand, opcode, result_in, type_in};
use spv_table::{PatternRef, Table};
use std::alloc::AllocError;

/// What does not change while a line is read.
#[derive(Clone, Copy)]
pub struct Setting<'t, 'd> {
    pub table: &'t Table,
    /// The form of each kind.
    pub forms: &'d [Form],
    /// What the lines before tell of types.
    pub definitions: &'d Definitions,
}

/// What is kept of a line that was read.
#[derive(Clone, Copy)]
pub struct Line {
    /// The opcode of its instruction.
    pub opcode: u16,
    /// The result of its instruction.
    pub result: Option<u32>,
    /// The result type of its instruction.
    pub type_id: Option<u32>,
    /// The width that its instruction declares, in bits (OpTypeInt and OpTypeFloat).
    pub width: Option<u8>,
}

/// What is known of an instruction by its operands so far.
#[derive(Clone, Copy)]
pub struct Known {
    pub opcode: u16,
    /// The first result.
    pub result: Option<u32>,
    /// The first result type.
    pub type_id: Option<u32>,
    /// What the first operand is, if that is an id.
    pub first: Option<u32>,
    /// What a literal right behind a result is, if that stands first and can be a width, in bits.
    width: Option<u8>,
    /// How many operands there are, up to two.
    count: u8,
}

/// What is made of a line's operands.
#[derive(Drop)]
pub struct Buffers<'t> {
    /// What is due.
    pub pending: Pending<'t>,
    /// The words so far.
    pub words: Vec<u32>,
    /// A text without its quotes and escapes.
    pub text: String,
}

/// What is left of a line behind an operand, and what is known then.
#[derive(Clone, Copy)]
pub struct Rest<'a> {
    pub text: &'a str,
    pub known: Known,
}

/// The id that an operand is.
fn id_of(operand: &Operand) -> Option<u32>
    ensures { result ≡ first_id (plain_operand operand.now ∷ []) }
{
    match operand {
        Operand::OfType(id) | Operand::Result(id) | Operand::Id(id) => Some(*id),
        _ => None,
    }
}

/// The width that an operand tells, if it is a literal from 1 to 64.
fn width_of(operand: &Operand) -> Option<u8>
    ensures { result ≡ kept.literal_width (plain_operand operand.now) }
{
    match operand {
        Operand::Word(word) if (1..=64).contains(word) => Some(*word as u8),
        _ => None,
    }
}

impl Known {
    /// What is known of an instruction before its operands.
    pub fn new(opcode: u16) -> Known
        ensures { IsOfOperands result opcode [] }
    {
        Known {
            opcode,
            result: None,
            type_id: None,
            first: None,
            width: None,
            count: 0,
        }
    }

    /// What the first operand is, if that is an id, with one operand more.
    fn first_after(self, operand: &Operand) -> Option<u32>
        ensures { result ≡ kept.first_after self.count self.first (plain_operand operand.now) }
    {
        match self.count {
            0 => id_of(operand),
            _ => self.first,
        }
    }

    /// The width behind a result, with one operand more.
    fn width_after(self, operand: &Operand) -> Option<u8>
        ensures { result ≡ kept.width_after self.count self.result self.width (plain_operand operand.now) }
    {
        if self.count == 1 && self.result.is_some() {
            return width_of(operand);
        }
        self.width
    }

    /// What is known with one operand more.
    fn and_then(self, operand: &Operand) -> Known
        ensures { (opcode : ℕ) (os : List Plain) → IsOfOperands self opcode os
            → IsOfOperands result opcode (os ++ plain_operand operand.now ∷ []) }
    {
        let more = [*operand];
        Known {
            opcode: self.opcode,
            result: self.result.or(result_in(&more)),
            type_id: self.type_id.or(type_in(&more)),
            first: self.first_after(operand),
            width: self.width_after(operand),
            count: if self.count == 0 { 1 } else { 2 },
        }
    }

    /// What is kept of the line.
    pub fn line(self) -> Line
        ensures { (opcode : ℕ) (os : List Plain) → IsOfOperands self opcode os
            → IsOf result (record { opcode = opcode; operands = os }) }
    {
        Line {
            opcode: self.opcode,
            result: self.result,
            type_id: self.type_id,
            width: match self.opcode {
                opcode::TYPE_INT | opcode::TYPE_FLOAT => self.width,
                _ => None,
            },
        }
    }
}

/// Adds the words of an operand, and makes its parameters due. Where memory runs out, nothing is said of what is left.
fn put_operand<'t>(
    pending: &mut Pending<'t>,
    words: &mut Vec<u32>,
    table: &'t Table,
    operand: &Operand,
) -> Result<(), AllocError>
    ensures words { OnOk result (words.new.items ≡ words.old.items ++ operand_words (plain_operand operand.now)) }
    ensures due { OnOk result (pending_due table.now pending.new
        ≡ map OneOf (map alone (opened_kinds table.now (plain_operand operand.now)))
        ++ pending_due table.now pending.old) }
{
    push_operand(words, operand)?;
    pending.open(table, operand)
}

/// Whether the operands of a line end there, or a space stands before the next.
pub fn is_break(rest: &str) -> bool
    ensures { (result ≡ true → IsBreak rest.now) × (result ≡ false → IsBreak rest.now → ⊥) }
{
    match rest.as_bytes() {
        [first, ..] => *first == b' ',
        [] => true,
    }
}

/// Whether a text has no zero octet.
pub fn is_text(text: &str) -> bool
    ensures { result ≡ is_without_zero text.now }
{
    let octets = text.as_bytes();
    !octets.contains(&0)
}

/// Reads the text in quotes at the front, if it is one without a zero octet and behind it the line ends or has a space.
fn read_text_token<'a>(text: &mut String, rest: &'a str) -> Result<Option<&'a str>, AllocError>
    ensures { IfOk result (λ o. MatchOption o ((t u : List ℕ) → HasQuoted rest.now t u → ⊥)
        (λ u. HasQuoted rest.now (string_bytes text.new) u.now)) }
{
    let Some(behind) = read_quoted(text, rest)? else {
        return Ok(None);
    };
    if is_break(behind) && is_text(text.as_str()) {
        Ok(Some(behind))
    } else {
        Ok(None)
    }
}

/// The code of a token that is no operand.
fn code_of(why: Misread) -> AsmCode
    ensures { result ≡ told why }
{
    match why {
        Misread::IllFormed => AsmCode::S3,
        Misread::TooLarge => AsmCode::S4,
    }
}

/// Takes the line's result, which stands in front.
fn take_result<'t, 'a>(
    table: &'t Table,
    buffers: &mut Buffers<'t>,
    known: Known,
    asked: Asked,
    id: u32,
    rest: &'a str,
) -> Result<Rest<'a>, AllocError>
    ensures { (c : Context) → IsOfOperands known c.opcode c.operands → shape_of table.now c (plain_slot asked.slot)
        ≡ AsResult → plain.result_in c.operands ≡ None → IsBreak rest.now
        → IfOk result (λ f. Takes table.now (Some id) c asked rest.now buffers.old buffers.new f) }
{
    let operand = Operand::Result(id);
    put_operand(&mut buffers.pending, &mut buffers.words, table, &operand)?;
    Ok(Rest {
        text: rest,
        known: known.and_then(&operand),
    })
}

/// Takes a text in quotes. `rest` is what stands behind the space before it.
///
/// # Errors
///
/// `S3`: no text in quotes stands there, or it has a zero octet, or the line does not break behind it. `S6`: a growth
/// of memory was refused.
fn take_text<'t, 'a>(
    table: &'t Table,
    buffers: &mut Buffers<'t>,
    known: Known,
    asked: Asked,
    rest: &'a str,
) -> Result<Rest<'a>, AsmCode>
    ensures taken { (r : Option ℕ) (c : Context) → IsOfOperands known c.opcode c.operands
        → shape_of table.now c (plain_slot asked.slot) ≡ AsText
        → IfOk result (λ f. Takes table.now r c asked (32 ∷ rest.now) buffers.old buffers.new f) }
    ensures refused { (r : Option ℕ) (c : Context) → shape_of table.now c (plain_slot asked.slot) ≡ AsText
        → IfErr result (λ e. RefusesOr table.now r c (plain_slot asked.slot) (32 ∷ rest.now) e) }
{
    let Some(behind) = read_text_token(&mut buffers.text, rest)? else {
        return Err(AsmCode::S3);
    };
    let operand = Operand::Text(buffers.text.as_str());
    read_text(&operand);
    put_operand(&mut buffers.pending, &mut buffers.words, table, &operand)?;
    Ok(Rest {
        text: behind,
        known: known.and_then(&operand),
    })
}

/// Takes the token of an operand for the leaf that is due, which is no text, nor the line's result. `rest` is what
/// stands behind the space before it.
///
/// # Errors
///
/// `S3`: the token is nothing that the leaf takes. `S4`: it is a decimal number that is too large for it. `S6`: a
/// growth of memory was refused.
fn take_token<'t, 'a>(
    setting: &Setting<'t, '_>,
    buffers: &mut Buffers<'t>,
    known: Known,
    asked: Asked,
    rest: &'a str,
) -> Result<Rest<'a>, AsmCode>
    ensures taken { (r : Option ℕ) (c : Context) → IsAt setting.now.definitions.now known c
        → IsDueToken setting.now.table.now c asked
        → IfOk result (λ f. Takes setting.now.table.now r c asked (32 ∷ rest.now) buffers.old buffers.new f) }
    ensures refused { (r : Option ℕ) (c : Context) → IsAt setting.now.definitions.now known c
        → IsDueToken setting.now.table.now c asked
        → IfErr result (λ e. RefusesOr setting.now.table.now r c (plain_slot asked.slot) (32 ∷ rest.now) e) }
{
    let (token, behind) = split_token(rest);
    match read_token(setting, known, asked, token) {
        Ok(operand) => {
            put_operand(
                &mut buffers.pending,
                &mut buffers.words,
                setting.table,
                &operand,
            )?;
            Ok(Rest {
                text: behind,
                known: known.and_then(&operand),
            })
        }
        Err(why) => Err(code_of(why)),
    }
}

/// Whether the leaf that is due is that of the line's result, which stands in front: the first result.
fn is_in_front(known: Known, asked: Asked) -> bool
    ensures { (G : grammar.Table) (c : Context) → IsOfOperands known c.opcode c.operands
        → form_at (kind_of G asked.slot.kind) ≡ LeafForm asked.leaf
        → result ≡ is_front (shape_of G c (plain_slot asked.slot)) c }
{
    match asked.leaf {
        Leaf::Result => known.result.is_none(),
        _ => false,
    }
}

/// Takes the operand for the leaf that is due. `rest` is what is left of the line.
///
/// # Errors
///
/// `S3`: nothing stands there that the leaf takes. `S4`: a decimal number stands there that is too large for it. `S6`:
/// a growth of memory was refused.
pub fn take_operand<'t, 'a>(
    setting: &Setting<'t, '_>,
    buffers: &mut Buffers<'t>,
    known: Known,
    result_id: Option<u32>,
    asked: Asked,
    rest: &'a str,
) -> Result<Rest<'a>, AsmCode>
    ensures taken { (c : Context) → IsAt setting.now.definitions.now known c
        → form_at (kind_of setting.now.table.now asked.slot.kind) ≡ LeafForm asked.leaf → IsBreak rest.now
        → IfOk result (λ f. Takes setting.now.table.now result_id c asked rest.now buffers.old buffers.new f) }
    ensures refused { (c : Context) → IsAt setting.now.definitions.now known c
        → form_at (kind_of setting.now.table.now asked.slot.kind) ≡ LeafForm asked.leaf → IsBreak rest.now
        → IfErr result (λ e. RefusesOr setting.now.table.now result_id c (plain_slot asked.slot) rest.now e) }
{
    if is_in_front(known, asked) {
        let Some(id) = result_id else {
            return Err(AsmCode::S3);
        };
        let front = take_result(setting.table, buffers, known, asked, id, rest)?;
        return Ok(front);
    }
    let Some(behind) = behind(rest, b' ') else {
        return Err(AsmCode::S3);
    };
    match asked.leaf {
        Leaf::Text => take_text(setting.table, buffers, known, asked, behind),
        _ => take_token(setting, buffers, known, asked, behind),
    }
}

/// Whether two ids, if there are any, differ.
pub fn differ(one: Option<u32>, other: Option<u32>) -> bool
    ensures { (result ≡ true → one ≢ other) × (result ≡ false → one ≡ other) }
{
    one != other
}

/// Reads the operands of a line by the pattern of its instruction, and gives what is kept of it. Their words are then
/// those of the buffers.
///
/// # Errors
///
/// `S3`: an operand is missing, one too many, ill-formed or unknown, or the line's result has no place. `S4`: a decimal
/// number is too large for its place. `S6`: a growth of memory was refused.
pub fn read_operands<'t>(
    setting: &Setting<'t, '_>,
    buffers: &mut Buffers<'t>,
    opcode: u16,
    result_id: Option<u32>,
    pattern: &PatternRef<'t>,
    operands: &str,
) -> Result<Line, AsmCode>
    requires forms { setting.now.forms.now ≡ map form_of setting.now.table.now.kinds }
    requires known { (before : List PlainInst) × Knows setting.now.definitions.now before }
    requires broken { IsBreak operands.now }
    ensures read { (before : List PlainInst) → Knows setting.now.definitions.now before
        → IfOk result
        (λ l. AreRead setting.now.table.now result_id before opcode
        (map due (items_of pattern.now)) operands.now buffers.new.words.items l) }
    ensures failed { (before : List PlainInst) → Knows setting.now.definitions.now before
        → IfErr result
        (λ e. OperandsFailOr setting.now.table.now result_id (start before opcode)
        (map due (items_of pattern.now)) operands.now e) }
{
    buffers.words.clear();
    buffers.pending.start(pattern);
    let mut known = Known::new(opcode);
    let mut rest = operands;
    loop {
        let more = !rest.is_empty() || differ(result_id, known.result);
        let Some(asked) = buffers
            .pending
            .next_leaf(setting.table, setting.forms, more)?
        else {
            if more {
                return Err(AsmCode::S3);
            }
            return Ok(known.line());
        };
        let front = take_operand(setting, buffers, known, result_id, asked, rest)?;
        known = front.known;
        rest = front.text;
    }
}
