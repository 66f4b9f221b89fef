//! The fast way through the operands of a line, for ids, literals of one word, numbers of a narrow type, values, masks
//! and texts without escapes.

ghost use Rattle.std.specs.Prelude.{◌≡◌, ◌<◌, ◌^◌, ◌||◌, [], ℕ, List, true, false};
ghost use Rattle.std.specs.Prelude.{IfOk, IfSome, Some, map};
ghost use Rattle.std.specs.Prelude.{nat_eq, option_map};
ghost use Rattle.spv_table.specs.Table as grammar;
ghost use Rattle.spv_table.specs.Table.{kind_of};
ghost use Rattle.spv_table.specs.declared.form.Form.TheVariants.{Leaf as LeafForm};
ghost use Rattle.spv_table.specs.declared.form.Leaf.TheVariants as leaves;
ghost use Rattle.spv_table.specs.inner.Form.{form_at, form_of};
ghost use Rattle.spv_module.specs.declared.opcode.TheConstants.{TYPE_FLOAT, TYPE_INT};
ghost use Rattle.spv_inst.specs.inner.Known.{Knows};
ghost use Rattle.spv_inst.specs.inner.Pending.{due_first, items_of};
ghost use Rattle.spv_inst.specs.Flat.{due};
ghost use Rattle.spv_module.specs.Operand.{PlainInst};
ghost use Rattle.spv_lines.specs.Operand.{id_text};
ghost use Rattle.spv_lines.specs.Refusal.{IsBreak};
ghost use Rattle.spv_parser.specs.inner.Fast.{BeginsWith, IsStart, TakesFast, TakesNarrow, TakesTyped};
ghost use Rattle.spv_parser.specs.inner.Reading.{AreRead, HasQuoted, HasToken};
ghost use Rattle.spv_parser.specs.inner.Seen.{IsSeen};

use crate::operands::{Line, Setting, is_break, is_text};
use crate::seen::{Seen, find_named};
use spv_inst::due::{
    DueItems, Form, Leaf, Next, form_in, joined, next_kind, push_operand, read_text,
};
use spv_lines::{
    Cell, Quotation, behind, is_narrow, read_behind, read_front, read_unescaped, split_token,
};
use spv_module::{Operand, opcode};
use spv_table::{PatternRef, Table};
use std::alloc::AllocError;

/// What is left of a line behind an operand that is neither a result nor a result type.
#[derive(Clone, Copy)]
struct Taken<'t, 'a> {
    /// The kinds of the operand's parameters, in order.
    kinds: &'t [u32],
    rest: &'a str,
}

/// What is left of a line behind what it begins with.
#[derive(Clone, Copy)]
struct Start<'t, 'a> {
    /// What is kept of the line.
    line: Line,
    /// The kinds of parameters that are due first, in order.
    kinds: &'t [u32],
    /// The items of the pattern that are due after them.
    items: DueItems<'t>,
    rest: &'a str,
}

/// The id at the front of what is left of a line, behind a space and `%`.
#[inline(always)]
fn front_id(rest: &str) -> Option<Cell<'_>>
    ensures { IfSome result (λ c. (c.number < 2 ^ 32) × HasToken rest.now (id_text c.number) c.rest.now) }
{
    let Some(spaced) = behind(rest, b' ') else {
        return None;
    };
    let Some(marked) = behind(spaced, b'%') else {
        return None;
    };
    read_front(marked)
}

/// Takes an id that is no result and no type of one, and adds its word.
#[inline(always)]
fn take_id<'t, 'a>(words: &mut Vec<u32>, rest: &'a str) -> Result<Option<Taken<'t, 'a>>, AllocError>
    ensures { (G : grammar.Table) (kind : ℕ) → form_at (kind_of G kind) ≡ LeafForm leaves.Id
        → TakesFast G kind rest.now result words.old.items words.new.items }
{
    let Some(cell) = front_id(rest) else {
        return Ok(None);
    };
    words.push(cell.number)?;
    Ok(Some(Taken {
        kinds: &[],
        rest: cell.rest,
    }))
}

/// Takes a literal of one word, or a number of a narrow type, and adds it.
#[inline(always)]
fn take_word<'t, 'a>(
    words: &mut Vec<u32>,
    rest: &'a str,
) -> Result<Option<Taken<'t, 'a>>, AllocError>
    ensures integer { (G : grammar.Table) (kind : ℕ) → form_at (kind_of G kind) ≡ LeafForm leaves.Integer
        → TakesFast G kind rest.now result words.old.items words.new.items }
    ensures word { (G : grammar.Table) (kind : ℕ) → form_at (kind_of G kind) ≡ LeafForm leaves.Word
        → TakesFast G kind rest.now result words.old.items words.new.items }
    ensures number { (G : grammar.Table) (kind : ℕ) → form_at (kind_of G kind) ≡ LeafForm leaves.ContextNumber
        → TakesNarrow G kind rest.now result words.old.items words.new.items }
{
    let Some(spaced) = behind(rest, b' ') else {
        return Ok(None);
    };
    let Some(cell) = read_front(spaced) else {
        return Ok(None);
    };
    words.push(cell.number)?;
    Ok(Some(Taken {
        kinds: &[],
        rest: cell.rest,
    }))
}

/// Takes a value or a mask, and adds its word.
#[inline(always)]
fn take_named<'t, 'a>(
    table: &'t Table,
    seen: &mut Option<Seen<'t, 'a>>,
    words: &mut Vec<u32>,
    leaf: Leaf,
    kind: u32,
    rest: &'a str,
) -> Result<Option<Taken<'t, 'a>>, AllocError>
    requires form { form_at (kind_of table.now kind) ≡ LeafForm leaf }
    requires named { leaf ≡ leaves.Result → ⊥ }
    requires seen { IsSeen table.now seen.old }
    ensures taken { TakesFast table.now kind rest.now result words.old.items words.new.items }
    ensures seen { IsSeen table.now seen.new }
{
    let Some(spaced) = behind(rest, b' ') else {
        return Ok(None);
    };
    let (token, rest) = split_token(spaced);
    let Some((word, kinds)) = find_named(table, seen, leaf, kind, token) else {
        return Ok(None);
    };
    words.push(word)?;
    Ok(Some(Taken { kinds, rest }))
}

/// The text in quotes at the front, if it has no escapes and no zero octet and behind it the line ends or has a space.
fn front_text(rest: &str) -> Option<Quotation<'_>>
    ensures { IfSome result (λ q. HasQuoted rest.now q.text.now q.rest.now) }
{
    let Some(quotation) = read_unescaped(rest) else {
        return None;
    };
    if is_break(quotation.rest) && is_text(quotation.text) {
        return Some(quotation);
    }
    None
}

/// Takes a text in quotes that has no escapes, and adds its words.
#[inline(always)]
fn take_text<'t, 'a>(
    words: &mut Vec<u32>,
    rest: &'a str,
) -> Result<Option<Taken<'t, 'a>>, AllocError>
    ensures { (G : grammar.Table) (kind : ℕ) → form_at (kind_of G kind) ≡ LeafForm leaves.Text
        → TakesFast G kind rest.now result words.old.items words.new.items }
{
    let Some(spaced) = behind(rest, b' ') else {
        return Ok(None);
    };
    let Some(quotation) = front_text(spaced) else {
        return Ok(None);
    };
    let operand = Operand::Text(quotation.text);
    read_text(&operand);
    push_operand(words, &operand)?;
    Ok(Some(Taken {
        kinds: &[],
        rest: quotation.rest,
    }))
}

/// Takes the operand for a kind of that form, in a line with that result type, and adds its words. None where another
/// operand is due, or something else stands there; then nothing is said of the words.
#[inline(always)]
fn take_operand<'t, 'a>(
    setting: &Setting<'t, '_>,
    seen: &mut Option<Seen<'t, 'a>>,
    words: &mut Vec<u32>,
    type_id: Option<u32>,
    form: Form,
    kind: u32,
    rest: &'a str,
) -> Result<Option<Taken<'t, 'a>>, AllocError>
    requires form { form ≡ form_at (kind_of setting.now.table.now kind) }
    requires seen { IsSeen setting.now.table.now seen.old }
    ensures taken { TakesTyped setting.now.table.now setting.now.definitions.now type_id kind rest.now result
        words.old.items words.new.items }
    ensures seen { IsSeen setting.now.table.now seen.new }
{
    let Form::Leaf(leaf) = form else {
        return Ok(None);
    };
    match leaf {
        Leaf::Id => take_id(words, rest),
        Leaf::Integer => take_word(words, rest),
        Leaf::Word => take_word(words, rest),
        Leaf::ContextNumber => {
            if !is_narrow(setting.definitions, type_id) {
                return Ok(None);
            }
            take_word(words, rest)
        }
        Leaf::Value | Leaf::Mask => take_named(setting.table, seen, words, leaf, kind, rest),
        Leaf::Text => take_text(words, rest),
        Leaf::ResultType | Leaf::Result | Leaf::Nothing => Ok(None),
    }
}

/// The leaf that is due first of kinds in order and a pattern behind them, where something is left, and what is due
/// behind it. None where a Composite is, or nothing.
#[inline(always)]
fn first_leaf<'t>(forms: &[Form], kinds: &'t [u32], items: DueItems<'t>) -> Option<(Leaf, Next<'t>)>
    ensures { (G : grammar.Table) → forms.now ≡ map form_of G.kinds
        → IfSome result
        (λ p. BeginsWith G p.0 (due_first kinds.now items.entry.left.now)
        (due_first p.1.kinds.now p.1.items.left.now)) }
{
    let Some(next) = next_kind(kinds, items, true) else {
        return None;
    };
    match form_in(forms, next.kind) {
        Form::Leaf(leaf) => Some((leaf, next)),
        Form::Parts { .. } => None,
    }
}

/// Takes the line's result, which stands in front, where a pattern begins with one, and adds its word to none.
#[inline(always)]
fn begin_result<'t, 'a>(
    table: &'t Table,
    words: &mut Vec<u32>,
    opcode: u16,
    id: u32,
    pattern: &PatternRef<'t>,
    next: Next<'t>,
    operands: &'a str,
) -> Result<Option<Start<'t, 'a>>, AllocError>
    requires none { words.old.items ≡ [] }
    requires broken { IsBreak operands.now }
    requires first { BeginsWith table.now leaves.Result (map due (items_of pattern.now))
        (due_first next.kinds.now next.items.left.now) }
    ensures read { IfOk result (λ o. IfSome o
        (λ s. IsStart table.now opcode pattern.now operands.now s words.new.items)) }
    ensures result { IfOk result (λ o. IfSome o (λ s. s.line.result ≡ Some id)) }
{
    words.push(id)?;
    let line = Line {
        opcode,
        result: Some(id),
        type_id: None,
        width: None,
    };
    Ok(Some(Start {
        line,
        kinds: next.kinds,
        items: next.items,
        rest: operands,
    }))
}

/// Takes a result type and the line's result, which stands in front, where a pattern begins with them, and adds their
/// words to none. `next` is what is due behind the result type.
#[inline(always)]
fn begin_typed<'t, 'a>(
    setting: &Setting<'t, '_>,
    words: &mut Vec<u32>,
    opcode: u16,
    id: u32,
    pattern: &PatternRef<'t>,
    next: Next<'t>,
    operands: &'a str,
) -> Result<Option<Start<'t, 'a>>, AllocError>
    requires forms { setting.now.forms.now ≡ map form_of setting.now.table.now.kinds }
    requires none { words.old.items ≡ [] }
    requires broken { IsBreak operands.now }
    requires first { BeginsWith setting.now.table.now leaves.ResultType (map due (items_of pattern.now))
        (due_first next.kinds.now next.items.left.now) }
    ensures read { IfOk result (λ o. IfSome o
        (λ s. IsStart setting.now.table.now opcode pattern.now operands.now s words.new.items)) }
    ensures result { IfOk result (λ o. IfSome o (λ s. s.line.result ≡ Some id)) }
{
    let Some(cell) = front_id(operands) else {
        return Ok(None);
    };
    let Some((Leaf::Result, behind)) = first_leaf(setting.forms, next.kinds, next.items) else {
        return Ok(None);
    };
    words.push(cell.number)?;
    words.push(id)?;
    let line = Line {
        opcode,
        result: Some(id),
        type_id: Some(cell.number),
        width: None,
    };
    Ok(Some(Start {
        line,
        kinds: behind.kinds,
        items: behind.items,
        rest: cell.rest,
    }))
}

/// Takes what a line begins with by the pattern of its instruction: nothing where nothing stands in front of ` = `,
/// else a result, behind a result type or alone; and adds its words to none. None where another operand is due, or
/// something else stands there; then nothing is said of the words.
#[inline(always)]
fn begin<'t, 'a>(
    setting: &Setting<'t, '_>,
    words: &mut Vec<u32>,
    opcode: u16,
    front: Option<&str>,
    pattern: &PatternRef<'t>,
    operands: &'a str,
) -> Result<Option<Start<'t, 'a>>, AllocError>
    requires forms { setting.now.forms.now ≡ map form_of setting.now.table.now.kinds }
    requires none { words.old.items ≡ [] }
    requires broken { IsBreak operands.now }
    ensures read { IfOk result (λ o. IfSome o
        (λ s. IsStart setting.now.table.now opcode pattern.now operands.now s words.new.items)) }
    ensures front { IfOk result (λ o. IfSome o
        (λ s. option_map (λ t. t.now) front.entry ≡ option_map id_text s.line.result)) }
{
    let Some(text) = front else {
        let line = Line {
            opcode,
            result: None,
            type_id: None,
            width: None,
        };
        return Ok(Some(Start {
            line,
            kinds: &[],
            items: DueItems::of(pattern),
            rest: operands,
        }));
    };
    let Ok(id) = read_behind(b'%', text.as_bytes()) else {
        return Ok(None);
    };
    let Some((leaf, next)) = first_leaf(setting.forms, &[], DueItems::of(pattern)) else {
        return Ok(None);
    };
    match leaf {
        Leaf::Result => begin_result(setting.table, words, opcode, id, pattern, next, operands),
        Leaf::ResultType => begin_typed(setting, words, opcode, id, pattern, next, operands),
        _ => Ok(None),
    }
}

/// Reads what is left of the operands of a line by the pattern of its instruction, and adds their words. False where
/// another operand is due, or something else stands there; then nothing is said of the words.
#[inline(always)]
fn take_operands<'t, 'a>(
    setting: &Setting<'t, '_>,
    seen: &mut Option<Seen<'t, 'a>>,
    words: &mut Vec<u32>,
    opcode: u16,
    pattern: &PatternRef<'t>,
    operands: &'a str,
    start: Start<'t, 'a>,
) -> Result<bool, AllocError>
    requires forms { setting.now.forms.now ≡ map form_of setting.now.table.now.kinds }
    requires no_width { (nat_eq opcode TYPE_INT || nat_eq opcode TYPE_FLOAT) ≡ false }
    requires start { IsStart setting.now.table.now opcode pattern.now operands.now start words.old.items }
    requires known { (before : List PlainInst) × Knows setting.now.definitions.now before }
    requires seen { IsSeen setting.now.table.now seen.old }
    ensures read { (before : List PlainInst) → Knows setting.now.definitions.now before → IfOk result
        (λ b. b ≡ true → AreRead setting.now.table.now start.entry.line.result before opcode
        (map due (items_of pattern.now)) operands.now words.new.items start.entry.line) }
    ensures seen { IsSeen setting.now.table.now seen.new }
{
    let mut kinds = start.kinds;
    let mut items = start.items;
    let mut rest = start.rest;
    loop {
        let more = !rest.is_empty();
        let Some(next) = next_kind(kinds, items, more) else {
            return Ok(!more);
        };
        let form = form_in(setting.forms, next.kind);
        let type_id = start.line.type_id;
        let cell = take_operand(setting, seen, words, type_id, form, next.kind, rest)?;
        let Some(taken) = cell else {
            return Ok(false);
        };
        let Some(due) = joined(taken.kinds, next.kinds) else {
            return Ok(false);
        };
        kinds = due;
        items = next.items;
        rest = taken.rest;
    }
}

/// Reads the operands of a line by the pattern of its instruction, where they are ids, literals of one word, numbers of
/// a narrow type, values, masks and texts without escapes, with their parameters, and gives what is kept of the line.
/// Their words are then those of the list. None where another operand is due, or something else stands there, and for
/// OpTypeInt and OpTypeFloat; then nothing is said of the words.
///
/// An `AllocError` comes only where a growth of memory was refused.
#[inline(always)]
pub fn fast_operands<'t, 'a>(
    setting: &Setting<'t, '_>,
    seen: &mut Option<Seen<'t, 'a>>,
    words: &mut Vec<u32>,
    opcode: u16,
    front: Option<&str>,
    pattern: &PatternRef<'t>,
    operands: &'a str,
) -> Result<Option<Line>, AllocError>
    requires forms { setting.now.forms.now ≡ map form_of setting.now.table.now.kinds }
    requires known { (before : List PlainInst) × Knows setting.now.definitions.now before }
    requires broken { IsBreak operands.now }
    requires seen { IsSeen setting.now.table.now seen.old }
    ensures read { (before : List PlainInst) → Knows setting.now.definitions.now before → IfOk result
        (λ o. IfSome o (λ l. AreRead setting.now.table.now l.result before opcode
        (map due (items_of pattern.now)) operands.now words.new.items l)) }
    ensures front { IfOk result (λ o. IfSome o
        (λ l. option_map (λ t. t.now) front.entry ≡ option_map id_text l.result)) }
    ensures seen { IsSeen setting.now.table.now seen.new }
{
    if opcode == opcode::TYPE_INT || opcode == opcode::TYPE_FLOAT {
        return Ok(None);
    }
    words.clear();
    let begun = begin(setting, words, opcode, front, pattern, operands)?;
    let Some(start) = begun else {
        return Ok(None);
    };
    if take_operands(setting, seen, words, opcode, pattern, operands, start)? {
        return Ok(Some(start.line));
    }
    Ok(None)
}
