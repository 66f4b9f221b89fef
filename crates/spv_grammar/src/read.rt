//! Reads the tree of a grammar file. What is missing or of another sort is J2.

ghost use Rattle.std.specs.Prelude.{◌≡◌, ◌<◌, ◌≤◌, ◌^◌, length, codes, Some, IfSome, option_map, option_and_then};
ghost use Rattle.std.specs.Prelude.{if◌then◌else◌};
ghost use Rattle.std.specs.Str.{bytes_eq};
ghost use Rattle.serde_json.specs.Find.{get, as_str, as_number};
ghost use Rattle.serde_json.specs.View.{number_view};
ghost use Rattle.json_tree.specs.View.{view, items_view};
ghost use Rattle.spv_grammar.specs.File.{each, text_at, items_at, items_or_none, quantifier_of, quantifier_or_one};
ghost use Rattle.spv_grammar.specs.File.{operand_of, whole_below, instruction_of, hex_digit_of, hex_from};
ghost use Rattle.spv_grammar.specs.File.{bit_value_of, value_in, enumerant_in, enumerants_at, bases_at, category_of};
ghost use Rattle.spv_grammar.specs.File.{kind_in, file_of};
ghost use Rattle.spv_grammar.specs.inner.File.{Reads};

use crate::error::GrammarError;
use crate::file::{File, FileEnumerant, FileInstruction, FileKind, FileOperand};
use crate::lent::{Lent, LentName};
use bumpalo::Bump;
use json_tree::{Items, Node};
use serde_json::Number;
use spv_table::{Category, Quantifier};

/// The text at a key.
pub(crate) fn text<'a>(value: &Node<'_, 'a>, key: &str) -> Option<&'a str>
    ensures { option_map (λ s. s.now) result ≡ text_at key.now (view value.now) }
{
    value.get(key)?.as_str()
}

/// The array at a key.
pub(crate) fn items<'t, 'a>(value: &Node<'t, 'a>, key: &str) -> Option<Items<'t, 'a>>
    ensures { option_map items_view result ≡ items_at key.now (view value.now) }
{
    value.get(key)?.items()
}

/// How often an operand with this text comes; none if it is neither `?` nor `*`.
pub(crate) fn quantifier(text: &str) -> Option<Quantifier>
    ensures { result ≡ quantifier_of text.now }
{
    match text {
        "?" => Some(Quantifier::Maybe),
        "*" => Some(Quantifier::Many),
        _ => None,
    }
}

/// Keeps a member whose key is this name: of equal keys the last one counts.
#[inline(always)]
fn keep<'t, 'a>(found: &mut Option<Node<'t, 'a>>, name: &str, key: &str, member: &Node<'t, 'a>)
    ensures { option_map view found.new
        ≡ (if bytes_eq key.now name.now then Some (view member.now) else option_map view found.old) }
{
    if key == name {
        *found = Some(member.same());
    }
}

/// The text that was found.
fn text_of<'a>(found: &Option<Node<'_, 'a>>) -> Option<&'a str>
    ensures { option_map (λ s. s.now) result ≡ option_and_then as_str (option_map view found.now) }
{
    match found {
        Some(node) => node.as_str(),
        None => None,
    }
}

/// The number that was found.
fn number_of(found: &Option<Node<'_, '_>>) -> Option<Number>
    ensures { option_map number_view result ≡ option_and_then as_number (option_map view found.now) }
{
    match found {
        Some(node) => node.as_number(),
        None => None,
    }
}

/// What is read of each element of an array.
trait Element<'a>: Sized {
    ghost use Rattle.std.specs.Prelude.{Option};
    ghost use Rattle.serde_json.specs.Data.{Data};
    ghost use Rattle.json_tree.specs.View.{view};
    ghost use Rattle.spv_grammar.specs.inner.File.{Reads};

    /// What the reading depends on beside the element.
    type Context: Copy;

    ghost reading: { Self.Context → Data → Option Self };

    /// Reads an element.
    fn read(
        arena: &'a Bump,
        context: Self::Context,
        value: &Node<'_, 'a>,
    ) -> Result<Self, GrammarError>
        ensures { Reads result (reading context (view value.now)) };
}

/// Reads each element of an array.
#[inline(never)]
fn read_each<'a, T: Element<'a> + Drop>(
    arena: &'a Bump,
    context: T::Context,
    elements: Items<'_, 'a>,
) -> Result<Lent<'a, T>, GrammarError>
    ensures { Reads result (each (T.reading context) (items_view elements.entry)) }
{
    let mut found = Vec::with_capacity(arena, elements.len())?;
    for element in elements {
        found.push(T::read(arena, context, &element)?)?;
    }
    Ok(Lent::from_vec(found))
}

/// Reads each element of the array that was found; none where the key is missing.
#[inline(always)]
fn read_found<'a, T: Element<'a> + Drop>(
    arena: &'a Bump,
    context: T::Context,
    found: &Option<Node<'_, 'a>>,
) -> Result<Lent<'a, T>, GrammarError>
    ensures { Reads result (option_and_then (each (T.reading context)) (items_or_none (option_map view found.now))) }
{
    match found {
        None => Ok(Lent::from_vec(Vec::new(arena))),
        Some(node) => {
            let Some(elements) = node.items() else {
                return Err(GrammarError::J2);
            };
            read_each(arena, context, elements)
        }
    }
}

impl<'a> Element<'a> for LentName<'a> {
    type Context = ();

    ghost reading = { λ _. as_str };

    fn read(
        _arena: &'a Bump,
        _context: (),
        value: &Node<'_, 'a>,
    ) -> Result<LentName<'a>, GrammarError> {
        match value.as_str() {
            Some(text) => Ok(LentName::of(text)),
            None => Err(GrammarError::J2),
        }
    }
}

/// The members of an operand that count.
#[derive(Drop)]
struct OperandMembers<'t, 'a> {
    kind: Option<Node<'t, 'a>>,
    quantifier: Option<Node<'t, 'a>>,
}

/// Finds the members of an operand in one pass.
#[inline(always)]
fn operand_members<'t, 'a>(value: &Node<'t, 'a>) -> OperandMembers<'t, 'a>
    ensures kind { option_map view result.kind ≡ get (codes "kind") (view value.now) }
    ensures quantifier { option_map view result.quantifier ≡ get (codes "quantifier") (view value.now) }
{
    let mut found = OperandMembers {
        kind: None,
        quantifier: None,
    };
    let Some(members) = value.members() else {
        return found;
    };
    for (key, member) in members {
        keep(&mut found.kind, "kind", key, &member);
        keep(&mut found.quantifier, "quantifier", key, &member);
    }
    found
}

/// How often an operand comes: none where what was found is no text.
fn read_quantifier(found: &Option<Node<'_, '_>>) -> Option<Option<Quantifier>>
    ensures { result ≡ quantifier_or_one (option_map view found.now) }
{
    match found {
        None => Some(Some(Quantifier::One)),
        Some(node) => Some(quantifier(node.as_str()?)),
    }
}

impl<'a> Element<'a> for FileOperand<'a> {
    type Context = ();

    ghost reading = { λ _. operand_of };

    fn read(
        _arena: &'a Bump,
        _context: (),
        value: &Node<'_, 'a>,
    ) -> Result<FileOperand<'a>, GrammarError> {
        let members = operand_members(value);
        let Some(kind) = text_of(&members.kind) else {
            return Err(GrammarError::J2);
        };
        let Some(quantifier) = read_quantifier(&members.quantifier) else {
            return Err(GrammarError::J2);
        };
        let kind = LentName::of(kind);
        Ok(FileOperand { kind, quantifier })
    }
}

/// The members of an instruction or an enumerant that count.
#[derive(Drop)]
struct Members<'t, 'a> {
    name: Option<Node<'t, 'a>>,
    number: Option<Node<'t, 'a>>,
    operands: Option<Node<'t, 'a>>,
    capabilities: Option<Node<'t, 'a>>,
}

/// Finds the members of an instruction or an enumerant in one pass: the first three by these keys.
#[inline(always)]
fn members_by<'t, 'a>(
    value: &Node<'t, 'a>,
    name_key: &str,
    number_key: &str,
    operands_key: &str,
) -> Members<'t, 'a>
    ensures name { option_map view result.name ≡ get name_key.now (view value.now) }
    ensures number { option_map view result.number ≡ get number_key.now (view value.now) }
    ensures operands { option_map view result.operands ≡ get operands_key.now (view value.now) }
    ensures capabilities { option_map view result.capabilities ≡ get (codes "capabilities") (view value.now) }
{
    let mut found = Members {
        name: None,
        number: None,
        operands: None,
        capabilities: None,
    };
    let Some(members) = value.members() else {
        return found;
    };
    for (key, member) in members {
        keep(&mut found.name, name_key, key, &member);
        keep(&mut found.number, number_key, key, &member);
        keep(&mut found.operands, operands_key, key, &member);
        keep(&mut found.capabilities, "capabilities", key, &member);
    }
    found
}

/// An opcode; `Some(None)` where the number is out of range.
fn read_opcode(found: &Option<Node<'_, '_>>) -> Option<Option<u16>>
    ensures { result ≡ option_map (whole_below (2 ^ 16))
        (option_and_then as_number (option_map view found.now)) }
{
    match number_of(found)?.as_u64() {
        Some(whole) => Some(u16::try_from(whole).ok()),
        None => Some(None),
    }
}

impl<'a> Element<'a> for FileInstruction<'a> {
    type Context = ();

    ghost reading = { λ _. instruction_of };

    fn read(
        arena: &'a Bump,
        _context: (),
        value: &Node<'_, 'a>,
    ) -> Result<FileInstruction<'a>, GrammarError> {
        let members = members_by(value, "opname", "opcode", "operands");
        let Some(name) = text_of(&members.name) else {
            return Err(GrammarError::J2);
        };
        let Some(opcode) = read_opcode(&members.number) else {
            return Err(GrammarError::J2);
        };
        let operands = read_found(arena, (), &members.operands)?;
        let capabilities = read_found(arena, (), &members.capabilities)?;
        let name = LentName::of(name);
        Ok(FileInstruction {
            name,
            opcode,
            operands,
            capabilities,
        })
    }
}

/// What a hexadecimal digit of either case stands for.
fn hex_digit(octet: u8) -> Option<u8>
    ensures value { result ≡ hex_digit_of octet }
    ensures small { IfSome result (λ digit. digit < 16) }
{
    match octet {
        b'0'..=b'9' => Some(octet - b'0'),
        b'a'..=b'f' => Some(octet - b'a' + 10),
        b'A'..=b'F' => Some(octet - b'A' + 10),
        _ => None,
    }
}

/// The number that at most eight hexadecimal digits are.
fn hex_number(digits: &[u8]) -> Option<u32>
    requires { length digits.now ≤ 8 }
    ensures { result ≡ hex_from 0 digits.now }
{
    let mut number: u32 = 0;
    for digit in digits {
        number = 16 * number + u32::from(hex_digit(*digit)?);
    }
    Some(number)
}

/// The value of a BitEnum's enumerant: `0x` and one to eight hexadecimal digits.
pub(crate) fn bit_value(text: &str) -> Option<u32>
    ensures { result ≡ bit_value_of text.now }
{
    let [b'0', b'x', digits @ ..] = text.as_bytes() else {
        return None;
    };
    if digits.is_empty() || digits.len() > 8 {
        return None;
    }
    hex_number(digits)
}

/// An enumerant's value; `Some(None)` where it is out of range or form.
fn read_value(category: Category, found: &Option<Node<'_, '_>>) -> Option<Option<u32>>
    ensures { result ≡ option_and_then (value_in category) (option_map view found.now) }
{
    match category {
        Category::BitEnum => Some(bit_value(text_of(found)?)),
        _ => match number_of(found)?.as_u64() {
            Some(whole) => Some(u32::try_from(whole).ok()),
            None => Some(None),
        },
    }
}

impl<'a> Element<'a> for FileEnumerant<'a> {
    type Context = Category;

    ghost reading = { enumerant_in };

    fn read(
        arena: &'a Bump,
        category: Category,
        value: &Node<'_, 'a>,
    ) -> Result<FileEnumerant<'a>, GrammarError> {
        let members = members_by(value, "enumerant", "value", "parameters");
        let Some(name) = text_of(&members.name) else {
            return Err(GrammarError::J2);
        };
        let Some(number) = read_value(category, &members.number) else {
            return Err(GrammarError::J2);
        };
        let parameters = read_found(arena, (), &members.operands)?;
        let capabilities = read_found(arena, (), &members.capabilities)?;
        let name = LentName::of(name);
        Ok(FileEnumerant {
            name,
            value: number,
            parameters,
            capabilities,
        })
    }
}

/// The enumerants of a kind: those of an enum category, and none of another.
fn read_enumerants<'a>(
    arena: &'a Bump,
    category: Option<Category>,
    value: &Node<'_, 'a>,
) -> Result<Lent<'a, FileEnumerant<'a>>, GrammarError>
    ensures { Reads result (enumerants_at category (view value.now)) }
{
    let category = match category {
        Some(Category::BitEnum) => Category::BitEnum,
        Some(Category::ValueEnum) => Category::ValueEnum,
        _ => return Ok(Lent::from_vec(Vec::new(arena))),
    };
    let Some(elements) = items(value, "enumerants") else {
        return Err(GrammarError::J2);
    };
    read_each(arena, category, elements)
}

/// The bases of a kind: those of a Composite, and none of another.
fn read_bases<'a>(
    arena: &'a Bump,
    category: Option<Category>,
    value: &Node<'_, 'a>,
) -> Result<Lent<'a, LentName<'a>>, GrammarError>
    ensures { Reads result (bases_at category (view value.now)) }
{
    let Some(Category::Composite) = category else {
        return Ok(Lent::from_vec(Vec::new(arena)));
    };
    let Some(elements) = items(value, "bases") else {
        return Err(GrammarError::J2);
    };
    read_each(arena, (), elements)
}

/// The category that a text names.
pub(crate) fn category(text: &str) -> Option<Category>
    ensures { result ≡ category_of text.now }
{
    match text {
        "BitEnum" => Some(Category::BitEnum),
        "ValueEnum" => Some(Category::ValueEnum),
        "Id" => Some(Category::Id),
        "Literal" => Some(Category::Literal),
        "Composite" => Some(Category::Composite),
        _ => None,
    }
}

impl<'a> Element<'a> for FileKind<'a> {
    type Context = ();

    ghost reading = { λ _. kind_in };

    fn read(
        arena: &'a Bump,
        _context: (),
        value: &Node<'_, 'a>,
    ) -> Result<FileKind<'a>, GrammarError> {
        let Some(name) = text(value, "kind") else {
            return Err(GrammarError::J2);
        };
        let Some(category_text) = text(value, "category") else {
            return Err(GrammarError::J2);
        };
        let category = category(category_text);
        let enumerants = read_enumerants(arena, category, value)?;
        let bases = read_bases(arena, category, value)?;
        let name = LentName::of(name);
        Ok(FileKind {
            name,
            category,
            enumerants,
            bases,
        })
    }
}

/// What a grammar file holds; J2 where its tree has not the form.
pub fn read_file<'a>(arena: &'a Bump, value: &Node<'_, 'a>) -> Result<File<'a>, GrammarError>
    ensures { Reads result (file_of (view value.now)) }
{
    let Some(instructions) = items(value, "instructions") else {
        return Err(GrammarError::J2);
    };
    let Some(kinds) = items(value, "operand_kinds") else {
        return Err(GrammarError::J2);
    };
    let instructions = read_each(arena, (), instructions)?;
    let kinds = read_each(arena, (), kinds)?;
    Ok(File {
        instructions,
        kinds,
    })
}
