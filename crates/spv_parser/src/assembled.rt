//! From a text to its image.

ghost use Rattle.std.specs.Prelude.{◌≡◌, ◌≤◌, ◌<◌, ◌+◌, ◌++◌, ◌∷◌, [], ℕ, List, IfOk};
ghost use Rattle.std.specs.Prelude.{IfErr, OnOk, length, map, drop};
ghost use Rattle.spv_words.specs.declared.words.Header as words;
ghost use Rattle.spv_words.specs.Header.{IsHeader, greatest_length};
ghost use Rattle.spv_module.specs.Operand.{PlainInst};
ghost use Rattle.spv_module.specs.Instruction.{IsListing, first_word};
ghost use Rattle.spv_inst.specs.Outcome.{IsHeaderOf};
ghost use Rattle.spv_inst.specs.Limits.{greatest_count};
ghost use Rattle.spv_lines.specs.Line.{AreWords};
ghost use Rattle.spv_lines.specs.Text.{IsReadText, lines_of};
ghost use Rattle.spv_lines.specs.declared.asm_error.AsmCode.TheVariants.{S6};
ghost use Rattle.spv_table.specs.inner.Form.{form_of};
ghost use Rattle.spv_lines.specs.Image.{IsShownImage};
ghost use Rattle.spv_inst.specs.inner.Known.{Knows};
ghost use Rattle.spv_parser.specs.inner.Heading.{IsKnown};
ghost use Rattle.spv_parser.specs.inner.Kept.{IsOf};
ghost use Rattle.spv_lines.specs.Fault.{IsAsmFailure};
ghost use Rattle.spv_parser.specs.inner.Reading.{LineFailsOr};
ghost use Rattle.spv_parser.specs.inner.Lines.{HasLine, HasLines, IsTooLongOr, LinesFailOr, told_line};
ghost use Rattle.spv_parser.specs.inner.Seen.{IsSeen};

use crate::header::read_header;
use crate::line::{Named, read_line};
use crate::operands::{Buffers, Line, Setting};
use crate::seen::Seen;
use spv_inst::due::{Definitions, Pending};
use spv_lines::{AsmCode, AsmError, split_line};
use spv_table::Table;
use spv_words::{Draft, GREATEST_LENGTH, Header, Image, MAGIC_NUMBER};
use std::alloc::{AllocError, Global};

/// The greatest number of words of an instruction, its first one too. (2.3)
const GREATEST_COUNT: usize = 65_535;

/// How many bytes of a text make a word, or fewer: so much room, which is doubled where it is too little, has a growth
/// of memory copy nothing that is large.
const LETTERS_A_WORD: usize = 8;

/// Adds words to a draft. Where memory runs out, nothing is said of what is left.
pub fn put_words(draft: &mut Draft, words: &[u32]) -> Result<(), AllocError>
    ensures { OnOk result (draft.new ≡ draft.old ++ words.now) }
{
    for word in words {
        draft.push(*word)?;
    }
    Ok(())
}

/// Adds an instruction's words to a draft, its first one before the further ones. After an error nothing is said of
/// what is left.
pub fn put_instruction(draft: &mut Draft, opcode: u16, further: &[u32]) -> Result<(), AsmCode>
    requires { length draft.old ≤ greatest_length }
    ensures added { OnOk result (draft.new ≡ draft.old ++ (first_word opcode further.now ∷ further.now)) }
    ensures count { OnOk result (length further.now + 1 ≤ greatest_count) }
    ensures short { OnOk result (length draft.old + (length further.now + 1) ≤ greatest_length) }
    ensures long { IfErr result (λ e. IsTooLongOr further.now (length draft.old) e) }
{
    let count = further.len() + 1;
    if count > GREATEST_COUNT {
        return Err(AsmCode::S5);
    }
    if draft.len() + count > GREATEST_LENGTH {
        return Err(AsmCode::S5);
    }
    draft.push(65536 * count as u32 + u32::from(opcode))?;
    put_words(draft, further)?;
    Ok(())
}

/// Keeps what a line tells of its instruction's result, if that has one.
///
/// An `AllocError` comes only where a growth of memory was refused, and then nothing is said of what is left.
pub fn add_line(definitions: &mut Definitions, line: Line) -> Result<(), AllocError>
    ensures { OnOk result ((before : List PlainInst) (i : PlainInst) → IsOf line i → Knows definitions.old before
        → Knows definitions.new (before ++ i ∷ [])) }
{
    match line.result {
        Some(id) => definitions.add_result(line.opcode, id, line.type_id, line.width),
        None => Ok(()),
    }
}

/// The error of a line, by how many lines of instructions stand before it.
fn line_error(code: AsmCode, before: u32) -> AsmError
    requires { before < 4294967290 }
    ensures { result ≡ record { code = code; line = told_line code before } }
{
    let line = match code {
        AsmCode::S6 => 0,
        _ => before + 6,
    };
    AsmError { code, line }
}

/// Reads a line, and adds its instruction to a draft. After an error nothing is said of what is left.
fn assemble_line<'t, 'a>(
    setting: &Setting<'t, '_>,
    buffers: &mut Buffers<'t>,
    last: &mut Option<Named<'t>>,
    seen: &mut Option<Seen<'t, 'a>>,
    draft: &mut Draft,
    line: &'a str,
) -> Result<Line, AsmCode>
    requires forms { setting.now.forms.now ≡ map form_of setting.now.table.now.kinds }
    requires known { (before : List PlainInst) × Knows setting.now.definitions.now before }
    requires short { length draft.old ≤ greatest_length }
    requires last { IsKnown setting.now.table.now last.old }
    requires seen { IsSeen setting.now.table.now seen.old }
    ensures read { (before : List PlainInst) → Knows setting.now.definitions.now before
        → IfOk result (λ l. HasLine setting.now.table.now before line.now draft.old draft.new l) }
    ensures failed { (before : List PlainInst) → Knows setting.now.definitions.now before
        → IfErr result (λ e. LineFailsOr setting.now.table.now before (length draft.old) line.now e) }
    ensures last { IsKnown setting.now.table.now last.new }
    ensures seen { IsSeen setting.now.table.now seen.new }
{
    let line = read_line(setting, buffers, last, seen, line)?;
    put_instruction(draft, line.opcode, buffers.words.as_slice())?;
    Ok(line)
}

/// Reads the lines behind those of the header, and adds their instructions to a draft that has the header's words.
/// After an error nothing is said of what is left.
fn assemble_lines(
    alloc: Global,
    table: &Table,
    draft: &mut Draft,
    text: &str,
) -> Result<(), AsmError>
    requires { length draft.old ≡ 5 }
    ensures read { OnOk result (HasLines table.now (lines_of text.now) draft.old draft.new) }
    ensures failed { IfErr result (λ e. LinesFailOr table.now (lines_of text.now) e.code e.line) }
{
    let mut definitions = Definitions::new(alloc);
    let mut buffers = Buffers {
        pending: Pending::new(alloc),
        words: Vec::new(alloc),
        text: String::new(alloc),
    };
    let mut last = None;
    let mut seen = None;
    let mut rest = text;
    let mut number = 0u32;
    while !rest.is_empty() {
        let (line, behind) = split_line(rest);
        let setting = Setting {
            table,
            forms: table.forms(),
            definitions: &definitions,
        };
        match assemble_line(&setting, &mut buffers, &mut last, &mut seen, draft, line) {
            Ok(line) => add_line(&mut definitions, line)?,
            Err(code) => return Err(line_error(code, number)),
        }
        number += 1;
        rest = behind;
    }
    Ok(())
}

/// The image of a text by a grammar table: what the text reads as, five lines for the header and one for each
/// instruction, where any plain name of an instruction or a value may stand for it, or `#N`, and the last line feed may
/// be missing.
///
/// # Errors
///
/// The first line with a fault, from 1, and on it the first of these. `S1`: a line of the header is missing or
/// ill-formed, or the bound is not one from 1 to 4,194,303. `S2`: no known name of an instruction stands at its place.
/// `S3`: an operand or a result is missing, one too many, ill-formed or unknown, or the width of a number is unknown.
/// `S4`: a number is too large for its place. `S5`: the instruction has over 65,535 words (2.3), or with it the module
/// has over 4,194,304. The result is told before the other operands, and these from left to right. `S6`, with line 0: a
/// growth of memory was refused.
pub fn assemble(alloc: Global, table: &Table, text: &str) -> Result<Image, AsmError>
    // The text is read as a header and instructions, whose words the image has.
    ensures read { IfOk result (λ i. (h : words.Header) × (is : List PlainInst)
        × IsReadText table.now h is (drop 5 i) text.now × IsHeaderOf i h × IsListing table.now is (drop 5 i)) }
    // Word 0 is the magic number, and the header fits.
    ensures begins { IfOk result (λ i. IsHeader i) }
    // An error tells where the text fails, and why.
    ensures failed { IfErr result (λ e. IsAsmFailure table.now text.now e.code e.line) }
    // The shown text of an image's words gives these words again, and no error but that memory ran out.
    ensures again { (ws : List ℕ) → IsHeader ws → AreWords ws → length ws ≤ greatest_length
        → IsShownImage table.now ws text.now → IfOk result (λ i. i ≡ ws) }
    ensures memory { (ws : List ℕ) → IsHeader ws → AreWords ws → length ws ≤ greatest_length
        → IsShownImage table.now ws text.now → IfErr result (λ e. (e.code ≡ S6) × (e.line ≡ 0)) }
{
    // Of every table, and so of this one, no parameter and no base is of the kind of results.
    let _ = table.kind(0);
    let (header, rest) = read_header(text)?;
    let mut draft = Draft::with_room(alloc, text.len() / LETTERS_A_WORD)?;
    let words = [
        MAGIC_NUMBER,
        header.version,
        header.generator,
        header.bound,
        header.schema,
    ];
    put_words(&mut draft, &words)?;
    assemble_lines(alloc, table, &mut draft, rest)?;
    Ok(draft.finish())
}
