//! The text for reading, by any pen.

ghost use Rattle.std.specs.Prelude.{◌≡◌, ◌≤◌, ◌<◌, ◌+◌, ◌++◌, ◌∷◌, [], ℕ, List, Option, IfOk, IfSome, OnOk};
ghost use Rattle.std.specs.Prelude.{drop, get_or, is_some, length, option_map, string_bytes, take, true};
ghost use Rattle.std.specs.List.{flat_map, list_all, range_with_len};
ghost use Rattle.spv_words.specs.Header.{greatest_length};
ghost use Rattle.spv_table.specs.Table.{Table as TableView};
ghost use Rattle.spv_module.specs.Module.{plain_insts};
ghost use Rattle.spv_layout.specs.Place.{IsShort, first_word_of, word_count};
ghost use Rattle.spv_lines.specs.Text.{IsShownText, header_lines, inst_line, lines_of};
ghost use Rattle.spv_lines.specs.Plain.{plain_of};
ghost use Rattle.spv_annotate.specs.Document as specs;
ghost use Rattle.spv_annotate.specs.Document.{IsSpelled, IsSubject, Subject, begun, document, entry, header_piece};
ghost use Rattle.spv_annotate.specs.Document.{is_of, line_pieces, mark_piece, marks, told_header, verdict_piece};
ghost use Rattle.spv_annotate.specs.Document.{version_line};
ghost use Rattle.spv_annotate.specs.declared.linked.Quoting.TheVariants.{Outside};
ghost use Rattle.spv_annotate.specs.Called as called;
ghost use Rattle.spv_annotate.specs.Called.{told_line, unmarked};
ghost use Rattle.spv_annotate.specs.Module.{function_of, inst_at};
ghost use Rattle.spv_annotate.specs.Notes.{comment, gap, place_text};
ghost use Rattle.spv_annotate.specs.Piece.{Break, Comment, IsWritten, Line};
ghost use Rattle.spv_annotate.specs.inner.Known.{AreFirsts, IsKnown};
ghost use Rattle.spv_annotate.specs.inner.Standing.{IsStanding, section_behind};
ghost use Rattle.spv_annotate.specs.inner.Tame.{is_tame_octet};
ghost use Rattle.spv_annotate.specs.inner.Task.{subject_of};
ghost use Rattle.spv_annotate.specs.inner.Values.{value_in};

use crate::comment::{PLACE, is_bare, left_out, place_in, push_comment};
use crate::finding::Finding;
use crate::known::{Firsts, Known};
use crate::literals::{push_unmarked, signature_at};
use crate::outline::{function_at, is_in_asked};
use crate::piece::{Pen, Piece};
use crate::section::section_of;
use crate::standing::Standing;
use crate::tame::{has_tame_lines, is_tame_line};
use crate::words::push_number;
use spv_extended::Reach;
use spv_lines::{push_plain, split_line};
use spv_module::{Module, opcode};
use spv_printer::show_listed;
use spv_table::Table;
use std::alloc::{AllocError, Global};

/// What is to be written.
#[derive(Drop)]
pub struct Task<'m, 'a> {
    /// Where texts are kept.
    alloc: Global,
    /// The module.
    module: &'m Module<'a>,
    /// How far it is looked at.
    reach: Reach,
    /// What is known of it.
    known: &'m Known<'m>,
    /// What is told of a fault.
    finding: Option<Finding<'m>>,
    /// The function that is asked for.
    function: Option<u32>,
}

/// Texts that are made anew for each line.
#[derive(Drop)]
struct Drafts {
    /// A line without control characters, if it has some.
    line: String,
    /// The comment behind it.
    comment: String,
}

/// The first line of a text; nothing where there is none.
pub fn first_line(text: &str) -> &str
    ensures { result.now ≡ get_or (lines_of text.now) 0 [] }
{
    if text.is_empty() {
        return "";
    }
    let (line, _) = split_line(text);
    line
}

/// Writes the line of the verdict, where a fault is told.
fn write_verdict<P: Pen>(pen: &mut P, task: &Task<'_, '_>) -> Result<(), AllocError>
    ensures { OnOk result (IsWritten P.text P.writes (verdict_piece task.now.finding) pen.old pen.new) }
{
    let Some(finding) = task.finding else {
        return Ok(());
    };
    let mut draft = String::new(task.alloc);
    draft.push_str("; ")?;
    draft.push_str(first_line(finding.lines))?;
    pen.write(Piece::Mark(draft.as_str()))?;
    pen.write(Piece::Break)
}

/// Writes the first lines of a text, as those of a header, and gives what stands behind them.
fn write_header<'t, P: Pen>(pen: &mut P, text: &'t str, count: usize) -> Result<&'t str, AllocError>
    requires { count ≤ length (lines_of text.now) }
    ensures written { OnOk result (IsWritten P.text P.writes (flat_map header_piece (take count (lines_of text.now)))
        pen.old pen.new) }
    ensures rest { IfOk result (λ t. lines_of t.now ≡ drop count (lines_of text.now)) }
{
    let mut rest = text;
    let mut done = 0;
    while done < count {
        if rest.is_empty() {
            unreachable!();
        }
        let (line, further) = split_line(rest);
        pen.write(Piece::Header(line))?;
        pen.write(Piece::Break)?;
        rest = further;
        done += 1;
    }
    Ok(rest)
}

/// Adds the line of the version.
fn push_version(out: &mut String, reach: Reach) -> Result<(), AllocError>
    ensures { OnOk result (string_bytes out.new ≡ string_bytes out.old ++ version_line reach) }
{
    match reach {
        Reach::Profile | Reach::Extended => out.push_str("; Version: 1.6"),
        Reach::OpenCl { minor } => {
            out.push_str("; Version: 1.")?;
            push_number(out, u64::from(minor))
        }
    }
}

/// Writes the line of the version.
fn write_version<P: Pen>(pen: &mut P, alloc: Global, reach: Reach) -> Result<(), AllocError>
    ensures { OnOk result (IsWritten P.text P.writes (header_piece (version_line reach)) pen.old pen.new) }
{
    let mut draft = String::new(alloc);
    push_version(&mut draft, reach)?;
    pen.write(Piece::Header(draft.as_str()))?;
    pen.write(Piece::Break)
}

/// Writes the lines of the header, by those of a shown text, and gives what stands behind them.
fn write_heading<'t, P: Pen>(
    pen: &mut P,
    task: &Task<'_, '_>,
    text: &'t str,
) -> Result<&'t str, AllocError>
    requires header { take 5 (lines_of text.now) ≡ header_lines task.now.«module».now.header }
    requires lines { 5 ≤ length (lines_of text.now) }
    ensures written { OnOk result (IsWritten P.text P.writes
        (flat_map header_piece (told_header task.now.reach task.now.«module».now.header)) pen.old pen.new) }
    ensures rest { IfOk result (λ t. lines_of t.now ≡ drop 5 (lines_of text.now)) }
{
    let below = write_header(pen, text, 1)?;
    write_version(pen, task.alloc, task.reach)?;
    if below.is_empty() {
        unreachable!();
    }
    let (_, rest) = split_line(below);
    write_header(pen, rest, 3)
}

/// Writes what begins with an instruction: a function, a block, or outside of functions another section than the one
/// before.
fn write_beginning<P: Pen>(
    pen: &mut P,
    at: u32,
    code: u16,
    standing: Standing,
) -> Result<(), AllocError>
    ensures { OnOk result (IsWritten P.text P.writes
        (begun code (section_behind standing.before) (is_some standing.function) at) pen.old pen.new) }
{
    if code == opcode::FUNCTION {
        return pen.write(Piece::Function(at));
    }
    if code == opcode::LABEL {
        return pen.write(Piece::Block(at));
    }
    if standing.function.is_some() {
        return Ok(());
    }
    let section = section_of(code);
    if section == standing.last_section() {
        return Ok(());
    }
    pen.write(Piece::Section { inst: at, section })
}

/// Writes a line of evidence. `draft` is room for it.
fn write_mark<P: Pen>(pen: &mut P, draft: &mut String, line: &str) -> Result<(), AllocError>
    ensures { OnOk result (IsWritten P.text P.writes (mark_piece line.now) pen.old pen.new) }
{
    draft.clear();
    draft.push_str("; ^ ")?;
    draft.push_str(line)?;
    pen.write(Piece::Mark(draft.as_str()))?;
    pen.write(Piece::Break)
}

/// Writes lines of evidence.
fn write_evidence<P: Pen>(pen: &mut P, alloc: Global, lines: &str) -> Result<(), AllocError>
    ensures { OnOk result (IsWritten P.text P.writes (flat_map mark_piece (lines_of lines.now)) pen.old pen.new) }
{
    let mut draft = String::new(alloc);
    let mut rest = lines;
    while !rest.is_empty() {
        let (line, further) = split_line(rest);
        write_mark(pen, &mut draft, line)?;
        rest = further;
    }
    Ok(())
}

/// Writes what is told of a fault, if it is told at an instruction.
#[inline(always)]
fn write_marks<P: Pen>(pen: &mut P, task: &Task<'_, '_>, at: u32) -> Result<(), AllocError>
    ensures { OnOk result (IsWritten P.text P.writes (marks task.now.finding at) pen.old pen.new) }
{
    match task.finding {
        Some(finding) if finding.inst == at => write_evidence(pen, task.alloc, finding.lines),
        _ => Ok(()),
    }
}

/// Makes the comment behind the line of an instruction.
fn draft_comment(
    draft: &mut String,
    task: &Task<'_, '_>,
    at: u32,
    word: u32,
    line: &str,
) -> Result<(), AllocError>
    requires known { IsKnown (plain_insts task.now.«module».now) task.now.known.now }
    requires within { at < length (plain_insts task.now.«module».now) }
    requires word { word ≡ first_word_of (plain_insts task.now.«module».now) at }
    ensures { OnOk result (string_bytes draft.new ≡ comment (plain_insts task.now.«module».now)
        (value_in task.now.known.now.values at) at line.now) }
{
    draft.clear();
    let insts = task.module.insts.as_slice();
    push_comment(draft, insts, task.known, at, word, line)
}

/// Writes a line of an instruction and a comment behind it.
#[inline(always)]
fn write_both<P: Pen>(pen: &mut P, at: u32, line: &str, comment: &str) -> Result<(), AllocError>
    ensures { OnOk result (IsWritten P.text P.writes (Line at line.now ∷ Comment comment.now ∷ Break ∷ [])
        pen.old pen.new) }
{
    pen.write(Piece::Line {
        inst: at,
        text: line,
    })?;
    pen.write(Piece::Comment(comment))?;
    pen.write(Piece::Break)
}

/// Writes the line of an instruction, and its comment, where that has no notes.
#[inline(always)]
fn write_bare<P: Pen>(pen: &mut P, at: u32, word: u32, line: &str) -> Result<(), AllocError>
    ensures { OnOk result (IsWritten P.text P.writes
        (Line at line.now ∷ Comment (gap (length line.now) ++ place_text at word) ∷ Break ∷ []) pen.old pen.new) }
{
    let mut buffer = [0u8; PLACE];
    let comment = place_in(&mut buffer, left_out(line.len()), at, word);
    write_both(pen, at, line, comment)
}

/// Writes the line of an instruction, which has no control characters, with its comment. `draft` is room for that.
#[inline(always)]
fn write_plain<P: Pen>(
    pen: &mut P,
    task: &Task<'_, '_>,
    draft: &mut String,
    at: u32,
    word: u32,
    line: &str,
) -> Result<(), AllocError>
    requires known { IsKnown (plain_insts task.now.«module».now) task.now.known.now }
    requires within { at < length (plain_insts task.now.«module».now) }
    requires word { word ≡ first_word_of (plain_insts task.now.«module».now) at }
    ensures { (lines : List (List ℕ)) → OnOk result (IsWritten P.text P.writes
        (line_pieces (subject_of task.now lines) at line.now) pen.old pen.new) }
{
    if is_bare(task.known, at, &task.module.insts[at as usize]) {
        return write_bare(pen, at, word, line);
    }
    draft_comment(draft, task, at, word, line)?;
    write_both(pen, at, line, draft.as_str())
}

/// Writes the line of an instruction, with its comment. `tame` tells whether it was found before that the line is tame.
#[inline(always)]
fn write_line<P: Pen>(
    pen: &mut P,
    task: &Task<'_, '_>,
    drafts: &mut Drafts,
    at: u32,
    word: u32,
    tame: bool,
    line: &str,
) -> Result<(), AllocError>
    requires known { IsKnown (plain_insts task.now.«module».now) task.now.known.now }
    requires tame { tame ≡ true → list_all is_tame_octet line.now ≡ true }
    requires within { at < length (plain_insts task.now.«module».now) }
    requires word { word ≡ first_word_of (plain_insts task.now.«module».now) at }
    ensures { (lines : List (List ℕ)) → OnOk result (IsWritten P.text P.writes
        (line_pieces (subject_of task.now lines) at (plain_of line.now)) pen.old pen.new) }
{
    if is_tame_line(tame, line) {
        return write_plain(pen, task, &mut drafts.comment, at, word, line);
    }
    write_tamed(pen, task, drafts, at, word, line)
}

/// Writes the line of an instruction, without its control characters, with its comment.
fn write_tamed<P: Pen>(
    pen: &mut P,
    task: &Task<'_, '_>,
    drafts: &mut Drafts,
    at: u32,
    word: u32,
    line: &str,
) -> Result<(), AllocError>
    requires known { IsKnown (plain_insts task.now.«module».now) task.now.known.now }
    requires within { at < length (plain_insts task.now.«module».now) }
    requires word { word ≡ first_word_of (plain_insts task.now.«module».now) at }
    ensures { (lines : List (List ℕ)) → OnOk result (IsWritten P.text P.writes
        (line_pieces (subject_of task.now lines) at (plain_of line.now)) pen.old pen.new) }
{
    drafts.line.clear();
    push_plain(&mut drafts.line, line)?;
    let text = drafts.line.as_str();
    write_plain(pen, task, &mut drafts.comment, at, word, text)
}

/// Writes the line of an OpExtInst, without the `%` of literals, with its comment.
fn write_call<P: Pen>(
    pen: &mut P,
    task: &Task<'_, '_>,
    drafts: &mut Drafts,
    at: u32,
    word: u32,
    line: &str,
) -> Result<(), AllocError>
    requires known { IsKnown (plain_insts task.now.«module».now) task.now.known.now }
    requires within { at < length (plain_insts task.now.«module».now) }
    requires word { word ≡ first_word_of (plain_insts task.now.«module».now) at }
    ensures { (lines : List (List ℕ)) → OnOk result (IsWritten P.text P.writes
        (line_pieces (subject_of task.now lines) at (plain_of (unmarked
        (called.signature_at (plain_insts task.now.«module».now) (inst_at (plain_insts task.now.«module».now) at))
        0 Outside line.now))) pen.old pen.new) }
{
    let insts = task.module.insts.as_slice();
    let signature = signature_at(insts, &task.known.firsts.definitions, &insts[at as usize]);
    let mut told = String::new(task.alloc);
    push_unmarked(&mut told, signature, line)?;
    write_line(pen, task, drafts, at, word, false, told.as_str())
}

/// Writes the line of an instruction, as it is told, with its comment. `tame` is that of `write_line`.
fn write_told<P: Pen>(
    pen: &mut P,
    task: &Task<'_, '_>,
    drafts: &mut Drafts,
    at: u32,
    word: u32,
    tame: bool,
    line: &str,
) -> Result<(), AllocError>
    requires known { IsKnown (plain_insts task.now.«module».now) task.now.known.now }
    requires tame { tame ≡ true → list_all is_tame_octet line.now ≡ true }
    requires within { at < length (plain_insts task.now.«module».now) }
    requires word { word ≡ first_word_of (plain_insts task.now.«module».now) at }
    ensures { (lines : List (List ℕ)) → OnOk result (IsWritten P.text P.writes
        (line_pieces (subject_of task.now lines) at (plain_of (told_line (plain_insts task.now.«module».now)
        (inst_at (plain_insts task.now.«module».now) at) line.now))) pen.old pen.new) }
{
    if task.module.insts[at as usize].opcode == opcode::EXT_INST {
        return write_call(pen, task, drafts, at, word, line);
    }
    write_line(pen, task, drafts, at, word, tame, line)
}

/// Whether what stands in a function, or in none, is asked for.
fn is_asked(task: &Task<'_, '_>, function: Option<u32>) -> bool
    ensures { (n : ℕ) → function ≡ function_of (plain_insts task.now.«module».now) n
        → result ≡ is_of (plain_insts task.now.«module».now) task.now.function n }
{
    is_in_asked(task.module.insts.as_slice(), task.function, function)
}

/// Writes all that belongs to an instruction, if it is asked for. `tame` is that of `write_line`.
fn write_entry<P: Pen>(
    pen: &mut P,
    task: &Task<'_, '_>,
    drafts: &mut Drafts,
    at: u32,
    standing: Standing,
    tame: bool,
    line: &str,
) -> Result<(), AllocError>
    requires tame { tame ≡ true → list_all is_tame_octet line.now ≡ true }
    requires known { IsKnown (plain_insts task.now.«module».now) task.now.known.now }
    requires within { at < length (plain_insts task.now.«module».now) }
    requires standing { IsStanding (plain_insts task.now.«module».now) at standing }
    ensures { (lines : List (List ℕ)) → inst_line lines at ≡ line.now → OnOk result (IsWritten P.text P.writes
        (entry (subject_of task.now lines) at) pen.old pen.new) }
{
    let code = task.module.insts[at as usize].opcode;
    if !is_asked(task, function_at(standing.function, at, code)) {
        return Ok(());
    }
    write_beginning(pen, at, code, standing)?;
    write_told(pen, task, drafts, at, standing.word, tame, line)?;
    write_marks(pen, task, at)
}

/// Writes the instructions, whose lines stand in a text, and what is told of a fault behind them.
fn write_entries<P: Pen>(pen: &mut P, task: &Task<'_, '_>, text: &str) -> Result<(), AllocError>
    requires known { IsKnown (plain_insts task.now.«module».now) task.now.known.now }
    requires words { IsShort (plain_insts task.now.«module».now) }
    requires lines { length (lines_of text.now) ≡ length (plain_insts task.now.«module».now) }
    ensures { OnOk result (IsWritten P.text P.writes (specs.entries (subject_of task.now (lines_of text.now)))
        pen.old pen.new) }
{
    let mut drafts = Drafts {
        line: String::new(task.alloc),
        comment: String::new(task.alloc),
    };
    let tame = has_tame_lines(text);
    let mut standing = Standing::new();
    let mut rest = text;
    let insts = task.module.insts.as_slice();
    for at in 0..insts.len() {
        if rest.is_empty() {
            unreachable!();
        }
        let (line, further) = split_line(rest);
        write_entry(pen, task, &mut drafts, at as u32, standing, tame, line)?;
        standing = standing.behind(at as u32, &insts[at]);
        rest = further;
    }
    write_ending(pen, task, standing)
}

/// Writes what is told of a fault behind the last instruction.
fn write_ending<P: Pen>(
    pen: &mut P,
    task: &Task<'_, '_>,
    standing: Standing,
) -> Result<(), AllocError>
    requires few { length (plain_insts task.now.«module».now) < 4294967296 }
    requires standing { IsStanding (plain_insts task.now.«module».now) (length (plain_insts task.now.«module».now))
        standing }
    ensures { (lines : List (List ℕ)) → OnOk result (IsWritten P.text P.writes
        (specs.ending (subject_of task.now lines)) pen.old pen.new) }
{
    if !is_asked(task, standing.function) {
        return Ok(());
    }
    write_marks(pen, task, task.module.insts.len() as u32)
}

/// Writes the text for reading, by the shown lines: first the line of the verdict and those of the header.
fn write_shown<P: Pen>(pen: &mut P, task: &Task<'_, '_>, text: &str) -> Result<(), AllocError>
    requires known { IsKnown (plain_insts task.now.«module».now) task.now.known.now }
    requires words { IsShort (plain_insts task.now.«module».now) }
    requires header { take 5 (lines_of text.now) ≡ header_lines task.now.«module».now.header }
    requires lines { length (lines_of text.now) ≡ 5 + length (plain_insts task.now.«module».now) }
    ensures { OnOk result (IsWritten P.text P.writes (document (subject_of task.now (drop 5 (lines_of text.now))))
        pen.old pen.new) }
{
    write_verdict(pen, task)?;
    let rest = write_heading(pen, task, text)?;
    write_entries(pen, task, rest)
}

/// Writes the text for reading of a module that words spell, by its text: what `annotate_with` writes.
///
/// An `AllocError` comes only where a growth of memory was refused, and then nothing is said of what is left.
pub fn write_text<P: Pen>(
    alloc: Global,
    module: &Module<'_>,
    firsts: &Firsts,
    reach: Reach,
    finding: Option<Finding<'_>>,
    function: Option<u32>,
    text: &str,
    pen: &mut P,
) -> Result<(), AllocError>
    requires firsts { AreFirsts (plain_insts «module».now) firsts.now }
    requires words { IsShort (plain_insts «module».now) }
    requires shown { (G : TableView) × IsSpelled G (plain_insts «module».now)
        × IsShownText G «module».now.header (plain_insts «module».now) text.now }
    ensures { OnOk result ((S : Subject) × ((G : TableView) → IsSpelled G (plain_insts «module».now)
        → IsShownText G «module».now.header (plain_insts «module».now) text.now
        → IsSubject G reach «module».now finding.entry function S)
        × IsWritten P.text P.writes (document S) pen.old pen.new) }
{
    let known = Known::new(alloc, module.insts.as_slice(), firsts)?;
    let task = Task {
        alloc,
        module,
        reach,
        known: &known,
        finding,
        function,
    };
    write_shown(pen, &task, text)
}

/// Writes the text for reading of a module that words spell: the line of the verdict, where a fault is told; the five
/// lines of its header, and the line of each instruction with a comment behind it; empty lines before sections and
/// functions; and what is told of a fault, below the line of its instruction. Where a function is asked for, by the id
/// of its OpFunction, only the line of the verdict, those of the header and those from its OpFunction to its
/// OpFunctionEnd are written, and what is told of a fault there. The version is 1.6, and for OpenCL that which the
/// module has.
///
/// Time is linear in the words, but for logarithms.
///
/// An `AllocError` comes only where a growth of memory was refused, and then nothing is said of what is left.
pub fn annotate_with<P: Pen>(
    alloc: Global,
    table: &Table,
    module: &Module<'_>,
    reach: Reach,
    finding: Option<Finding<'_>>,
    function: Option<u32>,
    pen: &mut P,
) -> Result<(), AllocError>
    requires spelled { IsSpelled table.now (plain_insts «module».now) }
    requires words { IsShort (plain_insts «module».now) }
    // The pieces of the document are written, in order.
    ensures { OnOk result ((S : Subject) × IsSubject table.now reach «module».now finding.entry function S
        × IsWritten P.text P.writes (document S) pen.old pen.new) }
{
    let text = show_listed(alloc, table, module)?;
    let firsts = Firsts::new(alloc, module.insts.as_slice())?;
    write_text(
        alloc,
        module,
        &firsts,
        reach,
        finding,
        function,
        text.as_str(),
        pen,
    )
}
