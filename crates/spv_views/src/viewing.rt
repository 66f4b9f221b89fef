//! What is written of the bytes of a stream for people to look at.
ghost use Rattle.std.specs.Prelude.{◌≡◌, ◌≢◌, ◌≤◌, ◌⊎◌, ◌↔◌, ◌++◌, [], ℕ, List, Some};
ghost use Rattle.std.specs.Prelude.{IfErr, IfOk, IfSome, IsErr, IsErrOf, IsTrue, None, Ok, OnOk, drop, length};
ghost use Rattle.std.specs.Prelude.{false, string_bytes, take, true};
ghost use Rattle.std.specs.Io.KnownBytes.{Appends};
ghost use Rattle.spv_words.specs.Header.{IsModule};
ghost use Rattle.spv_words.specs.declared.words.Order.{Order};
ghost use Rattle.spv_words.specs.declared.words.WordError.TheVariants.{W1};
ghost use Rattle.spv_module.specs.Instruction.{IsListing};
ghost use Rattle.spv_module.specs.Module.{plain_insts};
ghost use Rattle.spv_module.specs.Operand.{PlainInst};
ghost use Rattle.spv_module.specs.declared.module.Module.{Module};
ghost use Rattle.spv_lines.specs.Text.{ShownLines};
ghost use Rattle.spv_layout.specs.Place.{IsShort};
ghost use Rattle.spv_check.specs.declared.verdict_line.Judgment.TheVariants as judgment;
ghost use Rattle.spv_check.specs.Outcome.{HasFailed, IsUntouched, OfKnown};
ghost use Rattle.spv_annotate.specs.Document.{IsSpelled};
ghost use Rattle.spv_views.specs.View.{BeginsViewing, IsBlockGraph, IsPart, IsViewing, IsWritten, KeepsLayout};
ghost use Rattle.spv_views.specs.View as view;
ghost use Rattle.spv_views.specs.View.{LacksFunction, NamesSeveral, Views};
ghost use Rattle.spv_views.specs.inner.Beginning.{IsBegun};
ghost use Rattle.spv_views.specs.inner.Viewed as viewed;
ghost use Rattle.spv_views.specs.inner.Viewed.{IsLaid, IsMislaid, IsReading, IsToldOf, IsWrittenBy, WhyNoPart, is_text};
ghost use Rattle.spv_views.specs.inner.Viewed.{output_of, viewed_refusal};
ghost use Rattle.spv_views.specs.declared.view.View.TheVariants as graph;
ghost use Rattle.spv_views.specs.declared.viewing.Viewed.TheVariants as line;
ghost use Rattle.spv_views.specs.declared.view.ViewError.TheVariants as trouble;

use crate::beginning::beginning_of;
use crate::finding::{found_in, lent};
use crate::view::{View, ViewError};
use spv_annotate::{Finding, annotate, page};
use spv_check::{Judgment, line_for};
use spv_explain::{Detail, Told, explained};
use spv_extended::Reach;
use spv_inst::{decode, listed_or_dead, one_listing};
use spv_layout::laws::word_counts;
use spv_lines::shown_reads_back;
use spv_module::{Fault, Module, Rule, Stop};
use spv_names::{Chosen, NameError, function_of, has_function};
use spv_pictures::{block_graph, call_graph};
use spv_table::Table;
use spv_words::{Image, Sink, Source, WordError, read_image, write_all};
use std::alloc::{AllocError, Global};

/// What is written of a stream of bytes.
#[derive(Drop)]
pub enum Viewed {
    /// The text of a module.
    Text(String),
    /// That of the instructions before one that is malformed.
    Beginning(String),
    /// The verdict line of bytes of which no text is written.
    Line(Judgment),
}

impl From<AllocError> for ViewError {
    ghost use Rattle.std.specs.Prelude.{◌≡◌};
    ghost use Rattle.spv_views.specs.declared.view.ViewError.TheVariants.{Memory};

    ghost from_gives = { λ _ e. e ≡ Memory };

    fn from(_error: AllocError) -> ViewError {
        ViewError::Memory
    }
}

/// What is written of bytes that gave no image: W1 and W9 are errors, and of the others the verdict line is written.
fn refused(code: WordError) -> Result<Viewed, ViewError>
    ensures { result ≡ viewed_refusal code }
{
    match code {
        WordError::W1 => Err(ViewError::Failed),
        WordError::W9 => Err(ViewError::Memory),
        _ => Ok(Viewed::Line(Judgment::Refused(code))),
    }
}

/// What is written of words that have a fault: the verdict line.
fn broken(fault: Fault) -> Result<Viewed, ViewError>
    ensures { result ≡ Ok (line.Line (judgment.Broken fault)) }
{
    Ok(Viewed::Line(Judgment::Broken(fault)))
}

/// Whether a rule is of the stages behind the layout.
fn is_behind_layout(rule: Rule) -> bool
    ensures { result ≡ viewed.is_behind_layout rule }
{
    match rule {
        Rule::I1
        | Rule::I2
        | Rule::I3
        | Rule::I4
        | Rule::I5
        | Rule::I6
        | Rule::I7
        | Rule::I8
        | Rule::I9
        | Rule::I10
        | Rule::I11
        | Rule::I12
        | Rule::P1
        | Rule::L1
        | Rule::L2 => false,
        _ => true,
    }
}

/// Whether a verdict breaks none of the rules W, I, P and L, so that the functions of the module can be told apart.
fn keeps_layout(judgment: Judgment) -> bool
    ensures { IsTrue result ↔ KeepsLayout judgment }
{
    match judgment {
        Judgment::Valid => true,
        Judgment::Refused(_) => false,
        Judgment::Broken(fault) => is_behind_layout(fault.rule),
    }
}

/// What the graph of a function's blocks is, with what is told of the module's fault.
fn blocks_of(
    alloc: Global,
    table: &Table,
    module: &Module<'_>,
    id: u32,
    finding: Option<Finding<'_>>,
) -> Result<String, AllocError>
    ensures { (lines : List (List ℕ)) → ShownLines table.now [] (plain_insts «module».now) lines
        → IfOk result (λ t. IsBlockGraph table.now «module».now finding.entry id (string_bytes t)) }
{
    let marks = match finding {
        Some(found) => Some(spv_pictures::Finding {
            inst: found.inst,
            walk: found.walk,
        }),
        None => None,
    };
    block_graph(alloc, table, module, id, marks)
}

/// What is written of a module, with what is told of its fault.
fn text_with(
    alloc: Global,
    table: &Table,
    how: View<'_>,
    reach: Reach,
    function: Option<u32>,
    module: &Module<'_>,
    finding: Option<Finding<'_>>,
) -> Result<String, AllocError>
    requires spelled { IsSpelled table.now (plain_insts «module».now) }
    requires words { IsShort (plain_insts «module».now) }
    ensures { (lines : List (List ℕ)) → ShownLines table.now [] (plain_insts «module».now) lines
        → IfOk result (λ t. IsWritten how.entry table.now reach «module».now finding.entry function (string_bytes t)) }
{
    match how {
        View::Text { color } => annotate(alloc, table, module, reach, finding, function, color),
        View::Page { title } => page(alloc, table, module, reach, title, finding, function),
        View::Graph => match function {
            Some(id) => blocks_of(alloc, table, module, id, finding),
            None => call_graph(alloc, module),
        },
    }
}

/// What is written of a module, with what explains its verdict.
fn text_of(
    alloc: Global,
    table: &Table,
    how: View<'_>,
    reach: Reach,
    function: Option<u32>,
    module: &Module<'_>,
    told: &Told<'_>,
) -> Result<String, AllocError>
    requires spelled { IsSpelled table.now (plain_insts «module».now) }
    requires words { IsShort (plain_insts «module».now) }
    ensures { (lines : List (List ℕ)) → ShownLines table.now [] (plain_insts «module».now) lines
        → IfOk result (λ t. IsWrittenBy how.entry table.now reach «module».now told.now.explanation
        told.now.walk.items function (string_bytes t)) }
{
    let found = found_in(alloc, &told.explanation)?;
    let finding = lent(&found, &told.walk);
    text_with(alloc, table, how, reach, function, module, finding)
}

/// Whether the beginning of a module is shown, where its words are no list of instructions.
fn shows_beginning(how: View<'_>, function: Option<Chosen<'_>>) -> bool
    ensures { result ≡ view.shows_beginning how.entry function.entry }
{
    match (how, function) {
        (View::Text { .. } | View::Page { .. }, None) => true,
        _ => false,
    }
}

/// What is written of the instructions before one that is malformed, with what explains it.
fn begun(
    alloc: Global,
    table: &Table,
    how: View<'_>,
    reach: Reach,
    image: &Image,
    told: &Told<'_>,
) -> Result<String, ViewError>
    requires { (is : List PlainInst) → ¬ (IsListing table.now is (drop 5 image.now)) }
    ensures begun { IfOk result (λ t. (m : Module) × IsBegun table.now image.now m
        × IsWrittenBy how.entry table.now reach m told.now.explanation told.now.walk.items None (string_bytes t)) }
    ensures only { IfErr result (λ e. e ≡ trouble.Memory) }
{
    one_listing();
    shown_reads_back();
    word_counts();
    let start = match beginning_of(alloc, table, image) {
        Ok(start) => start,
        Err(_) => return Err(ViewError::Memory),
    };
    let _words = start.len();
    let module = match decode(alloc, table, &start) {
        Ok(module) => module,
        Err(Stop::Fault(_)) => unreachable!(),
        Err(Stop::Memory) => return Err(ViewError::Memory),
    };
    let text = text_of(alloc, table, how, reach, None, &module, told)?;
    Ok(text)
}

/// What is written of words that are no list of instructions: what stands before the one that is malformed, where that
/// is shown, or the verdict line.
fn viewed_unlisted(
    alloc: Global,
    table: &Table,
    how: View<'_>,
    reach: Reach,
    function: Option<Chosen<'_>>,
    image: &Image,
    told: &Told<'_>,
) -> Result<Viewed, ViewError>
    requires { (is : List PlainInst) → ¬ (IsListing table.now is (drop 5 image.now)) }
    ensures viewed { (bytes : List ℕ) (order : Order) → IsModule order bytes image.now
        → IsToldOf table.now reach bytes told.now
        → IfOk result (λ v. IsViewing how.entry table.now reach function.entry bytes (output_of v) (is_text v)) }
    ensures only { IfErr result (λ e. e ≡ trouble.Memory) }
{
    spv_words::laws::one_word_list();
    if !shows_beginning(how, function) {
        return Ok(Viewed::Line(told.explanation.judgment));
    }
    let text = begun(alloc, table, how, reach, image, told)?;
    Ok(Viewed::Beginning(text))
}

/// Whether a function is asked for, and by the verdict functions cannot be told apart.
fn is_mislaid(function: Option<Chosen<'_>>, judgment: Judgment) -> bool
    ensures mislaid { result ≡ true → IsMislaid function.entry judgment }
    ensures laid { result ≡ false → IsLaid function.entry judgment }
{
    match function {
        Some(_) => !keeps_layout(judgment),
        None => false,
    }
}

/// The id of the function that is asked for, if one is.
fn id_in(module: &Module<'_>, function: Option<Chosen<'_>>) -> Result<Option<u32>, ViewError>
    ensures part { IfOk result (λ id. IsPart (plain_insts «module».now) function.entry id) }
    ensures why { IfErr result (WhyNoPart (plain_insts «module».now) function.entry) }
{
    let Some(chosen) = function else {
        return Ok(None);
    };
    match function_of(module.insts.as_slice(), chosen) {
        Ok(id) if has_function(module.insts.as_slice(), id) => Ok(Some(id)),
        Ok(_) | Err(NameError::Absent) => Err(ViewError::NoFunction),
        Err(NameError::Several) => Err(ViewError::SeveralFunctions),
    }
}

/// What is written of a module, with what explains its verdict, or the verdict line.
fn viewed_told(
    alloc: Global,
    table: &Table,
    how: View<'_>,
    reach: Reach,
    function: Option<Chosen<'_>>,
    image: &Image,
    told: &Told<'_>,
) -> Result<Viewed, ViewError>
    requires { IsReading table.now image.now told.now }
    ensures viewed { (bytes : List ℕ) (order : Order) → IsModule order bytes image.now
        → IsToldOf table.now reach bytes told.now
        → IfOk result (λ v. IsViewing how.entry table.now reach function.entry bytes (output_of v) (is_text v)) }
    ensures stranger { (bytes : List ℕ) (order : Order) → IsModule order bytes image.now
        → IsToldOf table.now reach bytes told.now
        → IsErrOf result trouble.NoFunction → LacksFunction table.now reach bytes function.entry }
    ensures several { (bytes : List ℕ) (order : Order) → IsModule order bytes image.now
        → IsToldOf table.now reach bytes told.now
        → IsErrOf result trouble.SeveralFunctions → NamesSeveral table.now reach bytes function.entry }
    ensures only { IfErr result (λ e. e ≢ trouble.Failed) }
{
    shown_reads_back();
    word_counts();
    let Some(module) = &told.module else {
        return viewed_unlisted(alloc, table, how, reach, function, image, told);
    };
    if is_mislaid(function, told.explanation.judgment) {
        return Ok(Viewed::Line(told.explanation.judgment));
    }
    let id = id_in(module, function)?;
    let text = text_of(alloc, table, how, reach, id, module, told)?;
    Ok(Viewed::Text(text))
}

/// Whether the graph of a module's calls is asked for.
fn is_of_calls(how: View<'_>, function: Option<Chosen<'_>>) -> bool
    ensures { result ≡ true → (how.entry ≡ graph.Graph) × (function.entry ≡ None) }
{
    match (how, function) {
        (View::Graph, None) => true,
        _ => false,
    }
}

/// The graph of the calls of the words of a module, which needs no verdict; or the verdict line of words that are no
/// list of instructions.
fn calls_viewed(
    alloc: Global,
    table: &Table,
    reach: Reach,
    image: &Image,
) -> Result<Viewed, ViewError>
    ensures viewed { (bytes : List ℕ) (order : Order) → IsModule order bytes image.now
        → IfOk result (λ v. IsViewing graph.Graph table.now reach None bytes (output_of v) (is_text v)) }
    ensures only { IfErr result (λ e. e ≡ trouble.Memory) }
{
    spv_words::laws::one_word_list();
    listed_or_dead();
    shown_reads_back();
    word_counts();
    let _words = image.len();
    let module = match decode(alloc, table, image) {
        Ok(module) => module,
        Err(Stop::Fault(fault)) => return broken(fault),
        Err(Stop::Memory) => return Err(ViewError::Memory),
    };
    let text = text_with(alloc, table, View::Graph, reach, None, &module, None)?;
    Ok(Viewed::Text(text))
}

/// What people look at of the words of a module, as `view_stream` writes it; or their verdict line.
///
/// # Errors
///
/// `NoFunction`: the id is the result of no OpFunction, or the name that of none. `SeveralFunctions`: the name is that
/// of several. `Memory`: a growth of memory was refused. There is no other.
pub fn view_image(
    alloc: Global,
    table: &Table,
    how: View<'_>,
    reach: Reach,
    function: Option<Chosen<'_>>,
    image: &Image,
) -> Result<Viewed, ViewError>
    ensures viewed { (bytes : List ℕ) (order : Order) → IsModule order bytes image.now
        → IfOk result (λ v. IsViewing how.entry table.now reach function.entry bytes (output_of v) (is_text v)) }
    ensures stranger { (bytes : List ℕ) (order : Order) → IsModule order bytes image.now
        → IsErrOf result trouble.NoFunction → LacksFunction table.now reach bytes function.entry }
    ensures several { (bytes : List ℕ) (order : Order) → IsModule order bytes image.now
        → IsErrOf result trouble.SeveralFunctions → NamesSeveral table.now reach bytes function.entry }
    ensures only { IfErr result (λ e. e ≢ trouble.Failed) }
{
    if is_of_calls(how, function) {
        return calls_viewed(alloc, table, reach, image);
    }
    let _words = image.len();
    match explained(alloc, table, reach, Detail::Short, image) {
        Ok(told) => viewed_told(alloc, table, how, reach, function, image, &told),
        Err(_) => Err(ViewError::Memory),
    }
}

/// What is written of all the bytes of a reader.
fn viewed_on<R: Source>(
    alloc: Global,
    table: &Table,
    how: View<'_>,
    reach: Reach,
    function: Option<Chosen<'_>>,
    r: &mut R,
) -> Result<Viewed, ViewError>
    ensures known { IfSome (R.remaining r.old)
        (λ bytes. IfOk result (λ v. IsViewing how.entry table.now reach function.entry bytes
        (output_of v) (is_text v))) }
    ensures stranger { IsErrOf result trouble.NoFunction
        → IfSome (R.remaining r.old) (λ bytes. LacksFunction table.now reach bytes function.entry) }
    ensures several { IsErrOf result trouble.SeveralFunctions
        → IfSome (R.remaining r.old) (λ bytes. NamesSeveral table.now reach bytes function.entry) }
    ensures count { HasFailed R.failures r.old r.new ↔ IsErrOf result trouble.Failed }
{
    spv_words::laws::one_refusal();
    let image = match read_image(alloc, r) {
        Ok((image, _)) => image,
        Err(code) => return refused(code),
    };
    view_image(alloc, table, how, reach, function, &image)
}

impl Viewed {
    /// Whether it is the text of a module.
    fn is_text(&self) -> bool
        ensures { result ≡ is_text self.now }
    {
        match self {
            Viewed::Text(_) => true,
            Viewed::Beginning(_) | Viewed::Line(_) => false,
        }
    }

    /// Writes it. After a failure, W1, a beginning of it was written.
    fn write<W: Sink>(&self, w: &mut W) -> Result<(), WordError>
        ensures all { OnOk result (Appends (W.contents w.old) (W.contents w.new) (output_of self.now)) }
        ensures begun { IfSome (W.contents w.old)
            (λ xs. (n : ℕ) × (n ≤ length (output_of self.now))
            × (W.contents w.new ≡ Some (xs ++ take n (output_of self.now)))) }
        ensures only { IfErr result (λ e. e ≡ W1) }
        ensures count { HasFailed W.failures w.old w.new ↔ IsErrOf result W1 }
        ensures steady { OnOk result (W.failures w.new ≡ W.failures w.old) }
    {
        match self {
            Viewed::Text(text) | Viewed::Beginning(text) => write_all(text.as_bytes(), w),
            Viewed::Line(verdict) => {
                let line = line_for(*verdict);
                write_all(line.as_slice(), w)
            }
        }
    }
}

/// Writes what people look at of the module that a reader's bytes up to the end of input are, and answers true; or,
/// where they are no words of a module or no list of instructions, their verdict line, and answers false. Of words that
/// are no list of instructions the text and the page have those before the one that is malformed, and what explains
/// that behind them; the answer is false too.
///
/// Where a function is chosen only that function is written of; of a module that breaks a rule P or L, so that its
/// functions cannot be told apart, the verdict line is written then, and the answer is false. Where the module is not
/// valid, what explains that is part of the text, and the answer is true. Nothing is written before the text is whole.
///
/// # Errors
///
/// `Failed`: a read or a write failed. After a failed read nothing was written, after a failed write a beginning of the
/// output. `NoFunction`: the id is the result of no OpFunction, or the name that of none. `SeveralFunctions`: the name
/// is that of several. `Memory`: a growth of memory was refused. Nothing was written with these three.
pub fn view_stream<R: Source, W: Sink>(
    alloc: Global,
    table: &Table,
    how: View<'_>,
    reach: Reach,
    function: Option<Chosen<'_>>,
    r: &mut R,
    w: &mut W,
) -> Result<bool, ViewError>
    // The writer has got what is written of all the bytes that the reader still gave.
    ensures viewed { OfKnown (R.remaining r.old) (W.contents w.old)
        (λ bytes old. IfOk result (λ answer. Views how.entry table.now reach function.entry bytes old
        (W.contents w.new) answer)) }
    // The answer is `Failed` exactly where a read or a write failed.
    ensures count { (HasFailed R.failures r.old r.new ⊎ HasFailed W.failures w.old w.new)
        ↔ IsErrOf result trouble.Failed }
    ensures stranger { IsErrOf result trouble.NoFunction
        → IfSome (R.remaining r.old) (λ bytes. LacksFunction table.now reach bytes function.entry) }
    ensures several { IsErrOf result trouble.SeveralFunctions
        → IfSome (R.remaining r.old) (λ bytes. NamesSeveral table.now reach bytes function.entry) }
    // With an error a writer that did not fail is as it was.
    ensures unwritten { IsErr result → IsUntouched W.failures w.old w.new }
    // After a failed write it has got a beginning.
    ensures begun { HasFailed W.failures w.old w.new → OfKnown (R.remaining r.old) (W.contents w.old)
        (λ bytes old. BeginsViewing how.entry table.now reach function.entry bytes old (W.contents w.new)) }
{
    let viewed = viewed_on(alloc, table, how, reach, function, r)?;
    match viewed.write(w) {
        Ok(()) => Ok(viewed.is_text()),
        Err(_) => Err(ViewError::Failed),
    }
}
