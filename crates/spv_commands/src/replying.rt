//! What each command comes to, of the bytes of its file: its reply.
ghost use Rattle.std.specs.Prelude.{◌≡◌, ◌↔◌, ◌⊎◌, ◌*◌, ℕ, List, [], Some, IfErr, IfOk, IsTrue, IsUtf8, false, length};
ghost use Rattle.std.specs.Prelude.{true};
ghost use Rattle.spv_words.specs.Header.{IsFirstBroken, IsModule};
ghost use Rattle.spv_words.specs.declared.words.WordError.TheVariants.{W8};
ghost use Rattle.spv_table.specs.Table.{Table};
ghost use Rattle.spv_extended.specs.declared.reach.Reach.{Reach};
ghost use Rattle.spv_check.specs.Stream.{TellsVerdict};
ghost use Rattle.spv_check.specs.Text.{line_of};
ghost use Rattle.spv_check.specs.Verdict.{valid_line};
ghost use Rattle.spv_facts.specs.declared.fact.Detail.{Detail};
ghost use Rattle.spv_explain.specs.Stream.{Explains, IsExplanation};
ghost use Rattle.spv_views.specs.View.{LacksFunction, NamesSeveral, Views};
ghost use Rattle.spv_scope.specs.Scope.{reach_of, taken};
ghost use Rattle.spv_commands.specs.Assemble.{Assembles, HoldsModule, in_version, minor_asked, text_read};
ghost use Rattle.spv_commands.specs.Output.{is_done, made_of, out_of};
ghost use Rattle.spv_commands.specs.Show.{Shows};
ghost use Rattle.spv_commands.specs.Task.{DoesTask, ReadsGrammar, WritesGrammar, WritesRules};
ghost use Rattle.spv_commands.specs.Trace.{HasNoEntry, HasSeveral, Traces};
ghost use Rattle.spv_commands.specs.inner.Assembly.{ComesTo};
ghost use Rattle.spv_commands.specs.inner.Answered.{Gives, IsAnswerBy, IsUnreadAnswer, WhyNot};
ghost use Rattle.spv_commands.specs.inner.Asked.{reads_of};
ghost use Rattle.spv_commands.specs.declared.asked.Reads.TheVariants.{Module};
ghost use Rattle.spv_commands.specs.declared.trouble.Trouble.TheVariants.{Memory, NoEntry, NoFunction, NotText};
ghost use Rattle.spv_commands.specs.declared.trouble.Trouble.TheVariants.{SeveralFunctions};

use crate::asked::{detail_by, how_by, is_explaining, order_by, rules_bytes};
use crate::assembling::{Assembly, assembly_of};
use crate::outgoing::Output;
use crate::showing::{Shown, shown_of};
use crate::text_fault::text_fault;
use crate::tracing::{Traced, traced_of};
use crate::trouble::Trouble;
use spv_builtin::grammar_text as text_of_grammar;
use spv_command_line::{AnyCode, Command, Scope, Task};
use spv_explain::{Detail, Explanation, octets_told, too_long_told};
use spv_extended::Reach;
use spv_names::Chosen;
use spv_scope::{put_minor, put_text_minor, text_minor};
use spv_table::Table;
use spv_verdict::{Judgment, Verdict, check, line_for};
use spv_views::{View, ViewError, Viewed, view_image};
use spv_words::{GREATEST_SIZE, Image, Order, WordError, image_from};
use std::alloc::Global;

/// What a command comes to.
#[derive(Drop)]
pub enum Reply {
    /// The module is valid, or its text, its run, what people look at, a grammar file or what codes say is written:
    /// this. The exit status is 0.
    Done(Output),
    /// A fault is told: this is written. The exit status is 1.
    Fault(Output),
    /// A module is made: these are its bytes. The exit status is 0.
    Made(Vec<u8>),
}

/// The image of a module's bytes, which become it, and their order.
pub fn image_in(bytes: Vec<u8>) -> Result<(Image, Order), WordError>
    ensures gives { IfOk result (λ p. IsModule p.1 bytes.items p.0) }
    ensures refused { IfErr result (λ e. IsFirstBroken e bytes.items) }
{
    if bytes.len() > GREATEST_SIZE {
        return Err(WordError::W8);
    }
    image_from(bytes)
}

/// The reply that tells a fault by the line of a verdict.
pub fn fault(judgment: Judgment) -> Reply
    ensures out { out_of result ≡ line_of judgment }
    ensures made { made_of result ≡ [] }
    ensures done { is_done result ≡ false }
{
    Reply::Fault(Output::Line(line_for(judgment)))
}

/// What `check` answers of a module's bytes.
fn checked(alloc: Global, table: &Table, reach: Reach, bytes: Vec<u8>) -> Result<Reply, Trouble>
    ensures gives { IfOk result (Gives (TellsVerdict table.now reach) bytes.items) }
    ensures only { IfErr result (λ t. t ≡ Memory) }
{
    let image = match image_in(bytes) {
        Ok((image, _)) => image,
        Err(code) => return Ok(fault(Judgment::Refused(code))),
    };
    match check(alloc, table, reach, &image) {
        Ok(Verdict::Valid(_)) => Ok(Reply::Done(Output::Line(line_for(Judgment::Valid)))),
        Ok(Verdict::Fault(found)) => Ok(fault(Judgment::Broken(found))),
        Err(_) => Err(Trouble::Memory),
    }
}

/// The answer that a verdict is told by this text.
fn verdict(judgment: Judgment, text: Vec<u8>) -> Reply
    ensures out { out_of result ≡ text.items }
    ensures made { made_of result ≡ [] }
    ensures done { IsTrue (is_done result) ↔ (line_of judgment ≡ valid_line) }
{
    match judgment {
        Judgment::Valid => Reply::Done(Output::Bytes(text)),
        Judgment::Refused(_) => Reply::Fault(Output::Bytes(text)),
        Judgment::Broken(_) => Reply::Fault(Output::Bytes(text)),
    }
}

/// The verdict on the bytes of a module that is too long, with the lines that explain it.
fn too_long_explanation(alloc: Global) -> Result<Explanation, Trouble>
    ensures explains { (detail : Detail) (G : Table) (reach : Reach) (bytes : List ℕ) → IsFirstBroken W8 bytes
        → IfOk result (λ e. IsExplanation detail G reach bytes e) }
    ensures only { IfErr result (λ t. t ≡ Memory) }
{
    match too_long_told(alloc) {
        Ok(explanation) => Ok(explanation),
        Err(_) => Err(Trouble::Memory),
    }
}

/// The verdict on a module's bytes, with the lines that explain it.
fn explanation_of(
    alloc: Global,
    table: &Table,
    reach: Reach,
    detail: Detail,
    bytes: Vec<u8>,
) -> Result<Explanation, Trouble>
    ensures explains { IfOk result (λ e. IsExplanation detail table.now reach bytes.items e) }
    ensures only { IfErr result (λ t. t ≡ Memory) }
{
    if bytes.len() > GREATEST_SIZE {
        return too_long_explanation(alloc);
    }
    match octets_told(alloc, table, reach, detail, bytes) {
        Ok(explanation) => Ok(explanation),
        Err(_) => Err(Trouble::Memory),
    }
}

/// The reply that tells a verdict by the lines that explain it.
fn explaining(alloc: Global, explanation: &Explanation) -> Result<Reply, Trouble>
    ensures gives { (detail : Detail) (G : Table) (reach : Reach) (bytes : List ℕ)
        → IsExplanation detail G reach bytes explanation.now → IfOk result (Gives (Explains detail G reach) bytes) }
    ensures told { IfOk result (λ a. made_of a ≡ []) }
    ensures only { IfErr result (λ t. t ≡ Memory) }
{
    match explanation.bytes(alloc) {
        Ok(text) => Ok(verdict(explanation.judgment, text)),
        Err(_) => Err(Trouble::Memory),
    }
}

/// What `explain` answers of a module's bytes.
fn explained(
    alloc: Global,
    table: &Table,
    reach: Reach,
    detail: Detail,
    bytes: Vec<u8>,
) -> Result<Reply, Trouble>
    ensures gives { IfOk result (Gives (Explains detail table.now reach) bytes.items) }
    ensures only { IfErr result (λ t. t ≡ Memory) }
{
    let explanation = explanation_of(alloc, table, reach, detail, bytes)?;
    explaining(alloc, &explanation)
}

/// What a task answers of a module's bytes.
pub fn judged(
    alloc: Global,
    task: Task,
    table: &Table,
    reach: Reach,
    bytes: Vec<u8>,
) -> Result<Reply, Trouble>
    ensures gives { IfOk result (Gives (DoesTask task table.now reach) bytes.items) }
    ensures only { IfErr result (λ t. t ≡ Memory) }
{
    match task {
        Task::Check => checked(alloc, table, reach, bytes),
        Task::Explain { full } => explained(alloc, table, reach, detail_by(full), bytes),
    }
}

/// What `show` answers of a module's bytes.
///
/// `Memory`: a growth of memory was refused. There is no other error.
pub fn shown(alloc: Global, table: &Table, reach: Reach, bytes: Vec<u8>) -> Result<Reply, Trouble>
    ensures gives { IfOk result (Gives (Shows table.now reach) bytes.items) }
    ensures only { IfErr result (λ t. t ≡ Memory) }
{
    let image = match image_in(bytes) {
        Ok((image, _)) => image,
        Err(code) => return Ok(fault(Judgment::Refused(code))),
    };
    match shown_of(alloc, table, reach, &image) {
        Ok(Shown::Text(text)) => Ok(Reply::Done(Output::Bytes(text))),
        Ok(Shown::Line(judgment)) => Ok(fault(judgment)),
        Err(_) => Err(Trouble::Memory),
    }
}

/// What `trace` answers of a module's bytes.
///
/// # Errors
///
/// The bytes are a valid module with the first two. `NoEntry`: the id is the function of no OpEntryPoint, or the name
/// that of no function. `SeveralFunctions`: the name is that of several. `Memory`: a growth of memory was refused.
pub fn traced(
    alloc: Global,
    table: &Table,
    reach: Reach,
    function: Chosen<'_>,
    choices: &[u32],
    limit: u32,
    bytes: Vec<u8>,
) -> Result<Reply, Trouble>
    ensures gives { IfOk result (Gives (Traces table.now reach function.entry choices.now limit) bytes.items) }
    ensures only { IfErr result (λ t.
        ((t ≡ NoEntry) × HasNoEntry table.now reach bytes.items function.entry)
        ⊎ ((t ≡ SeveralFunctions) × HasSeveral table.now reach bytes.items function.entry) ⊎ (t ≡ Memory)) }
{
    let image = match image_in(bytes) {
        Ok((image, _)) => image,
        Err(code) => return Ok(fault(Judgment::Refused(code))),
    };
    match traced_of(alloc, table, reach, &image, function, choices, limit) {
        Ok(Traced::Run(run)) => Ok(Reply::Done(Output::Run(run))),
        Ok(Traced::Line(judgment)) => Ok(fault(judgment)),
        Err(trouble) => Err(trouble),
    }
}

/// What `annotate` and `graph` answer of a module's bytes.
fn viewed(
    alloc: Global,
    table: &Table,
    how: View<'_>,
    reach: Reach,
    function: Option<Chosen<'_>>,
    bytes: Vec<u8>,
) -> Result<Reply, Trouble>
    ensures gives { IfOk result (Gives (Views how.entry table.now reach function.entry) bytes.items) }
    ensures only { IfErr result (λ t.
        ((t ≡ NoFunction) × LacksFunction table.now reach bytes.items function.entry)
        ⊎ ((t ≡ SeveralFunctions) × NamesSeveral table.now reach bytes.items function.entry) ⊎ (t ≡ Memory)) }
{
    spv_words::laws::one_refusal();
    let image = match image_in(bytes) {
        Ok((image, _)) => image,
        Err(code) => return Ok(fault(Judgment::Refused(code))),
    };
    match view_image(alloc, table, how, reach, function, &image) {
        Ok(Viewed::Text(text)) => Ok(Reply::Done(Output::Bytes(text.into_bytes()))),
        Ok(Viewed::Beginning(text)) => Ok(Reply::Fault(Output::Bytes(text.into_bytes()))),
        Ok(Viewed::Line(judgment)) => Ok(fault(judgment)),
        Err(ViewError::NoFunction) => Err(Trouble::NoFunction),
        Err(ViewError::SeveralFunctions) => Err(Trouble::SeveralFunctions),
        Err(_) => Err(Trouble::Memory),
    }
}

/// Makes bytes those of a module of another version, if one is given.
fn put_version(minor: Option<u8>, bytes: &mut Vec<u8>)
    ensures { bytes.new.items ≡ in_version minor bytes.old.items }
{
    if let Some(minor) = minor {
        put_minor(bytes.as_mut_slice(), minor);
    }
}

/// The answer of the bytes of an image in an order, and in another version, if one is given. It takes no memory.
fn made(order: Order, minor: Option<u8>, image: Image) -> Reply
    ensures made { HoldsModule order minor image [] (Some (made_of result)) (4 * length image) }
    ensures out { out_of result ≡ [] }
    ensures done { is_done result ≡ true }
{
    let mut bytes = image.into_octets(order);
    put_version(minor, &mut bytes);
    Reply::Made(bytes)
}

/// The minor number of the version that a module of a text is to have, if that is not left to the text as it is.
fn minor_in(opencl: bool, text: &[u8]) -> Option<u8>
    ensures { result ≡ minor_asked opencl text.now }
{
    if opencl { text_minor(text) } else { None }
}

/// Makes a text of a module of another version one of a module of 1.6, if that is asked for.
fn put_read(opencl: bool, text: &mut Vec<u8>)
    ensures { text.new.items ≡ text_read opencl text.old.items }
{
    if opencl {
        put_text_minor(text.as_mut_slice(), 6);
    }
}

/// What bytes come to as a text, which are given back before a module is written.
fn assembly_in(
    alloc: Global,
    table: &Table,
    explain: bool,
    bytes: Vec<u8>,
) -> Result<Assembly, Trouble>
    ensures comes { IfOk result (ComesTo table.now explain bytes.items) }
    ensures only { IfErr result (λ t. ((t ≡ NotText) × (¬ IsUtf8 bytes.items)) ⊎ (t ≡ Memory)) }
{
    assembly_of(alloc, table, explain, &bytes)
}

/// What `asm` answers of the bytes of a text, which may tell another version where `opencl` is asked for.
///
/// # Errors
///
/// `NotText`: they are not UTF-8. `Memory`: a growth of memory was refused.
pub fn assembled(
    alloc: Global,
    table: &Table,
    order: Order,
    explain: bool,
    opencl: bool,
    bytes: Vec<u8>,
) -> Result<Reply, Trouble>
    ensures gives { IfOk result (λ a. Assembles table.now order explain opencl bytes.items
        (Some []) (Some (out_of a)) (Some []) (Some (made_of a)) (is_done a)) }
    ensures only { IfErr result (λ t. ((t ≡ NotText) × (¬ IsUtf8 (text_read opencl bytes.items))) ⊎ (t ≡ Memory)) }
{
    let mut bytes = bytes;
    let minor = minor_in(opencl, &bytes);
    put_read(opencl, &mut bytes);
    match assembly_in(alloc, table, explain, bytes) {
        Ok(Assembly::Made(image)) => Ok(made(order, minor, image)),
        Ok(Assembly::Fault(error)) => Ok(Reply::Fault(Output::Line(text_fault(error)))),
        Ok(Assembly::Told(lines)) => Ok(Reply::Fault(Output::Bytes(lines))),
        Err(trouble) => Err(trouble),
    }
}

/// What `rules` answers.
pub fn ruled(alloc: Global, code: Option<AnyCode>, json: bool) -> Result<Reply, Trouble>
    ensures gives { IfOk result (IsUnreadAnswer (WritesRules code json)) }
    ensures only { IfErr result (λ t. t ≡ Memory) }
{
    match rules_bytes(alloc, code, json) {
        Ok(text) => Ok(Reply::Done(Output::Bytes(text))),
        Err(_) => Err(Trouble::Memory),
    }
}

/// What `grammar` answers of a table.
fn written(alloc: Global, table: &Table) -> Result<Reply, Trouble>
    ensures gives { IfOk result (IsUnreadAnswer (WritesGrammar table.now)) }
    ensures only { IfErr result (λ t. t ≡ Memory) }
{
    match text_of_grammar(alloc, table) {
        Ok(text) => Ok(Reply::Done(Output::Bytes(text.into_bytes()))),
        Err(_) => Err(Trouble::Memory),
    }
}

/// What a command answers of a module that is too long: of any bytes that are more than a module has.
///
/// `Memory`: a growth of memory was refused. There is no other error.
pub fn too_long(alloc: Global, command: &Command) -> Result<Reply, Trouble>
    ensures gives { (G : Table) (bytes : List ℕ) → reads_of command.now ≡ Module → IsFirstBroken W8 bytes
        → IfOk result (IsAnswerBy command.now G bytes) }
    ensures told { IfOk result (λ a. made_of a ≡ []) }
    ensures only { IfErr result (λ t. t ≡ Memory) }
{
    spv_words::laws::one_refusal();
    if !is_explaining(command) {
        return Ok(fault(Judgment::Refused(WordError::W8)));
    }
    let explanation = too_long_explanation(alloc)?;
    explaining(alloc, &explanation)
}

/// Makes the bytes of a file those that are read.
pub fn take_as(scope: Scope, bytes: &mut Vec<u8>)
    ensures { bytes.new.items ≡ taken scope bytes.old.items }
{
    scope.take(bytes.as_mut_slice());
}

/// What a task answers of the bytes of a file.
fn judged_as(
    alloc: Global,
    task: Task,
    table: &Table,
    scope: Scope,
    bytes: Vec<u8>,
) -> Result<Reply, Trouble>
    ensures gives { IfOk result (Gives (DoesTask task table.now (reach_of scope bytes.items))
        (taken scope bytes.items)) }
    ensures only { IfErr result (λ t. t ≡ Memory) }
{
    let mut bytes = bytes;
    let reach = scope.reach(&bytes);
    take_as(scope, &mut bytes);
    judged(alloc, task, table, reach, bytes)
}

/// What `show` answers of the bytes of a file.
fn shown_as(alloc: Global, table: &Table, scope: Scope, bytes: Vec<u8>) -> Result<Reply, Trouble>
    ensures gives { IfOk result (Gives (Shows table.now (reach_of scope bytes.items)) (taken scope bytes.items)) }
    ensures only { IfErr result (λ t. t ≡ Memory) }
{
    let mut bytes = bytes;
    let reach = scope.reach(&bytes);
    take_as(scope, &mut bytes);
    shown(alloc, table, reach, bytes)
}

/// What `trace` answers of the bytes of a file.
fn traced_as(
    alloc: Global,
    table: &Table,
    scope: Scope,
    function: Chosen<'_>,
    choices: &[u32],
    limit: u32,
    bytes: Vec<u8>,
) -> Result<Reply, Trouble>
    ensures gives { IfOk result (Gives (Traces table.now (reach_of scope bytes.items) function.entry choices.now limit)
        (taken scope bytes.items)) }
    ensures only { IfErr result (λ t.
        ((t ≡ NoEntry) × HasNoEntry table.now (reach_of scope bytes.items) (taken scope bytes.items) function.entry)
        ⊎ ((t ≡ SeveralFunctions)
        × HasSeveral table.now (reach_of scope bytes.items) (taken scope bytes.items) function.entry)
        ⊎ (t ≡ Memory)) }
{
    let mut bytes = bytes;
    let reach = scope.reach(&bytes);
    take_as(scope, &mut bytes);
    traced(alloc, table, reach, function, choices, limit, bytes)
}

/// What `annotate` and `graph` answer of the bytes of a file.
fn viewed_as(
    alloc: Global,
    table: &Table,
    how: View<'_>,
    scope: Scope,
    function: Option<Chosen<'_>>,
    bytes: Vec<u8>,
) -> Result<Reply, Trouble>
    ensures gives { IfOk result (Gives (Views how.entry table.now (reach_of scope bytes.items) function.entry)
        (taken scope bytes.items)) }
    ensures only { IfErr result (λ t.
        ((t ≡ NoFunction)
        × LacksFunction table.now (reach_of scope bytes.items) (taken scope bytes.items) function.entry)
        ⊎ ((t ≡ SeveralFunctions)
        × NamesSeveral table.now (reach_of scope bytes.items) (taken scope bytes.items) function.entry)
        ⊎ (t ≡ Memory)) }
{
    let mut bytes = bytes;
    let reach = scope.reach(&bytes);
    take_as(scope, &mut bytes);
    viewed(alloc, table, how, reach, function, bytes)
}

/// What a command answers by a table of the bytes of its file. Of a command on several files it is that of this one.
pub fn reply_to(
    alloc: Global,
    command: &Command,
    table: &Table,
    bytes: Vec<u8>,
) -> Result<Reply, Trouble>
    requires reads { ReadsGrammar command.now }
    ensures does { IfOk result (IsAnswerBy command.now table.now bytes.items) }
    ensures why { IfErr result (WhyNot command.now table.now bytes.items) }
{
    match command {
        Command::Judge { task, scope, .. } => judged_as(alloc, *task, table, *scope, bytes),
        Command::Show { scope, .. } => shown_as(alloc, table, *scope, bytes),
        Command::Asm {
            big,
            explain,
            opencl,
            ..
        } => assembled(alloc, table, order_by(*big), *explain, *opencl, bytes),
        Command::Trace {
            function,
            choices,
            limit,
            scope,
            ..
        } => traced_as(alloc, table, *scope, *function, choices, *limit, bytes),
        Command::Annotate {
            function,
            scope,
            ..
        } => viewed_as(alloc, table, how_by(command), *scope, *function, bytes),
        Command::Graph {
            function,
            scope,
            ..
        } => viewed_as(alloc, table, View::Graph, *scope, *function, bytes),
        Command::Rules { .. } => unreachable!(),
        Command::Grammar { .. } => written(alloc, table),
    }
}
