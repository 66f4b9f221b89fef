//! What is written of one file.
ghost use Rattle.std.specs.Prelude.{◌≡◌, ◌⊎◌, ◌↔◌, ◌≤◌, ◌++◌, [], Some, None, IfErr, IfOk, IsTrue};
ghost use Rattle.spv_check.specs.declared.verdict_line.Judgment.TheVariants.{Valid};
ghost use Rattle.spv_commands.specs.Output.{is_done, out_of, output_of};
ghost use Rattle.spv_commands.specs.Task.{DoesTask};
ghost use Rattle.spv_commands.specs.Part.{IsAnswerOf, IsPart, IsUnread, Judges, heading, told_line, unread_text};
ghost use Rattle.spv_commands.specs.Name.{label};
ghost use Rattle.spv_commands.specs.inner.Progress.{Adds};
ghost use Rattle.spv_commands.specs.declared.trouble.Trouble.TheVariants.{Memory};

use crate::name::write_label;
use crate::outgoing::Output;
use crate::replying::{Reply, judged, take_as};
use crate::trouble::{Trouble, trouble_line, unread_of};
use crate::writing::write_on;
use spv_command_line::{Scope, Task};
use spv_explain::{Answer, check_json, error_json, explain_json};
use spv_extended::Reach;
use spv_table::Table;
use spv_verdict::Judgment;
use spv_words::{FromWrite, Sink};
use std::alloc::Global;

/// How a verdict is told.
#[derive(Clone, Copy)]
pub enum Telling {
    /// By its lines alone.
    Bare,
    /// By its lines, behind the name of the file.
    Named,
    /// By an object of JSON, a line, in which the name of the file stands.
    Json,
}

/// How each of several files is judged.
#[derive(Clone, Copy)]
pub struct Judging {
    /// What is done with each.
    pub task: Task,
    /// As which version its module is read, and how far it is looked at.
    pub scope: Scope,
    /// How its verdict is told.
    pub telling: Telling,
}

/// What is written of a file.
#[derive(Drop)]
pub struct Part {
    /// The text on the standard output.
    pub text: Vec<u8>,
    /// Why it was not judged, which is told on the standard error, if it was not.
    pub trouble: Option<Trouble>,
    /// 0 for a valid module, 1 for any other, and 2 where it was not judged.
    pub status: u8,
}

/// Adds an output to a text, and answers `valid`.
fn add_output(output: &Output, valid: bool, text: &mut FromWrite<Vec<u8>>) -> Result<bool, Trouble>
    ensures added { IfOk result (λ answer. (answer ≡ valid)
        × (text.new.inner.items ≡ text.old.inner.items ++ output_of output.now)) }
    ensures only { IfErr result (λ t. t ≡ Memory) }
{
    // The text stands in memory, so it can only be its growth that fails.
    match output.write(text) {
        Ok(()) => Ok(valid),
        Err(_) => Err(Trouble::Memory),
    }
}

/// Adds what a reply has for the standard output to a text: whether it is done, and no fault told.
fn add_reply(reply: &Reply, text: &mut FromWrite<Vec<u8>>) -> Result<bool, Trouble>
    ensures added { IfOk result (λ answer. (answer ≡ is_done reply.now)
        × (text.new.inner.items ≡ text.old.inner.items ++ out_of reply.now)) }
    ensures only { IfErr result (λ t. t ≡ Memory) }
{
    match reply {
        Reply::Done(output) => add_output(output, true, text),
        Reply::Fault(output) => add_output(output, false, text),
        Reply::Made(_) => Ok(true),
    }
}

/// A text that begins with the label of a name.
fn labelled(alloc: Global, name: &str) -> Result<FromWrite<Vec<u8>>, Trouble>
    ensures text { IfOk result (λ text. text.inner.items ≡ label name.now) }
    ensures only { IfErr result (λ t. t ≡ Memory) }
{
    let mut text = FromWrite::new(Vec::new(alloc));
    // The text stands in memory, so it can only be its growth that fails.
    if !write_label(name, true, &mut text) {
        return Err(Trouble::Memory);
    }
    Ok(text)
}

/// A text that begins with what stands before a verdict: the label of a name, or nothing.
fn headed(alloc: Global, telling: Telling, name: &str) -> Result<FromWrite<Vec<u8>>, Trouble>
    ensures text { IfOk result (λ text. text.inner.items ≡ heading telling name.now) }
    ensures only { IfErr result (λ t. t ≡ Memory) }
{
    match telling {
        Telling::Named => labelled(alloc, name),
        Telling::Bare | Telling::Json => Ok(FromWrite::new(Vec::new(alloc))),
    }
}

/// What is written of a module's bytes as lines, and whether it is valid.
fn lines_of(
    alloc: Global,
    how: Judging,
    table: &Table,
    reach: Reach,
    name: &str,
    bytes: Vec<u8>,
) -> Result<(Vec<u8>, bool), Trouble>
    ensures done { IfOk result (λ p.
        DoesTask how.task table.now reach bytes.items (heading how.telling name.now) (Some p.0.items)
        p.1) }
    ensures only { IfErr result (λ t. t ≡ Memory) }
{
    let reply = judged(alloc, how.task, table, reach, bytes)?;
    let mut text = headed(alloc, how.telling, name)?;
    let valid = add_reply(&reply, &mut text)?;
    Ok((text.inner, valid))
}

/// The object of JSON that a task tells of a module's bytes.
fn answer_of(
    alloc: Global,
    task: Task,
    table: &Table,
    reach: Reach,
    name: &str,
    bytes: &[u8],
) -> Result<Answer, Trouble>
    ensures told { IfOk result (λ a. IsAnswerOf task table.now reach name.now bytes.now a) }
    ensures only { IfErr result (λ t. t ≡ Memory) }
{
    let answer = match task {
        Task::Check => check_json(alloc, table, reach, Some(name), bytes),
        Task::Explain { .. } => explain_json(alloc, table, reach, Some(name), bytes),
    };
    match answer {
        Ok(answer) => Ok(answer),
        Err(_) => Err(Trouble::Memory),
    }
}

/// Whether a verdict is that no rule is broken.
fn is_valid(judgment: Judgment) -> bool
    ensures { IsTrue result ↔ (judgment ≡ Valid) }
{
    match judgment {
        Judgment::Valid => true,
        Judgment::Refused(_) => false,
        Judgment::Broken(_) => false,
    }
}

/// What is written of a module's bytes, and whether it is valid.
fn told_of(
    alloc: Global,
    how: Judging,
    table: &Table,
    reach: Reach,
    name: &str,
    bytes: Vec<u8>,
) -> Result<(Vec<u8>, bool), Trouble>
    ensures done { IfOk result (λ p.
        Judges how.telling how.task table.now reach name.now bytes.items p.0.items p.1) }
    ensures only { IfErr result (λ t. t ≡ Memory) }
{
    match how.telling {
        Telling::Json => {
            let answer = answer_of(alloc, how.task, table, reach, name, bytes.as_slice())?;
            let valid = is_valid(answer.judgment);
            Ok((answer.text, valid))
        }
        Telling::Bare | Telling::Named => lines_of(alloc, how, table, reach, name, bytes),
    }
}

/// What is written of a file that has these bytes, where its module is judged.
fn judged_part(
    alloc: Global,
    how: Judging,
    table: &Table,
    name: &str,
    bytes: Vec<u8>,
) -> Result<Part, Trouble>
    ensures judged { IfOk result (λ part. (part.trouble ≡ None)
        × IsPart table.now how name.now (Some (Some bytes.items)) part.text.items [] part.status) }
    ensures only { IfErr result (λ t. t ≡ Memory) }
    ensures small { IfOk result (λ part. part.status ≤ 1) }
{
    let mut bytes = bytes;
    let reach = how.scope.reach(&bytes);
    take_as(how.scope, &mut bytes);
    let (text, valid) = told_of(alloc, how, table, reach, name, bytes)?;
    Ok(Part {
        text,
        trouble: None,
        status: if valid { 0 } else { 1 },
    })
}

/// What is written of a file that was not judged: where objects are written one that tells why, if there is memory for
/// it.
fn unread_part(alloc: Global, telling: Telling, name: &str, trouble: Trouble) -> Part
    ensures status { result.status ≡ 2 }
    ensures told { ((result.trouble ≡ Some trouble) × (result.text.items ≡ unread_text telling name.now trouble))
        ⊎ ((result.trouble ≡ Some Memory) × (result.text.items ≡ [])) }
{
    let mut part = Part {
        text: Vec::new(alloc),
        trouble: Some(trouble),
        status: 2,
    };
    if telling == Telling::Json {
        match error_json(alloc, Some(name), unread_of(trouble)) {
            Ok(text) => part.text = text,
            Err(_) => part.trouble = Some(Trouble::Memory),
        }
    }
    part
}

/// What is written of a file of this name that has these bytes, or was not read: the text on the standard output, why
/// it was not judged, and the exit status for it alone. Of a module that is too long 16,777,217 of its bytes are
/// enough.
pub fn judge_file(
    alloc: Global,
    how: Judging,
    table: &Table,
    name: &str,
    file: Result<Vec<u8>, Trouble>,
) -> Part
    ensures judged { IfOk file (λ bytes. IsPart table.now how name.now (Some (Some bytes.items)) result.text.items
        (told_line name.now result.trouble) result.status) }
    ensures unread { IfErr file (λ trouble. IsUnread how name.now trouble result) }
    ensures small { result.status ≤ 2 }
{
    let bytes = match file {
        Ok(bytes) => bytes,
        Err(trouble) => return unread_part(alloc, how.telling, name, trouble),
    };
    match judged_part(alloc, how, table, name, bytes) {
        Ok(part) => part,
        Err(trouble) => unread_part(alloc, how.telling, name, trouble),
    }
}

/// Tells why a file was not judged, if it was not, where no write failed before: whether none has. It takes no memory.
pub fn tell<E: Sink>(name: &str, trouble: Option<Trouble>, sound: bool, err: &mut E) -> bool
    ensures { Adds E.contents E.failures err.old err.new sound (told_line name.now trouble) result }
{
    match trouble {
        Some(trouble) => {
            let heard = write_label(name, sound, err);
            write_on(trouble_line(trouble), heard, err)
        }
        None => sound,
    }
}
