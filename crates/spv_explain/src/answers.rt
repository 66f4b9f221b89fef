//! What bytes come to as one JSON object on a line.
ghost use Rattle.std.specs.Prelude.{◌≡◌, ◌++◌, ◌∷◌, ◌-◌, ℕ, List, [], IfOk, Ok, OnOk, drop, option_map};
ghost use Rattle.json.specs.Token.{begin_object, end_object};
ghost use Rattle.spv_words.specs.Header.{IsModule};
ghost use Rattle.spv_words.specs.declared.words.Order.{Order};
ghost use Rattle.spv_module.specs.Module.{plain_insts};
ghost use Rattle.spv_layout.specs.Place.{AreFew};
ghost use Rattle.spv_lines.specs.Text.{ShownLines};
ghost use Rattle.spv_facts.specs.Facts.{facts_of};
ghost use Rattle.spv_facts.specs.Words.{malformed_facts};
ghost use Rattle.spv_fault_json.specs.Members.{members_of, refused_members};
ghost use Rattle.spv_check.specs.Text.{refusal_of};
ghost use Rattle.spv_check.specs.declared.verdict_line.Judgment.TheVariants as judgments;
ghost use Rattle.spv_explain.specs.Json as objects;
ghost use Rattle.spv_explain.specs.Json.{IsCheckAnswer, IsExplainAnswer, file_members, json_line, object_of};
ghost use Rattle.spv_explain.specs.Json.{verdict_members};

use crate::reading::{Explained, explained_of};
use spv_check::{Judgment, Verdict, check};
use spv_evidence::Evidence;
use spv_extended::Reach;
use spv_facts::{About, Detail, Fact, Front, facts_of_words, front_of};
use spv_fault_json::{Output, push_members, push_refused_members};
use spv_inst::{listed_or_dead, one_death, one_listing};
use spv_layout::laws::word_counts;
use spv_lines::shown_reads_back;
use spv_module::{Fault, Module};
use spv_rules::Code;
use spv_table::{Memory, Table};
use spv_words::{Image, WordError, image_of};
use std::alloc::{AllocError, Global};
use thiserror::Error;

/// What bytes come to, as JSON.
#[derive(Drop)]
pub struct Answer {
    /// The verdict.
    pub judgment: Judgment,
    /// Its object, on one line that is ended by a line feed.
    pub text: Vec<u8>,
}

/// Why there is no verdict on a file.
#[derive(Clone, Copy, Debug, PartialEq, Eq, Error)]
pub enum Unread {
    /// It does not open, or a read of it failed.
    #[error("the file could not be read")]
    File,
    /// A growth of memory was refused.
    #[error("out of memory")]
    Memory,
}

impl From<AllocError> for Unread {
    ghost use Rattle.std.specs.Prelude.{◌≡◌};
    ghost use Rattle.spv_explain.specs.declared.answers.Unread.TheVariants as unread;

    ghost from_gives = { λ _ e. e ≡ unread.Memory };

    fn from(_error: AllocError) -> Unread {
        Unread::Memory
    }
}

/// Adds what a code says, and its sources.
pub fn push_rule(out: &mut Output, sentence: &str, section: &str) -> Result<(), AllocError>
    ensures { OnOk result (out.new ≡ out.old ++ objects.rule_members sentence.now section.now) }
{
    out.text_member("rule", sentence)?;
    out.text_member("section", section)
}

/// Adds what a code of a verdict says.
fn push_said(out: &mut Output, code: Code) -> Result<(), AllocError>
    ensures { OnOk result (out.new ≡ out.old ++ objects.said_members code) }
{
    push_rule(out, code.sentence(), code.section())
}

/// Adds that there is a fault, and its code.
fn push_fault(out: &mut Output, code: Code) -> Result<(), AllocError>
    ensures { OnOk result (out.new ≡ out.old ++ objects.fault_members code) }
{
    out.text_member("verdict", "fault")?;
    out.text_member("code", code.name())
}

/// Adds the instruction and the word by which a fault is told.
fn push_place(out: &mut Output, fault: Fault) -> Result<(), AllocError>
    ensures { OnOk result (out.new ≡ out.old ++ objects.place_members fault) }
{
    out.number_member("inst", fault.inst)?;
    out.number_member("word", fault.word)
}

/// Adds that bytes are no words of a module.
fn push_refusal(out: &mut Output, code: WordError) -> Result<(), AllocError>
    ensures { OnOk result (out.new ≡ out.old ++ verdict_members (judgments.Refused code)) }
{
    push_fault(out, Code::Word(code))?;
    push_said(out, Code::Word(code))
}

/// Adds a fault of instructions.
fn push_broken(out: &mut Output, fault: Fault) -> Result<(), AllocError>
    ensures { OnOk result (out.new ≡ out.old ++ verdict_members (judgments.Broken fault)) }
{
    push_fault(out, Code::Rule(fault.rule))?;
    push_place(out, fault)?;
    push_said(out, Code::Rule(fault.rule))
}

/// Adds a verdict.
fn push_verdict(out: &mut Output, judgment: Judgment) -> Result<(), AllocError>
    ensures { OnOk result (out.new ≡ out.old ++ verdict_members judgment) }
{
    match judgment {
        Judgment::Valid => out.text_member("verdict", "valid"),
        Judgment::Refused(code) => push_refusal(out, code),
        Judgment::Broken(fault) => push_broken(out, fault),
    }
}

/// Adds the name of a file, if one is given.
fn push_file(out: &mut Output, name: Option<&str>) -> Result<(), AllocError>
    ensures { OnOk result (out.new ≡ out.old ++ file_members (option_map (λ n. n.now) name.entry)) }
{
    match name {
        Some(name) => out.text_member("file", name),
        None => Ok(()),
    }
}

/// How far a module is looked at, in a word.
fn profile_name(reach: Reach) -> &'static str
    ensures { result.now ≡ objects.profile_text reach }
{
    match reach {
        Reach::Profile => "own",
        Reach::Extended => "extended",
        Reach::OpenCl { .. } => "opencl",
    }
}

/// Adds how far a module is looked at.
fn push_profile(out: &mut Output, reach: Reach) -> Result<(), AllocError>
    ensures { OnOk result (out.new ≡ out.old ++ objects.profile_members reach) }
{
    out.text_member("profile", profile_name(reach))
}

/// The beginning of an object: the file, if its name is given, the verdict, and how far the module is looked at.
fn begun(
    alloc: Global,
    reach: Reach,
    name: Option<&str>,
    judgment: Judgment,
) -> Result<Output, AllocError>
    ensures { IfOk result (λ o. o ≡ begin_object ∷ file_members (option_map (λ n. n.now) name.entry)
        ++ verdict_members judgment ++ objects.profile_members reach) }
{
    let mut out = Output::new(alloc);
    out.begin_object()?;
    push_file(&mut out, name)?;
    push_verdict(&mut out, judgment)?;
    push_profile(&mut out, reach)?;
    Ok(out)
}

/// The answer of an object that has all its members.
fn ended(out: Output, judgment: Judgment) -> Result<Answer, AllocError>
    ensures judgment { IfOk result (λ a. a.judgment ≡ judgment) }
    ensures text { IfOk result (λ a. a.text.items ≡ json_line (out ++ end_object ∷ [])) }
{
    let mut out = out;
    out.end_object()?;
    Ok(Answer {
        judgment,
        text: out.into_line()?,
    })
}

/// The answer of a verdict alone.
fn verdict_answer(
    alloc: Global,
    reach: Reach,
    name: Option<&str>,
    judgment: Judgment,
) -> Result<Answer, AllocError>
    ensures judgment { IfOk result (λ a. a.judgment ≡ judgment) }
    ensures text { IfOk result (λ a. a.text.items
        ≡ json_line (object_of reach (option_map (λ n. n.now) name.entry) judgment [])) }
{
    let out = begun(alloc, reach, name, judgment)?;
    ended(out, judgment)
}

/// The answer of bytes that are no words of a module, by what stands in front of them.
fn refused_answer(
    alloc: Global,
    reach: Reach,
    name: Option<&str>,
    code: WordError,
    front: Front,
) -> Result<Answer, AllocError>
    ensures judgment { IfOk result (λ a. a.judgment ≡ judgments.Refused code) }
    ensures text { IfOk result (λ a. a.text.items ≡ json_line (object_of reach (option_map (λ n. n.now) name.entry)
        (judgments.Refused code) (refused_members code front))) }
{
    let mut out = begun(alloc, reach, name, Judgment::Refused(code))?;
    push_refused_members(&mut out, alloc, code, front)?;
    ended(out, Judgment::Refused(code))
}

/// The answer of a fault, with the members of its evidence.
fn broken_answer(
    alloc: Global,
    table: &Table,
    reach: Reach,
    name: Option<&str>,
    module: &Module<'_>,
    fault: Fault,
    evidence: Evidence,
) -> Result<Answer, AllocError>
    requires few { AreFew (plain_insts «module».now) }
    ensures judgment { IfOk result (λ a. a.judgment ≡ judgments.Broken fault) }
    ensures text { (shown : List (List ℕ)) → ShownLines table.now [] (plain_insts «module».now) shown
        → IfOk result (λ a. a.text.items ≡ json_line (object_of reach (option_map (λ n. n.now) name.entry)
        (judgments.Broken fault) (members_of table.now (plain_insts «module».now) shown (facts_of
        «module».now.header.bound (plain_insts «module».now) fault.rule fault.inst evidence)))) }
{
    let about = About {
        alloc,
        table,
        detail: Detail::Full,
        module,
    };
    let facts = about.facts_of(fault.rule, fault.inst, evidence)?;
    let mut out = begun(alloc, reach, name, Judgment::Broken(fault))?;
    push_members(&mut out, &about, &facts)?;
    ended(out, Judgment::Broken(fault))
}

/// Adds the members of facts about a module that has no instructions.
fn push_lone_members(
    out: &mut Output,
    about: &About<'_, '_>,
    facts: &[Fact],
) -> Result<(), AllocError>
    requires none { plain_insts about.now.«module».now ≡ [] }
    ensures { OnOk result (out.new ≡ out.old ++ members_of about.now.table.now [] [] facts.now) }
{
    push_members(out, about, facts)
}

/// The answer of words that are no list of instructions, with the members of the evidence.
fn malformed_answer(
    alloc: Global,
    table: &Table,
    reach: Reach,
    name: Option<&str>,
    image: &Image,
    fault: Fault,
    evidence: Evidence,
) -> Result<Answer, AllocError>
    ensures judgment { IfOk result (λ a. a.judgment ≡ judgments.Broken fault) }
    ensures text { IfOk result (λ a. a.text.items ≡ json_line (object_of reach (option_map (λ n. n.now) name.entry)
        (judgments.Broken fault) (members_of table.now [] [] (malformed_facts (drop 5 image.now) fault.inst
        (fault.word - 5) evidence)))) }
{
    let module = Module::new(alloc, image.header());
    let about = About {
        alloc,
        table,
        detail: Detail::Full,
        module: &module,
    };
    let facts = facts_of_words(about, image, fault.inst, fault.word, evidence)?;
    let mut out = begun(alloc, reach, name, Judgment::Broken(fault))?;
    push_lone_members(&mut out, &about, &facts)?;
    ended(out, Judgment::Broken(fault))
}

/// The answer of the words of an image, with what shows a fault.
fn explained_answer(
    alloc: Global,
    table: &Table,
    reach: Reach,
    name: Option<&str>,
    image: &Image,
) -> Result<Answer, AllocError>
    ensures { (bytes : List ℕ) (order : Order) → IsModule order bytes image.now
        → IfOk result (λ a. IsExplainAnswer table.now reach (option_map (λ n. n.now) name.entry) bytes a) }
{
    shown_reads_back();
    word_counts();
    let _words = image.len();
    match explained_of(alloc, table, reach, image) {
        Ok(Explained::Valid(_)) => verdict_answer(alloc, reach, name, Judgment::Valid),
        Ok(
            Explained::Malformed {
                fault,
                evidence,
                ..
            },
        ) => malformed_answer(alloc, table, reach, name, image, fault, evidence),
        Ok(
            Explained::Broken {
                fault,
                evidence,
                module,
            },
        ) => broken_answer(alloc, table, reach, name, &module, fault, evidence),
        Err(_) => Err(AllocError),
    }
}

/// The answer of the words of an image, without what shows a fault.
fn checked_answer(
    alloc: Global,
    table: &Table,
    reach: Reach,
    name: Option<&str>,
    image: &Image,
) -> Result<Answer, AllocError>
    ensures { (bytes : List ℕ) (order : Order) → IsModule order bytes image.now
        → IfOk result (λ a. IsCheckAnswer table.now reach (option_map (λ n. n.now) name.entry) bytes a) }
{
    match check(alloc, table, reach, image) {
        Ok(Verdict::Valid(_)) => verdict_answer(alloc, reach, name, Judgment::Valid),
        Ok(Verdict::Fault(fault)) => verdict_answer(alloc, reach, name, Judgment::Broken(fault)),
        Err(_) => Err(AllocError),
    }
}

/// The answer of bytes that gave no image, without what is found. W1 and W9 are errors.
fn check_refused(
    alloc: Global,
    reach: Reach,
    name: Option<&str>,
    code: WordError,
) -> Result<Answer, AllocError>
    ensures judgment { IfOk result (λ a. refusal_of code ≡ Ok a.judgment) }
    ensures text { IfOk result (λ a. a.text.items ≡ json_line (object_of reach (option_map (λ n. n.now) name.entry)
        (judgments.Refused code) [])) }
{
    match code {
        WordError::W1 => Err(AllocError),
        WordError::W9 => Err(AllocError),
        _ => verdict_answer(alloc, reach, name, Judgment::Refused(code)),
    }
}

/// The same, with what is found.
fn explain_refused(
    alloc: Global,
    reach: Reach,
    name: Option<&str>,
    code: WordError,
    front: Front,
) -> Result<Answer, AllocError>
    ensures judgment { IfOk result (λ a. refusal_of code ≡ Ok a.judgment) }
    ensures text { IfOk result (λ a. a.text.items ≡ json_line (object_of reach (option_map (λ n. n.now) name.entry)
        (judgments.Refused code) (refused_members code front))) }
{
    match code {
        WordError::W1 => Err(AllocError),
        WordError::W9 => Err(AllocError),
        _ => refused_answer(alloc, reach, name, code, front),
    }
}

/// The verdict on a module's bytes in memory as one JSON object: `file`, if a name is given, `verdict`, and of a fault
/// `code`, `inst` and `word` (from 0; not of a code on words), `rule` and `section`; and `profile`.
///
/// `Memory` comes only where a growth of memory was refused.
pub fn check_json(
    alloc: Global,
    table: &Table,
    reach: Reach,
    name: Option<&str>,
    bytes: &[u8],
) -> Result<Answer, Memory>
    // The verdict is that of the bytes, and the text is its object.
    ensures { IfOk result (λ a. IsCheckAnswer table.now reach (option_map (λ n. n.now) name.entry) bytes.now a) }
{
    let image = match image_of(alloc, bytes) {
        Ok((image, _)) => image,
        Err(code) => match check_refused(alloc, reach, name, code) {
            Ok(answer) => return Ok(answer),
            Err(_) => return Err(Memory),
        },
    };
    match checked_answer(alloc, table, reach, name, &image) {
        Ok(answer) => Ok(answer),
        Err(_) => Err(Memory),
    }
}

/// The verdict on a module's bytes in memory as one JSON object, with members that tell what shows a fault: what the
/// lines of `explain_bytes` tell, typed, and with the names of all opcodes that may come.
///
/// The bytes are copied once. `Memory` comes only where a growth of memory was refused.
pub fn explain_json(
    alloc: Global,
    table: &Table,
    reach: Reach,
    name: Option<&str>,
    bytes: &[u8],
) -> Result<Answer, Memory>
    // The verdict is that of the bytes, and the members of its object are those of evidence that shows the fault.
    ensures { IfOk result (λ a. IsExplainAnswer table.now reach (option_map (λ n. n.now) name.entry) bytes.now a) }
{
    let image = match image_of(alloc, bytes) {
        Ok((image, _)) => image,
        Err(code) => match explain_refused(alloc, reach, name, code, front_of(bytes)) {
            Ok(answer) => return Ok(answer),
            Err(_) => return Err(Memory),
        },
    };
    match explained_answer(alloc, table, reach, name, &image) {
        Ok(answer) => Ok(answer),
        Err(_) => Err(Memory),
    }
}

/// Why there is no verdict, as a text.
fn unread_name(error: Unread) -> &'static str
    ensures { result.now ≡ objects.unread_text error }
{
    match error {
        Unread::File => "file",
        Unread::Memory => "memory",
    }
}

/// The object of a file that was not read, on one line: `file`, if a name is given, `verdict` and `error`.
///
/// An `AllocError` comes only where a growth of memory was refused.
pub fn error_json(alloc: Global, name: Option<&str>, error: Unread) -> Result<Vec<u8>, AllocError>
    ensures { IfOk result (λ v. v.items ≡ json_line (objects.error_object (option_map (λ n. n.now) name.entry) error)) }
{
    let mut out = Output::new(alloc);
    out.begin_object()?;
    push_file(&mut out, name)?;
    out.text_member("verdict", "error")?;
    out.text_member("error", unread_name(error))?;
    out.end_object()?;
    out.into_line()
}
