//! What is written of the bytes of a stream.
ghost use Rattle.std.specs.Prelude.{◌≡◌, ◌⊎◌, ◌↔◌, ◌++◌, ◌-◌, ◌≤◌, ℕ, List, [], Ok, drop, vec_len};
ghost use Rattle.std.specs.Prelude.{IfOk, IfErr, IfSome, IsErrOf, IsSomeAnd, IsTrue, OnOk, string_bytes};
ghost use Rattle.std.specs.List.{flat_map};
ghost use Rattle.std.specs.Option.{option_to_list};
ghost use Rattle.spv_words.specs.Header.{IsFirstBroken, IsModule, greatest_size};
ghost use Rattle.spv_words.specs.declared.words.Order.{Order};
ghost use Rattle.spv_words.specs.declared.words.WordError.TheVariants.{W1, W8, W9};
ghost use Rattle.spv_module.specs.Module.{plain_insts};
ghost use Rattle.spv_table.specs.Table.{Table};
ghost use Rattle.spv_extended.specs.declared.reach.Reach.{Reach};
ghost use Rattle.spv_extended.specs.declared.reach.Reach.TheVariants.{Profile};
ghost use Rattle.spv_facts.specs.Texts.{result_of};
ghost use Rattle.spv_facts.specs.declared.fact.Detail.{Detail};
ghost use Rattle.spv_check.specs.Outcome.{HasFailed, OfKnown};
ghost use Rattle.spv_check.specs.Verdict.{valid_line};
ghost use Rattle.spv_check.specs.Text.{line_of, refusal_of};
ghost use Rattle.spv_lines.specs.Text.{ShownLines};
ghost use Rattle.spv_layout.specs.Place.{AreFew};
ghost use Rattle.spv_explain.specs.Lines as lines;
ghost use Rattle.spv_explain.specs.Lines.{fault_text, malformed_text, refused_by};
ghost use Rattle.spv_explain.specs.Stream.{BeginsExplaining, Explains, IsExplanation, IsModuleIn, IsWalk, walk_in};
ghost use Rattle.spv_inst.specs.Outcome.{IsHeaderOf};
ghost use Rattle.spv_check.specs.declared.verdict_line.Judgment.TheVariants as judgments;

use crate::reading::{Explained, explained_of, headed};
use spv_check::{Checked, Judgment, line_for};
use spv_evidence::Evidence;
use spv_extended::Reach;
use spv_facts::{About, Detail, Front, front_of};
use spv_fault_lines::{push_lines, push_malformed, push_refused};
use spv_inst::{decode, listed_or_dead, one_death, one_listing};
use spv_layout::laws::word_counts;
use spv_lines::shown_reads_back;
use spv_module::{Fault, Module, Stop};
use spv_rules::Code;
use spv_table::{Memory, Table};
use spv_words::{Image, Sink, Source, WordError, image_from, image_of, read_octets, write_all};
use std::alloc::{AllocError, Global};

/// The verdict on the bytes of a module, and the lines that explain it.
#[derive(Drop)]
pub struct Explanation {
    /// The verdict.
    pub judgment: Judgment,
    /// The lines after its own, each ended by a line feed: none where no rule is broken.
    pub lines: String,
}

/// The line of what a code says.
fn rule_line(alloc: Global, code: Code) -> Result<String, AllocError>
    ensures { IfOk result (λ t. string_bytes t ≡ lines.rule_line code) }
{
    let mut text = String::new(alloc);
    text.push_str("rule: ")?;
    text.push_str(code.sentence())?;
    text.push_str("\n")?;
    Ok(text)
}

/// The verdict on a module, with the lines that explain it, and the module.
#[derive(Drop)]
pub struct Told<'a> {
    /// The verdict, and the lines that explain it.
    pub explanation: Explanation,
    /// The ids of the blocks of the walk that shows the fault, in order; none where no walk does.
    pub walk: Vec<u32>,
    /// The module, with texts lent by its image; None where the words spell no list of instructions.
    pub module: Option<Module<'a>>,
}

/// Adds the result of an instruction, if it has one.
fn push_result(walk: &mut Vec<u32>, module: &Module<'_>, inst: u32) -> Result<(), AllocError>
    ensures { OnOk result (walk.new.items
        ≡ walk.old.items ++ option_to_list (result_of (plain_insts «module».now) inst)) }
{
    let Some(inst) = module.insts.get(inst as usize) else {
        return Ok(());
    };
    match inst.result_id() {
        Some(id) => Ok(walk.push(id)?),
        None => Ok(()),
    }
}

/// The results of instructions.
fn results_of(alloc: Global, module: &Module<'_>, insts: &[u32]) -> Result<Vec<u32>, AllocError>
    ensures { IfOk result (λ w. w.items
        ≡ flat_map (λ n. option_to_list (result_of (plain_insts «module».now) n)) insts.now) }
{
    let mut walk = Vec::new(alloc);
    for inst in insts {
        push_result(&mut walk, module, *inst)?;
    }
    Ok(walk)
}

/// The ids of the blocks of the walk that evidence has, if it has one.
fn walk_of(alloc: Global, module: &Module<'_>, evidence: &Evidence) -> Result<Vec<u32>, AllocError>
    ensures { IfOk result (λ w. w.items ≡ walk_in (plain_insts «module».now) evidence.now) }
{
    match evidence {
        Evidence::Walk { walk, .. } => results_of(alloc, module, walk.as_slice()),
        _ => Ok(Vec::new(alloc)),
    }
}

/// The verdict of a valid module, which has no lines, and the module.
fn valid_told<'a>(alloc: Global, image: &Image, checked: Checked<'a>) -> Told<'a>
    ensures verdict { result.explanation.judgment ≡ judgments.Valid }
    ensures lines { string_bytes result.explanation.lines ≡ [] }
    ensures walk { result.walk.items ≡ [] }
    ensures decoded { IsSomeAnd result.«module»
        (λ m. (plain_insts m ≡ checked.entry.insts) × IsHeaderOf image.now m.header) }
{
    Told {
        explanation: Explanation {
            judgment: Judgment::Valid,
            lines: String::new(alloc),
        },
        walk: Vec::new(alloc),
        module: Some(headed(image, checked.into_module())),
    }
}

/// The verdict of a fault, and its lines in short or in full.
fn broken_told(
    alloc: Global,
    table: &Table,
    detail: Detail,
    module: &Module<'_>,
    fault: Fault,
    evidence: Evidence,
) -> Result<Explanation, AllocError>
    requires few { AreFew (plain_insts «module».now) }
    ensures verdict { IfOk result (λ t. t.judgment ≡ judgments.Broken fault) }
    ensures lines { (shown : List (List ℕ)) → ShownLines table.now [] (plain_insts «module».now) shown
        → IfOk result (λ t. string_bytes t.lines ≡ fault_text detail table.now «module».now.header.bound
        (plain_insts «module».now) shown fault.rule fault.inst evidence) }
{
    let about = About {
        alloc,
        table,
        detail,
        module,
    };
    let facts = about.facts_of(fault.rule, fault.inst, evidence)?;
    let mut lines = rule_line(alloc, Code::Rule(fault.rule))?;
    push_lines(&mut lines, &about, &facts)?;
    Ok(Explanation {
        judgment: Judgment::Broken(fault),
        lines,
    })
}

/// The verdict of words that are no list of instructions, and its lines.
fn malformed_told(
    alloc: Global,
    table: &Table,
    detail: Detail,
    image: &Image,
    fault: Fault,
    evidence: Evidence,
) -> Result<Explanation, AllocError>
    ensures verdict { IfOk result (λ t. t.judgment ≡ judgments.Broken fault) }
    ensures lines { IfOk result (λ t. string_bytes t.lines ≡ malformed_text detail table.now (drop 5 image.now)
        fault.rule fault.inst (fault.word - 5) evidence) }
{
    let mut lines = rule_line(alloc, Code::Rule(fault.rule))?;
    push_malformed(
        &mut lines, alloc, table, detail, image, fault.inst, fault.word, evidence,
    )?;
    Ok(Explanation {
        judgment: Judgment::Broken(fault),
        lines,
    })
}

/// What the words of an image come to, told in lines.
fn told_of<'a>(
    alloc: Global,
    table: &Table,
    reach: Reach,
    detail: Detail,
    image: &'a Image,
) -> Result<Told<'a>, AllocError>
    ensures explanation { (bytes : List ℕ) (order : Order) → IsModule order bytes image.now
        → IfOk result (λ t. IsExplanation detail table.now reach bytes t.explanation) }
    ensures walk { (bytes : List ℕ) (order : Order) → IsModule order bytes image.now
        → IfOk result (λ t. IsWalk detail table.now reach bytes t.explanation t.walk.items) }
    ensures decoded { reach ≡ Profile → IfOk result (λ t. IsModuleIn table.now image.now t.«module») }
{
    spv_words::laws::one_word_list();
    spv_words::laws::one_refusal();
    one_death();
    one_listing();
    listed_or_dead();
    shown_reads_back();
    word_counts();
    let _words = image.len();
    match explained_of(alloc, table, reach, image) {
        Ok(Explained::Valid(checked)) => Ok(valid_told(alloc, image, checked)),
        Ok(
            Explained::Malformed {
                fault,
                evidence,
                ..
            },
        ) => {
            let explanation = malformed_told(alloc, table, detail, image, fault, evidence)?;
            Ok(Told {
                explanation,
                walk: Vec::new(alloc),
                module: None,
            })
        }
        Ok(
            Explained::Broken {
                fault,
                evidence,
                module,
            },
        ) => {
            let walk = walk_of(alloc, &module, &evidence)?;
            let explanation = broken_told(alloc, table, detail, &module, fault, evidence)?;
            Ok(Told {
                explanation,
                walk,
                module: Some(module),
            })
        }
        Err(_) => Err(AllocError),
    }
}

/// The lines that tell what the words of an image come to.
fn told_by(
    alloc: Global,
    table: &Table,
    reach: Reach,
    detail: Detail,
    image: &Image,
) -> Result<Explanation, AllocError>
    ensures { (bytes : List ℕ) (order : Order) → IsModule order bytes image.now
        → IfOk result (λ t. IsExplanation detail table.now reach bytes t) }
{
    let told = told_of(alloc, table, reach, detail, image)?;
    let Told { explanation, .. } = told;
    Ok(explanation)
}

/// The module that the words of an image spell, with their header, if they spell one.
fn module_of<'a>(
    alloc: Global,
    table: &Table,
    image: &'a Image,
) -> Result<Option<Module<'a>>, AllocError>
    ensures { IfOk result (λ m. IsModuleIn table.now image.now m) }
{
    listed_or_dead();
    match decode(alloc, table, image) {
        Ok(module) => Ok(Some(module)),
        Err(Stop::Fault(_)) => Ok(None),
        Err(Stop::Memory) => Err(AllocError),
    }
}

/// What the words of an image come to, told in lines, with the module that they spell: one that was opened is decoded
/// again.
fn told_whole<'a>(
    alloc: Global,
    table: &Table,
    reach: Reach,
    detail: Detail,
    image: &'a Image,
) -> Result<Told<'a>, AllocError>
    ensures explanation { (bytes : List ℕ) (order : Order) → IsModule order bytes image.now
        → IfOk result (λ t. IsExplanation detail table.now reach bytes t.explanation) }
    ensures walk { (bytes : List ℕ) (order : Order) → IsModule order bytes image.now
        → IfOk result (λ t. IsWalk detail table.now reach bytes t.explanation t.walk.items) }
    ensures decoded { IfOk result (λ t. IsModuleIn table.now image.now t.«module») }
{
    let told = told_of(alloc, table, reach, detail, image)?;
    let Told {
        explanation,
        walk,
        ..
    } = told;
    let module = module_of(alloc, table, image)?;
    Ok(Told {
        explanation,
        walk,
        module,
    })
}

/// The verdict on the words of a module and the lines that explain it, as `explain_bytes` answers them; and the module,
/// which need not be decoded again.
///
/// `Memory` comes only where a growth of memory was refused.
pub fn explained<'a>(
    alloc: Global,
    table: &Table,
    reach: Reach,
    detail: Detail,
    image: &'a Image,
) -> Result<Told<'a>, Memory>
    // The verdict is that of the bytes that have the words, and the lines explain it.
    ensures explanation { (bytes : List ℕ) (order : Order) → IsModule order bytes image.now
        → IfOk result (λ t. IsExplanation detail table.now reach bytes t.explanation) }
    // The walk is that of the evidence whose lines these are.
    ensures walk { (bytes : List ℕ) (order : Order) → IsModule order bytes image.now
        → IfOk result (λ t. IsWalk detail table.now reach bytes t.explanation t.walk.items) }
    // The module is the one that the words spell, with their header; there is none where they spell none.
    ensures decoded { IfOk result (λ t. IsModuleIn table.now image.now t.«module») }
{
    let told = match reach {
        Reach::Profile => told_of(alloc, table, Reach::Profile, detail, image),
        Reach::Extended | Reach::OpenCl { .. } => told_whole(alloc, table, reach, detail, image),
    };
    match told {
        Ok(told) => Ok(told),
        Err(_) => Err(Memory),
    }
}

/// The verdict of bytes that are no words of a module, and its lines, by what stands in front of them.
fn refused_told(alloc: Global, code: WordError, front: Front) -> Result<Explanation, AllocError>
    ensures verdict { IfOk result (λ t. t.judgment ≡ judgments.Refused code) }
    ensures lines { IfOk result (λ t. string_bytes t.lines ≡ refused_by code front) }
{
    let mut lines = rule_line(alloc, Code::Word(code))?;
    push_refused(&mut lines, alloc, code, front)?;
    Ok(Explanation {
        judgment: Judgment::Refused(code),
        lines,
    })
}

/// The lines that tell bytes which gave no image. W1 and W9 are errors.
fn refusal(alloc: Global, code: WordError, front: Front) -> Result<Explanation, WordError>
    ensures refused { IfOk result (λ t. refusal_of code ≡ Ok t.judgment) }
    ensures lines { IfOk result (λ t. string_bytes t.lines ≡ refused_by code front) }
    ensures count { code ≡ W1 ↔ IsErrOf result W1 }
    ensures only { IfErr result (λ e. (e ≡ W1) ⊎ (e ≡ W9)) }
{
    match code {
        WordError::W1 => Err(WordError::W1),
        WordError::W9 => Err(WordError::W9),
        _ => match refused_told(alloc, code, front) {
            Ok(told) => Ok(told),
            Err(_) => Err(WordError::W9),
        },
    }
}

/// The same as `explain_bytes` of bytes that become the module's image, so that they are not copied: 16,777,216 of them
/// at most.
///
/// # Errors
///
/// `W9` comes only where a growth of memory was refused.
pub fn octets_told(
    alloc: Global,
    table: &Table,
    reach: Reach,
    detail: Detail,
    octets: Vec<u8>,
) -> Result<Explanation, WordError>
    requires { vec_len octets ≤ greatest_size }
    ensures told { IfOk result (λ t. IsExplanation detail table.now reach octets.items t) }
    ensures only { IfErr result (λ e. e ≡ W9) }
{
    spv_words::laws::one_refusal();
    let front = front_of(&octets);
    let image = match image_from(octets) {
        Ok((image, _)) => image,
        Err(code) => return refusal(alloc, code, front),
    };
    match told_by(alloc, table, reach, detail, &image) {
        Ok(told) => Ok(told),
        Err(_) => Err(WordError::W9),
    }
}

/// The lines that tell all the bytes of a reader.
fn told_on<R: Source>(
    alloc: Global,
    table: &Table,
    reach: Reach,
    detail: Detail,
    r: &mut R,
) -> Result<Explanation, WordError>
    ensures known { IfSome (R.remaining r.old)
        (λ bytes. IfOk result (λ t. IsExplanation detail table.now reach bytes t)) }
    ensures count { HasFailed R.failures r.old r.new ↔ IsErrOf result W1 }
    ensures only { IfErr result (λ e. (e ≡ W1) ⊎ (e ≡ W9)) }
{
    spv_words::laws::one_refusal();
    match read_octets(alloc, r) {
        Ok(octets) => octets_told(alloc, table, reach, detail, octets),
        Err(code) => refusal(alloc, code, front_of(&[])),
    }
}

impl Explanation {
    /// The bytes of the lines, that of the verdict first.
    pub fn bytes(&self, alloc: Global) -> Result<Vec<u8>, AllocError>
        ensures { IfOk result (λ v. v.items ≡ line_of self.now.judgment ++ string_bytes self.now.lines) }
    {
        let line = line_for(self.judgment);
        let mut bytes = Vec::from_slice(alloc, line.as_slice())?;
        bytes.extend_from_slice(self.lines.as_bytes())?;
        Ok(bytes)
    }

    /// Whether no rule is broken.
    fn is_valid(&self) -> bool
        ensures { IsTrue result ↔ (line_of self.now.judgment ≡ valid_line) }
    {
        match self.judgment {
            Judgment::Valid => true,
            Judgment::Refused(_) => false,
            Judgment::Broken(_) => false,
        }
    }
}

/// Writes the verdict line of a reader's bytes up to the end of input, as `check_stream` does, and after the line of a
/// fault further lines that explain it, each `KEY: TEXT`; and answers whether the line is `valid`. `detail` tells how
/// much is told where many opcodes may come.
///
/// `W1`: a read or a write failed. After a failed read nothing was written, after a failed write a beginning of the
/// lines. `W9`: a growth of memory was refused, and nothing was written. There is no other error: W2 to W8 are
/// verdicts.
pub fn explain_stream<R: Source, W: Sink>(
    alloc: Global,
    table: &Table,
    reach: Reach,
    detail: Detail,
    r: &mut R,
    w: &mut W,
) -> Result<bool, WordError>
    // The writer has got the verdict line of all the bytes that the reader still gave, and lines that explain it.
    ensures explained { OfKnown (R.remaining r.old) (W.contents w.old)
        (λ bytes old. IfOk result (λ answer. Explains detail table.now reach bytes old (W.contents w.new) answer)) }
    // The answer is W1 exactly where a read or a write failed.
    ensures count { (HasFailed R.failures r.old r.new ⊎ HasFailed W.failures w.old w.new) ↔ IsErrOf result W1 }
    ensures only { IfErr result (λ e. (e ≡ W1) ⊎ (e ≡ W9)) }
    // After a failed read, or where memory runs out, the writer is as it was.
    ensures read { HasFailed R.failures r.old r.new → w.new ≡ w.old }
    ensures memory { IsErrOf result W9 → w.new ≡ w.old }
    // After a failed write it has got a beginning of the lines.
    ensures begun { HasFailed W.failures w.old w.new
        → OfKnown (R.remaining r.old) (W.contents w.old)
        (λ bytes old. BeginsExplaining detail table.now reach bytes old (W.contents w.new)) }
{
    let told = told_on(alloc, table, reach, detail, r)?;
    let bytes = match told.bytes(alloc) {
        Ok(bytes) => bytes,
        Err(_) => return Err(WordError::W9),
    };
    write_all(bytes.as_slice(), w)?;
    Ok(told.is_valid())
}

/// The verdict on a module's bytes in memory, and of a fault the lines that explain it, as `explain_stream` writes
/// them.
///
/// The bytes are copied once. `Memory` comes only where a growth of memory was refused.
pub fn explain_bytes(
    alloc: Global,
    table: &Table,
    reach: Reach,
    detail: Detail,
    bytes: &[u8],
) -> Result<Explanation, Memory>
    // The verdict is that of the bytes, and the lines explain it.
    ensures { IfOk result (λ e. IsExplanation detail table.now reach bytes.now e) }
{
    spv_words::laws::one_refusal();
    let image = match image_of(alloc, bytes) {
        Ok((image, _)) => image,
        Err(code) => match refusal(alloc, code, front_of(bytes)) {
            Ok(told) => return Ok(told),
            Err(_) => return Err(Memory),
        },
    };
    match told_by(alloc, table, reach, detail, &image) {
        Ok(told) => Ok(told),
        Err(_) => Err(Memory),
    }
}

/// The verdict on more bytes than a module has, W8, and its lines, as `explain_bytes` answers them of any such bytes.
///
/// `Memory` comes only where a growth of memory was refused.
pub fn too_long_told(alloc: Global) -> Result<Explanation, Memory>
    // The verdict is that of the bytes, and the lines explain it.
    ensures { (detail : Detail) (G : Table) (reach : Reach) (bytes : List ℕ) → IsFirstBroken W8 bytes
        → IfOk result (λ e. IsExplanation detail G reach bytes e) }
{
    spv_words::laws::one_refusal();
    match refused_told(alloc, WordError::W8, front_of(&[])) {
        Ok(told) => Ok(told),
        Err(_) => Err(Memory),
    }
}
