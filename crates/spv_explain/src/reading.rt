//! The verdict on the words of a module, with what shows a fault.
ghost use Rattle.std.specs.Prelude.{◌≡◌, IfOk, drop};
ghost use Rattle.spv_inst.specs.Outcome.{IsHeaderOf};
ghost use Rattle.spv_module.specs.Instruction.{IsListing};
ghost use Rattle.spv_module.specs.Module.{plain_insts};
ghost use Rattle.spv_module.specs.declared.fault.Stop.TheVariants as stops;
ghost use Rattle.spv_layout.specs.Place.{IsShort};
ghost use Rattle.spv_check.specs.Answer.{IsAnswer};
ghost use Rattle.spv_check.specs.Broken.{IsTold};
ghost use Rattle.spv_check.specs.Judged.{AreWordsOf, IsRefusedAt};
ghost use Rattle.spv_explain.specs.Explained.{IsShown, IsShownDead, IsSpelled, verdict_in};
ghost use Rattle.spv_explain.specs.inner.Reading.{IsExplained};
ghost use Rattle.spv_explain.specs.inner.Shown.{IsShownAt};

use crate::evidence::evidence_of;
use spv_check::{Checked, Judged, Reached, judge, read};
use spv_evidence::Evidence;
use spv_extended::{Reach, opens};
use spv_form_evidence::word_evidence;
use spv_inst::{decode, listed_or_dead, one_listing};
use spv_module::{Fault, Module, Stop};
use spv_table::{Memory, Table};
use spv_words::Image;
use std::alloc::Global;

/// The verdict on the words of a module, and of a fault what shows it.
#[derive(Drop)]
pub enum Explained<'a> {
    /// No rule is broken.
    Valid(Checked<'a>),
    /// The words spell no list of instructions.
    Malformed {
        /// The rule, the instruction that fails, and the word by which that is told.
        fault: Fault,
        /// What shows that it fails.
        evidence: Evidence,
    },
    /// A rule is broken.
    Broken {
        /// The first rule that is broken, with the instruction and the word by which it is told.
        fault: Fault,
        /// What shows that it is broken there.
        evidence: Evidence,
        /// The module as its words spell it, with texts lent by its image.
        module: Module<'a>,
    },
}

/// A module with the header of an image.
pub fn headed<'a>(image: &Image, module: Module<'a>) -> Module<'a>
    ensures insts { plain_insts result ≡ plain_insts «module».entry }
    ensures header { IsHeaderOf image.now result.header }
{
    let mut headed = module;
    headed.header = image.header();
    headed
}

/// A module that was read of the words of an image, as they spell it: one that was opened is let go, and the words are
/// decoded again.
///
/// `Memory` comes only where a growth of memory was refused.
fn spelled<'a>(
    alloc: Global,
    table: &Table,
    reach: Reach,
    image: &'a Image,
    module: Module<'a>,
) -> Result<Module<'a>, Memory>
    requires read { AreWordsOf table.now reach «module» image.now }
    ensures listing { IfOk result (λ m. IsListing table.now (plain_insts m) (drop 5 image.now)) }
    ensures header { IfOk result (λ m. IsHeaderOf image.now m.header) }
{
    if !opens(reach) {
        return Ok(headed(image, module));
    }
    drop(module);
    match decode(alloc, table, image) {
        Ok(module) => Ok(headed(image, module)),
        Err(_) => Err(Memory),
    }
}

/// What shows that a rule is broken, and the module as its words spell it.
///
/// `Memory` comes only where a growth of memory was refused.
fn shown_and_spelled<'a>(
    alloc: Global,
    table: &Table,
    reach: Reach,
    image: &'a Image,
    module: Module<'a>,
    reached: &Reached,
    fault: Fault,
) -> Result<(Evidence, Module<'a>), Memory>
    requires words { IsShort (plain_insts «module») }
    requires refused { IsRefusedAt table.now reach «module».header.bound (plain_insts «module») reached.now
        (stops.Fault fault) }
    requires told { IsTold table.now reach «module».header.bound (plain_insts «module») (stops.Fault fault) }
    requires read { AreWordsOf table.now reach «module» image.now }
    ensures shown { IfOk result
        (λ p. IsShownAt table.now reach «module».entry.header.bound (plain_insts «module».entry) fault p.0) }
    ensures listing { IfOk result (λ p. IsListing table.now (plain_insts p.1) (drop 5 image.now)) }
    ensures header { IfOk result (λ p. IsHeaderOf image.now p.1.header) }
{
    let evidence = evidence_of(alloc, table, reach, &module, reached, fault)?;
    let module = spelled(alloc, table, reach, image, module)?;
    Ok((evidence, module))
}

/// What `explain` answers, with all that is known of it.
///
/// `Memory` comes only where a growth of memory was refused.
pub fn explained_of<'a>(
    alloc: Global,
    table: &Table,
    reach: Reach,
    image: &'a Image,
) -> Result<Explained<'a>, Memory>
    ensures { IfOk result (λ r. IsExplained table.now reach image.now r) }
{
    one_listing();
    let _words = image.len();
    let module = match read(alloc, table, reach, image) {
        Ok(module) => module,
        Err(Stop::Fault(fault)) => {
            let evidence = word_evidence(alloc, table, image, fault)?;
            return Ok(Explained::Malformed { fault, evidence });
        }
        Err(Stop::Memory) => return Err(Memory),
    };
    match judge(alloc, table, reach, module)? {
        Judged::Valid(checked) => Ok(Explained::Valid(checked)),
        Judged::Broken {
            fault,
            module,
            reached,
        } => {
            let (evidence, module) = shown_and_spelled(
                alloc, table, reach, image, module, &reached, fault,
            )?;
            Ok(Explained::Broken {
                fault,
                evidence,
                module,
            })
        }
    }
}

/// The verdict on the words of a module, under a grammar table, just as `check` answers it; and of a fault what shows
/// that the rule is broken there. A fault of the stages from I on always comes with evidence that shows it by itself.
///
/// Time is linear in the words of the module besides what `check` takes, and at most as much again. A module with a
/// fault that was opened is decoded a second time.
///
/// `Memory` comes only where a growth of memory was refused.
pub fn explain<'a>(
    alloc: Global,
    table: &Table,
    reach: Reach,
    image: &'a Image,
) -> Result<Explained<'a>, Memory>
    // The verdict is that of `check`.
    ensures verdict { IfOk result (λ e. IsAnswer table.now reach image.now (verdict_in e)) }
    // A fault of the stages from P on is shown.
    ensures shown { IfOk result (λ e. IsShown table.now reach image.now e) }
    // So is that of words that spell no list of instructions.
    ensures dead { IfOk result (λ e. IsShownDead table.now image.now e) }
    // The module with a fault is the one that the words spell, with their header.
    ensures spelled { IfOk result (λ e. IsSpelled table.now image.now e) }
{
    one_listing();
    listed_or_dead();
    explained_of(alloc, table, reach, image)
}
