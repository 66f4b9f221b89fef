//! The facts of evidence.
ghost use Rattle.std.specs.Prelude.{◌≡◌, ◌++◌, [], ◌∷◌, nat_eq, option_map, slice_get, if◌then◌else◌, IfOk, OnOk};
ghost use Rattle.spv_module.specs.declared.opcode.TheConstants.{TYPE_VECTOR};
ghost use Rattle.spv_module.specs.Module.{plain_inst, plain_insts};
ghost use Rattle.spv_layout.specs.Place.{AreFew};
ghost use Rattle.spv_facts.specs.Facts as lists;
ghost use Rattle.spv_facts.specs.inner.Parts as parts;
ghost use Rattle.spv_facts.specs.declared.fact.Fact.TheVariants as kinds;

use crate::about::About;
use crate::fact::{Fact, Place};
use crate::owners::{leave_out, own_place, places_in, tells_size};
use crate::place::comes_early;
use spv_evidence::{Condition, Evidence, Listed, Lister};
use spv_module::{Inst, Rule, opcode};
use std::alloc::AllocError;

/// Adds a fact.
pub fn push_one(facts: &mut Vec<Fact>, fact: Fact) -> Result<(), AllocError>
    ensures { OnOk result (facts.new.items ≡ facts.old.items ++ (fact ∷ [])) }
{
    facts.push(fact)?;
    Ok(())
}

/// Adds two facts.
pub fn push_two(facts: &mut Vec<Fact>, first: Fact, second: Fact) -> Result<(), AllocError>
    ensures { OnOk result (facts.new.items ≡ facts.old.items ++ (first ∷ second ∷ [])) }
{
    push_one(facts, first)?;
    push_one(facts, second)
}

/// Adds three facts.
fn push_three(
    facts: &mut Vec<Fact>,
    first: Fact,
    second: Fact,
    third: Fact,
) -> Result<(), AllocError>
    ensures { OnOk result (facts.new.items ≡ facts.old.items ++ (first ∷ second ∷ third ∷ [])) }
{
    push_two(facts, first, second)?;
    push_one(facts, third)
}

/// Adds what is wrong of the parents of an OpPhi, and all predecessors of its block.
fn push_parents(facts: &mut Vec<Fact>, wrong: Fact, blocks: Listed<u32>) -> Result<(), AllocError>
    ensures { OnOk result (facts.new.items ≡ facts.old.items ++ (wrong ∷ kinds.Predecessors blocks ∷ [])) }
{
    push_two(facts, wrong, Fact::Predecessors { blocks })
}

/// Adds a variable, functions of which each calls the next, and an instruction of the last that uses the variable.
fn push_used(
    facts: &mut Vec<Fact>,
    variable: u32,
    calls: Listed<u32>,
    user: u32,
) -> Result<(), AllocError>
    ensures { OnOk result (facts.new.items ≡ facts.old.items ++ (kinds.Defined variable ∷ kinds.Calls calls
        ∷ kinds.UsedBy user ∷ [])) }
{
    push_three(
        facts,
        Fact::Defined { inst: variable },
        Fact::Calls { functions: calls },
        Fact::UsedBy { inst: user },
    )
}

/// The operand that is the width or the count of a type with this opcode.
fn width_place(code: u16) -> u32
    ensures { result ≡ (if nat_eq code TYPE_VECTOR then 2 else 1) }
{
    if code == opcode::TYPE_VECTOR { 2 } else { 1 }
}

/// Adds a condition that fails, the operand at which it does and the instruction that defines its id, where there are
/// such.
fn push_failing(
    facts: &mut Vec<Fact>,
    inst: u32,
    condition: Condition,
    operand: Option<u32>,
    defined: Option<u32>,
) -> Result<(), AllocError>
    ensures { OnOk result (facts.new.items ≡ facts.old.items ++ lists.failing_facts inst condition operand defined) }
{
    push_one(facts, Fact::Condition { condition })?;
    push_operand(facts, inst, operand)?;
    push_defined(facts, defined)
}

/// Adds an operand, if there is one.
fn push_operand(facts: &mut Vec<Fact>, inst: u32, operand: Option<u32>) -> Result<(), AllocError>
    ensures { OnOk result (facts.new.items ≡ facts.old.items ++ lists.operand_facts inst operand) }
{
    match operand {
        Some(operand) => push_one(facts, Fact::Operand { inst, operand }),
        None => Ok(()),
    }
}

/// Adds the instruction that defines an operand's id, if there is one.
fn push_defined(facts: &mut Vec<Fact>, defined: Option<u32>) -> Result<(), AllocError>
    ensures { OnOk result (facts.new.items ≡ facts.old.items ++ lists.defined_facts defined) }
{
    match defined {
        Some(inst) => push_one(facts, Fact::Defined { inst }),
        None => Ok(()),
    }
}

/// Adds the facts of evidence on ids.
fn push_id_facts(facts: &mut Vec<Fact>, inst: u32, evidence: &Evidence) -> Result<(), AllocError>
    ensures { OnOk result (facts.new.items ≡ facts.old.items ++ parts.id_facts inst evidence.now) }
{
    match *evidence {
        Evidence::Operand { operand } => push_one(facts, Fact::Operand { inst, operand }),
        Evidence::Earlier { inst } => push_one(facts, Fact::Earlier { inst }),
        Evidence::Defined {
            operand,
            inst: place,
        } => push_two(
            facts,
            Fact::Operand { inst, operand },
            Fact::Defined { inst: place },
        ),
        Evidence::Local {
            operand,
            inst: place,
            function,
        } => push_three(
            facts,
            Fact::Operand { inst, operand },
            Fact::Defined { inst: place },
            Fact::LocalTo { function },
        ),
        Evidence::Miscast {
            operand,
            role,
            inst: place,
        } => push_three(
            facts,
            Fact::Operand { inst, operand },
            Fact::Role { role },
            Fact::Defined { inst: place },
        ),
        _ => Ok(()),
    }
}

/// Adds what is called of a set of extended instructions, and what the set has.
fn push_miscall(
    facts: &mut Vec<Fact>,
    number: u32,
    operands: u32,
    least: Option<u32>,
    most: Option<u32>,
) -> Result<(), AllocError>
    ensures { OnOk result (facts.new.items ≡ facts.old.items ++ (kinds.Number number ∷ kinds.Operands operands
        ∷ kinds.Least least ∷ kinds.Most most ∷ [])) }
{
    push_two(
        facts,
        Fact::Number { number },
        Fact::Operands { count: operands },
    )?;
    push_two(
        facts,
        Fact::Least { count: least },
        Fact::Most { count: most },
    )
}

/// Adds the facts of evidence on forms, implied capabilities, entry points and extended instructions, or those of ids.
pub fn push_form_facts(
    facts: &mut Vec<Fact>,
    inst: u32,
    evidence: &Evidence,
) -> Result<(), AllocError>
    ensures { OnOk result (facts.new.items ≡ facts.old.items ++ parts.form_facts inst evidence.now) }
{
    match evidence {
        Evidence::Opcode { opcode } => push_one(facts, Fact::Opcode { opcode: *opcode }),
        Evidence::Due {
            opcode,
            operand,
            kind,
        } => push_three(
            facts,
            Fact::Opcode { opcode: *opcode },
            Fact::Failing { operand: *operand },
            Fact::Due { kind: *kind },
        ),
        Evidence::Shape { opcode, known } => push_two(
            facts,
            Fact::Opcode { opcode: *opcode },
            Fact::Row {
                opcode: *opcode,
                known: *known,
            },
        ),
        Evidence::Capability {
            capability,
            implied,
        } => push_one(
            facts,
            Fact::Capability {
                capability: *capability,
                implied: *implied,
            },
        ),
        Evidence::NoEntry => push_one(facts, Fact::NoEntry),
        Evidence::Entry { part } => push_one(facts, Fact::Part { part: *part }),
        Evidence::Miscalled {
            number,
            operands,
            least,
            most,
        } => push_miscall(facts, *number, *operands, *least, *most),
        _ => push_id_facts(facts, inst, evidence),
    }
}

/// Adds the fact of a place, if it is of a function: what is open there.
fn push_open(facts: &mut Vec<Fact>, place: Place) -> Result<(), AllocError>
    ensures { OnOk result (facts.new.items ≡ facts.old.items ++ lists.open_facts place) }
{
    match place.function {
        Some(_) => push_one(facts, Fact::Open { place }),
        None => Ok(()),
    }
}

/// The same: where an instruction stands.
fn push_in(facts: &mut Vec<Fact>, place: Place) -> Result<(), AllocError>
    ensures { OnOk result (facts.new.items ≡ facts.old.items ++ lists.in_facts place) }
{
    match place.function {
        Some(_) => push_one(facts, Fact::In { place }),
        None => Ok(()),
    }
}

/// Adds that what is open before an instruction has no end, if the instruction comes too early.
fn push_early(
    facts: &mut Vec<Fact>,
    inst: Option<&Inst<'_>>,
    place: Place,
) -> Result<(), AllocError>
    ensures { OnOk result (facts.new.items ≡ facts.old.items ++ lists.early_facts
        (option_map (λ i. plain_inst i.now) inst.entry) place) }
{
    let Some(inst) = inst else {
        return Ok(());
    };
    if comes_early(inst.opcode, place) {
        return push_one(facts, Fact::Unended { place });
    }
    Ok(())
}

/// Whether a rule is told at the end of a module.
fn tells_end(rule: Rule) -> bool
    ensures { result ≡ lists.tells_end rule }
{
    matches!(rule, Rule::L2)
}

impl<'m, 'a> About<'m, 'a> {
    /// The operand that is the width or the count of the type that an instruction declares.
    fn width_operand(&self, inst: u32) -> u32
        ensures { result ≡ lists.width_operand (slice_get (plain_insts self.now.«module».now) inst) }
    {
        match self.inst(inst) {
            Some(inst) => width_place(inst.opcode),
            None => 1,
        }
    }

    /// Adds what lists capabilities: an operand, a bit of one, a width or count, or an access qualifier.
    pub fn push_lister(
        &self,
        facts: &mut Vec<Fact>,
        inst: u32,
        lister: Lister,
    ) -> Result<(), AllocError>
        ensures { OnOk result (facts.new.items ≡ facts.old.items ++ lists.lister_facts
            (plain_insts self.now.«module».now) inst lister) }
    {
        match lister {
            Lister::Entry | Lister::Type => Ok(()),
            Lister::Access => push_one(facts, Fact::Operand { inst, operand: 8 }),
            Lister::Value { operand } => push_one(facts, Fact::Operand { inst, operand }),
            Lister::Bit { operand, bit } => push_two(
                facts,
                Fact::Operand { inst, operand },
                Fact::Bit { inst, operand, bit },
            ),
            Lister::Width => push_one(
                facts,
                Fact::Operand {
                    inst,
                    operand: self.width_operand(inst),
                },
            ),
        }
    }

    /// Adds what lists capabilities, and those.
    fn push_needs(&self, facts: &mut Vec<Fact>, inst: u32, lister: Lister) -> Result<(), AllocError>
        ensures { OnOk result (facts.new.items ≡ facts.old.items ++ (lists.lister_facts
            (plain_insts self.now.«module».now) inst lister ++ (kinds.NeedsOneOf inst lister ∷ []))) }
    {
        self.push_lister(facts, inst, lister)?;
        push_one(facts, Fact::NeedsOneOf { inst, lister })
    }

    /// Adds the type that is wanted at an operand of an instruction, if there is one, and the other operands of it.
    fn push_wanted(
        &self,
        facts: &mut Vec<Fact>,
        inst: u32,
        operand: Option<u32>,
        wanted: Option<u32>,
    ) -> Result<(), AllocError>
        requires few { AreFew (plain_insts self.now.«module».now) }
        ensures { OnOk result (facts.new.items ≡ facts.old.items ++ lists.wanted_facts
            (plain_insts self.now.«module».now) inst operand wanted) }
    {
        let Some(id) = wanted else {
            return Ok(());
        };
        let mut types = self.types_at(inst)?;
        leave_out(&mut types, operand);
        let operands = places_in(self.alloc, Some(id), &types)?;
        push_one(
            facts,
            Fact::WantedOf {
                inst,
                thing: self.thing_of(id),
                operands: Listed::from_vec(operands),
            },
        )
    }

    /// Adds the type that is found at an operand of an instruction, if there is one, and that operand, if it is of it.
    fn push_found(
        &self,
        facts: &mut Vec<Fact>,
        inst: u32,
        operand: Option<u32>,
        found: Option<u32>,
    ) -> Result<(), AllocError>
        requires few { AreFew (plain_insts self.now.«module».now) }
        ensures { OnOk result (facts.new.items ≡ facts.old.items ++ lists.found_facts
            (plain_insts self.now.«module».now) inst operand found) }
    {
        let Some(id) = found else {
            return Ok(());
        };
        let types = self.types_at(inst)?;
        let operands = own_place(self.alloc, id, operand, &types)?;
        push_one(
            facts,
            Fact::FoundOf {
                inst,
                thing: self.thing_of(id),
                operands: Listed::from_vec(operands),
            },
        )
    }

    /// Adds the types that are compared at an operand of an instruction.
    fn push_compared(
        &self,
        facts: &mut Vec<Fact>,
        inst: u32,
        operand: Option<u32>,
        wanted: Option<u32>,
        found: Option<u32>,
    ) -> Result<(), AllocError>
        requires few { AreFew (plain_insts self.now.«module».now) }
        ensures { OnOk result (facts.new.items ≡ facts.old.items ++ lists.compared_facts
            (plain_insts self.now.«module».now) inst operand wanted found) }
    {
        self.push_wanted(facts, inst, operand, wanted)?;
        self.push_found(facts, inst, operand, found)
    }

    /// Adds how many parts the type has that is found, where the condition asks for that.
    fn push_size(
        &self,
        facts: &mut Vec<Fact>,
        condition: Condition,
        found: Option<u32>,
    ) -> Result<(), AllocError>
        requires few { AreFew (plain_insts self.now.«module».now) }
        ensures { OnOk result (facts.new.items ≡ facts.old.items ++ lists.size_facts
            (plain_insts self.now.«module».now) condition found) }
    {
        let Some(id) = found else {
            return Ok(());
        };
        if !tells_size(condition) {
            return Ok(());
        }
        match self.size_of(id) {
            Some(count) => push_one(facts, Fact::Size { count }),
            None => Ok(()),
        }
    }

    /// Adds the function type that is asked, if one is.
    fn push_asked(&self, facts: &mut Vec<Fact>, of: Option<u32>) -> Result<(), AllocError>
        requires few { AreFew (plain_insts self.now.«module».now) }
        ensures { OnOk result (facts.new.items ≡ facts.old.items ++ lists.asked_facts
            (plain_insts self.now.«module».now) of) }
    {
        match of {
            Some(id) => self.push_lone_type(facts, self.thing_of(id)),
            None => Ok(()),
        }
    }

    /// Adds the facts of evidence on types and on what lists capabilities, or those of what the standard asks besides, of
    /// forms and of ids.
    fn push_type_facts(
        &self,
        facts: &mut Vec<Fact>,
        inst: u32,
        evidence: &Evidence,
    ) -> Result<(), AllocError>
        requires few { AreFew (plain_insts self.now.«module».now) }
        ensures { OnOk result (facts.new.items ≡ facts.old.items ++ parts.typed_facts
            (plain_insts self.now.«module».now) inst evidence.now) }
    {
        match evidence {
            Evidence::Needs { lister } => self.push_needs(facts, inst, *lister),
            Evidence::Condition {
                condition,
                operand,
                defined,
                wanted,
                found,
                types,
            } => {
                push_failing(facts, inst, *condition, *operand, *defined)?;
                self.push_read(facts, inst, types.as_slice())?;
                self.push_compared(facts, inst, *operand, *wanted, *found)?;
                self.push_size(facts, *condition, *found)
            }
            Evidence::Mismatch {
                side,
                wanted,
                found,
                of,
            } => {
                push_one(facts, Fact::Differs { side: *side })?;
                self.push_asked(facts, *of)?;
                push_two(
                    facts,
                    Fact::Wanted {
                        thing: self.side_thing(*side, *wanted),
                    },
                    Fact::Found {
                        thing: self.side_thing(*side, *found),
                    },
                )
            }
            _ => self.push_standard_facts(facts, inst, evidence),
        }
    }

    /// Adds what the evidence at an instruction tells.
    pub fn push_evidence(
        &self,
        facts: &mut Vec<Fact>,
        inst: u32,
        evidence: Evidence,
    ) -> Result<(), AllocError>
        requires few { AreFew (plain_insts self.now.«module».now) }
        ensures { OnOk result (facts.new.items ≡ facts.old.items ++ lists.evidence_facts
            (plain_insts self.now.«module».now) inst evidence) }
    {
        match evidence {
            Evidence::MayCome { opcodes, end } => push_one(facts, Fact::MayCome { opcodes, end }),
            Evidence::MissingParent {
                block,
                predecessors,
            } => push_parents(facts, Fact::MissingParent { block }, predecessors),
            Evidence::NoPredecessor {
                operand,
                predecessors,
            } => push_parents(facts, Fact::NoPredecessor { inst, operand }, predecessors),
            Evidence::Twice {
                second: operand,
                predecessors,
                ..
            } => push_parents(facts, Fact::Twice { inst, operand }, predecessors),
            Evidence::Walk {
                operand,
                inst: place,
                walk,
            } => push_three(
                facts,
                Fact::Operand { inst, operand },
                Fact::Defined { inst: place },
                Fact::Walk { blocks: walk },
            ),
            Evidence::Cycle { calls, cycle } => push_two(
                facts,
                Fact::Calls { functions: calls },
                Fact::Cycle { functions: cycle },
            ),
            Evidence::NotInInterface {
                variable,
                calls,
                user,
            } => push_used(facts, variable, calls, user),
            other => self.push_type_facts(facts, inst, &other),
        }
    }

    /// Adds the instruction at which a rule is told, and where it stands.
    fn push_first(&self, facts: &mut Vec<Fact>, rule: Rule, inst: u32) -> Result<(), AllocError>
        ensures { OnOk result (facts.new.items ≡ facts.old.items ++ lists.first_facts
            (plain_insts self.now.«module».now) rule inst) }
    {
        if tells_end(rule) {
            return Ok(());
        }
        push_one(facts, Fact::At { inst })?;
        push_in(facts, self.place_of(inst))
    }

    /// Adds what comes last: where a module ends too early, what is open; where an id is not below the bound, the
    /// bound; where an instruction comes too early, what has no end.
    fn push_last(&self, facts: &mut Vec<Fact>, rule: Rule, inst: u32) -> Result<(), AllocError>
        ensures { OnOk result (facts.new.items ≡ facts.old.items ++ lists.last_facts
            self.now.«module».now.header.bound (plain_insts self.now.«module».now) rule inst) }
    {
        match rule {
            Rule::L2 => push_open(facts, self.place_of(inst)),
            Rule::D1 => {
                let bound = self.module.header.bound;
                push_one(facts, Fact::Bound { bound })
            }
            Rule::L1 => push_early(facts, self.inst(inst), self.open_before(inst)),
            _ => Ok(()),
        }
    }

    /// What the lines tell of a rule that is broken at an instruction, with its evidence: first the instruction and
    /// where it stands, then the evidence. At the end of a module there is no instruction.
    ///
    /// An `AllocError` comes only where a growth of memory was refused.
    pub fn facts_of(
        &self,
        rule: Rule,
        inst: u32,
        evidence: Evidence,
    ) -> Result<Vec<Fact>, AllocError>
        requires few { AreFew (plain_insts self.now.«module».now) }
        ensures { IfOk result (λ v. v.items ≡ lists.facts_of self.now.«module».now.header.bound
            (plain_insts self.now.«module».now) rule inst evidence) }
    {
        let mut facts = Vec::new(self.alloc);
        self.push_first(&mut facts, rule, inst)?;
        self.push_evidence(&mut facts, inst, evidence)?;
        self.push_last(&mut facts, rule, inst)?;
        Ok(facts)
    }
}
