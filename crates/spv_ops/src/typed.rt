ghost use Rattle.std.specs.Prelude.{◌≡◌, ◌↔◌, ◌<◌, length, true, IsTrue, IsSomeAnd};
ghost use Rattle.std.specs.List.{AllByRecursion};
ghost use Rattle.spv_module.specs.Module.{plain_inst, plain_operands};
ghost use Rattle.spv_module.specs.declared.opcode.TheConstants as the_opcode;
ghost use Rattle.spv_type_forms.specs.Types.{IsData};
ghost use Rattle.spv_type_forms.specs.Values.{types_of, paired_ids_in};
ghost use Rattle.spv_ops.specs.inner.Table.{first_of};
ghost use Rattle.spv_conditions.specs.inner.Direct.{are_direct};
ghost use Rattle.spv_ops.specs.inner.Typed.{IsTypedBy, IsTypedIn, IsUncopied};
ghost use Rattle.spv_ops.specs.inner.Wide.{IsWidePlace, AreSame, IsWide, binary_of, is_counted};
ghost use Rattle.spv_ops.specs.declared.table.Places.TheVariants.{Around, Beside, Ids, One};
ghost use Rattle.spv_ops.specs.Table.{asks_of, places_of};

use crate::around::{gather_all, gather_beside};
use crate::chain::{access_chain, element_chain};
use crate::common::{
    binary_holds, binary_in, condition_in, load_holds, load_in, stands_for_bool, store_holds,
    store_in,
};
use crate::construct::constructs;
use crate::enqueue::enqueues;
use crate::table::{Found, Places, first_opcode, line_holds, look_up};
use crate::variable::variable_holds;
use spv_conditions::{is_in_block, may_stand};
use spv_module::{Inst, Operand, opcode};
use spv_type_forms::{
    Definitions, MOST, Sort, after_head, all_pairs_of_type, gather, is_data, result_type,
};

/// Whether what an opcode asks that has a number of values of its own holds of the declared types of the ids at the
/// front of the operands.
fn gathered_holds(
    definitions: &Definitions,
    number: u32,
    inst: &Inst,
    opcode: u16,
    r: Option<u32>,
    operands: &[Operand],
) -> bool
    requires number { number < length definitions.now }
    requires counted { is_counted (asks_of opcode) ≡ true }
    requires direct { are_direct (asks_of opcode) ≡ true }
    ensures { IsTrue result ↔ IsTypedBy definitions.now number (plain_inst inst.now) Ids (asks_of opcode) r
        (plain_operands operands.now) }
{
    let mut types = [0; MOST];
    match gather(definitions, operands, &mut types) {
        Some(count) => line_holds(definitions, number, inst, opcode, r, &types[..count]),
        None => false,
    }
}

/// The same of all ids among the operands.
fn around_holds(
    definitions: &Definitions,
    number: u32,
    inst: &Inst,
    opcode: u16,
    r: Option<u32>,
    operands: &[Operand],
) -> bool
    requires number { number < length definitions.now }
    requires counted { is_counted (asks_of opcode) ≡ true }
    requires direct { are_direct (asks_of opcode) ≡ true }
    ensures { IsTrue result ↔ IsTypedBy definitions.now number (plain_inst inst.now) Around (asks_of opcode) r
        (plain_operands operands.now) }
{
    let mut types = [0; MOST];
    match gather_all(definitions, operands, &mut types) {
        Some(count) => line_holds(definitions, number, inst, opcode, r, &types[..count]),
        None => false,
    }
}

/// The same of the ids at the front of the operands but for the one of a number.
fn beside_holds(
    definitions: &Definitions,
    number: u32,
    inst: &Inst,
    opcode: u16,
    r: Option<u32>,
    operands: &[Operand],
    skip: u8,
) -> bool
    requires number { number < length definitions.now }
    requires counted { is_counted (asks_of opcode) ≡ true }
    requires direct { are_direct (asks_of opcode) ≡ true }
    ensures { IsTrue result ↔ IsTypedBy definitions.now number (plain_inst inst.now) (Beside skip) (asks_of opcode) r
        (plain_operands operands.now) }
{
    let mut types = [0; MOST];
    match gather_beside(definitions, operands, skip, &mut types) {
        Some(count) => line_holds(definitions, number, inst, opcode, r, &types[..count]),
        None => false,
    }
}

/// The same of the first of the ids.
fn one_holds(
    definitions: &Definitions,
    number: u32,
    inst: &Inst,
    opcode: u16,
    r: Option<u32>,
    operands: &[Operand],
) -> bool
    requires number { number < length definitions.now }
    requires direct { are_direct (asks_of opcode) ≡ true }
    ensures { IsTrue result ↔ IsTypedBy definitions.now number (plain_inst inst.now) One (asks_of opcode) r
        (plain_operands operands.now) }
{
    match operands {
        [Operand::Id(x), ..] => match definitions.type_of(*x) {
            Some(t) => line_holds(definitions, number, inst, opcode, r, &[t]),
            None => false,
        },
        _ => line_holds(definitions, number, inst, opcode, r, &[]),
    }
}

/// Whether r is a data type, and the declared types of the values are r.
fn are_of_data_type(definitions: &Definitions, r: u32, operands: &[Operand]) -> bool
    ensures { IsTrue result ↔ (IsData definitions.now r
        × IsSomeAnd (types_of definitions.now (paired_ids_in (plain_operands operands.now)))
        (AllByRecursion (λ t. t ≡ r))) }
{
    is_data(definitions, r) && all_pairs_of_type(definitions, r, operands)
}

/// Whether what OpPhi asks holds of the result type and the declared types of the values.
fn phi_holds(definitions: &Definitions, r: u32, operands: &[Operand]) -> bool
    ensures { IsTrue result ↔ IsSomeAnd (types_of definitions.now (paired_ids_in (plain_operands operands.now)))
        (AreSame definitions.now r) }
{
    are_of_data_type(definitions, r, operands)
}

/// Whether what an opcode asks that takes any number of values holds, by the first opcode of its line.
fn wide_holds(
    definitions: &Definitions,
    number: u32,
    first: u16,
    r: u32,
    operands: &[Operand],
) -> bool
    requires { number < length definitions.now }
    ensures { IsTrue result ↔ IsWide first definitions.now number r (plain_operands operands.now) }
{
    match first {
        opcode::PHI => phi_holds(definitions, r, operands),
        opcode::VARIABLE => variable_holds(definitions, number, r, operands),
        opcode::ACCESS_CHAIN => access_chain(definitions, r, operands),
        opcode::PTR_ACCESS_CHAIN => element_chain(definitions, r, operands),
        opcode::ENQUEUE_KERNEL => enqueues(definitions, r, operands),
        _ => constructs(definitions, r, operands),
    }
}

/// Whether what an instruction's opcode asks that takes any number of values holds, by the first opcode of its line.
#[inline(always)]
fn wide_row_holds(definitions: &Definitions, number: u32, inst: &Inst, first: u16) -> bool
    requires number { number < length definitions.now }
    requires first { first ≡ first_of (plain_inst inst.now).opcode }
    requires wide { IsWidePlace (places_of (plain_inst inst.now).opcode) }
    ensures { IsTrue result ↔ IsTypedIn definitions.now number (plain_inst inst.now) }
{
    let operands = inst.operands.as_slice();
    match result_type(operands) {
        Some(r) => wide_holds(definitions, number, first, r, after_head(operands)),
        None => false,
    }
}

/// Whether what an instruction's opcode asks, if anything, holds of its result type, the types that its value operands
/// are declared with, and its literals, by what the table tells of the opcode. Of a copy it is false.
#[inline(always)]
fn found_holds(definitions: &Definitions, number: u32, inst: &Inst, found: Found) -> bool
    requires number { number < length definitions.now }
    requires first { found.first ≡ first_of (plain_inst inst.now).opcode }
    requires places { found.places ≡ places_of (plain_inst inst.now).opcode }
    ensures sound { IsTrue result → IsTypedIn definitions.now number (plain_inst inst.now) }
    ensures complete { IsUncopied (places_of (plain_inst inst.now).opcode)
        → IsTypedIn definitions.now number (plain_inst inst.now) → IsTrue result }
{
    let operands = inst.operands.as_slice();
    let rest = after_head(operands);
    let r = result_type(operands);
    match found.places {
        Places::Free => true,
        Places::Nothing => line_holds(definitions, number, inst, found.first, r, &[]),
        Places::Ids => gathered_holds(definitions, number, inst, found.first, r, rest),
        Places::Around => around_holds(definitions, number, inst, found.first, r, rest),
        Places::Beside(skip) => {
            beside_holds(definitions, number, inst, found.first, r, rest, skip)
        }
        Places::One => one_holds(definitions, number, inst, found.first, r, rest),
        Places::Copied => false,
        Places::Many | Places::Pairs | Places::Initializers | Places::Enqueued => {
            wide_row_holds(definitions, number, inst, found.first)
        }
    }
}

/// The same, whatever the opcode is. It is looked up here, so that the way to the lines that most instructions have
/// keeps its registers.
#[inline(never)]
fn row_holds(definitions: &Definitions, number: u32, inst: &Inst) -> bool
    requires { number < length definitions.now }
    ensures sound { IsTrue result → IsTypedIn definitions.now number (plain_inst inst.now) }
    ensures complete { IsUncopied (places_of (plain_inst inst.now).opcode)
        → IsTypedIn definitions.now number (plain_inst inst.now) → IsTrue result }
{
    found_holds(definitions, number, inst, look_up(inst.opcode))
}

/// The same, where the opcode is that of a binary operation.
#[inline(always)]
fn binary_row_holds(definitions: &Definitions, number: u32, inst: &Inst, sort: Sort) -> bool
    requires number { number < length definitions.now }
    requires sort { first_of (plain_inst inst.now).opcode ≡ binary_of sort }
    ensures { IsTrue result ↔ IsTypedIn definitions.now number (plain_inst inst.now) }
{
    match binary_in(inst.operands.as_slice()) {
        Some(ids) => binary_holds(definitions, sort, ids.result_type, ids.first, ids.second),
        None => row_holds(definitions, number, inst),
    }
}

/// The same, where the opcode is that of OpLoad.
#[inline(always)]
fn load_row_holds(definitions: &Definitions, number: u32, inst: &Inst) -> bool
    requires number { number < length definitions.now }
    requires load { first_of (plain_inst inst.now).opcode ≡ the_opcode.LOAD }
    ensures { IsTrue result ↔ IsTypedIn definitions.now number (plain_inst inst.now) }
{
    match load_in(inst.operands.as_slice()) {
        Some(ids) => load_holds(definitions, ids.first, ids.second),
        None => row_holds(definitions, number, inst),
    }
}

/// The same, where the opcode is that of OpStore.
#[inline(always)]
fn store_row_holds(definitions: &Definitions, number: u32, inst: &Inst) -> bool
    requires number { number < length definitions.now }
    requires store { first_of (plain_inst inst.now).opcode ≡ the_opcode.STORE }
    ensures { IsTrue result ↔ IsTypedIn definitions.now number (plain_inst inst.now) }
{
    match store_in(inst.operands.as_slice()) {
        Some(ids) => store_holds(definitions, ids.first, ids.second),
        None => row_holds(definitions, number, inst),
    }
}

/// The same, where the opcode is that of OpBranchConditional.
#[inline(always)]
fn branch_row_holds(definitions: &Definitions, number: u32, inst: &Inst) -> bool
    requires number { number < length definitions.now }
    requires branch { first_of (plain_inst inst.now).opcode ≡ the_opcode.BRANCH_CONDITIONAL }
    ensures { IsTrue result ↔ IsTypedIn definitions.now number (plain_inst inst.now) }
{
    match condition_in(inst.operands.as_slice()) {
        Some(x) => stands_for_bool(definitions, x),
        None => row_holds(definitions, number, inst),
    }
}

/// Whether there is a result type, and it is a data type.
#[inline(always)]
fn is_of_data(definitions: &Definitions, r: Option<u32>) -> bool
    ensures { IsTrue result ↔ IsSomeAnd r (IsData definitions.now) }
{
    match r {
        Some(r) => is_data(definitions, r),
        None => false,
    }
}

/// The same, where the opcode is that of OpUndef.
#[inline(always)]
fn undef_row_holds(definitions: &Definitions, number: u32, inst: &Inst) -> bool
    requires number { number < length definitions.now }
    requires undef { first_of (plain_inst inst.now).opcode ≡ the_opcode.UNDEF }
    ensures { IsTrue result ↔ IsTypedIn definitions.now number (plain_inst inst.now) }
{
    is_of_data(definitions, result_type(inst.operands.as_slice()))
}

/// The same, where the opcode is that of OpExtInst.
#[inline(always)]
fn extended_row_holds(definitions: &Definitions, number: u32, inst: &Inst) -> bool
    requires number { number < length definitions.now }
    requires extended { first_of (plain_inst inst.now).opcode ≡ the_opcode.EXT_INST }
    ensures { IsTrue result ↔ IsTypedIn definitions.now number (plain_inst inst.now) }
{
    // Most are.
    if is_in_block(definitions, number) {
        return true;
    }
    may_stand(
        definitions,
        number,
        inst,
        result_type(inst.operands.as_slice()),
    )
}

/// Whether what an instruction's opcode asks, if anything, holds of its result type, the types that its value operands
/// are declared with, and its literals; of a copy whose type is to match another it is false, and `copy_holds` tells
/// it. The lines that most instructions have are looked at first.
pub fn inst_holds(definitions: &Definitions, number: u32, inst: &Inst) -> bool
    requires { number < length definitions.now }
    ensures sound { IsTrue result → IsTypedIn definitions.now number (plain_inst inst.now) }
    ensures complete { IsUncopied (places_of (plain_inst inst.now).opcode)
        → IsTypedIn definitions.now number (plain_inst inst.now) → IsTrue result }
{
    match first_opcode(inst.opcode) {
        // No line speaks of it.
        0 => true,
        opcode::I_ADD => binary_row_holds(definitions, number, inst, Sort::Int),
        opcode::F_ADD => binary_row_holds(definitions, number, inst, Sort::Float),
        opcode::LOGICAL_EQUAL => binary_row_holds(definitions, number, inst, Sort::Bool),
        opcode::LOAD => load_row_holds(definitions, number, inst),
        opcode::STORE => store_row_holds(definitions, number, inst),
        opcode::BRANCH_CONDITIONAL => branch_row_holds(definitions, number, inst),
        opcode::EXT_INST => extended_row_holds(definitions, number, inst),
        opcode::UNDEF => undef_row_holds(definitions, number, inst),
        opcode::VARIABLE => wide_row_holds(definitions, number, inst, opcode::VARIABLE),
        opcode::ACCESS_CHAIN => wide_row_holds(definitions, number, inst, opcode::ACCESS_CHAIN),
        opcode::PTR_ACCESS_CHAIN => {
            wide_row_holds(definitions, number, inst, opcode::PTR_ACCESS_CHAIN)
        }
        _ => row_holds(definitions, number, inst),
    }
}
