//! Functions, parameters, returns and calls against function types.

ghost use Rattle.std.specs.Prelude.{◌≡◌, ◌<◌, ◌+◌, ◌↔◌, ◌∷◌, ℕ, List, Some, true, take};
ghost use Rattle.std.specs.Prelude.{map, slice_get, length, IsTrue, IsSomeAnd, option_map, option_and_then};
ghost use Rattle.std.specs.Prelude.{MatchOption, nat_eq, ◌||◌};
ghost use Rattle.spv_module.specs.declared.opcode.TheConstants as opcode;
ghost use Rattle.spv_module.specs.Operand.{PlainInst, Id, type_in as plain_type_in};
ghost use Rattle.spv_module.specs.Module.{plain_inst, plain_operand, plain_operands};
ghost use Rattle.spv_layout.specs.Place.{IsOfFunction};
ghost use Rattle.spv_type_kinds.specs.Operands.{ids_in};
ghost use Rattle.spv_type_forms.specs.Parts.{id_in};
ghost use Rattle.spv_type_forms.specs.Values.{types_of};
ghost use Rattle.spv_type_rules.specs.Function as spec;
ghost use Rattle.spv_type_rules.specs.Function.{ReturnsNothing, ReturnsTyped, function_type_in, signature_of};
ghost use Rattle.spv_type_rules.specs.Function.{CallsTyped, CallsSoundly, ReturnsAfter, parameters_after};
ghost use Rattle.spv_type_rules.specs.Function.{parameters_between, parameter_type_of};
ghost use Rattle.spv_type_rules.specs.inner.Function.{IsSoundReturn, IsSoundReturnValue, IsSoundCall, IsSoundFunction};
ghost use Rattle.spv_type_rules.specs.inner.Function.{parameters_in, IsSoundParameter};
ghost use Rattle.spv_type_rules.specs.inner.Found.{IsOfOne, are_typed, has_signature, has_type};

use spv_layout::laws::one_standing;
use spv_module::{Inst, Operand, opcode};
use spv_type_forms::{Definitions, Form, after_head, after_result, type_in};

/// A function, and the number of its OpFunction.
#[derive(Clone, Copy)]
pub struct Function<'m, 'a> {
    pub number: u32,
    pub inst: &'m Inst<'a>,
}

/// The function that the instruction of a number is of.
#[inline(always)]
pub fn function_of<'m, 'a>(
    definitions: &Definitions<'m, 'a>,
    number: u32,
) -> Option<Function<'m, 'a>>
    requires { number < length definitions.now }
    ensures { MatchOption result ((f : ℕ) → ¬ (IsOfFunction definitions.now number f))
        (λ f. IsOfOne definitions.now number f.number (plain_inst f.inst.now)) }
{
    one_standing();
    match definitions.place(number).function {
        Some(function) => Some(Function {
            number: function,
            inst: definitions.inst(function),
        }),
        None => None,
    }
}

/// Whether a function returns void.
#[inline(always)]
fn returns_nothing(definitions: &Definitions, function: &Inst) -> bool
    ensures { IsTrue result ↔ ReturnsNothing definitions.now (plain_inst function.now) }
{
    match type_in(function.operands.as_slice()) {
        Some(r) => match definitions.read_form(r) {
            Some(Form::Void) => true,
            _ => false,
        },
        None => false,
    }
}

/// Whether Y7 is unbroken at the OpReturn of a number.
#[inline(always)]
pub fn is_sound_return(definitions: &Definitions, number: u32) -> bool
    requires { number < length definitions.now }
    ensures { IsTrue result ↔ IsSoundReturn definitions.now number }
{
    match function_of(definitions, number) {
        Some(function) => returns_nothing(definitions, function.inst),
        None => false,
    }
}

/// Whether a function returns the type that the first id is declared with.
fn returns_value(definitions: &Definitions, function: &Inst, operands: &[Operand]) -> bool
    ensures { IsTrue result ↔ IsSomeAnd (types_of definitions.now (take 1 (ids_in (plain_operands operands.now))))
        (ReturnsTyped (plain_inst function.now)) }
{
    match operands {
        [Operand::Id(x), ..] => match (
            definitions.type_of(*x),
            type_in(function.operands.as_slice()),
        ) {
            (Some(t), Some(r)) => t == r,
            _ => false,
        },
        _ => false,
    }
}

/// Whether Y7 is unbroken at the OpReturnValue of a number.
pub fn is_sound_return_value(definitions: &Definitions, number: u32, inst: &Inst) -> bool
    requires { number < length definitions.now }
    ensures { IsTrue result ↔ IsSoundReturnValue definitions.now number (plain_inst inst.now) }
{
    match function_of(definitions, number) {
        Some(function) => returns_value(definitions, function.inst, inst.operands.as_slice()),
        None => false,
    }
}

/// The function type that an OpFunction names.
#[inline(always)]
pub fn function_type(function: &Inst) -> Option<u32>
    ensures { result ≡ function_type_in (plain_inst function.now) }
{
    match (function.opcode, after_head(function.operands.as_slice())) {
        (opcode::FUNCTION, [_, Operand::Id(t), ..]) => Some(*t),
        _ => None,
    }
}

/// What follows the result of a function's type: what it returns, and what it takes.
#[inline(always)]
pub fn signature<'m, 'a>(
    definitions: &Definitions<'m, 'a>,
    function: &Inst,
) -> Option<&'m [Operand<'a>]>
    ensures { option_map (λ os. plain_operands os.now) result ≡ signature_of definitions.now
        (plain_inst function.now) }
{
    let t = function_type(function)?;
    let inst = definitions.definition(t)?;
    match inst.opcode {
        opcode::TYPE_FUNCTION => Some(after_result(inst.operands.as_slice())),
        _ => None,
    }
}

/// Whether an id is declared with a type.
fn is_typed(definitions: &Definitions, t: u32, x: u32) -> bool
    ensures { result ≡ has_type definitions.now t x }
{
    match definitions.type_of(x) {
        Some(u) => u == t,
        None => false,
    }
}

/// Whether the ids at the front of the arguments are declared with the types that the others are, one for each.
fn are_all_typed(definitions: &Definitions, arguments: &[Operand], types: &[Operand]) -> bool
    ensures { result ≡ are_typed definitions.now (ids_in (plain_operands arguments.now)) (plain_operands types.now) }
{
    let mut left = arguments;
    let mut due = types;
    loop {
        match (left, due) {
            ([Operand::Id(x), later @ ..], [Operand::Id(t), next @ ..]) => {
                if !is_typed(definitions, *t, *x) {
                    return false;
                }
                left = later;
                due = next;
            }
            ([Operand::Id(_), ..], _) => return false,
            (_, []) => return true,
            _ => return false,
        }
    }
}

/// Whether what a function type names is r, and then the types that the ids at the front of the arguments are declared
/// with.
#[inline(always)]
fn fits_signature(
    definitions: &Definitions,
    r: u32,
    signature: &[Operand],
    arguments: &[Operand],
) -> bool
    ensures { result ≡ has_signature definitions.now r (plain_operands signature.now)
        (ids_in (plain_operands arguments.now)) }
{
    match signature {
        [Operand::Id(t), parameters @ ..] => *t == r
            && are_all_typed(definitions, arguments, parameters),
        _ => false,
    }
}

/// Whether a function returns r and takes the types that the arguments are declared with.
#[inline(always)]
fn takes(definitions: &Definitions, r: u32, callee: &Inst, arguments: &[Operand]) -> bool
    ensures { IsTrue result ↔ IsSomeAnd (types_of definitions.now (ids_in (plain_operands arguments.now)))
        (CallsTyped definitions.now (plain_inst callee.now) r) }
{
    match signature(definitions, callee) {
        Some(signature) => fits_signature(definitions, r, signature, arguments),
        None => false,
    }
}

/// Whether the operands after the head of a call with the result type r begin with a function of that type.
#[inline(always)]
fn calls_soundly(definitions: &Definitions, r: u32, operands: &[Operand]) -> bool
    ensures { IsTrue result ↔ CallsSoundly definitions.now r (plain_operands operands.now) }
{
    match operands {
        [Operand::Id(f), arguments @ ..] => match definitions.definition(*f) {
            Some(callee) => takes(definitions, r, callee, arguments),
            None => false,
        },
        _ => false,
    }
}

/// Whether Y8 is unbroken at an OpFunctionCall.
#[inline(always)]
pub fn is_sound_call(definitions: &Definitions, inst: &Inst) -> bool
    ensures { IsTrue result ↔ IsSoundCall definitions.now (plain_inst inst.now) }
{
    let operands = inst.operands.as_slice();
    match type_in(operands) {
        Some(r) => calls_soundly(definitions, r, after_head(operands)),
        None => false,
    }
}

/// Whether an opcode ends the parameters of a function: that of OpLabel or OpFunctionEnd.
fn ends_parameters(number: u16) -> bool
    ensures { result ≡ (nat_eq number opcode.LABEL || nat_eq number opcode.FUNCTION_END) }
{
    number == opcode::LABEL || number == opcode::FUNCTION_END
}

/// How many parameters there are before the first OpLabel or OpFunctionEnd.
#[inline(always)]
pub fn count_parameters(insts: &[Inst]) -> usize
    ensures { result ≡ parameters_in (map plain_inst insts.now) }
{
    let mut count = 0;
    for inst in insts {
        if ends_parameters(inst.opcode) {
            return count;
        }
        if inst.opcode == opcode::FUNCTION_PARAMETER {
            count += 1;
        }
    }
    count
}

/// Whether a function type's return type is r, and so many parameters follow it.
#[inline(always)]
fn returns_after(r: Option<u32>, count: usize, signature: &[Operand]) -> bool
    ensures { IsTrue result ↔ ReturnsAfter r count (plain_operands signature.now) }
{
    match (r, signature) {
        (Some(r), [Operand::Id(t), parameters @ ..]) => r == *t && parameters.len() == count,
        _ => false,
    }
}

/// Whether Y6 is unbroken at the OpFunction of a number, which so many parameters follow.
#[inline(always)]
pub fn is_sound_function(definitions: &Definitions, number: u32, inst: &Inst, count: usize) -> bool
    requires { parameters_after definitions.now number ≡ count }
    ensures { IsTrue result ↔ IsSoundFunction definitions.now number (plain_inst inst.now) }
{
    match signature(definitions, inst) {
        Some(signature) => returns_after(type_in(inst.operands.as_slice()), count, signature),
        None => false,
    }
}

/// The type of a parameter by the type of its function, where so many parameters are before it.
pub fn parameter_type(definitions: &Definitions, function: &Inst, before: u32) -> Option<u32>
    ensures { result ≡ parameter_type_of definitions.now (plain_inst function.now) before }
{
    let signature = signature(definitions, function)?;
    match signature.get(before as usize + 1)? {
        Operand::Id(t) => Some(*t),
        _ => None,
    }
}

/// Whether a parameter has the type at its place in the type of a function, where so many parameters are before it.
fn is_parameter(definitions: &Definitions, inst: &Inst, function: &Inst, before: u32) -> bool
    ensures { IsTrue result ↔ IsSomeAnd (plain_type_in (plain_inst inst.now).operands)
        (λ t. parameter_type_of definitions.now (plain_inst function.now) before ≡ Some t) }
{
    match (
        parameter_type(definitions, function, before),
        type_in(inst.operands.as_slice()),
    ) {
        (Some(u), Some(t)) => u == t,
        _ => false,
    }
}

/// Whether Y6 is unbroken at the OpFunctionParameter of a number, where so many parameters of its function are before
/// it.
pub fn is_sound_parameter(definitions: &Definitions, number: u32, inst: &Inst, before: u32) -> bool
    requires number { number < length definitions.now }
    requires before { (f : ℕ) → IsOfFunction definitions.now number f
        → parameters_between definitions.now f number ≡ before }
    ensures { IsTrue result ↔ IsSoundParameter definitions.now number (plain_inst inst.now) }
{
    match function_of(definitions, number) {
        Some(function) => is_parameter(definitions, inst, function.inst, before),
        None => false,
    }
}
