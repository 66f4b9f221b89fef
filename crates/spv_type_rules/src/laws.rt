//! Worked examples. Each function does nothing: its contract is what is proved.

ghost use Rattle.std.specs.Prelude.{◌≡◌, [], ◌∷◌, Some, None, false};
ghost use Rattle.spv_module.specs.declared.opcode.TheConstants as opcode;
ghost use Rattle.spv_module.specs.declared.fault.Rule.TheVariants as rule;
ghost use Rattle.spv_module.specs.Operand.{PlainInst, OfType, Result, Id, Word, Value, Mask};
ghost use Rattle.spv_type_forms.specs.Example.{inst, objects, pipes};
ghost use Rattle.spv_type_rules.specs.Declaration.{IsLength, IsPointerAfter, DeclaresSoundly};
ghost use Rattle.spv_type_rules.specs.Asked.{IsIntWidth, IsFloatWidth, IsVectorCount, IsPointee, IsReturned};
ghost use Rattle.spv_type_rules.specs.inner.Declaration.{IsSoundDeclaration};
ghost use Rattle.spv_type_rules.specs.declared.declaration.Declaration.TheVariants as kind;
ghost use Rattle.spv_type_rules.specs.declared.constant.Constant.TheVariants as constant_kind;
ghost use Rattle.spv_type_rules.specs.Constant.{IsPart, FitsWidth, AreConstantParts, Constitutes};
ghost use Rattle.spv_type_rules.specs.inner.Constant.{IsSoundConstant};
ghost use Rattle.spv_type_rules.specs.Repeat.{Repeats};
ghost use Rattle.spv_type_rules.specs.inner.Repeat.{AreAlike};
ghost use Rattle.spv_type_rules.specs.Function.{ReturnsAfter, CallsTyped, CallsSoundly, ReturnsNothing, ReturnsTyped};
ghost use Rattle.spv_type_rules.specs.Function.{parameters_between};
ghost use Rattle.spv_type_rules.specs.inner.Function.{IsSoundFunction, IsSoundParameter, IsSoundReturn};
ghost use Rattle.spv_type_rules.specs.inner.Function.{IsSoundReturnValue, IsSoundCall};
ghost use Rattle.spv_type_rules.specs.Keeps.{Keeps};
ghost use Rattle.spv_type_rules.specs.inner.Rules.{Unasked, IsFirstRule, IsFirstHere};
ghost use Rattle.spv_type_rules.specs.Example.{small, constant, wide_constant, again, call, short_call, function};
ghost use Rattle.spv_type_rules.specs.Example.{parameter, with_struct, pointers, returning, image, samplers};

/// Declarations and constants of a small module that are sound, and such as are not.
pub fn declaration_examples()
    ensures array { IsSoundDeclaration small 7 (inst opcode.TYPE_ARRAY (Result 9 ∷ Id 1 ∷ Id 5 ∷ [])) }
    // `%2` is void, and no length.
    ensures no_array { ¬ (IsSoundDeclaration small 7 (inst opcode.TYPE_ARRAY (Result 9 ∷ Id 1 ∷ Id 2 ∷ []))) }
    // No count of a vector is 5.
    ensures no_vector { ¬ (IsSoundDeclaration small 7 (inst opcode.TYPE_VECTOR (Result 9 ∷ Id 1 ∷ Word 5 ∷ []))) }
    ensures constant { IsSoundConstant small constant }
    // 300 has more than eight bits.
    ensures wide_constant { ¬ (IsSoundConstant small wide_constant) }
    ensures again { Repeats small 7 again }
    ensures first { ¬ (Repeats small 0 again) }
{}

/// A function `%4` of one parameter, which is a declaration, and calls of it.
pub fn function_examples()
    ensures function { IsSoundFunction small 4 (inst opcode.FUNCTION (OfType 1 ∷ Result 4 ∷ Mask 9 0 ∷ Id 3 ∷ [])) }
    // Before another instruction, no parameter would follow.
    ensures no_function { ¬
        (IsSoundFunction small 5 (inst opcode.FUNCTION (OfType 1 ∷ Result 4 ∷ Mask 9 0 ∷ Id 3 ∷ []))) }
    ensures before { parameters_between small 4 6 ≡ 1 }
    ensures call { IsSoundCall small call }
    ensures short_call { ¬ (IsSoundCall small short_call) }
    // The function %4 returns an int, %1, and neither void nor %2.
    ensures something { ¬ (ReturnsNothing small (inst opcode.FUNCTION (OfType 1 ∷ Result 4 ∷ Mask 9 0 ∷ Id 3 ∷ []))) }
    ensures typed { ReturnsTyped (inst opcode.FUNCTION (OfType 1 ∷ Result 4 ∷ Mask 9 0 ∷ Id 3 ∷ [])) (1 ∷ []) }
    ensures not_typed { ¬ (ReturnsTyped (inst opcode.FUNCTION (OfType 1 ∷ Result 4 ∷ Mask 9 0 ∷ Id 3 ∷ [])) (2 ∷ [])) }
{}

/// What Y2, Y4 and Y8 demand of instructions.
pub fn demand_examples()
    ensures declaration { Keeps Unasked small rule.Y2 7 (inst opcode.TYPE_VECTOR (Result 9 ∷ Id 1 ∷ Word 4 ∷ [])) }
    ensures no_declaration { ¬
        (Keeps Unasked small rule.Y2 7 (inst opcode.TYPE_VECTOR (Result 9 ∷ Id 1 ∷ Word 5 ∷ []))) }
    // Y2 demands nothing of a constant.
    ensures other { Keeps Unasked small rule.Y2 7 wide_constant }
    ensures no_constant { ¬ (Keeps Unasked small rule.Y4 7 wide_constant) }
    ensures call { Keeps Unasked small rule.Y8 7 call }
    ensures no_call { ¬ (Keeps Unasked small rule.Y8 7 short_call) }
{}

/// Widths, counts, lengths, and what pointers and functions may name.
pub fn width_examples()
    ensures int_width { IsIntWidth 16 }
    ensures no_int_width { ¬ (IsIntWidth 24) }
    ensures float_width { IsFloatWidth 64 }
    ensures no_float_width { ¬ (IsFloatWidth 8) }
    ensures count { IsVectorCount 3 }
    ensures no_count { ¬ (IsVectorCount 5) }
    ensures length { IsLength small 5 }
    ensures no_length { ¬ (IsLength small 2) }
    // `%2` is void, which is returned and not pointed to; `%3` is a function type.
    ensures pointee { IsPointee small 1 }
    ensures no_pointee { ¬ (IsPointee small 2) }
    ensures returned { IsReturned small 2 }
    ensures not_returned { ¬ (IsReturned small 3) }
    // The pointer stands after the first instruction, and is of CrossWorkgroup.
    ensures pointer_after { IsPointerAfter pointers 0 1 5 }
    ensures other_class { ¬ (IsPointerAfter pointers 0 1 7) }
{}

/// Operands of declarations.
pub fn operand_examples()
    ensures int { DeclaresSoundly small 7 kind.Int (Result 9 ∷ Word 16 ∷ Word 0 ∷ []) }
    ensures signed { ¬ (DeclaresSoundly small 7 kind.Int (Result 9 ∷ Word 16 ∷ Word 1 ∷ [])) }
    ensures float { DeclaresSoundly small 7 kind.Float (Result 9 ∷ Word 32 ∷ []) }
    ensures short_float { ¬ (DeclaresSoundly small 7 kind.Float (Result 9 ∷ Word 8 ∷ [])) }
    ensures members { DeclaresSoundly small 7 kind.Struct (Result 9 ∷ Id 1 ∷ Id 1 ∷ []) }
    ensures void_member { ¬ (DeclaresSoundly small 7 kind.Struct (Result 9 ∷ Id 2 ∷ [])) }
    ensures pointer { DeclaresSoundly small 7 kind.Pointer (Result 9 ∷ Value 0 5 ∷ Id 1 ∷ []) }
    ensures void_pointer { ¬ (DeclaresSoundly small 7 kind.Pointer (Result 9 ∷ Value 0 5 ∷ Id 2 ∷ [])) }
    ensures function { DeclaresSoundly small 7 kind.Function (Result 9 ∷ Id 2 ∷ Id 1 ∷ []) }
    ensures void_parameter { ¬ (DeclaresSoundly small 7 kind.Function (Result 9 ∷ Id 1 ∷ Id 2 ∷ [])) }
    ensures forward { DeclaresSoundly pointers 0 kind.Forward (Id 1 ∷ Value 0 5 ∷ []) }
    ensures other_forward { ¬ (DeclaresSoundly pointers 0 kind.Forward (Id 1 ∷ Value 0 7 ∷ [])) }
{}

/// What constants are made of.
pub fn part_examples()
    ensures part { IsPart small false 5 }
    ensures no_part { ¬ (IsPart small false 1) }
    ensures fits { FitsWidth small 1 255 }
    ensures wide { ¬ (FitsWidth small 1 256) }
    ensures parts { AreConstantParts with_struct false 10 (5 ∷ 5 ∷ []) }
    ensures one_part { ¬ (AreConstantParts with_struct false 10 (5 ∷ [])) }
    ensures boolean { Constitutes with_struct constant_kind.Bool 11 [] }
    ensures no_boolean { ¬ (Constitutes with_struct constant_kind.Bool 1 []) }
    ensures null { Constitutes small constant_kind.Null 1 [] }
    ensures void_null { ¬ (Constitutes small constant_kind.Null 2 []) }
    // The same opcode and operands, the result aside.
    ensures alike { AreAlike again (inst opcode.TYPE_INT (Result 1 ∷ Word 8 ∷ Word 0 ∷ [])) }
    ensures unlike { ¬ (AreAlike again (inst opcode.TYPE_INT (Result 7 ∷ Word 16 ∷ Word 0 ∷ []))) }
{}

/// Signatures, parameters and returns.
pub fn return_examples()
    ensures after { ReturnsAfter (Some 1) 1 (Id 1 ∷ Id 1 ∷ []) }
    ensures fewer { ¬ (ReturnsAfter (Some 1) 2 (Id 1 ∷ Id 1 ∷ [])) }
    ensures called { CallsTyped small function 1 (1 ∷ []) }
    ensures no_argument { ¬ (CallsTyped small function 1 []) }
    ensures nothing { ReturnsNothing returning (inst opcode.FUNCTION (OfType 1 ∷ Result 3 ∷ Mask 8 0 ∷ Id 2 ∷ [])) }
    // The parameter of the function stands at instruction 5, as would a value that is returned.
    ensures parameter { IsSoundParameter small 5 parameter }
    ensures other_parameter { ¬ (IsSoundParameter small 5 (inst opcode.FUNCTION_PARAMETER (OfType 2 ∷ Result 8 ∷ []))) }
    ensures value { IsSoundReturnValue small 5 (inst opcode.RETURN_VALUE (Id 5 ∷ [])) }
    // `%2` is a type, and has none.
    ensures no_value { ¬ (IsSoundReturnValue small 5 (inst opcode.RETURN_VALUE (Id 2 ∷ []))) }
    ensures void_return { IsSoundReturn returning 3 }
    ensures int_return { ¬ (IsSoundReturn small 5) }
{}

/// What Y3, Y6 and Y7 demand of instructions.
pub fn keep_examples()
    // A type of ints of width 8 in the place of the first, and after it.
    ensures first { Keeps Unasked small rule.Y3 0 again }
    ensures again { ¬ (Keeps Unasked small rule.Y3 7 again) }
    ensures function { Keeps Unasked small rule.Y6 4 function }
    // Before another instruction, no parameter would follow.
    ensures no_function { ¬ (Keeps Unasked small rule.Y6 5 function) }
    ensures parameter { Keeps Unasked small rule.Y6 5 parameter }
    ensures other_parameter { ¬
        (Keeps Unasked small rule.Y6 5 (inst opcode.FUNCTION_PARAMETER (OfType 2 ∷ Result 8 ∷ []))) }
    ensures returned { Keeps Unasked returning rule.Y7 3 (inst opcode.RETURN []) }
    // The function %4 returns an int.
    ensures not_returned { ¬ (Keeps Unasked small rule.Y7 5 (inst opcode.RETURN [])) }
{}

/// Calls of the function `%4`, and the first rule that is broken at an instruction.
pub fn first_examples()
    ensures call { CallsSoundly small 1 (Id 4 ∷ Id 5 ∷ []) }
    ensures no_argument { ¬ (CallsSoundly small 1 (Id 4 ∷ [])) }
    // A vector of five breaks Y2, which comes before Y3.
    ensures vector { IsFirstRule small 7 (inst opcode.TYPE_VECTOR (Result 9 ∷ Id 1 ∷ Word 5 ∷ [])) rule.Y2 }
    ensures later { ¬
        (IsFirstRule small 7 (inst opcode.TYPE_VECTOR (Result 9 ∷ Id 1 ∷ Word 5 ∷ [])) rule.Y3) }
    ensures here { IsFirstHere small 7 short_call (Some rule.Y8) }
    ensures none_here { ¬ (IsFirstHere small 7 short_call None) }
{}

/// Declarations of objects, in a module of `%3`, a float, `%4`, images of two dimensions, `%5`, those with a sampler,
/// `%6`, pipes, `%7`, queues, and `%14`, pipe storage; `%13` is a struct of `%7` and an int, `%15` a constant of `%14`.
pub fn object_examples()
    ensures image { IsSoundDeclaration objects 16 (image 4 3 0 0) }
    // The sampled type is a pipe; Arrayed is 2; Sampled is 3.
    ensures no_sampled_type { ¬ (IsSoundDeclaration objects 16 (image 4 6 0 0)) }
    ensures no_arrayed { ¬ (IsSoundDeclaration objects 16 (image 4 3 2 0)) }
    ensures no_sampled { ¬ (IsSoundDeclaration objects 16 (image 4 3 0 3)) }
    ensures sampled { IsSoundDeclaration objects 16 (inst opcode.TYPE_SAMPLED_IMAGE (Result 19 ∷ Id 4 ∷ [])) }
    ensures no_image { ¬ (IsSoundDeclaration objects 16 (inst opcode.TYPE_SAMPLED_IMAGE (Result 19 ∷ Id 6 ∷ []))) }
    ensures pointee { IsPointee objects 4 }
    ensures no_pointee { ¬ (IsPointee objects 5) }
    ensures returned { IsReturned objects 4 }
    ensures not_returned { ¬ (IsReturned objects 5) }
    // A second type of queues, after the first.
    ensures again { Repeats objects 16 (inst opcode.TYPE_QUEUE (Result 19 ∷ [])) }
    // The first type of queues, after one of samplers.
    ensures another { ¬ (Repeats samplers 1 (inst opcode.TYPE_QUEUE (Result 2 ∷ []))) }
{}

/// Constants of them.
pub fn object_constant_examples()
    ensures storage { Constitutes objects constant_kind.PipeStorage 14 [] }
    ensures no_storage { ¬ (Constitutes objects constant_kind.PipeStorage 6 []) }
    ensures sampler { Constitutes samplers constant_kind.Sampler 1 (Value 0 0 ∷ Word 1 ∷ Value 1 0 ∷ []) }
    ensures no_word { ¬ (Constitutes samplers constant_kind.Sampler 1 (Value 0 0 ∷ Word 2 ∷ Value 1 0 ∷ [])) }
    ensures no_sampler { ¬ (Constitutes objects constant_kind.Sampler 1 (Value 0 0 ∷ Word 1 ∷ Value 1 0 ∷ [])) }
    // A queue and an int have null values, and pipes have none, nor an array of them.
    ensures null { Constitutes objects constant_kind.Null 13 [] }
    ensures no_null { ¬ (Constitutes pipes constant_kind.Null 2 []) }
    ensures part { IsPart objects false 15 }
{}
