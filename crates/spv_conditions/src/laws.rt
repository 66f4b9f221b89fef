//! Worked examples. Each function does nothing: its contract is what is proved.

ghost use Rattle.std.specs.Prelude.{◌≡◌, [], ◌∷◌, Some, None, IsSome, true, false};
ghost use Rattle.spv_module.specs.Operand.{Id, Text, Value, Word};
ghost use Rattle.spv_type_forms.specs.Example.{small, lone_variable, objects, twins};
ghost use Rattle.spv_conditions.specs.Block.{AreLocals, IsBlock, IsLocalSize};
ghost use Rattle.spv_conditions.specs.Further.{after_enumerant, AreMembers, AreSome, IsGroup, IsSilent, IsText, IsVoid};
ghost use Rattle.spv_conditions.specs.Image.{plane_in};
ghost use Rattle.spv_conditions.specs.Texels.{is_mask, values_end};
ghost use Rattle.spv_conditions.specs.declared.asked.Texels.TheVariants as texels;
ghost use Rattle.spv_type_kinds.specs.declared.kinds.Images.TheVariants as images;
ghost use Rattle.spv_type_kinds.specs.declared.kinds.Kind.TheVariants as kind;
ghost use Rattle.spv_type_kinds.specs.declared.kinds.Relation.TheVariants as relation;
ghost use Rattle.spv_conditions.specs.declared.asked.Asked.TheVariants as asked;
ghost use Rattle.spv_conditions.specs.declared.asked.Asks.TheVariants as asks;
ghost use Rattle.spv_conditions.specs.declared.asked.Each.TheVariants as each;
ghost use Rattle.spv_conditions.specs.declared.asked.Rest.TheVariants as rest;
ghost use Rattle.spv_type_kinds.specs.declared.kinds.Kind.TheVariants.{Ints, Composite, Int, Data};
ghost use Rattle.spv_type_kinds.specs.declared.kinds.Relation.TheVariants.{OtherWidth, Same, SameClass, SameCount};
ghost use Rattle.spv_type_kinds.specs.declared.kinds.Relation.TheVariants.{SameComponent};
ghost use Rattle.spv_conditions.specs.declared.seat.Seat.TheVariants as seat;
ghost use Rattle.spv_conditions.specs.Asks.{conditions_in};
ghost use Rattle.spv_conditions.specs.Chain.{led_by, led_to};
ghost use Rattle.spv_conditions.specs.Condition.{Agrees, FailsFirst, Holds, IsNamedClass, IsOf};
ghost use Rattle.spv_conditions.specs.Example.{call, kernels, no_weight, one_weight, sets};
ghost use Rattle.spv_conditions.specs.Path.{reached_by, stop_at};
ghost use Rattle.spv_conditions.specs.Rest.{RestHolds, IsComponent, IsShare};
ghost use Rattle.spv_conditions.specs.Variable.{HasClass, MayHave, MayInitialize};

/// Conditions of types of the module of `type_examples` of spv_type_forms that hold, and some that do not: `%1` and
/// `%14` are ints of width 32 and 64, `%2` a float, `%3` and `%15` vectors of four and two of `%1`, `%13` of four
/// bools; `%6` a struct of `%1` and `%2`; `%4` and `%7` pointers of CrossWorkgroup to `%2` and `%6`, `%16` of Generic
/// to `%2`.
pub fn condition_examples()
    ensures kind { IsOf small Ints 3 }
    ensures no_kind { ¬ (IsOf small Ints 2) }
    ensures count { Agrees small SameCount 1 14 }
    ensures no_count { ¬ (Agrees small SameCount 1 3) }
    ensures width { Agrees small OtherWidth 1 14 }
    ensures no_width { ¬ (Agrees small OtherWidth 1 1) }
    ensures class { Agrees small SameClass 4 7 }
    ensures no_class { ¬ (Agrees small SameClass 4 16) }
    // Two structs of one int, and one of them beside itself.
    ensures matches { Agrees twins relation.Matches 2 3 }
    ensures itself { ¬ (Agrees twins relation.Matches 2 2) }
    ensures named { IsNamedClass 5 }
    ensures generic { ¬ (IsNamedClass 8) }
    // Of an int and a float the first that is no int.
    ensures first { FailsFirst (Holds small (λ q. ⊥) None (1 ∷ 2 ∷ []))
        (asked.Kind Int (seat.Value 0) ∷ asked.Kind Int (seat.Value 1) ∷ []) (asked.Kind Int (seat.Value 1)) }
    ensures not_first { ¬ (FailsFirst (Holds small (λ q. ⊥) None (1 ∷ 2 ∷ []))
        (asked.Kind Int (seat.Value 0) ∷ []) (asked.Kind Int (seat.Value 0))) }
    // Of two values, and of one.
    ensures each { conditions_in (asks.Each each.Same ∷ asks.Once (asked.Kind Data seat.Result) ∷ []) 2
        ≡ asked.Relation Same (seat.Value 0) seat.Result ∷ asked.Relation Same (seat.Value 1) seat.Result
        ∷ asked.Kind Data seat.Result ∷ [] }
    ensures indexes { conditions_in (asks.Indexes false ∷ []) 2
        ≡ asked.Kind Int (seat.Value 1) ∷ asked.Rest (rest.Chosen false 0) ∷ [] }
    ensures no_indexes { ¬ (conditions_in (asks.Indexes true ∷ []) 2 ≡ asked.Kind Int (seat.Value 1) ∷ []) }
{}

/// Which literals name a component, and which values are constituents, in that module.
pub fn rest_examples()
    ensures literal { IsComponent 4 3 }
    ensures no_literal { ¬ (IsComponent 4 4) }
    ensures share { IsShare small 1 3 }
    ensures no_share { ¬ (IsShare small 2 3) }
    ensures composite { IsOf small Composite 6 }
    ensures no_composite { ¬ (IsOf small Composite 2) }
    ensures component { Agrees small SameComponent 3 15 }
    ensures no_component { ¬ (Agrees small SameComponent 3 13) }
{}

/// What is asked of an OpVariable: %7 is a pointer of the storage class CrossWorkgroup, of number 5.
pub fn variable_examples()
    ensures class { HasClass small (Some 7) (Value 0 5 ∷ []) }
    ensures no_class { ¬ (HasClass small (Some 7) (Value 0 4 ∷ [])) }
    ensures constant { MayInitialize small 18 }
    ensures initializer { ¬ (MayInitialize lone_variable 7) }
    ensures place { MayHave lone_variable 0 5 }
    ensures no_place { ¬ (MayHave lone_variable 0 7) }
{}

/// What is asked of the weights of an OpBranchConditional: one without any, and one with one.
pub fn weight_examples()
    ensures none { RestHolds small 8 no_weight None (12 ∷ []) rest.Weights }
    ensures one { ¬ (RestHolds small 8 one_weight None (12 ∷ []) rest.Weights) }
{}

/// Where indexes of an access chain lead: %8 is a variable whose type, %7, is a pointer to the struct type %6 of an int
/// and a float; %5 is an OpConstant, of number 1, and %18 an OpSpecConstant.
pub fn chain_examples()
    ensures led { led_to small false (8 ∷ 5 ∷ []) (7 ∷ 1 ∷ []) ≡ Some 2 }
    ensures not_led { ¬ (led_to small false (8 ∷ 5 ∷ []) (7 ∷ 1 ∷ []) ≡ Some 1) }
    ensures chosen { IsSome (led_by small true (8 ∷ 5 ∷ 5 ∷ []) (7 ∷ 1 ∷ 1 ∷ []) 1) }
    ensures not_chosen { ¬ (IsSome (led_by small false (8 ∷ 18 ∷ []) (7 ∷ 1 ∷ []) 1)) }
{}

/// Where literals lead as indexes, in that module.
pub fn path_examples()
    ensures reached { reached_by small (1 ∷ []) 6 ≡ 2 }
    ensures not_reached { ¬ (reached_by small (2 ∷ []) 6 ≡ 2) }
    ensures stop { stop_at small 0 (Word 1 ∷ Word 0 ∷ []) 6 ≡ Some 1 }
    ensures no_stop { ¬ (stop_at small 0 (Word 1 ∷ []) 6 ≡ Some 0) }
{}

/// What images of the module `objects` of spv_type_forms ask: `%4` is a type of images of two dimensions, whose sampled
/// type is the float type `%3`, `%5` its sampled image type; `%1` and `%2` are ints, `%6` pipes.
pub fn image_examples()
    ensures sampled { IsOf objects (kind.Image images.Sampled) 4 }
    ensures no_image { ¬ (IsOf objects (kind.Image images.Sampled) 6) }
    ensures fetched { ¬ (IsOf objects (kind.Image images.Fetched) 4) }
    ensures with_sampler { IsOf objects kind.SampledImage 5 }
    ensures without { ¬ (IsOf objects kind.SampledImage 4) }
    ensures of { Agrees objects relation.SampledImageOf 5 4 }
    ensures not_of { ¬ (Agrees objects relation.SampledImageOf 4 5) }
    ensures texel { Agrees objects relation.Texel 3 4 }
    ensures int_texel { ¬ (Agrees objects relation.Texel 1 4) }
    ensures one_place { ¬ (Agrees objects relation.Place 1 4) }
    // A cube has three coordinates, and a size of two; a layer is one more.
    ensures plane { plane_in 3 ≡ Some 3 }
    ensures no_plane { ¬ (plane_in 6 ≡ Some 3) }
{}

/// The masks of image operands: Lod where an image is sampled, and nowhere else together with Grad.
pub fn mask_examples()
    ensures lod { is_mask texels.Sampled 2 ≡ true }
    ensures nothing { ¬ (is_mask texels.Sampled 0 ≡ true) }
    ensures none { is_mask texels.Read 0 ≡ true }
    ensures grad { ¬ (is_mask texels.Read 4 ≡ true) }
    ensures unknown { ¬ (is_mask texels.Read 16 ≡ true) }
    // An image and a coordinate, the two values of Grad, and that of ConstOffset.
    ensures values { values_end texels.Sampled 12 ≡ 5 }
    ensures no_values { ¬ (values_end texels.Sampled 12 ≡ 4) }
{}

/// What instructions outside blocks ask: an extended one of a set without meaning, or not; members of a struct of two;
/// a decoration group.
pub fn further_examples()
    ensures silent { IsSilent sets (call 1) }
    ensures loud { ¬ (IsSilent sets (call 3)) }
    ensures void { IsVoid sets (Some 2) }
    ensures no_void { ¬ (IsVoid sets (Some 5)) }
    ensures group { IsGroup sets 4 }
    ensures no_group { ¬ (IsGroup sets 6) }
    ensures past { ¬ (AreMembers sets None (Id 6 ∷ Word 2 ∷ [])) }
    ensures waiting { ¬ (AreMembers sets None (Id 6 ∷ [])) }
    ensures texts { AreSome IsText (after_enumerant (Id 4 ∷ Value 0 5635 ∷ Text [] ∷ [])) }
    ensures no_text { ¬ (AreSome IsText (after_enumerant (Id 4 ∷ Value 0 5635 ∷ []))) }
{}

/// What blocks ask, of a module whose `%6` is a function that takes a pointer `%3` to bytes, and a pointer `%4` of the
/// storage class Workgroup: the function is the id before the first value of the block.
pub fn block_examples()
    ensures data { IsOf kernels kind.Int8Pointer 3 }
    ensures no_data { ¬ (IsOf kernels kind.Int8Pointer 2) }
    ensures block { IsBlock kernels (6 ∷ []) 0 (3 ∷ 2 ∷ 2 ∷ []) }
    ensures other_data { ¬ (IsBlock kernels (6 ∷ []) 0 (4 ∷ 2 ∷ 2 ∷ [])) }
    ensures no_function { ¬ (IsBlock kernels (5 ∷ []) 0 (3 ∷ 2 ∷ 2 ∷ [])) }
    ensures size { IsLocalSize kernels 3 }
    ensures no_size { ¬ (IsLocalSize kernels 1) }
    ensures locals { AreLocals kernels (6 ∷ []) 0 (3 ∷ 2 ∷ 2 ∷ 2 ∷ []) }
    ensures no_locals { ¬ (AreLocals kernels (6 ∷ []) 0 (3 ∷ 2 ∷ 2 ∷ [])) }
{}
