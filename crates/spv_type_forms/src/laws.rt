//! Laws of the definitions, and worked examples. Each function does nothing: its contract is what is proved.

ghost use Rattle.std.specs.Prelude.{◌≡◌, ◌↔◌, ℕ, List, [], ◌∷◌, Some, None};
ghost use Rattle.spv_module.specs.Operand.{PlainInst};
ghost use Rattle.spv_type_forms.specs.declared.form.Sort.TheVariants as sort;
ghost use Rattle.spv_type_forms.specs.Reach.{ReachesType, AreWithin};
ghost use Rattle.spv_type_forms.specs.inner.Reach.{LeadsToType};
ghost use Rattle.spv_type_forms.specs.Form.{form_of};
ghost use Rattle.spv_type_forms.specs.Types.{IsInt, IsFloat, IsBool, IsSomeInt, IsNumber, HasSort};
ghost use Rattle.spv_type_forms.specs.inner.Types.{IsI, IsF, IsB, IsOf};
ghost use Rattle.spv_type_forms.specs.Types.{IsVector, IsPointer, IsData, IsObject, IsPlain, PointsTo};
ghost use Rattle.spv_type_kinds.specs.declared.kinds.Object.TheVariants as object;
ghost use Rattle.spv_type_forms.specs.Objects.{image_of, pipe_access_of, IsSizeInt, IsSizeArray};
ghost use Rattle.spv_type_forms.specs.Objects.{IsRangeStruct, IsRange};
ghost use Rattle.spv_type_forms.specs.Null.{IsNullable};
ghost use Rattle.spv_type_forms.specs.Matches.{Matches};
ghost use Rattle.spv_type_forms.specs.Parts.{AreParts};
ghost use Rattle.spv_type_forms.specs.Definitions.{IsConstant, IsGlobal};
ghost use Rattle.spv_type_forms.specs.Values.{types_of};
ghost use Rattle.spv_type_forms.specs.Example.{small, lone_variable, objects, pipes, twins};
ghost use Rattle.spv_type_forms.specs.inner.Walk.{walk, choices};

/// By a list of indexes a type reaches at most one type.
pub fn one_reach()
    ensures { (is : List PlainInst) (ks : List ℕ) (t u v : ℕ) → ReachesType is t ks u → ReachesType is t ks v
        → u ≡ v }
{}

/// The walk by indexes, one after another, decides what they reach within the parts of each type.
pub fn reach_decided()
    ensures { (is : List PlainInst) (ks : List ℕ) (t u : ℕ) → (walk is ks t ≡ Some u)
        ↔ (AreWithin is t ks × ReachesType is t ks u) }
{}

/// So does the walk by the indexes of an access chain.
pub fn chain_decided()
    ensures { (is : List PlainInst) (xs : List ℕ) (t u : ℕ) → (choices is xs t ≡ Some u)
        ↔ (LeadsToType is t xs u) }
{}

/// Types of a small module: `%1` and `%14` are ints of width 32 and 64, `%2` a float, `%12` bool; `%3` and `%15`
/// vectors of four and two of `%1`, `%13` of four of `%12`; `%6` a struct of `%1` and `%2`, `%19` an array of three of
/// `%2`; `%4` and `%7` pointers of CrossWorkgroup to `%2` and `%6`, `%16` of Generic to `%2`, `%17` of Function to
/// `%1`. `%5` and `%18` are constants 1 and 3, `%18` a spec constant; `%8` is a variable of type `%7`.
pub fn type_examples()
    ensures vector { IsI small 3 4 32 }
    ensures no_vector { ¬ (IsI small 6 4 32) }
    ensures scalar { IsI small 14 1 64 }
    ensures bools { IsB small 13 4 }
    ensures no_bools { ¬ (IsB small 3 4) }
    ensures float { IsF small 2 1 32 }
    ensures no_float { ¬ (IsF small 1 1 32) }
    ensures pointer { PointsTo small 7 6 }
    ensures no_pointer { ¬ (PointsTo small 6 7) }
    ensures data { IsData small 7 }
    // `%5` is a constant, and no type.
    ensures no_data { ¬ (IsData small 5) }
    ensures none { form_of small 5 ≡ None }
{}

/// Scalars, vectors and pointers among them, by what they are.
pub fn sort_examples()
    ensures int { IsInt small 14 64 }
    ensures other_width { ¬ (IsInt small 14 32) }
    ensures float { IsFloat small 2 32 }
    ensures no_float { ¬ (IsFloat small 1 32) }
    ensures boolean { IsBool small 12 }
    ensures no_boolean { ¬ (IsBool small 13) }
    ensures some_int { IsSomeInt small 14 }
    ensures no_int { ¬ (IsSomeInt small 2) }
    ensures number { IsNumber small 2 }
    ensures no_number { ¬ (IsNumber small 12) }
    ensures ints { HasSort sort.Int small 3 }
    ensures no_floats { ¬ (HasSort sort.Float small 3) }
    ensures four { IsOf sort.Bool small 13 4 }
    ensures no_two { ¬ (IsOf sort.Bool small 13 2) }
    ensures vector { IsVector small 3 1 4 }
    ensures other_count { ¬ (IsVector small 3 1 2) }
    ensures pointer { IsPointer small 4 5 2 }
    ensures other_class { ¬ (IsPointer small 4 7 2) }
{}

/// What indexes reach in it.
pub fn reach_examples()
    ensures member { ReachesType small 6 (1 ∷ []) 2 }
    ensures no_member { ¬ (ReachesType small 6 (2 ∷ []) 2) }
    ensures within { AreWithin small 3 (3 ∷ []) }
    ensures past { ¬ (AreWithin small 3 (4 ∷ [])) }
    // The length of the array is the value of a spec constant.
    ensures array { AreWithin small 19 (2 ∷ []) }
    ensures past_array { ¬ (AreWithin small 19 (3 ∷ [])) }
    // `%5` is the constant 1.
    ensures leads { LeadsToType small 6 (5 ∷ []) 2 }
    // `%18` is a spec constant, which tells no member; an array takes any index.
    ensures spec_constant { ¬ (LeadsToType small 6 (18 ∷ []) 2) }
    ensures any_element { LeadsToType small 19 (18 ∷ []) 2 }
    // By no index a type leads to itself alone.
    ensures none { LeadsToType small 6 [] 6 }
{}

/// Types of the parts of a type.
pub fn part_examples()
    ensures parts { AreParts small 6 (1 ∷ 2 ∷ []) }
    ensures one_part { ¬ (AreParts small 6 (1 ∷ [])) }
{}

/// Types that ids are declared with. A type has no type.
pub fn declared_examples()
    ensures declared { types_of small (8 ∷ 5 ∷ []) ≡ Some (7 ∷ 1 ∷ []) }
    ensures undeclared { types_of small (1 ∷ []) ≡ None }
{}

/// Constants, and variables of section 9.
pub fn definition_examples()
    ensures constant { IsConstant small 18 }
    ensures no_constant { ¬ (IsConstant small 8) }
    // An OpVariable alone, which stands in section 9.
    ensures global { IsGlobal lone_variable 8 }
    ensures no_global { ¬ (IsGlobal lone_variable 7) }
{}

/// Types of a module of Physical64: `%1` and `%2` are ints of width 32 and 64; `%4` images of two dimensions that are
/// written, `%5` those with a sampler, `%6` pipes that are written, `%7` queues; `%9` an array of three of `%2`, `%10`
/// a struct of `%1` and three of `%9`, `%11` a pointer to it; `%12` an array of `%6`, `%13` a struct of `%7` and `%1`;
/// `%15` is a constant of pipe storage.
pub fn object_examples()
    ensures image { image_of objects 4 ≡ Some (record {
      sampled_type = 3;
      dim = 1;
      depth = 0;
      arrayed = 0;
      multisampled = 0;
      sampled = 0;
      access = Some 1;
    }) }
    ensures no_image { image_of objects 6 ≡ None }
    ensures pipe { pipe_access_of objects 6 ≡ Some 1 }
    ensures no_pipe { pipe_access_of objects 4 ≡ None }
    ensures queue { IsObject objects object.Queue 7 }
    ensures no_event { ¬ (IsObject objects object.Event 7) }
    // Objects are data; images with a sampler are not.
    ensures data { IsData objects 4 }
    ensures no_data { ¬ (IsData objects 5) }
    ensures plain { IsPlain objects 13 }
    ensures not_plain { ¬ (IsPlain objects 4) }
    ensures constant { IsConstant objects 15 }
{}

/// Sizes and ranges of that module.
pub fn range_examples()
    ensures size { IsSizeInt objects 2 }
    ensures no_size { ¬ (IsSizeInt objects 1) }
    ensures sizes { IsSizeArray objects 3 9 }
    ensures fewer_sizes { ¬ (IsSizeArray objects 2 9) }
    ensures range { IsRangeStruct objects 10 }
    ensures no_range { ¬ (IsRangeStruct objects 13) }
    ensures pointer { IsRange objects 11 }
    ensures no_pointer { ¬ (IsRange objects 9) }
{}

/// Types of it with a null value, and without.
pub fn null_examples()
    ensures int { IsNullable objects 1 }
    // An int and a struct of a queue and an int; pipes, and an array of them.
    ensures members { IsNullable objects 13 }
    ensures pipe { ¬ (IsNullable pipes 1) }
    ensures pipes { ¬ (IsNullable pipes 2) }
    ensures no_data { ¬ (IsNullable objects 5) }
{}

/// Types of another small module: `%1` is an int; `%2` and `%3` are structs of one `%1`, `%6` one of two; `%4` and `%5`
/// are arrays of `%2` and of `%3`, of one length.
pub fn match_examples()
    ensures structs { Matches twins 2 3 }
    ensures arrays { Matches twins 4 5 }
    ensures one { Matches twins 1 1 }
    ensures more_members { ¬ (Matches twins 2 6) }
    ensures no_struct { ¬ (Matches twins 4 6) }
    ensures member { ¬ (Matches twins 1 2) }
{}
