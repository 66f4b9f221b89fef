//! Laws of the definitions, and worked examples. Each function does nothing: its contract is what is proved.
//!
//! The examples are of a module of Physical64, in which `%1` stands for OpenCL.std: `%2` is void, `%3` to `%6` ints of
//! width 8 to 64, `%7` half, `%8` a float of width 32, `%9`, `%10` and `%12` vectors of four, eight and two of it,
//! `%11` and `%19` vectors of four and two of `%5`; `%13` and `%14` pointers of Function to `%8` and `%5`, `%15` and
//! `%16` those of UniformConstant to `%8` and `%3`, `%17` and `%18` those of CrossWorkgroup to `%8` and `%7`. The
//! values `of` types are named by these. A call is told by its result type, its number and the operands behind that.

ghost use Rattle.std.specs.Prelude.{◌≡◌, ◌≢◌, [], ◌∷◌, ℕ, List, Some, None, true, false};
ghost use Rattle.spv_module.specs.Operand.{PlainInst, OfType, Result, Id, Word};
ghost use Rattle.spv_module.specs.declared.fault.Rule.{Rule};
ghost use Rattle.spv_module.specs.declared.fault.Rule.TheVariants.{Y10};
ghost use Rattle.spv_module.specs.declared.opcode.TheConstants as opcode;
ghost use Rattle.spv_extended.specs.declared.reach.Reach.TheVariants.{Extended, OpenCl};
ghost use Rattle.spv_type_forms.specs.Example.{inst};
ghost use Rattle.spv_type_kinds.specs.declared.kinds.Kind.TheVariants as kind;
ghost use Rattle.spv_std_types.specs.declared.condition.Among.TheVariants as among;
ghost use Rattle.spv_std_types.specs.declared.condition.Classes.TheVariants as classes;
ghost use Rattle.spv_std_types.specs.declared.condition.Condition.{Condition};
ghost use Rattle.spv_std_types.specs.declared.condition.Condition.TheVariants as condition;
ghost use Rattle.spv_std_types.specs.declared.condition.Number.TheVariants as number;
ghost use Rattle.spv_std_types.specs.declared.condition.Relation.TheVariants as relation;
ghost use Rattle.spv_std_types.specs.declared.condition.Subject.TheVariants as subject;
ghost use Rattle.spv_std_types.specs.declared.condition.Wanted.TheVariants as wanted;
ghost use Rattle.spv_std_types.specs.Broken.{Broken, asks_types};
ghost use Rattle.spv_std_types.specs.Condition as spec;
ghost use Rattle.spv_std_types.specs.Mistyped.{IsFirstMistyped, IsMistypedBy, Mistypes};
ghost use Rattle.spv_std_types.specs.Table.{conditions_of, is_among};
ghost use Rattle.spv_std_types.specs.Example.{Breaks, Keeps, call, of, small, unlike, value};

/// One condition is told of an instruction.
pub fn one_condition()
    ensures { (is : List PlainInst) (n : ℕ) (a b : Condition) → IsMistypedBy is n a → IsMistypedBy is n b → a ≡ b }
{}

/// The words of the conditions.
pub fn word_examples()
    ensures among { spec.IsAmong (among.Three 16 32 64) 32 }
    ensures not_among { ¬ (spec.IsAmong (among.Not 1) 1) }
    ensures stored { spec.IsStored 7 }
    ensures loaded { spec.IsClass classes.Loaded 0 }
    ensures not_stored { ¬ (spec.IsClass classes.Stored 0) }
    ensures width { spec.width_of small 9 ≡ Some 32 }
    ensures no_width { spec.width_of small 13 ≡ None }
    ensures component { spec.component_of small 9 ≡ Some 8 }
    ensures scalar { spec.component_of small 8 ≡ Some 8 }
    ensures no_component { spec.component_of small 13 ≡ None }
    ensures half { spec.HasHalfWidth small 4 5 }
    ensures not_half { ¬ (spec.HasHalfWidth small 4 6) }
    ensures same { spec.HasSameComponent small 9 12 }
    ensures not_same { ¬ (spec.HasSameComponent small 9 11) }
    ensures count { spec.IsNumber small 9 number.Count 4 }
    ensures no_count { ¬ (spec.IsNumber small 9 number.Count 2) }
    // The operands behind the number of the instruction are numbered from 4 on.
    ensures result_type { spec.operand_of (condition.Type subject.Result wanted.Void) ≡ 0 }
    ensures first { spec.operand_of (condition.Relation (subject.Value 0) relation.Same subject.Result) ≡ 4 }
    ensures rounding { spec.operand_of (condition.Number 3 number.Rounding) ≢ 4 }
{}

/// What operands are: a value has the type that it is declared with, and a pointer type that to which it points.
pub fn operand_examples()
    ensures value { spec.type_at small 2 (of 9 ∷ of 6 ∷ of 17 ∷ []) (subject.Value 0) ≡ Some 9 }
    ensures pointee { spec.type_at small 2 (of 9 ∷ of 6 ∷ of 17 ∷ []) (subject.Pointee 2) ≡ Some 8 }
    ensures no_pointee { spec.type_at small 2 (of 9 ∷ of 6 ∷ of 17 ∷ []) (subject.Pointee 0) ≡ None }
    ensures literal { spec.number_at (of 6 ∷ of 15 ∷ Id 4 ∷ []) 2 ≡ Some 4 }
    ensures no_literal { spec.number_at (of 6 ∷ of 15 ∷ Id 4 ∷ []) 1 ≡ None }
{}

/// What instructions ask: s_mul24 (169), and a number that no instruction has.
pub fn table_examples()
    ensures within { is_among ((141, 141) ∷ (151, 152) ∷ []) 152 ≡ true }
    ensures outside { is_among ((141, 141) ∷ (151, 152) ∷ []) 142 ≡ false }
    ensures product { conditions_of 169 ≡ condition.Type subject.Result (wanted.Kind kind.Ints)
        ∷ condition.Type subject.Result (wanted.Width (among.One 32))
        ∷ condition.Relation (subject.Value 0) relation.Same subject.Result
        ∷ condition.Relation (subject.Value 1) relation.Same subject.Result ∷ [] }
    ensures absent { conditions_of 111 ≡ [] }
{}

/// Instructions whose operands are of the result type: acos (0), fma (26), s_clamp (149), s_mul24 (169), normalize
/// (107), cross (104) and bitselect (186).
pub fn same_examples()
    ensures floats { Keeps 9 0 (of 9 ∷ []) }
    ensures other_type { Breaks 9 0 (of 8 ∷ []) (condition.Relation (subject.Value 0) relation.Same subject.Result) }
    ensures no_floats { Breaks 5 0 (of 5 ∷ []) (condition.Type subject.Result (wanted.Kind kind.Floats)) }
    ensures three { Keeps 8 26 (of 8 ∷ of 8 ∷ of 8 ∷ []) }
    ensures third { Breaks 8 26 (of 8 ∷ of 8 ∷ of 9 ∷ [])
        (condition.Relation (subject.Value 2) relation.Same subject.Result) }
    ensures ints { Keeps 11 149 (of 11 ∷ of 11 ∷ of 11 ∷ []) }
    ensures no_ints { Breaks 8 149 (of 8 ∷ of 8 ∷ of 8 ∷ []) (condition.Type subject.Result (wanted.Kind kind.Ints)) }
    ensures width { Keeps 5 169 (of 5 ∷ of 5 ∷ []) }
    ensures other_width { Breaks 6 169 (of 6 ∷ of 6 ∷ [])
        (condition.Type subject.Result (wanted.Width (among.One 32))) }
    ensures few { Keeps 9 107 (of 9 ∷ []) }
    ensures eight { Breaks 10 107 (of 10 ∷ []) (condition.Type subject.Result (wanted.Count (among.AtMost 4))) }
    ensures cross { Keeps 9 104 (of 9 ∷ of 9 ∷ []) }
    ensures two { Breaks 12 104 (of 12 ∷ of 12 ∷ []) (condition.Type subject.Result (wanted.Count (among.Two 3 4))) }
    ensures numbers { Keeps 5 186 (of 5 ∷ of 5 ∷ of 5 ∷ []) }
    ensures no_numbers { Breaks 13 186 (of 13 ∷ of 13 ∷ of 13 ∷ []) (condition.Type subject.Result wanted.Numbers) }
{}

/// Instructions whose operands are of other types: length (106), distance (105), fract (30), frexp (31), pown (49),
/// ilogb (33), nan (46) and u_upsample (164).
pub fn other_examples()
    ensures length { Keeps 8 106 (of 9 ∷ []) }
    ensures long { Breaks 8 106 (of 10 ∷ []) (condition.Type (subject.Value 0) (wanted.Count (among.AtMost 4))) }
    ensures distance { Keeps 8 105 (of 9 ∷ of 9 ∷ []) }
    ensures apart { Breaks 8 105 (of 9 ∷ of 12 ∷ [])
        (condition.Relation (subject.Value 1) relation.Same (subject.Value 0)) }
    ensures part { Keeps 8 30 (of 8 ∷ of 13 ∷ []) }
    ensures class { Breaks 8 30 (of 8 ∷ of 15 ∷ []) (condition.Type (subject.Value 1) (wanted.Pointer classes.Stored)) }
    ensures whole { Keeps 8 31 (of 8 ∷ of 14 ∷ []) }
    ensures float { Breaks 8 31 (of 8 ∷ of 13 ∷ []) (condition.Type (subject.Pointee 1) (wanted.Kind kind.Ints)) }
    ensures power { Keeps 9 49 (of 9 ∷ of 11 ∷ []) }
    ensures one_power { Breaks 9 49 (of 9 ∷ of 5 ∷ [])
        (condition.Relation (subject.Value 1) relation.SameCount subject.Result) }
    ensures exponent { Keeps 11 33 (of 9 ∷ []) }
    ensures one_exponent { Breaks 5 33 (of 9 ∷ [])
        (condition.Relation (subject.Value 0) relation.SameCount subject.Result) }
    ensures nan { Keeps 8 46 (of 5 ∷ []) }
    ensures wide_nan { Breaks 8 46 (of 6 ∷ [])
        (condition.Relation (subject.Value 0) relation.SameWidth subject.Result) }
    ensures upsample { Keeps 5 164 (of 4 ∷ of 4 ∷ []) }
    ensures quarter { Breaks 6 164 (of 4 ∷ of 4 ∷ [])
        (condition.Relation (subject.Value 0) relation.HalfWidth subject.Result) }
{}

/// Instructions that choose components: select (187), shuffle (182) and shuffle2 (183).
pub fn choice_examples()
    ensures select { Keeps 9 187 (of 9 ∷ of 9 ∷ of 11 ∷ []) }
    ensures one { Breaks 9 187 (of 9 ∷ of 9 ∷ of 5 ∷ [])
        (condition.Relation (subject.Value 2) relation.SameCount subject.Result) }
    ensures shuffle { Keeps 12 182 (of 9 ∷ of 19 ∷ []) }
    ensures long_mask { Breaks 12 182 (of 9 ∷ of 11 ∷ [])
        (condition.Relation (subject.Value 1) relation.SameCount subject.Result) }
    ensures shuffle_two { Keeps 12 183 (of 9 ∷ of 9 ∷ of 19 ∷ []) }
    ensures unlike { Breaks 12 183 (of 9 ∷ of 12 ∷ of 19 ∷ [])
        (condition.Relation (subject.Value 1) relation.Same (subject.Value 0)) }
{}

/// Loads: vloadn (171), vload_half (173) and vload_halfn (174).
pub fn load_examples()
    ensures load { Keeps 9 171 (of 6 ∷ of 15 ∷ Id 4 ∷ []) }
    ensures two { Breaks 9 171 (of 6 ∷ of 15 ∷ Id 2 ∷ []) (condition.Number 2 number.Count) }
    ensures narrow { Breaks 9 171 (of 5 ∷ of 15 ∷ Id 4 ∷ [])
        (condition.Type (subject.Value 0) (wanted.Kind kind.Size)) }
    ensures half { Keeps 8 173 (of 6 ∷ of 18 ∷ []) }
    ensures no_half { Breaks 8 173 (of 6 ∷ of 17 ∷ []) (condition.Type (subject.Pointee 1) wanted.Half) }
    ensures halves { Keeps 9 174 (of 6 ∷ of 18 ∷ Id 4 ∷ []) }
    ensures one { Breaks 8 174 (of 6 ∷ of 18 ∷ Id 1 ∷ []) (condition.Type subject.Result (wanted.Count (among.Not 1))) }
{}

/// Stores, prefetch and printf: vstoren (172), vstore_half (175), vstore_half_r (176), vstore_halfn (177), prefetch
/// (185) and printf (184).
pub fn store_examples()
    ensures store { Keeps 2 172 (of 9 ∷ of 6 ∷ of 17 ∷ []) }
    ensures constant { Breaks 2 172 (of 9 ∷ of 6 ∷ of 15 ∷ [])
        (condition.Type (subject.Value 2) (wanted.Pointer classes.Stored)) }
    ensures component { Breaks 2 172 (of 9 ∷ of 6 ∷ of 18 ∷ [])
        (condition.Relation (subject.Pointee 2) relation.ComponentOf (subject.Value 0)) }
    ensures half { Keeps 2 175 (of 8 ∷ of 6 ∷ of 18 ∷ []) }
    ensures given { Breaks 8 175 (of 8 ∷ of 6 ∷ of 18 ∷ []) (condition.Type subject.Result wanted.Void) }
    ensures rounded { Keeps 2 176 (of 8 ∷ of 6 ∷ of 18 ∷ Id 3 ∷ []) }
    ensures no_mode { Breaks 2 176 (of 8 ∷ of 6 ∷ of 18 ∷ Id 4 ∷ []) (condition.Number 3 number.Rounding) }
    ensures halves { Keeps 2 177 (of 9 ∷ of 6 ∷ of 18 ∷ []) }
    ensures one { Breaks 2 177 (of 8 ∷ of 6 ∷ of 18 ∷ [])
        (condition.Type (subject.Value 0) (wanted.Count (among.Not 1))) }
    ensures prefetch { Keeps 2 185 (of 17 ∷ of 6 ∷ []) }
    ensures private { Breaks 2 185 (of 13 ∷ of 6 ∷ [])
        (condition.Type (subject.Value 0) (wanted.Pointer (classes.Only 5))) }
    // printf takes any further operands.
    ensures print { Keeps 5 184 (of 16 ∷ of 9 ∷ of 17 ∷ []) }
    ensures no_text { Breaks 5 184 (of 15 ∷ []) (condition.Type (subject.Pointee 0) (wanted.Kind kind.Int)) }
{}

/// Calls among instructions: of another set nothing is asked, nor of a number that no instruction has.
pub fn module_examples()
    ensures other_set { (a : Condition)
        → ¬ (Mistypes small (OfType 5 ∷ Result 99 ∷ Id 20 ∷ Word 0 ∷ of 5 ∷ []) a) }
    ensures no_number { Keeps 5 111 (of 5 ∷ []) }
    ensures mistyped { IsMistypedBy unlike 22 (condition.Relation (subject.Value 0) relation.Same subject.Result) }
    ensures no_call { (a : Condition)
        → ¬ (IsMistypedBy (value 8 ∷ inst opcode.F_NEGATE (call 9 0 (of 8 ∷ [])) ∷ []) 1 a) }
    ensures none { IsFirstMistyped (value 8 ∷ []) None }
    ensures not_first { ¬ (IsFirstMistyped (value 8 ∷ []) (Some 0)) }
{}

/// Y10 where it is asked, and where it is not.
pub fn broken_examples()
    ensures asked { (minor : ℕ) → asks_types (OpenCl minor) ≡ true }
    ensures not_asked { asks_types Extended ≡ false }
    ensures mistyped { (minor : ℕ) → Broken (OpenCl minor) unlike Y10 22 }
    ensures not_looked_at { (r : Rule) → ¬ (Broken Extended unlike r 22) }
    // No call.
    ensures value { (minor : ℕ) (r : Rule) → ¬ (Broken (OpenCl minor) (value 8 ∷ []) r 0) }
{}
