//! Laws of the definitions, and worked examples. Each function does nothing: its contract is what is proved.

ghost use Rattle.std.specs.Prelude.{◌≡◌, ◌≢◌, ◌↔◌, ℕ, List, [], ◌∷◌, Some, None, slice_get};
ghost use Rattle.spv_table.specs.Table.{Table};
ghost use Rattle.spv_module.specs.Operand.{Id, PlainInst, Text, Word};
ghost use Rattle.spv_module.specs.Example.{small as table};
ghost use Rattle.spv_module.specs.declared.opcode.TheConstants as opcode;
ghost use Rattle.spv_layout.specs.Shape.{FitsShape};
ghost use Rattle.spv_type_forms.specs.Example.{inst, small, twins};
ghost use Rattle.spv_type_forms.specs.Form.{form_of};
ghost use Rattle.spv_type_kinds.specs.Operands.{ids_in, after_head};
ghost use Rattle.spv_type_forms.specs.Values.{AreValues, types_of};
ghost use Rattle.spv_conditions.specs.Example.{call, sets};
ghost use Rattle.spv_ops.specs.declared.table.Places.TheVariants as places;
ghost use Rattle.spv_ops.specs.Example.{add, add_floats, by_element, label, pointed_variable, to_member, variable};
ghost use Rattle.spv_ops.specs.Example.{cast, clusters, packed, scan, swap, with_double, with_images, with_objects};
ghost use Rattle.spv_ops.specs.Example.{count_groups, enqueue, fetch, mode_id, no_mode_id, sample, with_blocks};
ghost use Rattle.spv_ops.specs.Example.{decorate_id, decorate_string, group_decorate, group_member_decorate, work_size};
ghost use Rattle.spv_ops.specs.Table.{places_of};
ghost use Rattle.spv_ops.specs.Values.{value_ids, values_of};
ghost use Rattle.spv_ops.specs.Typed.{LineHolds, Typed, IsTyped, IsTypedAt};
ghost use Rattle.spv_ops.specs.inner.Chain.{Chains, ChainsByElement};
ghost use Rattle.spv_ops.specs.inner.Composite.{Constructs};
ghost use Rattle.spv_ops.specs.inner.Declares.{DeclaresVariable};
ghost use Rattle.spv_ops.specs.inner.Wide.{AreSame};

/// The ids that stand where the code looks for value operands are the value operands, under any table by which the
/// instruction fits its row of the table of shapes; and there are no others.
pub fn value_operands()
    ensures { (G : Table) (i : PlainInst) (xs : List ℕ) → FitsShape G i → places_of i.opcode ≢ places.Free
        → AreValues G i xs ↔ (xs ≡ values_of i) }
{}

/// A module that is checked asks *Typed* of the declared types; a run asks the same of those that are bound.
pub fn declared_types()
    ensures { (G : Table) (is : List PlainInst) (n : ℕ) (i : PlainInst) → slice_get is n ≡ Some i
        → FitsShape G i
        → IsTypedAt G is n
        ↔ ((types : List ℕ) × (types_of is (values_of i) ≡ Some types) × Typed is n i types) }
{}

/// What opcodes ask that take any number of values, as a whole: each value of an OpPhi is of the result type, the
/// indexes of an access chain lead to what the result points to, and the constituents make up the composite.
pub fn wide_rows()
    ensures phi { (is : List PlainInst) (n : ℕ) (i : PlainInst) (r : ℕ) (ts : List ℕ)
        → LineHolds is n i opcode.PHI (Some r) ts ↔ AreSame is r ts }
    ensures variable { (is : List PlainInst) (n : ℕ) (i : PlainInst) (r : ℕ) (ts : List ℕ)
        → LineHolds is n i opcode.VARIABLE (Some r) ts ↔ DeclaresVariable is n r (after_head i.operands) ts }
    ensures chain { (is : List PlainInst) (n : ℕ) (i : PlainInst) (r : ℕ) (ts : List ℕ)
        → LineHolds is n i opcode.ACCESS_CHAIN (Some r) ts ↔ Chains is r ts (ids_in (after_head i.operands)) }
    ensures element { (is : List PlainInst) (n : ℕ) (i : PlainInst) (r : ℕ) (ts : List ℕ)
        → LineHolds is n i opcode.PTR_ACCESS_CHAIN (Some r) ts
        ↔ ChainsByElement is r ts (ids_in (after_head i.operands)) }
    ensures construct { (is : List PlainInst) (n : ℕ) (i : PlainInst) (r : ℕ) (ts : List ℕ)
        → LineHolds is n i opcode.COMPOSITE_CONSTRUCT (Some r) ts ↔ Constructs is r ts (form_of is r) }
{}

/// What conversions ask, of types of the module of `type_examples` of spv_type_forms: `%1` and `%14` are ints of width
/// 32 and 64, `%2` a float, `%12` bool; `%3` and `%15` vectors of four and two of `%1`, `%13` of four of `%12`; `%6` a
/// struct of `%1` and `%2`; `%4` and `%7` pointers of CrossWorkgroup to `%2` and `%6`, `%16` of Generic to `%2`, `%17`
/// of Function to `%1`. `%5` is the constant 1; `%8` is a variable of type `%7`. `%21` is a float of width 64 beside
/// them.
#[tactic(auto, unfolding(crate::specs::Table::lines))]
pub fn conversion_examples()
    ensures to_int { LineHolds small 8 label opcode.CONVERT_F_TO_U (Some 1) (2 ∷ []) }
    ensures from_int { ¬ (LineHolds small 8 label opcode.CONVERT_F_TO_U (Some 1) (14 ∷ [])) }
    ensures to_float { LineHolds small 8 label opcode.CONVERT_S_TO_F (Some 2) (1 ∷ []) }
    ensures other_count { ¬ (LineHolds small 8 label opcode.CONVERT_S_TO_F (Some 2) (3 ∷ [])) }
    ensures resize { LineHolds small 8 label opcode.U_CONVERT (Some 14) (1 ∷ []) }
    ensures same_width { ¬ (LineHolds small 8 label opcode.U_CONVERT (Some 1) (1 ∷ [])) }
    ensures resize_float { LineHolds with_double 8 label opcode.F_CONVERT (Some 21) (2 ∷ []) }
    ensures same_float { ¬ (LineHolds with_double 8 label opcode.F_CONVERT (Some 2) (2 ∷ [])) }
    ensures pointer { LineHolds small 8 label opcode.CONVERT_PTR_TO_U (Some 14) (4 ∷ []) }
    ensures no_pointer { ¬ (LineHolds small 8 label opcode.CONVERT_PTR_TO_U (Some 14) (1 ∷ [])) }
    ensures to_pointer { LineHolds small 8 label opcode.CONVERT_U_TO_PTR (Some 4) (14 ∷ []) }
    ensures float_to_pointer { ¬ (LineHolds small 8 label opcode.CONVERT_U_TO_PTR (Some 4) (2 ∷ [])) }
    ensures to_generic { LineHolds small 8 label opcode.PTR_CAST_TO_GENERIC (Some 16) (4 ∷ []) }
    ensures other_pointee { ¬ (LineHolds small 8 label opcode.PTR_CAST_TO_GENERIC (Some 16) (7 ∷ [])) }
    ensures from_generic { LineHolds small 8 label opcode.GENERIC_CAST_TO_PTR (Some 4) (16 ∷ []) }
    ensures other_pointer { ¬ (LineHolds small 8 label opcode.GENERIC_CAST_TO_PTR (Some 17) (16 ∷ [])) }
    // 64 bits as two of 32; 64 as one of 32; a pointer as one of another storage class.
    ensures bits { LineHolds small 8 label opcode.BITCAST (Some 15) (14 ∷ []) }
    ensures other_bits { ¬ (LineHolds small 8 label opcode.BITCAST (Some 1) (14 ∷ [])) }
    ensures other_class { ¬ (LineHolds small 8 label opcode.BITCAST (Some 16) (4 ∷ [])) }
{}

/// What arithmetic, logic, bits, comparisons and choices ask.
#[tactic(auto, unfolding(crate::specs::Table::lines))]
pub fn calculation_examples()
    ensures negate { LineHolds small 8 label opcode.S_NEGATE (Some 3) (3 ∷ []) }
    ensures negate_float { ¬ (LineHolds small 8 label opcode.S_NEGATE (Some 2) (2 ∷ [])) }
    ensures negate_floats { LineHolds small 8 label opcode.F_NEGATE (Some 2) (2 ∷ []) }
    ensures negate_ints { ¬ (LineHolds small 8 label opcode.F_NEGATE (Some 3) (3 ∷ [])) }
    ensures not { LineHolds small 8 label opcode.LOGICAL_NOT (Some 13) (13 ∷ []) }
    ensures not_ints { ¬ (LineHolds small 8 label opcode.LOGICAL_NOT (Some 3) (3 ∷ [])) }
    ensures add { LineHolds small 8 label opcode.I_ADD (Some 1) (1 ∷ 1 ∷ []) }
    ensures two_widths { ¬ (LineHolds small 8 label opcode.I_ADD (Some 1) (1 ∷ 14 ∷ [])) }
    ensures add_floats { LineHolds small 8 label opcode.F_ADD (Some 2) (2 ∷ 2 ∷ []) }
    ensures add_ints { ¬ (LineHolds small 8 label opcode.F_ADD (Some 1) (1 ∷ 1 ∷ [])) }
    ensures equal { LineHolds small 8 label opcode.LOGICAL_EQUAL (Some 12) (12 ∷ 12 ∷ []) }
    ensures equal_ints { ¬ (LineHolds small 8 label opcode.LOGICAL_EQUAL (Some 1) (1 ∷ 1 ∷ [])) }
    ensures compare { LineHolds small 8 label opcode.I_EQUAL (Some 13) (3 ∷ 3 ∷ []) }
    ensures one_bool { ¬ (LineHolds small 8 label opcode.I_EQUAL (Some 12) (3 ∷ 3 ∷ [])) }
    ensures compare_floats { LineHolds small 8 label opcode.F_ORD_EQUAL (Some 12) (2 ∷ 2 ∷ []) }
    ensures compare_ints { ¬ (LineHolds small 8 label opcode.F_ORD_EQUAL (Some 12) (1 ∷ 1 ∷ [])) }
    // A shift by ints of another width, and by another number of them.
    ensures shift { LineHolds small 8 label opcode.SHIFT_RIGHT_LOGICAL (Some 1) (1 ∷ 14 ∷ []) }
    ensures no_shift { ¬ (LineHolds small 8 label opcode.SHIFT_RIGHT_LOGICAL (Some 3) (3 ∷ 1 ∷ [])) }
    // Vectors chosen by one bool, and by a bool each; scalars by a vector.
    ensures one_choice { LineHolds small 8 label opcode.SELECT (Some 3) (12 ∷ 3 ∷ 3 ∷ []) }
    ensures choice_each { LineHolds small 8 label opcode.SELECT (Some 3) (13 ∷ 3 ∷ 3 ∷ []) }
    ensures no_choice { ¬ (LineHolds small 8 label opcode.SELECT (Some 1) (13 ∷ 1 ∷ 1 ∷ [])) }
{}

/// What copies, loads, stores and barriers ask. `%4` and `%16` point to the same type.
#[tactic(auto, unfolding(crate::specs::Table::lines))]
pub fn memory_examples()
    ensures undef { LineHolds small 8 label opcode.UNDEF (Some 7) [] }
    ensures no_result { ¬ (LineHolds small 8 label opcode.UNDEF None []) }
    ensures load { LineHolds small 8 label opcode.LOAD (Some 2) (4 ∷ []) }
    ensures other_load { ¬ (LineHolds small 8 label opcode.LOAD (Some 1) (4 ∷ [])) }
    ensures store { LineHolds small 8 label opcode.STORE None (4 ∷ 2 ∷ []) }
    ensures no_pointer { ¬ (LineHolds small 8 label opcode.STORE None (2 ∷ 2 ∷ [])) }
    ensures copy { LineHolds small 8 label opcode.COPY_MEMORY None (4 ∷ 16 ∷ []) }
    ensures other_copy { ¬ (LineHolds small 8 label opcode.COPY_MEMORY None (4 ∷ 7 ∷ [])) }
    ensures sized { LineHolds small 8 label opcode.COPY_MEMORY_SIZED None (4 ∷ 7 ∷ 14 ∷ []) }
    ensures float_size { ¬ (LineHolds small 8 label opcode.COPY_MEMORY_SIZED None (4 ∷ 7 ∷ 2 ∷ [])) }
    ensures copied { LineHolds small 8 label opcode.COPY_OBJECT (Some 6) (6 ∷ []) }
    ensures copied_as_other { ¬ (LineHolds small 8 label opcode.COPY_OBJECT (Some 6) (7 ∷ [])) }
    ensures lifetime { LineHolds small 8 label opcode.LIFETIME_START None (17 ∷ []) }
    ensures other_class { ¬ (LineHolds small 8 label opcode.LIFETIME_START None (4 ∷ [])) }
    ensures barrier { LineHolds small 8 label opcode.CONTROL_BARRIER None (1 ∷ 1 ∷ 1 ∷ []) }
    ensures wide_scope { ¬ (LineHolds small 8 label opcode.CONTROL_BARRIER None (1 ∷ 14 ∷ 1 ∷ [])) }
    ensures memory_barrier { LineHolds small 8 label opcode.MEMORY_BARRIER None (1 ∷ 1 ∷ []) }
    ensures wide_memory { ¬ (LineHolds small 8 label opcode.MEMORY_BARRIER None (14 ∷ 1 ∷ [])) }
{}

/// What atomic instructions ask. Floats are exchanged, and not added.
#[tactic(auto, unfolding(crate::specs::Table::lines))]
pub fn atomic_examples()
    ensures load { LineHolds small 8 label opcode.ATOMIC_LOAD (Some 2) (4 ∷ 1 ∷ 1 ∷ []) }
    ensures struct_load { ¬ (LineHolds small 8 label opcode.ATOMIC_LOAD (Some 6) (7 ∷ 1 ∷ 1 ∷ [])) }
    ensures store { LineHolds small 8 label opcode.ATOMIC_STORE None (4 ∷ 1 ∷ 1 ∷ 2 ∷ []) }
    ensures other_store { ¬ (LineHolds small 8 label opcode.ATOMIC_STORE None (4 ∷ 1 ∷ 1 ∷ 1 ∷ [])) }
    ensures exchange { LineHolds small 8 label opcode.ATOMIC_EXCHANGE (Some 2) (4 ∷ 1 ∷ 1 ∷ 2 ∷ []) }
    ensures wide_semantics { ¬ (LineHolds small 8 label opcode.ATOMIC_EXCHANGE (Some 2) (4 ∷ 1 ∷ 14 ∷ 2 ∷ [])) }
    ensures compare { LineHolds small 8 label opcode.ATOMIC_COMPARE_EXCHANGE (Some 1) (17 ∷ 1 ∷ 1 ∷ 1 ∷ 1 ∷ 1 ∷ []) }
    ensures compare_floats { ¬ (LineHolds small 8 label
        opcode.ATOMIC_COMPARE_EXCHANGE (Some 2) (4 ∷ 1 ∷ 1 ∷ 1 ∷ 2 ∷ 2 ∷ [])) }
    ensures step { LineHolds small 8 label opcode.ATOMIC_I_INCREMENT (Some 1) (17 ∷ 1 ∷ 1 ∷ []) }
    ensures float_step { ¬ (LineHolds small 8 label opcode.ATOMIC_I_INCREMENT (Some 2) (4 ∷ 1 ∷ 1 ∷ [])) }
    ensures update { LineHolds small 8 label opcode.ATOMIC_I_ADD (Some 1) (17 ∷ 1 ∷ 1 ∷ 1 ∷ []) }
    ensures no_update { ¬ (LineHolds small 8 label opcode.ATOMIC_I_ADD (Some 2) (4 ∷ 1 ∷ 1 ∷ 2 ∷ [])) }
{}

/// What composites ask. The literals are those of the instruction.
#[tactic(auto, unfolding(crate::specs::Table::lines))]
pub fn composite_examples()
    ensures extract_dynamic { LineHolds small 8 label opcode.VECTOR_EXTRACT_DYNAMIC (Some 1) (3 ∷ 14 ∷ []) }
    ensures other_result { ¬ (LineHolds small 8 label opcode.VECTOR_EXTRACT_DYNAMIC (Some 2) (3 ∷ 14 ∷ [])) }
    ensures insert_dynamic { LineHolds small 8 label opcode.VECTOR_INSERT_DYNAMIC (Some 3) (3 ∷ 1 ∷ 14 ∷ []) }
    ensures other_vector { ¬ (LineHolds small 8 label opcode.VECTOR_INSERT_DYNAMIC (Some 3) (15 ∷ 1 ∷ 14 ∷ [])) }
    // Components 4 (the first of the second vector), and an undefined one; and one past both.
    ensures shuffle { LineHolds small 8 (inst opcode.VECTOR_SHUFFLE (Word 4 ∷ Word 4294967295 ∷ []))
        opcode.VECTOR_SHUFFLE (Some 15) (3 ∷ 15 ∷ []) }
    ensures past_both { ¬ (LineHolds small 8 (inst opcode.VECTOR_SHUFFLE (Word 6 ∷ Word 0 ∷ []))
        opcode.VECTOR_SHUFFLE (Some 15) (3 ∷ 15 ∷ [])) }
    ensures extract { LineHolds small 8 (inst opcode.COMPOSITE_EXTRACT (Word 1 ∷ []))
        opcode.COMPOSITE_EXTRACT (Some 2) (6 ∷ []) }
    ensures no_index { ¬ (LineHolds small 8 label opcode.COMPOSITE_EXTRACT (Some 6) (6 ∷ [])) }
    // The object `%2` into the composite `%6`.
    ensures insert { LineHolds small 8 (inst opcode.COMPOSITE_INSERT (Word 1 ∷ []))
        opcode.COMPOSITE_INSERT (Some 6) (2 ∷ 6 ∷ []) }
    ensures composite_first { ¬ (LineHolds small 8 (inst opcode.COMPOSITE_INSERT (Word 1 ∷ []))
        opcode.COMPOSITE_INSERT (Some 6) (6 ∷ 2 ∷ [])) }
{}

/// What opcodes ask that take any number of values, and branches.
#[tactic(auto, unfolding(crate::specs::Table::lines))]
pub fn wide_examples()
    ensures phi { LineHolds small 8 label opcode.PHI (Some 6) (6 ∷ 6 ∷ []) }
    ensures no_phi { ¬ (LineHolds small 8 label opcode.PHI (Some 6) (6 ∷ 7 ∷ [])) }
    ensures chain { LineHolds small 8 to_member opcode.ACCESS_CHAIN (Some 4) (7 ∷ 1 ∷ []) }
    ensures float_index { ¬ (LineHolds small 8 to_member opcode.ACCESS_CHAIN (Some 4) (7 ∷ 2 ∷ [])) }
    ensures element { LineHolds small 8 by_element opcode.PTR_ACCESS_CHAIN (Some 4) (7 ∷ 1 ∷ 1 ∷ []) }
    ensures float_element { ¬ (LineHolds small 8 by_element opcode.PTR_ACCESS_CHAIN (Some 4) (7 ∷ 2 ∷ 1 ∷ [])) }
    // A vector of two vectors; of one, which is too few; and of too few components.
    ensures construct { LineHolds small 8 label opcode.COMPOSITE_CONSTRUCT (Some 3) (15 ∷ 15 ∷ []) }
    ensures one_operand { ¬ (LineHolds small 8 label opcode.COMPOSITE_CONSTRUCT (Some 3) (3 ∷ [])) }
    ensures too_few { ¬ (LineHolds small 8 label opcode.COMPOSITE_CONSTRUCT (Some 3) (15 ∷ 1 ∷ [])) }
    ensures members { LineHolds small 8 label opcode.COMPOSITE_CONSTRUCT (Some 6) (1 ∷ 2 ∷ []) }
    ensures swapped { ¬ (LineHolds small 8 label opcode.COMPOSITE_CONSTRUCT (Some 6) (2 ∷ 1 ∷ [])) }
    ensures variable { LineHolds pointed_variable 1 variable opcode.VARIABLE (Some 7) [] }
    ensures other_class { ¬ (LineHolds pointed_variable 1 variable opcode.VARIABLE (Some 4) []) }
    ensures branch { LineHolds small 8 label opcode.BRANCH_CONDITIONAL None (12 ∷ []) }
    ensures no_branch { ¬ (LineHolds small 8 label opcode.BRANCH_CONDITIONAL None (1 ∷ [])) }
    ensures choice { LineHolds small 8 label opcode.SWITCH None (14 ∷ []) }
    ensures no_choice { ¬ (LineHolds small 8 label opcode.SWITCH None (12 ∷ [])) }
{}

/// What conversions, arithmetic and bits ask that OpenCL has besides. `%21` is a struct of two `%1`, `%22` a vector of
/// four floats.
#[tactic(auto, unfolding(crate::specs::Table::lines))]
pub fn further_calculation_examples()
    ensures quantize { LineHolds small 8 label opcode.QUANTIZE_TO_F16 (Some 2) (2 ∷ []) }
    ensures wide_quantize { ¬ (LineHolds with_double 8 label opcode.QUANTIZE_TO_F16 (Some 21) (21 ∷ [])) }
    ensures saturate { LineHolds small 8 label opcode.SAT_CONVERT_S_TO_U (Some 14) (1 ∷ []) }
    ensures other_count { ¬ (LineHolds small 8 label opcode.SAT_CONVERT_S_TO_U (Some 15) (3 ∷ [])) }
    ensures cast { LineHolds small 8 cast opcode.GENERIC_CAST_TO_PTR_EXPLICIT (Some 4) (16 ∷ []) }
    // Without a storage class.
    ensures no_cast { ¬ (LineHolds small 8 label opcode.GENERIC_CAST_TO_PTR_EXPLICIT (Some 4) (16 ∷ [])) }
    ensures scale { LineHolds with_objects 8 label opcode.VECTOR_TIMES_SCALAR (Some 22) (22 ∷ 2 ∷ []) }
    ensures no_vector { ¬ (LineHolds with_objects 8 label opcode.VECTOR_TIMES_SCALAR (Some 2) (2 ∷ 2 ∷ [])) }
    ensures dot { LineHolds with_objects 8 label opcode.DOT (Some 2) (22 ∷ 22 ∷ []) }
    ensures int_dot { ¬ (LineHolds small 8 label opcode.DOT (Some 1) (3 ∷ 3 ∷ [])) }
    ensures carry { LineHolds with_objects 8 label opcode.I_ADD_CARRY (Some 21) (1 ∷ 1 ∷ []) }
    ensures other_pair { ¬ (LineHolds with_objects 8 label opcode.I_ADD_CARRY (Some 6) (1 ∷ 1 ∷ [])) }
    ensures any { LineHolds small 8 label opcode.ANY (Some 12) (13 ∷ []) }
    ensures any_int { ¬ (LineHolds small 8 label opcode.ANY (Some 12) (3 ∷ [])) }
    ensures nan { LineHolds with_objects 8 label opcode.IS_NAN (Some 13) (22 ∷ []) }
    ensures int_nan { ¬ (LineHolds with_objects 8 label opcode.IS_NAN (Some 13) (3 ∷ [])) }
    ensures field { LineHolds small 8 label opcode.BIT_FIELD_INSERT (Some 3) (3 ∷ 3 ∷ 1 ∷ 14 ∷ []) }
    ensures float_offset { ¬ (LineHolds small 8 label opcode.BIT_FIELD_INSERT (Some 3) (3 ∷ 3 ∷ 1 ∷ 2 ∷ [])) }
    ensures extract { LineHolds small 8 label opcode.BIT_FIELD_S_EXTRACT (Some 3) (3 ∷ 1 ∷ 14 ∷ []) }
    ensures other_field { ¬ (LineHolds small 8 label opcode.BIT_FIELD_S_EXTRACT (Some 3) (15 ∷ 1 ∷ 14 ∷ [])) }
    // A vector of ints, or an int with a format.
    ensures dot_ints { LineHolds small 8 label opcode.S_DOT (Some 14) (3 ∷ 3 ∷ []) }
    ensures packed { LineHolds small 8 packed opcode.S_DOT (Some 1) (1 ∷ 1 ∷ []) }
    ensures no_format { ¬ (LineHolds small 8 label opcode.S_DOT (Some 1) (1 ∷ 1 ∷ [])) }
    ensures added { LineHolds small 8 label opcode.S_DOT_ACC_SAT (Some 14) (3 ∷ 3 ∷ 14 ∷ []) }
    ensures other_sum { ¬ (LineHolds small 8 label opcode.S_DOT_ACC_SAT (Some 14) (3 ∷ 3 ∷ 1 ∷ [])) }
{}

/// What pointers, flags and groups ask.
#[tactic(auto, unfolding(crate::specs::Table::lines))]
pub fn group_examples()
    ensures semantics { LineHolds small 8 label opcode.GENERIC_PTR_MEM_SEMANTICS (Some 1) (16 ∷ []) }
    ensures named { ¬ (LineHolds small 8 label opcode.GENERIC_PTR_MEM_SEMANTICS (Some 1) (4 ∷ [])) }
    ensures same { LineHolds small 8 label opcode.PTR_EQUAL (Some 12) (4 ∷ 4 ∷ []) }
    ensures other_class { ¬ (LineHolds small 8 label opcode.PTR_EQUAL (Some 12) (4 ∷ 16 ∷ [])) }
    // Two structs of one int, and one of them beside itself.
    ensures copy { LineHolds twins 8 label opcode.COPY_LOGICAL (Some 3) (2 ∷ []) }
    ensures itself { ¬ (LineHolds twins 8 label opcode.COPY_LOGICAL (Some 2) (2 ∷ [])) }
    ensures difference { LineHolds small 8 label opcode.PTR_DIFF (Some 14) (4 ∷ 4 ∷ []) }
    ensures no_difference { ¬ (LineHolds small 8 label opcode.PTR_DIFF (Some 12) (4 ∷ 4 ∷ [])) }
    ensures flag { LineHolds small 8 label opcode.ATOMIC_FLAG_TEST_AND_SET (Some 12) (17 ∷ 1 ∷ 1 ∷ []) }
    ensures float_flag { ¬ (LineHolds small 8 label opcode.ATOMIC_FLAG_TEST_AND_SET (Some 12) (4 ∷ 1 ∷ 1 ∷ [])) }
    ensures clear { LineHolds small 8 label opcode.ATOMIC_FLAG_CLEAR None (17 ∷ 1 ∷ 1 ∷ []) }
    ensures float_clear { ¬ (LineHolds small 8 label opcode.ATOMIC_FLAG_CLEAR None (4 ∷ 1 ∷ 1 ∷ [])) }
    ensures size { LineHolds with_objects 8 label opcode.SIZE_OF (Some 1) (4 ∷ []) }
    ensures no_size { ¬ (LineHolds with_objects 8 label opcode.SIZE_OF (Some 1) (24 ∷ [])) }
    ensures all { LineHolds small 8 label opcode.GROUP_ALL (Some 12) (1 ∷ 12 ∷ []) }
    ensures all_ints { ¬ (LineHolds small 8 label opcode.GROUP_ALL (Some 1) (1 ∷ 1 ∷ [])) }
    ensures broadcast { LineHolds small 8 label opcode.GROUP_BROADCAST (Some 13) (1 ∷ 13 ∷ 15 ∷ []) }
    ensures wide_place { ¬ (LineHolds small 8 label opcode.GROUP_BROADCAST (Some 13) (1 ∷ 13 ∷ 3 ∷ [])) }
    ensures scan { LineHolds small 8 scan opcode.GROUP_I_ADD (Some 1) (1 ∷ 1 ∷ []) }
    ensures cluster_scan { ¬ (LineHolds small 8 clusters opcode.GROUP_I_ADD (Some 1) (1 ∷ 1 ∷ [])) }
    ensures scan_floats { LineHolds small 8 scan opcode.GROUP_F_ADD (Some 2) (1 ∷ 2 ∷ []) }
    ensures scan_ints { ¬ (LineHolds small 8 scan opcode.GROUP_F_ADD (Some 1) (1 ∷ 1 ∷ [])) }
    ensures elect { LineHolds small 8 label opcode.GROUP_NON_UNIFORM_ELECT (Some 12) (1 ∷ []) }
    ensures wide_scope { ¬ (LineHolds small 8 label opcode.GROUP_NON_UNIFORM_ELECT (Some 12) (14 ∷ [])) }
    ensures equal { LineHolds small 8 label opcode.GROUP_NON_UNIFORM_ALL_EQUAL (Some 12) (1 ∷ 3 ∷ []) }
    ensures equal_struct { ¬ (LineHolds small 8 label opcode.GROUP_NON_UNIFORM_ALL_EQUAL (Some 12) (1 ∷ 6 ∷ [])) }
    ensures sent { LineHolds small 8 label opcode.GROUP_NON_UNIFORM_BROADCAST (Some 3) (1 ∷ 3 ∷ 14 ∷ []) }
    ensures float_place { ¬ (LineHolds small 8 label opcode.GROUP_NON_UNIFORM_BROADCAST (Some 3) (1 ∷ 3 ∷ 2 ∷ [])) }
    ensures first { LineHolds small 8 label opcode.GROUP_NON_UNIFORM_BROADCAST_FIRST (Some 3) (1 ∷ 3 ∷ []) }
    ensures other { ¬ (LineHolds small 8 label opcode.GROUP_NON_UNIFORM_BROADCAST_FIRST (Some 3) (1 ∷ 15 ∷ [])) }
{}

/// What ballots and clusters ask: `%5` is a constant, `%8` none.
#[tactic(auto, unfolding(crate::specs::Table::lines))]
pub fn cluster_examples()
    ensures ballot { LineHolds small 8 label opcode.GROUP_NON_UNIFORM_BALLOT (Some 3) (1 ∷ 12 ∷ []) }
    ensures two { ¬ (LineHolds small 8 label opcode.GROUP_NON_UNIFORM_BALLOT (Some 15) (1 ∷ 12 ∷ [])) }
    ensures inverse { LineHolds small 8 label opcode.GROUP_NON_UNIFORM_INVERSE_BALLOT (Some 12) (1 ∷ 3 ∷ []) }
    ensures no_ballot { ¬ (LineHolds small 8 label opcode.GROUP_NON_UNIFORM_INVERSE_BALLOT (Some 12) (1 ∷ 15 ∷ [])) }
    ensures bit { LineHolds small 8 label opcode.GROUP_NON_UNIFORM_BALLOT_BIT_EXTRACT (Some 12) (1 ∷ 3 ∷ 14 ∷ []) }
    ensures float_bit { ¬ (LineHolds small 8 label
        opcode.GROUP_NON_UNIFORM_BALLOT_BIT_EXTRACT (Some 12) (1 ∷ 3 ∷ 2 ∷ [])) }
    ensures count { LineHolds small 8 scan opcode.GROUP_NON_UNIFORM_BALLOT_BIT_COUNT (Some 1) (1 ∷ 3 ∷ []) }
    ensures no_count { ¬ (LineHolds small 8 clusters opcode.GROUP_NON_UNIFORM_BALLOT_BIT_COUNT (Some 1) (1 ∷ 3 ∷ [])) }
    ensures find { LineHolds small 8 label opcode.GROUP_NON_UNIFORM_BALLOT_FIND_LSB (Some 14) (1 ∷ 3 ∷ []) }
    ensures find_bool { ¬ (LineHolds small 8 label opcode.GROUP_NON_UNIFORM_BALLOT_FIND_LSB (Some 12) (1 ∷ 3 ∷ [])) }
    ensures clusters { LineHolds small 8 clusters opcode.GROUP_NON_UNIFORM_I_ADD (Some 1) (1 ∷ 1 ∷ 1 ∷ []) }
    ensures no_size { ¬ (LineHolds small 8 clusters opcode.GROUP_NON_UNIFORM_I_ADD (Some 1) (1 ∷ 1 ∷ [])) }
    ensures whole { LineHolds small 8 scan opcode.GROUP_NON_UNIFORM_F_ADD (Some 2) (1 ∷ 2 ∷ []) }
    ensures size { ¬ (LineHolds small 8 scan opcode.GROUP_NON_UNIFORM_F_ADD (Some 2) (1 ∷ 2 ∷ 1 ∷ [])) }
    ensures logical { LineHolds small 8 scan opcode.GROUP_NON_UNIFORM_LOGICAL_AND (Some 13) (1 ∷ 13 ∷ []) }
    ensures int_logical { ¬ (LineHolds small 8 scan opcode.GROUP_NON_UNIFORM_LOGICAL_AND (Some 3) (1 ∷ 3 ∷ [])) }
    ensures swap { LineHolds small 8 (swap 5) opcode.GROUP_NON_UNIFORM_QUAD_SWAP (Some 1) (1 ∷ 1 ∷ 1 ∷ []) }
    ensures no_constant { ¬ (LineHolds small 8 (swap 8) opcode.GROUP_NON_UNIFORM_QUAD_SWAP (Some 1) (1 ∷ 1 ∷ 1 ∷ [])) }
{}

/// What events, queues and named barriers ask: `%23` is an event type and `%24` a pointer to it, `%25` a device event
/// type and `%32` a pointer to it, `%27` a queue type, `%31` a named barrier type.
#[tactic(auto, unfolding(crate::specs::Table::lines))]
pub fn object_examples()
    ensures wait { LineHolds with_objects 8 label opcode.GROUP_WAIT_EVENTS None (1 ∷ 1 ∷ 24 ∷ []) }
    ensures no_events { ¬ (LineHolds with_objects 8 label opcode.GROUP_WAIT_EVENTS None (1 ∷ 1 ∷ 32 ∷ [])) }
    ensures marker { LineHolds with_objects 8 label opcode.ENQUEUE_MARKER (Some 1) (27 ∷ 1 ∷ 32 ∷ 32 ∷ []) }
    ensures no_marker { ¬ (LineHolds with_objects 8 label opcode.ENQUEUE_MARKER (Some 1) (27 ∷ 1 ∷ 32 ∷ 24 ∷ [])) }
    ensures retain { LineHolds with_objects 8 label opcode.RETAIN_EVENT None (25 ∷ []) }
    ensures retain_event { ¬ (LineHolds with_objects 8 label opcode.RETAIN_EVENT None (23 ∷ [])) }
    ensures create { LineHolds with_objects 8 label opcode.CREATE_USER_EVENT (Some 25) [] }
    ensures create_event { ¬ (LineHolds with_objects 8 label opcode.CREATE_USER_EVENT (Some 23) []) }
    ensures valid { LineHolds with_objects 8 label opcode.IS_VALID_EVENT (Some 12) (25 ∷ []) }
    ensures not_valid { ¬ (LineHolds with_objects 8 label opcode.IS_VALID_EVENT (Some 12) (23 ∷ [])) }
    ensures status { LineHolds with_objects 8 label opcode.SET_USER_EVENT_STATUS None (25 ∷ 1 ∷ []) }
    ensures wide_status { ¬ (LineHolds with_objects 8 label opcode.SET_USER_EVENT_STATUS None (25 ∷ 14 ∷ [])) }
    ensures profile { LineHolds with_objects 8 label opcode.CAPTURE_EVENT_PROFILING_INFO None (25 ∷ 1 ∷ 4 ∷ []) }
    ensures no_profile { ¬ (LineHolds with_objects 8 label
        opcode.CAPTURE_EVENT_PROFILING_INFO None (25 ∷ 1 ∷ 16 ∷ [])) }
    ensures own_queue { LineHolds with_objects 8 label opcode.GET_DEFAULT_QUEUE (Some 27) [] }
    ensures no_queue { ¬ (LineHolds with_objects 8 label opcode.GET_DEFAULT_QUEUE (Some 25) []) }
    ensures initialize { LineHolds with_objects 8 label opcode.NAMED_BARRIER_INITIALIZE (Some 31) (1 ∷ []) }
    ensures wide_count { ¬ (LineHolds with_objects 8 label opcode.NAMED_BARRIER_INITIALIZE (Some 31) (14 ∷ [])) }
    ensures barrier { LineHolds with_objects 8 label opcode.MEMORY_NAMED_BARRIER None (31 ∷ 1 ∷ 1 ∷ []) }
    ensures no_barrier { ¬ (LineHolds with_objects 8 label opcode.MEMORY_NAMED_BARRIER None (1 ∷ 1 ∷ 1 ∷ [])) }
    // A queue is data, and is not selected.
    ensures queue { LineHolds with_objects 8 label opcode.COPY_OBJECT (Some 27) (27 ∷ []) }
    ensures no_choice { ¬ (LineHolds with_objects 8 label opcode.SELECT (Some 27) (12 ∷ 27 ∷ 27 ∷ [])) }
{}

/// What pipes ask: `%28` and `%29` are types of pipes that are read and written, `%26` is a reserve id type, `%30` a
/// pipe storage type, `%16` a pointer of Generic.
#[tactic(auto, unfolding(crate::specs::Table::lines))]
pub fn pipe_examples()
    ensures read { LineHolds with_objects 8 label opcode.READ_PIPE (Some 1) (28 ∷ 16 ∷ 1 ∷ 1 ∷ []) }
    ensures read_written { ¬ (LineHolds with_objects 8 label opcode.READ_PIPE (Some 1) (29 ∷ 16 ∷ 1 ∷ 1 ∷ [])) }
    ensures write { LineHolds with_objects 8 label opcode.WRITE_PIPE (Some 1) (29 ∷ 16 ∷ 1 ∷ 1 ∷ []) }
    ensures write_read { ¬ (LineHolds with_objects 8 label opcode.WRITE_PIPE (Some 1) (28 ∷ 16 ∷ 1 ∷ 1 ∷ [])) }
    ensures reserved { LineHolds with_objects 8 label
        opcode.RESERVED_READ_PIPE (Some 1) (28 ∷ 26 ∷ 1 ∷ 16 ∷ 1 ∷ 1 ∷ []) }
    ensures no_reserve { ¬ (LineHolds with_objects 8 label
        opcode.RESERVED_READ_PIPE (Some 1) (28 ∷ 1 ∷ 1 ∷ 16 ∷ 1 ∷ 1 ∷ [])) }
    ensures reserved_write { LineHolds with_objects 8 label
        opcode.RESERVED_WRITE_PIPE (Some 1) (29 ∷ 26 ∷ 1 ∷ 16 ∷ 1 ∷ 1 ∷ []) }
    ensures reserved_read { ¬ (LineHolds with_objects 8 label
        opcode.RESERVED_WRITE_PIPE (Some 1) (28 ∷ 26 ∷ 1 ∷ 16 ∷ 1 ∷ 1 ∷ [])) }
    ensures reserve_read { LineHolds with_objects 8 label
        opcode.RESERVE_READ_PIPE_PACKETS (Some 26) (28 ∷ 1 ∷ 1 ∷ 1 ∷ []) }
    ensures reserve_written { ¬ (LineHolds with_objects 8 label
        opcode.RESERVE_READ_PIPE_PACKETS (Some 26) (29 ∷ 1 ∷ 1 ∷ 1 ∷ [])) }
    ensures reserve { LineHolds with_objects 8 label opcode.RESERVE_WRITE_PIPE_PACKETS (Some 26) (29 ∷ 1 ∷ 1 ∷ 1 ∷ []) }
    ensures int_reserve { ¬ (LineHolds with_objects 8 label
        opcode.RESERVE_WRITE_PIPE_PACKETS (Some 1) (29 ∷ 1 ∷ 1 ∷ 1 ∷ [])) }
    ensures commit { LineHolds with_objects 8 label opcode.COMMIT_READ_PIPE None (28 ∷ 26 ∷ 1 ∷ 1 ∷ []) }
    ensures no_commit { ¬ (LineHolds with_objects 8 label opcode.COMMIT_READ_PIPE None (28 ∷ 1 ∷ 1 ∷ 1 ∷ [])) }
    ensures commit_write { LineHolds with_objects 8 label opcode.COMMIT_WRITE_PIPE None (29 ∷ 26 ∷ 1 ∷ 1 ∷ []) }
    ensures commit_read { ¬ (LineHolds with_objects 8 label opcode.COMMIT_WRITE_PIPE None (28 ∷ 26 ∷ 1 ∷ 1 ∷ [])) }
    ensures valid { LineHolds with_objects 8 label opcode.IS_VALID_RESERVE_ID (Some 12) (26 ∷ []) }
    ensures not_valid { ¬ (LineHolds with_objects 8 label opcode.IS_VALID_RESERVE_ID (Some 12) (1 ∷ [])) }
    ensures packets { LineHolds with_objects 8 label opcode.GET_NUM_PIPE_PACKETS (Some 1) (29 ∷ 1 ∷ 1 ∷ []) }
    ensures no_packets { ¬ (LineHolds with_objects 8 label opcode.GET_NUM_PIPE_PACKETS (Some 1) (30 ∷ 1 ∷ 1 ∷ [])) }
    ensures pipe { LineHolds with_objects 8 label opcode.CREATE_PIPE_FROM_PIPE_STORAGE (Some 28) (30 ∷ []) }
    ensures no_pipe { ¬ (LineHolds with_objects 8 label opcode.CREATE_PIPE_FROM_PIPE_STORAGE (Some 28) (28 ∷ [])) }
{}

/// What pipes ask of which a group has packets reserved.
#[tactic(auto, unfolding(crate::specs::Table::lines))]
pub fn group_pipe_examples()
    ensures reserve_read { LineHolds with_objects 8 label
        opcode.GROUP_RESERVE_READ_PIPE_PACKETS (Some 26) (1 ∷ 28 ∷ 1 ∷ 1 ∷ 1 ∷ []) }
    ensures reserve_written { ¬ (LineHolds with_objects 8 label
        opcode.GROUP_RESERVE_READ_PIPE_PACKETS (Some 26) (1 ∷ 29 ∷ 1 ∷ 1 ∷ 1 ∷ [])) }
    ensures reserve { LineHolds with_objects 8 label
        opcode.GROUP_RESERVE_WRITE_PIPE_PACKETS (Some 26) (1 ∷ 29 ∷ 1 ∷ 1 ∷ 1 ∷ []) }
    ensures int_reserve { ¬ (LineHolds with_objects 8 label
        opcode.GROUP_RESERVE_WRITE_PIPE_PACKETS (Some 1) (1 ∷ 29 ∷ 1 ∷ 1 ∷ 1 ∷ [])) }
    ensures commit { LineHolds with_objects 8 label opcode.GROUP_COMMIT_READ_PIPE None (1 ∷ 28 ∷ 26 ∷ 1 ∷ 1 ∷ []) }
    ensures no_commit { ¬ (LineHolds with_objects 8 label
        opcode.GROUP_COMMIT_READ_PIPE None (1 ∷ 28 ∷ 1 ∷ 1 ∷ 1 ∷ [])) }
    ensures commit_write { LineHolds with_objects 8 label
        opcode.GROUP_COMMIT_WRITE_PIPE None (1 ∷ 29 ∷ 26 ∷ 1 ∷ 1 ∷ []) }
    ensures commit_read { ¬ (LineHolds with_objects 8 label
        opcode.GROUP_COMMIT_WRITE_PIPE None (1 ∷ 28 ∷ 26 ∷ 1 ∷ 1 ∷ [])) }
{}

/// What images ask, of types of the module `objects` of spv_type_forms, and more: `%4` is a type of images of two
/// dimensions and `%5` its sampled image type, `%30` one of images that have several samples and are used with a
/// sampler, `%24` a sampler type; `%21` and `%23` are vectors of four and two floats, `%22` one of two ints; `%26` is a
/// pointer to `%4`, `%25` one of the class Image to `%3`, a float.
#[tactic(auto, unfolding(crate::specs::Table::lines))]
pub fn image_examples()
    ensures sampled { LineHolds with_images 8 label opcode.SAMPLED_IMAGE (Some 5) (4 ∷ 24 ∷ []) }
    ensures no_image { ¬ (LineHolds with_images 8 label opcode.SAMPLED_IMAGE (Some 5) (6 ∷ 24 ∷ [])) }
    ensures sample { LineHolds with_images 8 sample opcode.IMAGE_SAMPLE_EXPLICIT_LOD (Some 21) (5 ∷ 23 ∷ 3 ∷ []) }
    ensures no_lod { ¬ (LineHolds with_images 8 label opcode.IMAGE_SAMPLE_EXPLICIT_LOD (Some 21) (5 ∷ 23 ∷ [])) }
    ensures read { LineHolds with_images 8 label opcode.IMAGE_READ (Some 21) (4 ∷ 22 ∷ []) }
    ensures float_place { ¬ (LineHolds with_images 8 label opcode.IMAGE_READ (Some 21) (4 ∷ 23 ∷ [])) }
    ensures fetch { LineHolds with_images 8 fetch opcode.IMAGE_FETCH (Some 21) (30 ∷ 22 ∷ 1 ∷ []) }
    ensures no_sample { ¬ (LineHolds with_images 8 label opcode.IMAGE_FETCH (Some 21) (30 ∷ 22 ∷ [])) }
    ensures write { LineHolds with_images 8 label opcode.IMAGE_WRITE None (4 ∷ 22 ∷ 21 ∷ []) }
    ensures int_texel { ¬ (LineHolds with_images 8 label opcode.IMAGE_WRITE None (4 ∷ 22 ∷ 22 ∷ [])) }
    ensures image { LineHolds with_images 8 label opcode.IMAGE (Some 4) (5 ∷ []) }
    ensures other_image { ¬ (LineHolds with_images 8 label opcode.IMAGE (Some 6) (5 ∷ [])) }
    ensures format { LineHolds with_images 8 label opcode.IMAGE_QUERY_FORMAT (Some 1) (4 ∷ []) }
    ensures no_format { ¬ (LineHolds with_images 8 label opcode.IMAGE_QUERY_FORMAT (Some 1) (5 ∷ [])) }
    ensures level_size { LineHolds with_images 8 label opcode.IMAGE_QUERY_SIZE_LOD (Some 22) (4 ∷ 1 ∷ []) }
    ensures one_size { ¬ (LineHolds with_images 8 label opcode.IMAGE_QUERY_SIZE_LOD (Some 1) (4 ∷ 1 ∷ [])) }
    ensures size { LineHolds with_images 8 label opcode.IMAGE_QUERY_SIZE (Some 22) (4 ∷ []) }
    ensures no_size { ¬ (LineHolds with_images 8 label opcode.IMAGE_QUERY_SIZE (Some 22) (6 ∷ [])) }
    ensures levels { LineHolds with_images 8 label opcode.IMAGE_QUERY_LEVELS (Some 1) (4 ∷ []) }
    ensures no_levels { ¬ (LineHolds with_images 8 label opcode.IMAGE_QUERY_LEVELS (Some 1) (6 ∷ [])) }
    ensures samples { LineHolds with_images 8 label opcode.IMAGE_QUERY_SAMPLES (Some 1) (30 ∷ []) }
    ensures one_sample { ¬ (LineHolds with_images 8 label opcode.IMAGE_QUERY_SAMPLES (Some 1) (4 ∷ [])) }
    ensures texel { LineHolds with_images 8 label opcode.IMAGE_TEXEL_POINTER (Some 25) (26 ∷ 22 ∷ 1 ∷ []) }
    ensures no_texel { ¬ (LineHolds with_images 8 label opcode.IMAGE_TEXEL_POINTER (Some 26) (26 ∷ 22 ∷ 1 ∷ [])) }
{}

/// What copies of groups and ranges ask: `%28` and `%29` are pointers of Workgroup and CrossWorkgroup to `%3`, `%27` is
/// an event type; `%2` is a size and `%10` the struct of a range.
#[tactic(auto, unfolding(crate::specs::Table::lines))]
pub fn range_examples()
    ensures copy { LineHolds with_images 8 label
        opcode.GROUP_ASYNC_COPY (Some 27) (1 ∷ 28 ∷ 29 ∷ 2 ∷ 2 ∷ 27 ∷ []) }
    ensures one_class { ¬ (LineHolds with_images 8 label
        opcode.GROUP_ASYNC_COPY (Some 27) (1 ∷ 28 ∷ 28 ∷ 2 ∷ 2 ∷ 27 ∷ [])) }
    ensures range { LineHolds with_images 8 label opcode.BUILD_ND_RANGE (Some 10) (2 ∷ 2 ∷ 2 ∷ []) }
    ensures no_sizes { ¬ (LineHolds with_images 8 label opcode.BUILD_ND_RANGE (Some 10) (1 ∷ 1 ∷ 1 ∷ [])) }
{}

/// What instructions outside blocks ask: `%8` is a constant. In the module `sets` of spv_conditions `%1` is a set
/// without meaning and `%3` that of OpenCL, `%2` is void, `%4` a decoration group and `%6` a struct of two members.
#[tactic(auto, unfolding(crate::specs::Table::lines))]
pub fn outside_examples()
    ensures mode { LineHolds with_images 8 mode_id opcode.EXECUTION_MODE_ID None [] }
    ensures no_id { ¬ (LineHolds with_images 8 no_mode_id opcode.EXECUTION_MODE_ID None []) }
    ensures with_id { LineHolds with_images 8 (decorate_id (Id 8 ∷ [])) opcode.DECORATE_ID None [] }
    ensures without_id { ¬ (LineHolds with_images 8 (decorate_id []) opcode.DECORATE_ID None []) }
    ensures text { LineHolds with_images 8 (decorate_string (Text [] ∷ [])) opcode.DECORATE_STRING None [] }
    ensures no_text { ¬ (LineHolds with_images 8 (decorate_string []) opcode.DECORATE_STRING None []) }
    ensures silent { LineHolds sets 8 (call 1) opcode.EXT_INST (Some 2) [] }
    ensures loud { ¬ (LineHolds sets 8 (call 3) opcode.EXT_INST (Some 2) []) }
    ensures group { LineHolds sets 8 (group_decorate 6) opcode.GROUP_DECORATE None [] }
    ensures of_group { ¬ (LineHolds sets 8 (group_decorate 4) opcode.GROUP_DECORATE None []) }
    ensures member { LineHolds sets 8 (group_member_decorate 1) opcode.GROUP_MEMBER_DECORATE None [] }
    ensures past { ¬ (LineHolds sets 8 (group_member_decorate 2) opcode.GROUP_MEMBER_DECORATE None []) }
{}

/// What the instructions of device enqueue ask: `%45` and `%50` are functions of blocks, with a size of local memory
/// and without; `%42` is a pointer to bytes and `%43` one of Workgroup, `%46` a queue type, `%48` a pointer to device
/// events, `%10` the struct of a range, and `%1` an int.
#[tactic(auto, unfolding(crate::specs::Table::lines))]
pub fn enqueue_examples()
    ensures enqueue { LineHolds with_blocks 8 enqueue opcode.ENQUEUE_KERNEL (Some 1)
        (46 ∷ 1 ∷ 10 ∷ 1 ∷ 48 ∷ 48 ∷ 42 ∷ 1 ∷ 1 ∷ 2 ∷ []) }
    ensures no_size { ¬ (LineHolds with_blocks 8 enqueue opcode.ENQUEUE_KERNEL (Some 1)
        (46 ∷ 1 ∷ 10 ∷ 1 ∷ 48 ∷ 48 ∷ 42 ∷ 1 ∷ 1 ∷ [])) }
    ensures groups { LineHolds with_blocks 8 count_groups opcode.GET_KERNEL_ND_RANGE_SUB_GROUP_COUNT (Some 1)
        (10 ∷ 42 ∷ 1 ∷ 1 ∷ []) }
    ensures no_range { ¬ (LineHolds with_blocks 8 count_groups opcode.GET_KERNEL_ND_RANGE_SUB_GROUP_COUNT (Some 1)
        (1 ∷ 42 ∷ 1 ∷ 1 ∷ [])) }
    ensures size { LineHolds with_blocks 8 (work_size 50) opcode.GET_KERNEL_WORK_GROUP_SIZE (Some 1)
        (42 ∷ 1 ∷ 1 ∷ []) }
    ensures no_function { ¬ (LineHolds with_blocks 8 (work_size 46) opcode.GET_KERNEL_WORK_GROUP_SIZE (Some 1)
        (42 ∷ 1 ∷ 1 ∷ [])) }
    ensures for_count { LineHolds with_blocks 8 count_groups opcode.GET_KERNEL_LOCAL_SIZE_FOR_SUBGROUP_COUNT (Some 1)
        (1 ∷ 42 ∷ 1 ∷ 1 ∷ []) }
    ensures local_data { ¬ (LineHolds with_blocks 8 count_groups
        opcode.GET_KERNEL_LOCAL_SIZE_FOR_SUBGROUP_COUNT (Some 1) (1 ∷ 43 ∷ 1 ∷ 1 ∷ [])) }
{}

/// Value operands: those of an access chain are all its ids; a function among them is none.
pub fn value_examples()
    ensures beside { value_ids (places.Beside 1) (Id 61 ∷ Id 50 ∷ Id 62 ∷ []) ≡ 61 ∷ 62 ∷ [] }
    ensures not_beside { ¬ (value_ids (places.Beside 1) (Id 61 ∷ Id 50 ∷ []) ≡ 61 ∷ 50 ∷ []) }
    ensures chain { AreValues table to_member (8 ∷ 5 ∷ []) }
    ensures not_first { ¬ (AreValues table to_member (5 ∷ [])) }
{}

/// *Typed* at instructions.
#[tactic(auto, unfolding(crate::specs::Table::lines))]
pub fn typed_examples()
    ensures add { IsTyped table small 8 add }
    ensures add_floats { ¬ (IsTyped table small 8 add_floats) }
    // Other types than the declared ones.
    ensures types { ¬ (Typed small 8 add (2 ∷ 1 ∷ [])) }
    // No line speaks of a label.
    ensures free { IsTyped table small 8 label }
    ensures places { places_of opcode.I_ADD ≡ places.Ids }
    ensures no_places { places_of opcode.LABEL ≡ places.Free }
    // The first instruction of the module is a type declaration, of which no line speaks; OpFAdd of ints stands first
    // in the other.
    ensures at { IsTypedAt table small 0 }
    ensures not_at { ¬ (IsTypedAt table (add_floats ∷ small) 0) }
{}
