//! Laws of evidence, and worked examples. Each function does nothing: its contract is what is proved.

ghost use Rattle.std.specs.Prelude.{◌≡◌, ◌↔◌, ℕ, List, [], ◌∷◌, Some, None, slice_get};
ghost use Rattle.std.specs.Prelude.{IsSomeAnd};
ghost use Rattle.spv_table.specs.Table.{Table};
ghost use Rattle.spv_module.specs.Operand.{Plain, PlainInst, OfType, type_in};
ghost use Rattle.spv_module.specs.declared.opcode.TheConstants as opcode;
ghost use Rattle.spv_module.specs.declared.fault.Rule.{Rule};
ghost use Rattle.spv_module.specs.declared.fault.Rule.TheVariants.{Y2, Y3, Y8};
ghost use Rattle.spv_type_rules.specs.declared.declaration.Declaration.{Declaration};
ghost use Rattle.spv_type_rules.specs.declared.constant.Constant.{Constant};
ghost use Rattle.spv_type_rules.specs.Declaration.{DeclaresSoundly};
ghost use Rattle.spv_type_rules.specs.Constant.{Constitutes};
ghost use Rattle.spv_type_rules.specs.Keeps.{Keeps};
ghost use Rattle.spv_type_kinds.specs.Operands.{after_head};
ghost use Rattle.spv_evidence.specs.declared.evidence.Evidence.{Evidence};
ghost use Rattle.spv_evidence.specs.declared.evidence.Evidence.TheVariants.{Condition, Earlier, Mismatch};
ghost use Rattle.spv_evidence.specs.declared.condition.Condition.TheVariants.{VectorCount, Scalar, FitsWidth};
ghost use Rattle.spv_evidence.specs.declared.condition.Condition.TheVariants.{Normalized, Nullable};
ghost use Rattle.spv_evidence.specs.declared.condition.Condition.TheVariants as condition;
ghost use Rattle.spv_type_kinds.specs.declared.kinds.Kind.TheVariants.{Data};
ghost use Rattle.spv_evidence.specs.declared.evidence.Side.TheVariants as side;
ghost use Rattle.spv_type_evidence.specs.types.Declaration as declaration;
ghost use Rattle.spv_type_evidence.specs.types.Constant as constant;
ghost use Rattle.spv_type_forms.specs.Example.{small, pipes, inst};
ghost use Rattle.spv_type_rules.specs.declared.constant.Constant.TheVariants.{Composite, Number, Null, Sampler};
ghost use Rattle.spv_type_evidence.specs.types.Evidence.{IsEvidence};
ghost use Rattle.spv_type_evidence.specs.types.Example.{composite};
ghost use Rattle.spv_type_evidence.specs.types.Example.{with_vector, with_again, with_short_call};

/// What is evidence for a rule shows that the instruction does not keep what the rule demands. Y5 demands nothing here.
pub fn suffices()
    ensures { (G : Table) (is : List PlainInst) (r : Rule) (n : ℕ) (e : Evidence) → IsEvidence G is r n e
        → (i : PlainInst) → slice_get is n ≡ Some i → ¬ (Keeps (λ m j. Unit {0}) is r n i) }
{}

/// What a declaration asks of its operands, all together, is what Y2 demands of it.
pub fn operands_declare()
    ensures { (is : List PlainInst) (n : ℕ) (d : Declaration) (os : List Plain)
        → ((k : ℕ) → declaration.Asks is n d os k) ↔ DeclaresSoundly is n d os }
{}

/// What a constant asks of its operands, all together, is what Y4 demands of it.
pub fn operands_make()
    ensures { (is : List PlainInst) (c : Constant) (os : List Plain)
        → ((k : ℕ) → constant.Asks is c os k)
        ↔ IsSomeAnd (type_in os) (λ r. Constitutes is c r (after_head os)) }
{}

/// What is asked of the operands of a constant, by its name.
pub fn constant_examples()
    ensures width { constant.condition_at Number 2 ≡ FitsWidth }
    ensures no_width { ¬ (constant.condition_at Number 0 ≡ FitsWidth) }
    ensures normalized { constant.condition_at Sampler 3 ≡ Normalized }
    // %2 is an array of pipes, which have no null value, and %9 declares nothing.
    ensures null { constant.condition_in pipes Null (inst opcode.CONSTANT_NULL (OfType 2 ∷ [])) 0 ≡ Nullable }
    ensures no_data { constant.condition_in pipes Null (inst opcode.CONSTANT_NULL (OfType 9 ∷ [])) 0
        ≡ condition.Kind Data }
{}

/// What is read where a constituent of a composite constant fails: %9 = OpConstantComposite %3 %18 %18 of the vector
/// type %3 of ints.
pub fn constituent_examples()
    ensures read { constant.read_at small Composite composite 2 ≡ 3 ∷ 1 ∷ 1 ∷ [] }
    ensures not_read { ¬ (constant.read_at small Composite composite 2 ≡ 1 ∷ 1 ∷ []) }
    ensures type_alone { constant.read_at small Composite composite 0 ≡ 3 ∷ 1 ∷ [] }
{}

/// What shows that a rule is broken at the last instruction of a small module, and what does not.
pub fn evidence_examples()
    // No count of a vector is 5; its component type is an int.
    ensures count { (G : Table) → IsEvidence G with_vector Y2 7 (Condition VectorCount (Some 2) None None None []) }
    ensures component { (G : Table)
        → ¬ (IsEvidence G with_vector Y2 7 (Condition Scalar (Some 1) (Some 0) None None [])) }
    // The first instruction declares an int of width 8 too, and the second void.
    ensures again { (G : Table) → IsEvidence G with_again Y3 7 (Earlier 0) }
    ensures other { (G : Table) → ¬ (IsEvidence G with_again Y3 7 (Earlier 1)) }
    // The function takes one argument, and the call has none.
    ensures call { (G : Table) → IsEvidence G with_short_call Y8 7 (Mismatch side.Number (Some 1) (Some 0) (Some 3)) }
    ensures no_call { (G : Table)
        → ¬ (IsEvidence G with_short_call Y8 7 (Mismatch side.Number (Some 0) (Some 1) (Some 3))) }
{}
