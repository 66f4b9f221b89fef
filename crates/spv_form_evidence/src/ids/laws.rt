//! Laws of what shows that a rule is broken. Each function does nothing: its contract is what is proved.

ghost use Rattle.std.specs.Prelude.{ℕ, List, [], ◌∷◌};
ghost use Rattle.spv_table.specs.Table.{Table};
ghost use Rattle.spv_module.specs.Example.{small};
ghost use Rattle.spv_module.specs.Operand.{PlainInst};
ghost use Rattle.spv_module.specs.declared.fault.Rule.{Rule};
ghost use Rattle.spv_module.specs.declared.fault.Rule.TheVariants.{D1, D2, D3, D4, D5, Y1};
ghost use Rattle.spv_layout.specs.declared.form.Role.TheVariants as role;
ghost use Rattle.spv_ids.specs.Broken as ids;
ghost use Rattle.spv_ids.specs.Example.{void, of_void, used_outside};
ghost use Rattle.spv_type_rules.specs.roles.Broken as roles;
ghost use Rattle.spv_evidence.specs.declared.evidence.Evidence.{Evidence};
ghost use Rattle.spv_evidence.specs.declared.evidence.Evidence.TheVariants.{Operand, Earlier, Defined, Local, Miscast};
ghost use Rattle.spv_form_evidence.specs.ids.Example.{mentioning, value_as_type};
ghost use Rattle.spv_form_evidence.specs.ids.Evidence as by_ids;
ghost use Rattle.spv_form_evidence.specs.ids.Roles as by_roles;

/// What is evidence for a rule shows that the rule is broken.
pub fn suffices()
    ensures ids { (G : Table) (bound : ℕ) (is : List PlainInst) (r : Rule) (n : ℕ) (e : Evidence)
        → by_ids.IsEvidence G bound is r n e → ids.Broken G bound is r n }
    ensures roles { (G : Table) (is : List PlainInst) (r : Rule) (n : ℕ) (e : Evidence)
        → by_roles.IsEvidence G is r n e → roles.Broken G is r n }
{}

/// What is evidence in small lists, and what is none, under a small table and the bounds 5 and 9.
pub fn evidence_examples()
    // %5 under the bound 5, and %4.
    ensures out_of_range { by_ids.IsEvidence small 5 (void 5 ∷ []) D1 0 (Operand 0) }
    ensures in_range { ¬ (by_ids.IsEvidence small 5 (void 4 ∷ []) D1 0 (Operand 0)) }
    // A mention of %5, which is no use.
    ensures mention_out_of_range { by_ids.IsEvidence small 5 (mentioning 5 ∷ []) D1 0 (Operand 4) }
    // %1 defined twice: the first instruction is earlier than the second, which is not.
    ensures again { by_ids.IsEvidence small 5 (void 1 ∷ void 1 ∷ []) D2 1 (Earlier 0) }
    ensures not_earlier { ¬ (by_ids.IsEvidence small 5 (void 1 ∷ void 1 ∷ []) D2 1 (Earlier 1)) }
    // `%2 = OpTypeFunction %1` alone: its operand 1 is a use, and its operand 0 is none.
    ensures undefined { by_ids.IsEvidence small 5 (of_void ∷ []) D3 0 (Operand 1) }
    ensures no_use { ¬ (by_ids.IsEvidence small 5 (of_void ∷ []) D3 0 (Operand 0)) }
    // A mention of %4 alone.
    ensures mention_undefined { by_ids.IsEvidence small 5 (mentioning 4 ∷ []) D3 0 (Operand 4) }
    // `%2 = OpTypeFunction %1` before the definition of %1, which is the second instruction.
    ensures early { by_ids.IsEvidence small 5 (of_void ∷ void 1 ∷ []) D4 0 (Defined 1 1) }
    ensures no_definition { ¬ (by_ids.IsEvidence small 5 (of_void ∷ void 1 ∷ []) D4 0 (Defined 1 0)) }
    // A function uses %5, which the third instruction defines in another one.
    ensures outside { by_ids.IsEvidence small 9 used_outside D5 6 (Local 2 2 0) }
    ensures other_function { ¬ (by_ids.IsEvidence small 9 used_outside D5 6 (Local 2 2 4)) }
    // %2 is a value, by its definition, the second instruction.
    ensures miscast { (G : Table) → by_roles.IsEvidence G value_as_type Y1 2 (Miscast 0 role.OfType 1) }
    ensures other_role { (G : Table) → ¬ (by_roles.IsEvidence G value_as_type Y1 2 (Miscast 0 role.Value 1)) }
{}
