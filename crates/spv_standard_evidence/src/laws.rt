//! That evidence suffices, and worked examples. Each function does nothing: its contract is what is proved.

ghost use Rattle.std.specs.Prelude.{ℕ, List, [], ◌∷◌};
ghost use Rattle.spv_table.specs.Table.{Table};
ghost use Rattle.spv_module.specs.Operand.{PlainInst};
ghost use Rattle.spv_module.specs.declared.fault.Rule.{Rule};
ghost use Rattle.spv_module.specs.declared.fault.Rule.TheVariants.{O4, O14, O19, O21};
ghost use Rattle.spv_type_forms.specs.Example.{inst};
ghost use Rattle.spv_evidence.specs.declared.evidence.Evidence.{Evidence};
ghost use Rattle.spv_evidence.specs.declared.evidence.Evidence.TheVariants.{Late, NotInInterface, Operand, Pair};
ghost use Rattle.spv_evidence.specs.declared.evidence.Lister.TheVariants.{Entry};
ghost use Rattle.spv_kernel_operands.specs.Example.{barrier, small, switch};
ghost use Rattle.spv_block_order.specs.Broken as order;
ghost use Rattle.spv_interfaces.specs.Broken as interfaces;
ghost use Rattle.spv_interfaces.specs.Example.{faced};
ghost use Rattle.spv_declarations.specs.Broken as declarations;
ghost use Rattle.spv_kernel_operands.specs.Broken as operands;
ghost use Rattle.spv_versions.specs.Broken as versions;
ghost use Rattle.spv_limits.specs.Broken as limits;
ghost use Rattle.spv_standard_evidence.specs.Order as by_order;
ghost use Rattle.spv_standard_evidence.specs.Declarations as by_declarations;
ghost use Rattle.spv_standard_evidence.specs.Operands as by_operands;
ghost use Rattle.spv_standard_evidence.specs.Versions as by_versions;
ghost use Rattle.spv_standard_evidence.specs.Limits as by_limits;
ghost use Rattle.spv_standard_evidence.specs.Interfaces as by_interfaces;

/// Evidence shows that the rule is broken at the instruction.
pub fn suffices()
    ensures order { (G : Table) (is : List PlainInst) (r : Rule) (n : ℕ) (e : Evidence)
        → by_order.IsEvidence G is r n e → order.Broken G is r n }
    ensures interfaces { (G : Table) (minor : ℕ) (is : List PlainInst) (r : Rule) (n : ℕ) (e : Evidence)
        → by_interfaces.IsEvidence G minor is r n e → interfaces.Broken G minor is r n }
    ensures declarations { (G : Table) (is : List PlainInst) (r : Rule) (n : ℕ) (e : Evidence)
        → by_declarations.IsEvidence G is r n e → declarations.Broken G is r n }
    ensures operands { (G : Table) (is : List PlainInst) (r : Rule) (n : ℕ) (e : Evidence)
        → by_operands.IsEvidence G is r n e → operands.Broken G is r n }
    ensures versions { (G : Table) (minor : ℕ) (is : List PlainInst) (r : Rule) (n : ℕ) (e : Evidence)
        → by_versions.IsEvidence G minor is r n e → versions.Broken G minor is r n }
    ensures limits { (is : List PlainInst) (r : Rule) (n : ℕ) (e : Evidence)
        → by_limits.IsEvidence is r n e → limits.Broken is r n }
{}

/// Small modules. In that of operands %1 is an int type of width 32, and %3 and %5 are the constants 2 and 5 of it.
pub fn evidence_examples()
    // OpMemoryBarrier %5 %2 has the scope 5, and OpMemoryBarrier %3 %2 the scope 2.
    ensures scope { (G : Table) → by_operands.Shows G small (barrier 5 2) O14 (Operand 0) }
    ensures no_scope { (G : Table) (e : Evidence) → ¬ (by_operands.Shows G small (barrier 3 2) O14 e) }
    // OpSwitch %3 %20 7 %21 7 %22 has two equal literals, which are not its labels.
    ensures twice { (G : Table) → by_operands.Shows G small (switch 7 7) O19 (Pair 2 4) }
    ensures labels { (G : Table) → ¬ (by_operands.Shows G small (switch 7 7) O19 (Pair 3 5)) }
    ensures once { (G : Table) → ¬ (by_operands.Shows G small (switch 7 8) O19 (Pair 2 4)) }
    // The entry point's function (2) calls one (7) whose instruction 9 uses the variable (1); it does not do so itself.
    ensures unnamed { (G : Table)
        → by_interfaces.IsEvidence G 4 (faced []) O4 0 (NotInInterface 1 (2 ∷ 7 ∷ []) 9) }
    ensures elsewhere { (G : Table)
        → ¬ (by_interfaces.IsEvidence G 4 (faced []) O4 0 (NotInInterface 1 (2 ∷ []) 9)) }
    // OpCopyLogical (400) came with 1.4.
    ensures opcode { (G : Table) → by_versions.IsEvidence G 3 (inst 400 [] ∷ []) O21 0 (Late Entry 4) }
{}
