//! What evidence says, and worked examples. Each function does nothing: its contract is what is proved.

ghost use Rattle.std.specs.Prelude.{◌≡◌, ℕ, List, Some, false, slice_get};
ghost use Rattle.spv_table.specs.Table.{Table};
ghost use Rattle.spv_module.specs.Operand.{PlainInst};
ghost use Rattle.spv_module.specs.declared.fault.Rule.{Rule};
ghost use Rattle.spv_module.specs.declared.fault.Rule.TheVariants as rule;
ghost use Rattle.spv_capabilities.specs.Keeps.{Keeps};
ghost use Rattle.spv_capabilities.specs.Example.{small, called};
ghost use Rattle.spv_evidence.specs.declared.evidence.Evidence.{Evidence};
ghost use Rattle.spv_evidence.specs.declared.evidence.Evidence.TheVariants as evidence;
ghost use Rattle.spv_evidence.specs.declared.evidence.EntryPart.TheVariants as part;
ghost use Rattle.spv_evidence.specs.declared.evidence.Lister.TheVariants as lister;
ghost use Rattle.spv_form_evidence.specs.capabilities.Evidence.{IsEvidence};
ghost use Rattle.spv_form_evidence.specs.capabilities.Example.{loading, simple};

/// Where there is evidence, the rule is broken.
pub fn suffices()
    ensures { (G : Table) (is : List PlainInst) (r : Rule) (n : ℕ) (e : Evidence) (i : PlainInst)
        → IsEvidence G is r n e → slice_get is n ≡ Some i → ¬ (Keeps G is r n i) }
{}

/// What is evidence, and what is not.
pub fn evidence_examples()
    // Linkage (5) does not imply Kernel, and Vector16 (7) does.
    ensures no_kernel { IsEvidence small (simple 5) rule.C1 1 (evidence.Capability 6 false) }
    ensures kernel { ¬ (IsEvidence small (simple 7) rule.C1 1 (evidence.Capability 6 false)) }
    // Nontemporal lists a name that no capability bears, and Volatile lists Kernel, which the module has.
    ensures bit { IsEvidence small loading rule.C2 1 (evidence.Needs (lister.Bit 3 4)) }
    ensures covered_bit { ¬ (IsEvidence small loading rule.C2 1 (evidence.Needs (lister.Bit 3 1))) }
    // The memory model is not OpenCL, and the addressing model is Physical32.
    ensures model { IsEvidence small (simple 5) rule.M1 1 (evidence.Operand 1) }
    ensures addressing { ¬ (IsEvidence small (simple 5) rule.M1 1 (evidence.Operand 0)) }
    // Instruction 0 calls the function of the OpEntryPoint, and instruction 1 is that OpEntryPoint.
    ensures call { IsEvidence small called rule.E2 1 (evidence.Entry (part.Called 0)) }
    ensures no_call { ¬ (IsEvidence small called rule.E2 1 (evidence.Entry (part.Called 1))) }
{}
