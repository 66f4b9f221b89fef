//! Worked examples of the definitions. Each function does nothing: its contract is what is proved.

ghost use Rattle.std.specs.Prelude.{[], ◌∷◌, Some, None};
ghost use Rattle.spv_module.specs.Operand.{Result, Id, Word, Value, Mask};
ghost use Rattle.spv_capabilities.specs.Capable.{Has, IsCoveredOperand, needs_of};
ghost use Rattle.spv_capabilities.specs.Asked.{IsCoveredEntry, HasNeeded, HasEntry};
ghost use Rattle.spv_capabilities.specs.inner.Capable.{IsKernel};
ghost use Rattle.spv_capabilities.specs.Memory.{IsModel};
ghost use Rattle.spv_capabilities.specs.Keeps.{Keeps, IsFirstAt};
ghost use Rattle.spv_module.specs.declared.fault.Rule.TheVariants as rule;
ghost use Rattle.spv_module.specs.declared.opcode.TheConstants as opcode;
ghost use Rattle.spv_capabilities.specs.Entry.{IsKernelFunction, IsSoundEntry, IsSoundMode};
ghost use Rattle.spv_capabilities.specs.inner.Entry.{IsSoundLinkage};
ghost use Rattle.spv_capabilities.specs.Example.{small, inst, vectors, images, image_type, linked, entry};
ghost use Rattle.spv_capabilities.specs.Example.{void_function, kernel, called};
ghost use Rattle.spv_capabilities.specs.Example.{declaration};

/// Capabilities that a module has, by the small table: what lists Kernel implies it.
pub fn capability_examples()
    ensures implied { Has small vectors 6 }
    ensures not_implied { ¬ (Has small vectors 5) }
    ensures kernel { IsKernel small vectors }
    ensures no_kernel { ¬ (IsKernel small linked) }
{}

/// Entries, enumerants and widths that ask for capabilities.
pub fn covered_examples()
    ensures entry { IsCoveredEntry small vectors 31 }
    ensures no_entry { ¬ (IsCoveredEntry small linked 31) }
    // Volatile lists Linkage and Kernel, of which the module has one; Nontemporal lists a name that no capability
    // bears.
    ensures one_of_two { IsCoveredOperand small vectors (Mask 1 1) }
    ensures unknown_name { ¬ (IsCoveredOperand small vectors (Mask 1 5)) }
    // The name of no bit is not asked for, and nor is that of a capability.
    ensures no_bit { IsCoveredOperand small vectors (Mask 1 0) }
    ensures capability { IsCoveredOperand small linked (Value 0 7) }
    // A vector of eight, and an int of 16 bits.
    ensures vector { HasNeeded small vectors (needs_of (inst opcode.TYPE_VECTOR (Result 2 ∷ Id 1 ∷ Word 8 ∷ []))) }
    ensures short { ¬ (HasNeeded small vectors (needs_of (inst opcode.TYPE_INT (Result 1 ∷ Word 16 ∷ Word 0 ∷ [])))) }
    // Images and samplers need ImageBasic, and images of the access qualifier ReadWrite ImageReadWrite too.
    ensures image { HasNeeded small images (needs_of (image_type 0)) }
    ensures sampler { ¬ (HasNeeded small vectors (needs_of (inst opcode.TYPE_SAMPLER (Result 2 ∷ [])))) }
    ensures read_write { ¬ (HasNeeded small images (needs_of (image_type 2))) }
{}

/// Memory models.
pub fn model_examples()
    ensures physical { IsModel (Value 3 2 ∷ Value 4 2 ∷ []) }
    ensures logical { ¬ (IsModel (Value 3 0 ∷ Value 4 2 ∷ [])) }
{}

/// Entry points, execution modes and imports.
pub fn entry_examples()
    ensures entry_point { HasEntry small kernel }
    ensures linkage { HasEntry small linked }
    ensures no_entry { ¬ (HasEntry small vectors) }
    ensures function { IsKernelFunction kernel 3 }
    ensures called { ¬ (IsKernelFunction called 3) }
    ensures entry { IsSoundEntry kernel (entry.operands) }
    ensures other_model { ¬ (IsSoundEntry kernel (Value 9 5 ∷ Id 3 ∷ [])) }
    ensures mode { IsSoundMode kernel (Id 3 ∷ []) }
    ensures no_mode { ¬ (IsSoundMode void_function (Id 3 ∷ [])) }
    // Import is 1, and Export is 0.
    ensures imported { IsSoundLinkage small (declaration 1) 1 }
    ensures exported { ¬ (IsSoundLinkage small (declaration 0) 1) }
{}

/// What C1, C2 and E1 demand of instructions.
pub fn capable_examples()
    ensures kernel { Keeps small vectors rule.C1 0 (inst opcode.MEMORY_MODEL []) }
    ensures no_kernel { ¬ (Keeps small linked rule.C1 0 (inst opcode.MEMORY_MODEL [])) }
    // OpTypeOpaque lists Kernel.
    ensures capable { Keeps small vectors rule.C2 0 (inst opcode.TYPE_OPAQUE (Result 1 ∷ [])) }
    ensures not_capable { ¬ (Keeps small linked rule.C2 0 (inst opcode.TYPE_OPAQUE (Result 1 ∷ []))) }
    ensures linkage { Keeps small linked rule.E1 0 (inst opcode.MEMORY_MODEL []) }
    ensures no_linkage { ¬ (Keeps small vectors rule.E1 0 (inst opcode.MEMORY_MODEL [])) }
{}

/// What M1 and E2 demand of instructions.
pub fn demand_examples()
    ensures model { Keeps small kernel rule.M1 0 (inst opcode.MEMORY_MODEL (Value 3 2 ∷ Value 4 2 ∷ [])) }
    ensures no_model { ¬ (Keeps small kernel rule.M1 0 (inst opcode.MEMORY_MODEL (Value 3 0 ∷ Value 4 2 ∷ []))) }
    // M1 demands nothing of an instruction other than OpMemoryModel.
    ensures other { Keeps small kernel rule.M1 1 (inst opcode.TYPE_VOID (Result 1 ∷ [])) }
    ensures entry { Keeps small kernel rule.E2 0 entry }
    ensures no_entry { ¬ (Keeps small kernel rule.E2 0 (inst opcode.ENTRY_POINT (Value 9 5 ∷ Id 3 ∷ []))) }
    ensures mode { Keeps small kernel rule.E2 1 (inst opcode.EXECUTION_MODE_ID (Id 3 ∷ [])) }
    ensures no_mode { ¬ (Keeps small void_function rule.E2 1 (inst opcode.EXECUTION_MODE_ID (Id 3 ∷ []))) }
{}

/// The first of these rules that is broken at an instruction.
pub fn first_examples()
    // A module without Kernel breaks C1, which comes before M1.
    ensures first { IsFirstAt small linked 0 (inst opcode.MEMORY_MODEL []) (Some rule.C1) }
    ensures later { ¬ (IsFirstAt small linked 0 (inst opcode.MEMORY_MODEL []) (Some rule.M1)) }
    ensures some { ¬ (IsFirstAt small linked 0 (inst opcode.MEMORY_MODEL []) None) }
    // OpTypeVoid breaks none of them.
    ensures none { IsFirstAt small linked 0 (inst opcode.TYPE_VOID (Result 1 ∷ [])) None }
{}
