//! Laws of the definitions, and worked examples. Each function does nothing: its contract is what is proved.

ghost use Rattle.std.specs.Prelude.{◌≡◌, ◌≢◌, ◌++◌, ◌∷◌, [], ℕ, List, Some, None, length, map, sum_by, true};
ghost use Rattle.std.specs.Prelude.{false, codes};
ghost use Rattle.spv_module.specs.declared.profile.Profile.TheVariants as profile;
ghost use Rattle.spv_module.specs.Operand.{Plain, Id, Argument, Mention, PlainInst};
ghost use Rattle.spv_extended.specs.declared.set.Set.TheVariants.{OpenClStd, OpenClDebugInfo, DebugInfo};
ghost use Rattle.spv_extended.specs.declared.signature.More.TheVariants.{Nothing, Any, Unknown};
ghost use Rattle.spv_extended.specs.declared.reach.Reach.TheVariants.{Profile, Extended, OpenCl};
ghost use Rattle.spv_module.specs.declared.fault.Rule.{Rule};
ghost use Rattle.spv_module.specs.declared.fault.Rule.TheVariants.{Y9};
ghost use Rattle.spv_extended.specs.Broken.{Broken};
ghost use Rattle.spv_extended.specs.Reach.{looked_at, opens, profile_of};
ghost use Rattle.spv_extended.specs.Facts.{is_literal, signature_of, takes};
ghost use Rattle.spv_extended.specs.Opened.{opened};
ghost use Rattle.spv_extended.specs.Sets.{set_named};
ghost use Rattle.spv_extended.specs.Miscalled.{IsMiscalled};
ghost use Rattle.spv_extended.specs.Call.{call_at};
ghost use Rattle.spv_extended.specs.Example.{call, imports};

/// The sets of names.
pub fn set_examples()
    ensures standard { set_named (codes "OpenCL.std") ≡ OpenClStd }
    ensures debug { set_named (codes "SPIRV.debug") ≡ OpenClDebugInfo }
    ensures not_debug { set_named (codes "SPIRV.debugs") ≢ OpenClDebugInfo }
{}

/// What sets tell of their instructions.
pub fn signature_examples()
    // vloadn (171) takes two ids and a literal, printf (184) an id and any number more, and there is no number 111.
    ensures load { signature_of OpenClStd 171 ≡ record { least = 3; more = Nothing; literals = 4 } }
    ensures printf { signature_of OpenClStd 184 ≡ record { least = 1; more = Any; literals = 0 } }
    ensures no_number { signature_of OpenClStd 111 ≡ record { least = 0; more = Unknown; literals = 0 } }
    ensures third { is_literal (signature_of OpenClStd 171) 2 ≡ true }
    ensures not_second { is_literal (signature_of OpenClStd 171) 1 ≡ false }
    // DebugOperation (30) takes any number of literals.
    ensures operation { is_literal (signature_of OpenClDebugInfo 30) 1000 ≡ true }
    // DebugFunction (20) takes ten operands, or eleven.
    ensures function { takes (signature_of DebugInfo 20) 11 ≡ true }
    ensures too_many { takes (signature_of DebugInfo 20) 12 ≡ false }
{}

/// Opening keeps how many instructions a module has, the opcode of each, and how many operands and words it has.
pub fn opening_keeps()
    ensures count { (is : List PlainInst) → length (opened is) ≡ length is }
    ensures opcodes { (is : List PlainInst) → map (λ (i : PlainInst). i.opcode) (opened is)
        ≡ map (λ (i : PlainInst). i.opcode) is }
    ensures operands { (is : List PlainInst) → map (λ (i : PlainInst). length i.operands) (opened is)
        ≡ map (λ (i : PlainInst). length i.operands) is }
    // And each sum over operands, where ids that are looked at count as other ids do.
    ensures sums { (measure : Plain → ℕ) → ((x : ℕ) → measure (Argument x) ≡ measure (Id x))
        → ((x : ℕ) → measure (Mention x) ≡ measure (Id x)) → (is : List PlainInst)
        → map (λ (i : PlainInst). sum_by measure i.operands) (opened is)
        ≡ map (λ (i : PlainInst). sum_by measure i.operands) is }
{}

/// Opening a module twice is opening it once.
pub fn opening_again()
    ensures { (is : List PlainInst) → opened (opened is) ≡ opened is }
{}

/// What becomes of the ids of extended instructions.
pub fn opened_examples()
    // vloadn (171) of OpenCL.std takes two values and a literal.
    ensures load { opened (imports ++ call 1 171 (Id 7 ∷ Id 8 ∷ Id 4 ∷ []) ∷ [])
        ≡ imports ++ call 1 171 (Argument 7 ∷ Argument 8 ∷ Id 4 ∷ []) ∷ [] }
    ensures no_literal { opened (imports ++ call 1 171 (Id 7 ∷ Id 8 ∷ Id 4 ∷ []) ∷ [])
        ≢ imports ++ call 1 171 (Argument 7 ∷ Argument 8 ∷ Argument 4 ∷ []) ∷ [] }
    // DebugTypeVector (6) of OpenCL.DebugInfo.100 takes an id and a literal.
    ensures vector { opened (imports ++ call 2 6 (Id 7 ∷ Id 4 ∷ []) ∷ [])
        ≡ imports ++ call 2 6 (Mention 7 ∷ Id 4 ∷ []) ∷ [] }
    // Of a set that is not known each place is that of an id.
    ensures other { opened (call 1 171 (Id 7 ∷ Id 8 ∷ Id 4 ∷ []) ∷ [])
        ≡ call 1 171 (Mention 7 ∷ Mention 8 ∷ Mention 4 ∷ []) ∷ [] }
{}

/// Calls of what OpenCL.std does not have.
pub fn miscalled_examples()
    ensures load { ¬ (IsMiscalled (imports ++ call 1 171 (Id 7 ∷ Id 8 ∷ Id 4 ∷ []) ∷ []) 2) }
    ensures fewer { IsMiscalled (imports ++ call 1 171 (Id 7 ∷ Id 8 ∷ []) ∷ []) 2 }
    // printf (184) takes a format and any number of values, and there is no instruction 111.
    ensures printf { ¬ (IsMiscalled (imports ++ call 1 184 (Id 7 ∷ Id 8 ∷ Id 9 ∷ []) ∷ []) 2) }
    ensures no_format { IsMiscalled (imports ++ call 1 184 [] ∷ []) 2 }
    ensures no_number { IsMiscalled (imports ++ call 1 111 (Id 7 ∷ []) ∷ []) 2 }
    // Of other sets nothing is asked.
    ensures vector { ¬ (IsMiscalled (imports ++ call 2 6 [] ∷ []) 2) }
{}

/// Y9 where extended instructions are looked at, and where they are not.
pub fn broken_examples()
    ensures fewer { Broken Extended (imports ++ call 1 171 (Id 7 ∷ Id 8 ∷ []) ∷ []) Y9 2 }
    ensures not_looked_at { (r : Rule) → ¬ (Broken Profile (imports ++ call 1 171 (Id 7 ∷ Id 8 ∷ []) ∷ []) r 2) }
    ensures load { (r : Rule) → ¬ (Broken Extended (imports ++ call 1 171 (Id 7 ∷ Id 8 ∷ Id 4 ∷ []) ∷ []) r 2) }
    ensures opencl { (minor : ℕ) → Broken (OpenCl minor) (imports ++ call 1 171 (Id 7 ∷ Id 8 ∷ []) ∷ []) Y9 2 }
{}

/// A module as far as it is looked at.
pub fn reach_examples()
    ensures profile { looked_at Profile (call 1 171 (Id 7 ∷ []) ∷ []) ≡ call 1 171 (Id 7 ∷ []) ∷ [] }
    ensures extended { looked_at Extended (call 1 171 (Id 7 ∷ []) ∷ []) ≡ call 1 171 (Mention 7 ∷ []) ∷ [] }
    ensures not_looked_at { looked_at Profile (call 1 171 (Id 7 ∷ []) ∷ []) ≢ call 1 171 (Mention 7 ∷ []) ∷ [] }
    ensures opencl { (minor : ℕ) → looked_at (OpenCl minor) (call 1 171 (Id 7 ∷ []) ∷ [])
        ≡ call 1 171 (Mention 7 ∷ []) ∷ [] }
    // Extended instructions are looked at whole, and the instructions are those of the profile.
    ensures whole { opens Extended ≡ true }
    ensures not_whole { opens Profile ≡ false }
    ensures own { profile_of Extended ≡ profile.Own }
    ensures wide { (minor : ℕ) → profile_of (OpenCl minor) ≡ profile.OpenCl }
    ensures not_own { (minor : ℕ) → profile_of (OpenCl minor) ≢ profile.Own }
{}

/// What OpExtInsts call.
pub fn call_examples()
    // The instruction of number 2 is the call.
    ensures load { call_at (imports ++ call 1 171 (Id 7 ∷ Id 8 ∷ Id 4 ∷ []) ∷ []) 2
        ≡ Some (record { set = OpenClStd; number = 171; operands = 3 }) }
    ensures other_set { call_at (imports ++ call 2 171 (Id 7 ∷ Id 8 ∷ Id 4 ∷ []) ∷ []) 2
        ≢ Some (record { set = OpenClStd; number = 171; operands = 3 }) }
    ensures import { call_at (imports ++ call 1 171 (Id 7 ∷ Id 8 ∷ Id 4 ∷ []) ∷ []) 1 ≡ None }
{}
