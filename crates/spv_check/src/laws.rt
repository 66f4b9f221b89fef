//! What follows from the definitions of a verdict. Each function does nothing: its contract is what is proved.
ghost use Rattle.std.specs.Prelude.{◌≡◌, ◌≢◌, ◌↔◌, ◌++◌, ◌∷◌, [], ℕ, List};
ghost use Rattle.std.specs.Prelude.{Option, true, false, codes};
ghost use Rattle.spv_table.specs.Table.{Table};
ghost use Rattle.spv_module.specs.Operand.{PlainInst};
ghost use Rattle.spv_module.specs.Module.{plain_insts};
ghost use Rattle.spv_module.specs.declared.fault.Fault.{Fault};
ghost use Rattle.spv_module.specs.declared.fault.Rule.{Rule};
ghost use Rattle.spv_module.specs.declared.fault.Rule.TheVariants.{A1, G1, I7, L2, O1, O3, Y7, Y9, Y10};
ghost use Rattle.spv_module.specs.declared.module.Module.{Module};
ghost use Rattle.spv_extended.specs.declared.reach.Reach.{Reach};
ghost use Rattle.spv_extended.specs.declared.reach.Reach.TheVariants.{Profile, Extended, OpenCl};
ghost use Rattle.spv_flow.specs.declared.branches.fork.Fork.TheVariants.{Distinct};
ghost use Rattle.spv_check.specs.Fork.{fork_of};
ghost use Rattle.spv_layout.specs.Place.{IsShort};
ghost use Rattle.spv_layout.specs.declared.place.Place.{Place};
ghost use Rattle.spv_ids.specs.declared.ids.Ids.{Ids};
ghost use Rattle.spv_ids.specs.Outcome.{IsDefinitionOf, definition_in};
ghost use Rattle.spv_check.specs.declared.flow.Flow.{Flow};
ghost use Rattle.spv_std_types.specs.Example.{unlike};
ghost use Rattle.spv_standard.specs.Example.{entries};
ghost use Rattle.spv_flow.specs.calls.Example.{functions, looped};
ghost use Rattle.spv_check.specs.Outcome.{HasFailed, IsUntouched, OfKnown};
ghost use Rattle.spv_check.specs.Answer.{IsFault};
ghost use Rattle.spv_check.specs.Checked.{AreParts, IsChecked, IsKept};
ghost use Rattle.spv_check.specs.Program.{Program};
ghost use Rattle.spv_check.specs.Broken.{Broken, IsFirstOfAll, IsSound, Precedes};
ghost use Rattle.spv_check.specs.Example.{kernel_body, kernel_bytes, kernel_places, kernel_program, kernel_words};
ghost use Rattle.spv_check.specs.Example.{other_program};
ghost use Rattle.spv_check.specs.Reading.{IsReading};
ghost use Rattle.spv_check.specs.Kernel.{grammar, kernel};
ghost use Rattle.spv_check.specs.Stream.{Begins, TellsVerdict};
ghost use Rattle.spv_check.specs.Valid.{IsValid};
ghost use Rattle.spv_check.specs.Verdict.{IsVerdict, fault_line, line_end, valid_line};

use spv_extended::laws::opening_keeps;
use spv_inst::{listed_or_dead, one_death, one_listing};
use spv_layout::laws::member_or_dead;

/// Bytes have one verdict line.
pub fn one_verdict()
    ensures { (G : Table) (reach : Reach) (bytes one other : List ℕ) → IsVerdict G reach bytes one
        → IsVerdict G reach bytes other → one ≡ other }
{
    spv_words::laws::one_word_list();
    spv_words::laws::one_refusal();
    one_death();
    one_listing();
    listed_or_dead();
}

/// The verdict line is `valid` exactly where the bytes are a valid module.
pub fn valid_exactly()
    ensures { (G : Table) (reach : Reach) (bytes : List ℕ)
        → IsVerdict G reach bytes valid_line ↔ IsValid G reach bytes }
{}

/// Words have one answer: one fault, and none where they are a checked module.
pub fn one_answer()
    ensures fault { (G : Table) (reach : Reach) (words : List ℕ) (f g : Fault) → IsFault G reach words f
        → IsFault G reach words g → (f.rule ≡ g.rule) × (f.inst ≡ g.inst) × (f.word ≡ g.word) }
    ensures never { (G : Table) (reach : Reach) (words : List ℕ) (f : Fault) (p : Program) → IsFault G reach words f
        → ¬ (IsChecked G reach words p) }
{
    spv_words::laws::one_word_list();
    spv_words::laws::one_refusal();
    one_death();
    one_listing();
    listed_or_dead();
}

/// Of all broken rules at most one is told, at one instruction.
pub fn one_first()
    ensures { (G : Table) (reach : Reach) (bound : ℕ) (is : List PlainInst) (q r : Rule) (m n : ℕ)
        → IsFirstOfAll G reach bound is q m → IsFirstOfAll G reach bound is r n → (q ≡ r) × (m ≡ n) }
{}

/// No rule is broken on a program of few enough words exactly where it keeps all that the layers demand, which is said
/// without a `not`.
pub fn kept_exactly()
    ensures { (G : Table) (reach : Reach) (p : Program) → IsShort p.insts
        → IsSound G reach p.bound p.insts ↔ IsKept G reach p }
{
    member_or_dead();
}

/// Worked examples.
pub fn examples()
    // Three bytes are no header, whatever the grammar says.
    ensures refused { (G : Table) (reach : Reach) → IsVerdict G reach (1 ∷ 2 ∷ 3 ∷ []) (codes "fault W2" ++ line_end) }
    ensures not_valid { (G : Table) (reach : Reach) → ¬ (IsVerdict G reach (1 ∷ 2 ∷ 3 ∷ []) valid_line) }
    // A header with version 1.6, generator 7 and bound 5, and no instruction after it: OpMemoryModel is missing.
    ensures unsound { (G : Table) (reach : Reach) → IsVerdict G reach
        (7 ∷ 35 ∷ 2 ∷ 3 ∷ 0 ∷ 1 ∷ 6 ∷ 0 ∷ 0 ∷ 0 ∷ 0 ∷ 7 ∷ 0 ∷ 0 ∷ 0 ∷ 5 ∷ 0 ∷ 0 ∷ 0
        ∷ 0 ∷ []) (fault_line L2 0 5) }
    // Rule I7 at the first instruction and the word of number 9.
    ensures text { fault_line I7 0 9 ≡ codes "fault I7 inst 0 word 9" ++ line_end }
{
    spv_words::laws::examples();
    one_verdict();
}

/// Worked examples of broken rules, and of which is told.
pub fn broken_examples()
    // A call on a cycle that an entry point leads to, under any table; where there is no entry point, none breaks the
    // rule.
    ensures cycle { (G : Table) (reach : Reach) (bound : ℕ) → Broken G reach bound looped G1 8 }
    ensures no_cycle { (G : Table) (reach : Reach) (bound n : ℕ) → ¬ (Broken G reach bound functions G1 n) }
    // A fault of types is told before one of values at a lower instruction.
    ensures earlier { Precedes Y7 9 A1 3 }
    ensures later { ¬ (Precedes A1 3 Y7 9) }
    // A call of OpenCL.std whose operand has not the type of its result breaks a rule of kernels of OpenCL, which is
    // told after Y9.
    ensures types { (G : Table) (minor bound : ℕ) → Broken G (OpenCl minor) bound unlike Y10 22 }
    ensures no_types { (G : Table) (bound n : ℕ) → ¬ (Broken G Extended bound unlike Y10 n) }
    ensures after { Precedes Y9 9 Y10 3 }
    // Two entry points of one model and one name break one that the standard asks of kernels of OpenCL besides, which
    // are told after all others.
    ensures standard { (G : Table) (minor bound : ℕ) → Broken G (OpenCl minor) bound entries O3 1 }
    ensures no_standard { (G : Table) (bound n : ℕ) → ¬ (Broken G Extended bound entries O3 n) }
    ensures last { Precedes Y10 9 O1 3 }
{
    spv_flow::calls::laws::call_examples();
    spv_standard::laws::broken_examples();
}

/// Worked examples of what a check leaves in its writer.
pub fn stream_examples()
    // A writer that held the byte 9 got the verdict line of three bytes.
    ensures tells { (G : Table) (reach : Reach) → TellsVerdict G reach (1 ∷ 2 ∷ 3 ∷ []) (9 ∷ [])
        (Some (9 ∷ codes "fault W2" ++ line_end)) false }
    ensures tells_valid { (G : Table) (reach : Reach) (new : Option (List ℕ))
        → ¬ (TellsVerdict G reach (1 ∷ 2 ∷ 3 ∷ []) [] new true) }
    // The first five bytes of that line, and of another one.
    ensures begins { (G : Table) (reach : Reach) → Begins G reach (1 ∷ 2 ∷ 3 ∷ []) (9 ∷ []) (Some (9 ∷ codes "fault")) }
    ensures begins_valid { (G : Table) (reach : Reach) → ¬ (Begins G reach (1 ∷ 2 ∷ 3 ∷ []) [] (Some (codes "valid"))) }
{
    spv_words::laws::examples();
    one_verdict();
}

/// Worked examples of what became of a reader or a writer, which is here its count of failures.
pub fn outcome_examples()
    ensures failed { HasFailed (λ (count : ℕ). count) 1 2 }
    ensures not_failed { ¬ (HasFailed (λ (count : ℕ). count) 2 2) }
    ensures untouched { IsUntouched (λ (count : ℕ). count) 1 2 }
    // No call failed, and yet it is not as it was.
    ensures touched { ¬ (IsUntouched (λ (count : ℕ). 0) 1 2) }
    // A reader that has the byte 7 left, and a writer that holds the byte 8.
    ensures known { OfKnown (Some (7 ∷ [])) (Some (8 ∷ []))
        (λ left held. (left ≡ 7 ∷ []) × (held ≡ 8 ∷ [])) }
    ensures not_known { ¬ (OfKnown (Some (7 ∷ [])) (Some (8 ∷ [])) (λ left held. left ≡ held)) }
    ensures unknown { OfKnown None (Some (8 ∷ [])) (λ left held. left ≡ held) }
{}

/// The smallest kernel, under a small grammar table.
pub fn kernel_examples()
    ensures sound { IsSound grammar Profile 5 kernel }
    ensures kept { IsKept grammar Profile kernel_program }
    // A function that an entry point leads to calls itself.
    ensures not_kept { (G : Table) (reach : Reach) (bound : ℕ)
        → ¬ (IsKept G reach (record { bound = bound; insts = looped })) }
    // Its places, and what is kept of the definitions of its ids and of its functions; it has not those of another
    // program.
    ensures parts { (m : Module) (ids : Ids) (flow : Flow) → m.header.bound ≡ 5 → plain_insts m ≡ kernel
        → ((x : ℕ) → IsDefinitionOf kernel x (definition_in ids x)) → flow.definitions ≡ 1
        → AreParts grammar Profile kernel_program m kernel_places ids flow }
    ensures other_parts { (G : Table) (reach : Reach) (m : Module) (places : List Place) (ids : Ids) (flow : Flow)
        → m.header.bound ≡ 5 → ¬ (AreParts G reach other_program m places ids flow) }
    // The words are that module, and not one with another bound.
    ensures checked { IsChecked grammar Profile kernel_words kernel_program }
    ensures other_bound { ¬ (IsChecked grammar Profile kernel_words other_program) }
    ensures valid { IsValid grammar Profile kernel_bytes }
    ensures line { IsVerdict grammar Profile kernel_bytes valid_line }
    // Three bytes.
    ensures not_valid { (G : Table) (reach : Reach) → ¬ (IsValid G reach (1 ∷ 2 ∷ 3 ∷ [])) }
{
    examples();
}

/// What is asked of the two labels of an OpBranchConditional.
pub fn fork_examples()
    ensures profile { fork_of Profile ≡ Distinct }
    // Of a kernel of OpenCL it is asked since version 1.6.
    ensures newest { fork_of (OpenCl 6) ≡ Distinct }
    ensures earlier { fork_of (OpenCl 5) ≢ Distinct }
{}

/// What words are the reading of.
pub fn reading_examples()
    ensures profile { IsReading grammar Profile kernel kernel_body }
    // It has no extended instruction.
    ensures extended { IsReading grammar Extended kernel kernel_body }
    ensures not_empty { (G : Table) (reach : Reach) → ¬ (IsReading G reach [] kernel_body) }
{
    opening_keeps();
}
