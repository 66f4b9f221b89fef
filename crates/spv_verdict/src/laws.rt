//! The laws of verdicts and of the runs of checked modules; and what looking further at a module changes of its
//! verdict.

ghost use Rattle.std.specs.Prelude.{◌++◌, ◌∷◌, [], ℕ, List};
ghost use Rattle.spv_table.specs.Table.{Table};
ghost use Rattle.spv_module.specs.Operand.{Id, PlainInst};
ghost use Rattle.spv_module.specs.declared.fault.Rule.{Rule};
ghost use Rattle.spv_module.specs.declared.fault.Rule.TheVariants.{G1, O3, Y9, Y10};
ghost use Rattle.spv_extended.specs.declared.reach.Reach.TheVariants.{Extended, OpenCl, Profile};
ghost use Rattle.spv_extended.specs.Example.{call, imports};
ghost use Rattle.spv_std_types.specs.Example.{unlike};
ghost use Rattle.spv_std_types.specs.Mistyped.{IsMistyped};
ghost use Rattle.spv_standard.specs.Broken.{KernelBroken};
ghost use Rattle.spv_standard.specs.Example.{entries};
ghost use Rattle.spv_flow.specs.calls.Example.{looped};
ghost use Rattle.spv_check.specs.Valid.{IsValid};
ghost use Rattle.spv_verdict.specs.Further.{BreaksToo};

pub use spv_check::laws::{
    broken_examples, examples, kept_exactly, kernel_examples, one_answer, one_first, one_verdict,
    outcome_examples, reading_examples, stream_examples, valid_exactly,
};
pub use spv_run::tracing::laws::{never_stuck, one_trace, trace_examples};

/// A module that is refused where its extended instructions are not looked at is refused where they are: each rule that
/// it breaks by the profile it breaks at the same instruction there, though another one may be told before it.
pub fn refused_too()
    ensures broken { (G : Table) (bound : ℕ) (is : List PlainInst) (r : Rule) (n : ℕ)
        → BreaksToo G Profile Extended bound is r n }
    // So what is valid there is valid by the profile.
    ensures valid { (G : Table) (bytes : List ℕ) → IsValid G Extended bytes → IsValid G Profile bytes }
{}

/// A module that is valid where its extended instructions are looked at is valid as a kernel of OpenCL, of whatever
/// version, unless it breaks Y10 or what the standard asks of that version's kernels besides: the rows and the places
/// of the profile are among those of OpenCL.
pub fn wider_too()
    ensures { (G : Table) (minor : ℕ) (bytes : List ℕ) (v : IsValid G Extended bytes)
        → ((n : ℕ) → ¬ (IsMistyped v.insts n)) → ((r : Rule) (n : ℕ) → ¬ (KernelBroken G minor v.insts r n))
        → IsValid G (OpenCl minor) bytes }
{
    spv_layout::laws::member_or_dead();
    spv_layout::laws::own_profile();
}

/// Worked examples of rules that are broken by both reaches, and by one alone.
pub fn refused_examples()
    // A call on a cycle.
    ensures cycle { (G : Table) (bound : ℕ) → BreaksToo G Extended Profile bound looped G1 8 }
    // A call of OpenCL.std with an operand fewer than it takes: by the profile nothing is asked of it.
    ensures miscall { (G : Table) (bound : ℕ)
        → ¬ (BreaksToo G Extended Profile bound (imports ++ call 1 171 (Id 7 ∷ Id 8 ∷ []) ∷ []) Y9 2) }
    // One whose operand has not the type of its result: where it is no kernel of OpenCL, nothing is asked of types.
    ensures mistype { (G : Table) (minor bound : ℕ) → ¬ (BreaksToo G (OpenCl minor) Extended bound unlike Y10 22) }
    // Two entry points of one name.
    ensures repeated { (G : Table) (minor bound : ℕ) → ¬ (BreaksToo G (OpenCl minor) Extended bound entries O3 1) }
{
    spv_check::laws::broken_examples();
    spv_standard::laws::broken_examples();
}
