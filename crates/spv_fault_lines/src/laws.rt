//! Worked examples. Each function does nothing: its contract is what is proved.

ghost use Rattle.std.specs.Prelude.{◌≡◌, ◌∷◌, [], None, codes};
ghost use Rattle.spv_module.specs.Example.{small, string as one_string};
ghost use Rattle.spv_fault_lines.specs.Lines.{more_part, raw_of};
ghost use Rattle.spv_facts.specs.declared.fact.Detail.TheVariants.{Short};
ghost use Rattle.spv_facts.specs.declared.fact.Fact.TheVariants as fact;

/// Facts as they stand in lines, and how many operands a line names.
pub fn line_examples()
    ensures raw { raw_of Short small [] [] fact.NoEntry ≡ codes "missing: OpEntryPoint" }
    ensures not_raw { ¬ (raw_of Short small [] [] fact.NoEntry ≡ codes "missing OpEntryPoint") }
    // Where there is no least count, a line tells so.
    ensures no_count { raw_of Short small [] [] (fact.Least None) ≡ codes "least: none" }
    ensures not_nothing { ¬ (raw_of Short small [] [] (fact.Least None) ≡ codes "least:") }
    // An instruction has its number and its line.
    ensures used { raw_of Short small (one_string ∷ []) (codes "%5 = OpString \"abc\"" ∷ []) (fact.UsedBy 0)
        ≡ codes "used by: inst 0, %5 = OpString \"abc\"" }
    // A version is more than its minor number.
    ensures since { raw_of Short small [] [] (fact.Since 2) ≡ codes "since: 1.2" }
    ensures not_minor { ¬ (raw_of Short small [] [] (fact.Since 2) ≡ codes "since: 2") }
    // Of eight operands none is left out, and of nine one is.
    ensures few { more_part 8 ≡ [] }
    ensures many { ¬ (more_part 9 ≡ []) }
{}
