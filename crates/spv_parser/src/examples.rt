//! Worked examples of why texts fail, under the small table of `spv_module`. The function does nothing.
ghost use Rattle.std.specs.Prelude.{[], ℕ, List, codes};
ghost use Rattle.spv_table.specs.Table.{Table};
ghost use Rattle.spv_module.specs.Example.{small};
ghost use Rattle.spv_lines.specs.declared.asm_error.AsmCode.TheVariants.{S1, S2, S3, S4, S6};
ghost use Rattle.spv_parser.specs.Example.{reason_with, text_with};
ghost use Rattle.spv_parser.specs.Reason.{FailsFor, Reason};
ghost use Rattle.spv_parser.specs.declared.text_reason.Wanted.TheVariants as wanted;

/// Lines that fail, what is left of each where its reading stops, and what is wanted there.
pub fn reason_examples()
    ensures header { FailsFor small [] S1 1 (reason_with [] [] (wanted.HeaderLine 1)) }
    ensures equals { FailsFor small (text_with (codes "%9 OpLoad")) S2 6
        (reason_with (codes "%9 OpLoad") (codes "OpLoad") wanted.Equals) }
    ensures name { FailsFor small (text_with (codes "OpLoa %2")) S2 6
        (reason_with (codes "OpLoa %2") (codes "OpLoa %2") wanted.Name) }
    ensures result { FailsFor small (text_with (codes "OpLoad %2 %8")) S3 6
        (reason_with (codes "OpLoad %2 %8") (codes "OpLoad %2 %8") wanted.Result) }
    ensures operand { FailsFor small (text_with (codes "%9 = OpLoad %2 x")) S3 6
        (reason_with (codes "%9 = OpLoad %2 x") (codes "x") wanted.Id) }
    ensures end { FailsFor small (text_with (codes "%5 = OpString \"abc\" x")) S3 6
        (reason_with (codes "%5 = OpString \"abc\" x") (codes "x") wanted.End) }
    ensures large { FailsFor small (text_with (codes "%4294967296 = OpLoad %2")) S4 6
        (reason_with (codes "%4294967296 = OpLoad %2") (codes "%4294967296 = OpLoad %2") wanted.ResultId) }
    // The reading does not stop at the first operand where the result is missing.
    ensures not_operand { ¬ (FailsFor small (text_with (codes "OpLoad %2 %8")) S3 6
        (reason_with (codes "OpLoad %2 %8") (codes "%2 %8") wanted.Id)) }
    // That memory ran out has no reason.
    ensures memory { (G : Table) (t : List ℕ) (n : ℕ) (why : Reason) → ¬ (FailsFor G t S6 n why) }
{}
