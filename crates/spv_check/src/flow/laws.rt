//! Laws of the definitions, and worked examples. Each function does nothing: its contract is what is proved.

ghost use Rattle.std.specs.Prelude.{◌≡◌, ℕ, List};
ghost use Rattle.spv_module.specs.Operand.{PlainInst};
ghost use Rattle.spv_check.specs.flow.Definitions.{CountsDefinitions};
ghost use Rattle.spv_check.specs.flow.Example.{alone};

/// A module has one number of function definitions.
pub fn one_count()
    ensures { (is : List PlainInst) (m n : ℕ) → CountsDefinitions is m → CountsDefinitions is n → m ≡ n }
{}

/// A function of one block is one definition, and not none.
pub fn count_examples()
    ensures one { CountsDefinitions alone 1 }
    ensures not_none { ¬ (CountsDefinitions alone 0) }
{}
