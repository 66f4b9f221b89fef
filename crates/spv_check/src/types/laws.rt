//! Laws of the rules, and a worked example. Each function does nothing: its contract is what is proved.

ghost use Rattle.std.specs.Prelude.{◌≡◌, ℕ, List, []};
ghost use Rattle.spv_table.specs.Table.{Table};
ghost use Rattle.spv_module.specs.Operand.{PlainInst};
ghost use Rattle.spv_module.specs.declared.fault.Rule.{Rule};
ghost use Rattle.spv_layout.specs.First.{IsFirst};
ghost use Rattle.spv_module.specs.declared.fault.Rule.TheVariants.{C1, M1};
ghost use Rattle.spv_module.specs.declared.fault.Stop.TheVariants.{Fault};
ghost use Rattle.spv_check.specs.types.Broken.{Broken};
ghost use Rattle.spv_check.specs.types.Example.{logical, physical, numbers, table};
ghost use Rattle.spv_check.specs.types.Outcome.{AreTypes, IsRefusal};

/// Of each stage at most one rule is broken first, at one instruction.
pub fn one_fault()
    ensures { (G : Table) (is : List PlainInst) (stage : ℕ) (q r : Rule) (m n : ℕ)
        → IsFirst (Broken G is) stage q m → IsFirst (Broken G is) stage r n → (q ≡ r) × (m ≡ n) }
{}

/// Memory models by which M1 is broken or not.
pub fn broken_examples()
    ensures logical { (G : Table) → Broken G logical M1 0 }
    ensures physical { (G : Table) → ¬ (Broken G physical M1 0) }
{}

/// What is answered of a type and a constant of it, and of a memory model without capabilities.
pub fn outcome_examples()
    ensures types { AreTypes table numbers (record { table = table; insts = numbers }) }
    // The constant has a type.
    ensures no_types { ¬ (AreTypes table numbers (record { table = table; insts = [] })) }
    // C1 is told, which comes before M1.
    ensures refusal { (G : Table) → IsRefusal G logical (Fault (record { rule = C1; inst = 0; word = 5 })) }
    ensures later { (G : Table) → ¬ (IsRefusal G logical (Fault (record { rule = M1; inst = 0; word = 5 }))) }
{}
