//! Laws of roles, and worked examples. Each function does nothing: its contract is what is proved.

ghost use Rattle.std.specs.Prelude.{ℕ, List};
ghost use Rattle.spv_table.specs.Table.{Table};
ghost use Rattle.spv_module.specs.Operand.{PlainInst, Id, Argument, Mention};
ghost use Rattle.spv_layout.specs.First.{IsUnbroken};
ghost use Rattle.spv_layout.specs.Stage.{of_roles};
ghost use Rattle.spv_layout.specs.declared.form.Role.TheVariants as role;
ghost use Rattle.spv_type_rules.specs.roles.Broken.{Broken};
ghost use Rattle.spv_type_rules.specs.roles.Outcome.{AreInRole, IsRefusal};
ghost use Rattle.spv_type_rules.specs.roles.Role.{Plays};
ghost use Rattle.spv_type_rules.specs.roles.Example.{few, stray, typed, objects, with_extended, with_set};
ghost use Rattle.spv_type_forms.specs.Example.{lone_variable};
ghost use Rattle.spv_module.specs.declared.fault.Rule.TheVariants.{Y1};

/// Where each id that is used plays its role, Y1 is broken nowhere.
pub fn played_is_unbroken()
    ensures { (G : Table) (is : List PlainInst) → AreInRole G is → IsUnbroken (Broken G is) of_roles }
{}

/// Ids that play a role, and such as do not.
pub fn role_examples()
    // %1 is a type, and the value %2 is none.
    ensures of_type { Plays few role.OfType 1 }
    ensures no_type { ¬ (Plays few role.OfType 2) }
    // %2 is a value, and the function %3 is none.
    ensures sampler { Plays objects role.OfType 1 }
    ensures barrier { Plays objects role.OfType 2 }
    // A decoration group may be anything that is asked for in no role.
    ensures group { Plays objects role.Any 3 }
    ensures no_group { ¬ (Plays objects role.OfType 3) }
    ensures group_value { ¬ (Plays objects role.Value 3) }
    ensures value { Plays few role.Value 2 }
    ensures no_value { ¬ (Plays few role.Value 3) }
    ensures function { Plays few role.Function 3 }
    ensures no_function { ¬ (Plays few role.Function 2) }
    ensures text { Plays few role.Text 4 }
    ensures no_text { ¬ (Plays few role.Text 1) }
    ensures set { Plays with_set role.Set 5 }
    // There is no %5.
    ensures no_set { ¬ (Plays few role.Set 5) }
    ensures any { Plays few role.Any 5 }
    // An OpVariable that stands alone is outside functions.
    ensures global { Plays lone_variable role.Global 8 }
    ensures no_global { ¬ (Plays lone_variable role.Global 7) }
{}

/// Instructions at which Y1 is broken or not.
pub fn broken_examples()
    // No instruction has the result %5, which is asked to be a type.
    ensures stray { (G : Table) → Broken G stray Y1 0 }
    // OpTypeVoid uses nothing.
    ensures unused { (G : Table) → ¬ (Broken G few Y1 0) }
    // What an extended instruction takes as a value is the value %2, or the type %1.
    ensures argument { (G : Table) → ¬ (Broken G (with_extended (Argument 2)) Y1 5) }
    ensures no_argument { (G : Table) → Broken G (with_extended (Argument 1)) Y1 5 }
    // Of an id behind its number that is not looked at, or is named alone, nothing is asked.
    ensures unseen { (G : Table) → ¬ (Broken G (with_extended (Id 1)) Y1 5) }
    ensures mention { (G : Table) → ¬ (Broken G (with_extended (Mention 1)) Y1 5) }
{}

/// What is answered of a module whose ids play their roles, and of one with an id that does not.
pub fn outcome_examples()
    ensures in_role { (G : Table) → AreInRole G typed }
    ensures miscast { (G : Table) → ¬ (AreInRole G stray) }
    // The first instruction begins at word 5.
    ensures refusal { (G : Table) → IsRefusal G stray (record { rule = Y1; inst = 0; word = 5 }) }
    ensures other_word { (G : Table) → ¬ (IsRefusal G stray (record { rule = Y1; inst = 0; word = 6 })) }
{}
