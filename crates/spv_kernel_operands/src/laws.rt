//! Worked examples. Each function does nothing: its contract is what is proved.
//!
//! They are of a module in which `%1` is an int type of width 32, `%2` to `%7` are the constants 0, 2, 3, 5, 6 and 20
//! of it, and `%9` is one of 5 that may be specialized.

ghost use Rattle.std.specs.Prelude.{◌≡◌, Some, None};
ghost use Rattle.spv_kernel_operands.specs.Value as value;
ghost use Rattle.spv_kernel_operands.specs.Scopes.{IsMisscoped};
ghost use Rattle.spv_kernel_operands.specs.Control.{IsMiscontrolled};
ghost use Rattle.spv_kernel_operands.specs.Switch.{IsMisswitched};
ghost use Rattle.spv_kernel_operands.specs.Example.{barrier, group, loop_merge, small, switch, weighted};

/// Values.
pub fn value_examples()
    ensures constant { value.value_of small 5 ≡ Some 5 }
    ensures special { value.value_of small 9 ≡ None }
{}

/// Scopes and semantics.
pub fn scope_examples()
    ensures high { IsMisscoped small (barrier 5 2) }
    ensures low { ¬ (IsMisscoped small (barrier 3 2)) }
    // What is specialized has no value.
    ensures special { ¬ (IsMisscoped small (barrier 9 2)) }
    // Acquire and Release.
    ensures two_orders { IsMisscoped small (barrier 3 6) }
    ensures group { IsMisscoped small (group 2) }
    ensures workgroup { ¬ (IsMisscoped small (group 3)) }
{}

/// Loop controls, weights and literals.
pub fn control_examples()
    ensures unrolled { IsMiscontrolled (loop_merge 3 0) }
    ensures multiple { IsMiscontrolled (loop_merge 64 0) }
    ensures length { ¬ (IsMiscontrolled (loop_merge 8 0)) }
    ensures weightless { IsMiscontrolled (weighted 0 0) }
    ensures weighted { ¬ (IsMiscontrolled (weighted 1 0)) }
    ensures twice { IsMisswitched small (switch 7 7) }
    ensures once { ¬ (IsMisswitched small (switch 7 8)) }
{}
