//! What the layers tell of a module before and after its extended instructions are opened. Each function does nothing:
//! its contract is what is proved.

ghost use Rattle.std.specs.Prelude.{◌≡◌, ℕ, List, Some, slice_get};
ghost use Rattle.spv_table.specs.Table.{Table};
ghost use Rattle.spv_module.specs.Operand.{PlainInst};
ghost use Rattle.spv_module.specs.declared.profile.Profile.{Profile};
ghost use Rattle.spv_module.specs.declared.fault.Rule.{Rule};
ghost use Rattle.spv_extended.specs.Opened.{opened};
ghost use Rattle.spv_layout.specs.Broken as layout;
ghost use Rattle.spv_ids.specs.Broken as ids;
ghost use Rattle.spv_type_rules.specs.roles.Broken as roles;
ghost use Rattle.spv_capabilities.specs.Keeps as capabilities;
ghost use Rattle.spv_ops.specs.Typed.{IsTyped};
ghost use Rattle.spv_type_rules.specs.Keeps as types;
ghost use Rattle.spv_flow.specs.declared.branches.fork.Fork.{Fork};
ghost use Rattle.spv_flow.specs.branches.Broken as flow;
ghost use Rattle.spv_flow.specs.calls.Broken as calls;

/// A rule on shapes, layout, ids, roles, flow or calls that a module breaks is broken at the same instruction where the
/// module is opened: opening makes uses and mentions of operands that were not looked at, and takes none away.
pub fn broken_opened()
    ensures layout { (p : Profile) (G : Table) (is : List PlainInst) (r : Rule) (n : ℕ) → layout.Broken p G is r n
        → layout.Broken p G (opened is) r n }
    ensures ids { (G : Table) (bound : ℕ) (is : List PlainInst) (r : Rule) (n : ℕ) → ids.Broken G bound is r n
        → ids.Broken G bound (opened is) r n }
    ensures roles { (G : Table) (is : List PlainInst) (r : Rule) (n : ℕ) → roles.Broken G is r n
        → roles.Broken G (opened is) r n }
    ensures flow { (fork : Fork) (G : Table) (is : List PlainInst) (r : Rule) (n : ℕ) → flow.Broken fork G is r n
        → flow.Broken fork G (opened is) r n }
    ensures calls { (is : List PlainInst) (r : Rule) (n : ℕ) → calls.Broken is r n → calls.Broken (opened is) r n }
{}

/// What a rule on capabilities, entry points or types demands of an instruction is kept where it is kept of that
/// instruction of the opened module.
pub fn kept_opened()
    ensures capabilities { (G : Table) (is : List PlainInst) (r : Rule) (n : ℕ) (i : PlainInst)
        → slice_get is n ≡ Some i
        → ((j : PlainInst) → slice_get (opened is) n ≡ Some j → capabilities.Keeps G (opened is) r n j)
        → capabilities.Keeps G is r n i }
    ensures types { (G : Table) (is : List PlainInst) (r : Rule) (n : ℕ) (i : PlainInst) → slice_get is n ≡ Some i
        → ((j : PlainInst) → slice_get (opened is) n ≡ Some j
        → types.Keeps (IsTyped G (opened is)) (opened is) r n j) → types.Keeps (IsTyped G is) is r n i }
{}
