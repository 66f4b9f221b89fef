//! A broken rule and where, and which of two is told.

ghost use Rattle.std.specs.Prelude.{◌∷◌, List};
ghost use Rattle.spv_table.specs.Table.{Table};
ghost use Rattle.spv_module.specs.Operand.{PlainInst};
ghost use Rattle.spv_module.specs.declared.fault.Rule as declared;
ghost use Rattle.spv_declarations.specs.Broken.{Broken};
ghost use Rattle.spv_declarations.specs.inner.First.{AreBefore, IsFirstAmong, IsFirstOf};

use spv_module::Rule;

/// A rule that is broken, and the number of the instruction, from 0.
#[derive(Clone, Copy)]
pub struct Found {
    pub rule: Rule,
    pub inst: u32,
}

/// The one that is told of what was found before and an instruction that breaks a rule which comes later in the order
/// of rules: the latter only where it stands lower.
pub fn earlier(before: Option<Found>, rule: Rule, inst: Option<u32>) -> Option<Found>
    ensures { (G : Table) (is : List PlainInst) (rs : List declared.Rule) → IsFirstAmong G is rs before
        → AreBefore rs rule → IsFirstOf (Broken G is rule) inst → IsFirstAmong G is (rule ∷ rs) result }
{
    let Some(inst) = inst else {
        return before;
    };
    match before {
        Some(found) => if found.inst <= inst {
            before
        } else {
            Some(Found { rule, inst })
        },
        None => Some(Found { rule, inst }),
    }
}
