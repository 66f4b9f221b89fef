//! Laws of the definitions, and worked examples. Each function does nothing: its contract is what is proved.

ghost use Rattle.std.specs.Prelude.{ℕ, List};
ghost use Rattle.spv_table.specs.Table.{Table};
ghost use Rattle.spv_module.specs.Operand.{PlainInst};
ghost use Rattle.spv_flow.specs.branches.Target.{IsOp, is_label};
ghost use Rattle.spv_block_order.specs.Early.{IsEarlyBlock, IsEarlyUse};
ghost use Rattle.spv_block_order.specs.Example.{in_order, turned, unreached};

/// O1 is broken at OpLabels alone.
pub fn early_blocks_are_labels()
    ensures { (G : Table) (is : List PlainInst) (n : ℕ) → IsEarlyBlock G is n → IsOp is n is_label }
{}

/// Small functions.
pub fn order_examples()
    // The block of %2 stands before that of %3, by which each walk comes to it.
    ensures turned { (G : Table) → IsEarlyBlock G turned 3 }
    ensures in_order { (G : Table) → ¬ (IsEarlyBlock G in_order 3) }
    // No walk comes to the block of %2, in which %7 is used before it is defined, and %6 after that.
    ensures unreached { (G : Table) → IsEarlyUse G unreached 4 }
    ensures defined { (G : Table) → ¬ (IsEarlyUse G unreached 5) }
{}
