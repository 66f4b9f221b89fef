//! What is done between two passes: the marks of the one are taken away for the next, and no more of them is touched.

ghost use Rattle.std.specs.Prelude.{◌≡◌, ◌<◌, ℕ, Some, length, slice_get};
ghost use Rattle.spv_module.specs.Module.{plain_operands};
ghost use Rattle.spv_ids.specs.Definition.{IsDefinedAt};
ghost use Rattle.spv_interfaces.specs.inner.Cleared.{Clears, IsCalled, IsOfOne};
ghost use Rattle.spv_interfaces.specs.inner.Entries.{Begins, Names, NamesIn};

use crate::entries::{entry, id_of};
use crate::marks::Marks;
use spv_flow::calls::Call;
use spv_module::Operand;
use spv_type_forms::Definitions;

/// Takes all bits from the word of an instruction.
#[inline(always)]
fn clear(words: &mut Vec<u64>, number: u32)
    ensures { Clears (λ f. f ≡ number) words.old.items words.new.items }
{
    let at = number as usize;
    if at < words.len() {
        words[at] = 0;
    }
}

/// Takes all bits from the functions that are called.
pub fn clear_calls(words: &mut Vec<u64>, calls: &[Call])
    ensures { Clears (IsCalled calls.now) words.old.items words.new.items }
{
    for call in calls {
        clear(words, call.callee);
    }
}

/// Takes all bits from where an id is defined.
#[inline(always)]
fn leave(words: &mut Vec<u64>, definitions: &Definitions, x: u32)
    ensures { Clears (IsDefinedAt definitions.now x) words.old.items words.new.items }
{
    if let Some(number) = definitions.number(x) {
        clear(words, number);
    }
}

/// Takes all bits from what an interface names.
fn leave_all(named: &mut Vec<u64>, definitions: &Definitions, interface: &[Operand<'_>])
    ensures { Clears (NamesIn definitions.now (plain_operands interface.now)) named.old.items named.new.items }
{
    for operand in interface {
        if let Some(x) = id_of(*operand) {
            leave(named, definitions, x);
        }
    }
}

/// Takes all bits from the function of an OpEntryPoint, and from what its interface names.
fn end(marks: &mut Marks, definitions: &Definitions, number: u32)
    requires { number < length definitions.now }
    ensures reached { Clears (Begins definitions.now number) marks.old.reached.items marks.new.reached.items }
    ensures named { Clears (Names definitions.now number) marks.old.named.items marks.new.named.items }
{
    let Some((f, interface)) = entry(definitions.inst(number)) else {
        return;
    };
    leave(&mut marks.reached, definitions, f);
    leave_all(&mut marks.named, definitions, interface);
}

/// Takes all bits from the functions of some OpEntryPoints, and from what their interfaces name.
pub fn end_all(marks: &mut Marks, definitions: &Definitions, few: &[u32])
    requires { (k n : ℕ) → slice_get few.now k ≡ Some n → n < length definitions.now }
    ensures reached { Clears (IsOfOne (Begins definitions.now) few.now) marks.old.reached.items
        marks.new.reached.items }
    ensures named { Clears (IsOfOne (Names definitions.now) few.now) marks.old.named.items marks.new.named.items }
{
    for number in few {
        end(marks, definitions, *number);
    }
}
