ghost use Rattle.std.specs.Prelude.{◌≡◌, ◌≤◌, ◌<◌, ◌-◌, ℕ, [], length, take, IfOk, IfErr};
ghost use Rattle.spv_table.specs.Table.{Table};
ghost use Rattle.spv_inst.specs.inner.Known.{IsNear};
ghost use Rattle.spv_module.specs.Operand.{Context};
ghost use Rattle.spv_module.specs.Width as width;
ghost use Rattle.spv_module.specs.Shape.{AsNumber};
ghost use Rattle.spv_module.specs.Spelling.{Takes};
ghost use Rattle.spv_module.specs.Refusal.{ShapeRefuses};
ghost use Rattle.spv_module.specs.Module.{plain_operand};
ghost use Rattle.spv_inst.specs.inner.Reading.{between, parameter_kinds};

use crate::definitions::Definitions;
use crate::reader::{Known, Refusal, Taken};
use spv_module::{Operand, Rule};
use spv_words::{Image, word};

/// The width of a LiteralContextDependentNumber, in bits: that of the instruction's result type (SPIR-V Specification
/// 1.6, section 2.2.1). None where the operands so far have no result type, or where its last definition is no
/// OpTypeInt or OpTypeFloat with a width from 1 to 64.
pub fn context_width(definitions: &Definitions, known: Known) -> Option<u32>
    ensures { (c : Context) → IsNear definitions.now known c → result ≡ width.context_width c }
{
    definitions.width(known.type_id?)
}

/// The width of a literal of OpSwitch, in bits: that of the type of the first operand, the selector (SPIR-V
/// Specification 1.6, section 3, OpSwitch). None where the first operand is no id or has no type, or where the type's
/// last definition is no OpTypeInt or OpTypeFloat with a width from 1 to 64.
#[inline(always)]
pub fn switch_width(definitions: &Definitions, known: Known) -> Option<u32>
    ensures { (c : Context) → IsNear definitions.now known c → result ≡ width.switch_width c }
{
    let type_id = definitions.type_id(known.first?)?;
    definitions.width(type_id)
}

/// Takes a number of a width, in bits, at the front of the words from `at` up to `end`, of which there is one at least.
///
/// Up to 32 bits take one word, wider numbers take two, the low word first (SPIR-V Specification 1.6, section 2.2.1). A
/// `Refusal` counts its word from `at`: I11 at word 0 where the width is not known, I4 at word 1 where a number of two
/// words has one word left.
pub fn take_number<'a>(
    image: &Image,
    width: Option<u32>,
    at: u32,
    end: u32,
) -> Result<Taken<'a>, Refusal>
    requires order { at < end }
    requires fits { end ≤ length image.now }
    ensures taken { IfOk result (λ t. (k : ℕ)
        → Takes k (AsNumber width) (plain_operand t.operand) (take t.words (between image.now at end)) []) }
    ensures operand { IfOk result (λ t. (G : Table) → parameter_kinds G (plain_operand t.operand) ≡ []) }
    ensures within { IfOk result (λ t. (0 < t.words) × (t.words ≤ end - at)) }
    ensures refused { IfErr result (λ e. ShapeRefuses (AsNumber width) (between image.now at end) e.rule e.word) }
{
    let low = word(image, at);
    match width {
        None => Err(Refusal::new(Rule::I11, 0)),
        Some(bits) => {
            if bits <= 32 {
                let operand = Operand::Number {
                    low,
                    high: 0,
                    words: 1,
                };
                return Ok(Taken { operand, words: 1 });
            }
            if end - at < 2 {
                return Err(Refusal::new(Rule::I4, 1));
            }
            let operand = Operand::Number {
                low,
                high: word(image, at + 1),
                words: 2,
            };
            Ok(Taken { operand, words: 2 })
        }
    }
}
