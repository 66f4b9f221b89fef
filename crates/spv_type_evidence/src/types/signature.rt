//! Where the type of a function differs from what is found.

ghost use Rattle.std.specs.Prelude.{◌≡◌, ◌∷◌, Some, IsSomeAnd, MatchOption};
ghost use Rattle.spv_module.specs.Module.{plain_inst, plain_operands};
ghost use Rattle.spv_module.specs.Operand.{Id};
ghost use Rattle.spv_type_rules.specs.Function.{signature_of, ReturnsAfter};
ghost use Rattle.spv_evidence.specs.declared.evidence.Evidence.TheVariants.{Mismatch};
ghost use Rattle.spv_type_evidence.specs.types.Function.{Differs};
ghost use Rattle.spv_type_evidence.specs.types.inner.Known.{IsSignature, IsFunction};

use spv_evidence::{Evidence, Side};
use spv_module::{Inst, Operand};
use spv_type_forms::Definitions;
use spv_type_rules::{function_type, signature};

/// Where types or counts differ, and the ones that are wanted and found there, if any is. Types are ids.
#[derive(Clone, Copy)]
pub struct Difference {
    pub side: Side,
    pub wanted: Option<u32>,
    pub found: Option<u32>,
}

impl Difference {
    /// The evidence that it is, where a function type of this id is asked.
    pub fn evidence(self, of: Option<u32>) -> Evidence
        ensures { result ≡ Mismatch self.side self.wanted self.found of }
    {
        Evidence::Mismatch {
            side: self.side,
            wanted: self.wanted,
            found: self.found,
            of,
        }
    }
}

/// What a function type returns, and its parameters.
pub fn split_signature<'o, 'a>(signature: &'o [Operand<'a>]) -> (u32, &'o [Operand<'a>])
    requires { IsSignature (plain_operands signature.now) }
    ensures { plain_operands signature.now ≡ Id result.0 ∷ plain_operands result.1.now }
{
    let [Operand::Id(t), parameters @ ..] = signature else {
        unreachable!();
    };
    (*t, parameters)
}

/// Where the type of a function differs from a result type and a number of parameters or arguments, if somewhere.
pub fn first_difference(
    definitions: &Definitions,
    function: &Inst,
    r: u32,
    count: u32,
) -> Option<Difference>
    requires { IsFunction definitions.now (plain_inst function.now) }
    ensures { let f = plain_inst function.now in
        MatchOption result (IsSomeAnd (signature_of definitions.now f) (ReturnsAfter (Some r) count))
        (λ d. Differs definitions.now f r count d.side d.wanted d.found) }
{
    let Some(signature) = signature(definitions, function) else {
        return Some(Difference {
            side: Side::Function,
            wanted: None,
            found: function_type(function),
        });
    };
    let (t, parameters) = split_signature(signature);
    if t != r {
        return Some(Difference {
            side: Side::Return,
            wanted: Some(t),
            found: Some(r),
        });
    }
    let wanted = parameters.len() as u32;
    if wanted != count {
        return Some(Difference {
            side: Side::Number,
            wanted: Some(wanted),
            found: Some(count),
        });
    }
    None
}
