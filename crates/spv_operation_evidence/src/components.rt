//! Operands by what they are: literals that are no numbers of components, and masks.

ghost use Rattle.std.specs.Prelude.{◌≡◌, ◌<◌, length};
ghost use Rattle.spv_module.specs.Module.{plain_operand, plain_operands};
ghost use Rattle.spv_operation_evidence.specs.Beside as beside;

use spv_module::Operand;

/// Whether an operand is a literal that is the number of none of so many components, nor 4294967295.
fn is_odd(n: u64, operand: Operand<'_>) -> bool
    ensures { result ≡ beside.is_odd n (plain_operand operand.entry) }
{
    match operand {
        Operand::Word(k) => !(u64::from(k) < n || k == 4_294_967_295),
        _ => false,
    }
}

/// The number of the first operand that is one.
pub fn first_odd(n: u64, operands: &[Operand]) -> Option<u32>
    requires { length operands.now < 4294967296 }
    ensures { result ≡ beside.first_odd n 0 (plain_operands operands.now) }
{
    let mut number = 0;
    for operand in operands {
        if is_odd(n, *operand) {
            return Some(number);
        }
        number += 1;
    }
    None
}

/// Whether an operand is a mask.
fn is_mask_operand(operand: Operand<'_>) -> bool
    ensures { result ≡ beside.is_mask_operand (plain_operand operand.entry) }
{
    match operand {
        Operand::Mask { .. } => true,
        _ => false,
    }
}

/// The number of the first operand that is a mask.
pub fn first_mask(operands: &[Operand]) -> Option<u32>
    requires { length operands.now < 4294967296 }
    ensures { result ≡ beside.first_mask 0 (plain_operands operands.now) }
{
    let mut number = 0;
    for operand in operands {
        if is_mask_operand(*operand) {
            return Some(number);
        }
        number += 1;
    }
    None
}
