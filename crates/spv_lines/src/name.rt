//! Names of values and masks as a text has them.

ghost use Rattle.std.specs.Prelude.{◌≡◌, ◌<◌, ◌^◌, ◌∷◌, ℕ, List, Bool, true, false, Some, None};
ghost use Rattle.std.specs.List.{list_all};
ghost use Rattle.spv_table.specs.Table.{kind_of};
ghost use Rattle.spv_module.specs.Shape.{AsMask, AsValue};
ghost use Rattle.spv_inst.specs.Reading.{enumerants_at};
ghost use Rattle.spv_lines.specs.Name as spec;
ghost use Rattle.spv_lines.specs.inner.Answer.{IsMaskText, IsNamed, IsToken, IsValueText, names_in};

use crate::mask::named_mask;
use crate::misread::Misread;
use crate::number::read_behind;
use spv_inst::due::{knows, knows_bits};
use spv_module::Operand;
use spv_table::Table;

/// Whether an octet is an ASCII letter, a digit or `_`.
fn is_name_octet(octet: u8) -> bool
    ensures { result ≡ spec.is_name_octet octet }
{
    matches!(octet, b'0'..=b'9' | b'A'..=b'Z' | b'a'..=b'z' | b'_')
}

/// Whether octets are all ASCII letters, digits and `_`.
fn are_name_octets(octets: &[u8]) -> bool
    ensures { result ≡ list_all spec.is_name_octet octets.now }
{
    octets.iter().all(|octet| is_name_octet(*octet))
}

/// Whether a name has only ASCII letters, digits and `_`, and one of them at least.
pub fn is_plain(name: &str) -> bool
    ensures { result ≡ spec.is_plain name.now }
{
    !name.is_empty() && are_name_octets(name.as_bytes())
}

/// The value that a plain name looks up among those of a kind. None where the name is not plain, or looks up none.
pub fn named_value(table: &Table, kind: u32, name: &str) -> Option<u32>
    ensures { IsNamed (names_in table.now kind) name.now result }
{
    if is_plain(name) {
        table.enumerant_named(kind, name)
    } else {
        None
    }
}

/// The value of a kind that a text stands for: a plain name of it, or `#N`.
fn value_of(table: &Table, kind: u32, text: &str) -> Result<u32, Misread>
    ensures { IsValueText (names_in table.now kind) text.now result }
{
    match named_value(table, kind, text) {
        Some(value) => Ok(value),
        None => read_behind(b'#', text.as_bytes()),
    }
}

/// The mask of a kind that a text stands for: plain names of its bits joined by `|`, that of 0, or `#N`.
fn mask_of(table: &Table, kind: u32, text: &str) -> Result<u32, Misread>
    ensures { IsMaskText (names_in table.now kind) text.now result }
{
    match named_mask(table, kind, text) {
        Some(mask) => Ok(mask),
        None => read_behind(b'#', text.as_bytes()),
    }
}

/// Takes a value of a kind, one of an enumerant.
///
/// # Errors
///
/// `IllFormed`: the token is no plain name of an enumerant's value, nor `#N` of one. `TooLarge`: it is `#N` of over 32
/// bits.
pub fn read_value(table: &Table, kind: u32, token: &str) -> Result<Operand<'static>, Misread>
    ensures { (hex : Bool) → IsToken table.now hex kind
        (AsValue (enumerants_at (kind_of table.now kind))) token.now result }
{
    match value_of(table, kind, token) {
        Ok(value) => {
            if knows(table, kind, value) {
                Ok(Operand::Value { kind, value })
            } else {
                Err(Misread::IllFormed)
            }
        }
        Err(why) => Err(why),
    }
}

/// Takes a mask of a kind, whose set bits are each that of an enumerant.
///
/// # Errors
///
/// `IllFormed`: the token is not the plain names of such a mask's bits joined by `|`, the smaller bit first, nor that
/// of 0, nor `#N` of such a mask. `TooLarge`: it is `#N` of over 32 bits.
pub fn read_mask(table: &Table, kind: u32, token: &str) -> Result<Operand<'static>, Misread>
    ensures { (hex : Bool) → IsToken table.now hex kind
        (AsMask (enumerants_at (kind_of table.now kind))) token.now result }
{
    match mask_of(table, kind, token) {
        Ok(value) => {
            if knows_bits(table, kind, value) {
                Ok(Operand::Mask { kind, value })
            } else {
                Err(Misread::IllFormed)
            }
        }
        Err(why) => Err(why),
    }
}
