//! Names of a mask's bits.

ghost use Rattle.std.specs.Prelude.{◌≡◌, ◌∷◌, ℕ, List, option_map};
ghost use Rattle.spv_lines.specs.Name.{IsNameOf};
ghost use Rattle.spv_lines.specs.inner.Answer.{IsNamedBits, IsNamedMask, cells, cells_left, names_in};

use crate::name::named_value;
use crate::split::split_cell;
use spv_table::Table;

/// The mask of a kind whose bits plain names tell, joined by `|`, the smaller bit first. `first` is the value of the
/// first name, and `names` what stands behind its `|`, if there is one.
fn named_bits(table: &Table, kind: u32, text: &str, first: u32, names: Option<&str>) -> Option<u32>
    requires { (name : List ℕ) × (cells text.now ≡ name ∷ cells_left (option_map (λ t. t.now) names))
        × IsNameOf (names_in table.now kind) first name }
    ensures { IsNamedBits (names_in table.now kind) text.now result }
{
    let mut bit = first;
    let mut rest = names;
    let mut mask = 0u32;
    for position in 0..32u32 {
        if bit == 1 << position {
            mask += bit;
            let Some(names) = rest else {
                return Some(mask);
            };
            let (name, behind) = split_cell(names);
            let Some(next) = named_value(table, kind, name) else {
                return None;
            };
            bit = next;
            rest = behind;
        }
    }
    None
}

/// The mask of a kind that plain names stand for: that of 0 alone, or those of the mask's bits joined by `|`, the
/// smaller bit first. None where a text is no such names.
pub fn named_mask(table: &Table, kind: u32, text: &str) -> Option<u32>
    ensures { IsNamedMask (names_in table.now kind) text.now result }
{
    let (name, rest) = split_cell(text);
    let Some(first) = named_value(table, kind, name) else {
        return None;
    };
    if first == 0 && rest.is_none() {
        return Some(0);
    }
    named_bits(table, kind, text, first, rest)
}
