//! The built-in table: it lends constants.
ghost use Rattle.std.specs.Prelude.{◌≡◌};
ghost use Rattle.spv_builtin.specs.BuiltIn.{IsBuiltIn};

use crate::constants::{
    ENTRIES, ENTRY_SLOTS, ENUMERANTS, FORMS, FRONTS, ITEMS, KIND_SLOTS, KINDS, NAMES, NEAR,
    NUMBERS, PLACES, RESULTS, SLOTS, TEXT,
};
use spv_table::{Constants, Table};

/// The constants.
fn constants() -> Constants
    ensures text { result.text.now ≡ TEXT.now }
    ensures items { result.items.now ≡ ITEMS }
    ensures numbers { result.numbers.now ≡ NUMBERS }
    ensures names { result.names.now ≡ NAMES }
    ensures enumerants { result.enumerants.now ≡ ENUMERANTS }
    ensures slots { result.slots.now ≡ SLOTS }
    ensures near { result.near.now ≡ NEAR }
    ensures kinds { result.kinds.now ≡ KINDS }
    ensures kind_slots { result.kind_slots.now ≡ KIND_SLOTS }
    ensures entries { result.entries.now ≡ ENTRIES }
    ensures entry_slots { result.entry_slots.now ≡ ENTRY_SLOTS }
    ensures places { result.places.now ≡ PLACES }
    ensures forms { result.forms.now ≡ FORMS }
    ensures results { result.results.now ≡ RESULTS }
    ensures fronts { result.fronts.now ≡ FRONTS }
{
    Constants {
        text: TEXT,
        items: &ITEMS,
        numbers: &NUMBERS,
        names: &NAMES,
        enumerants: &ENUMERANTS,
        slots: &SLOTS,
        near: &NEAR,
        kinds: &KINDS,
        kind_slots: &KIND_SLOTS,
        entries: &ENTRIES,
        entry_slots: &ENTRY_SLOTS,
        places: &PLACES,
        forms: &FORMS,
        results: &RESULTS,
        fronts: &FRONTS,
    }
}

/// The built-in table. It takes no memory.
pub(crate) fn built_in() -> Table
    ensures { IsBuiltIn result }
{
    let lies = constants();
    Table::told(lies)
}
