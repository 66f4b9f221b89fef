//! What statuses say, for C.
ghost use Rattle.std.specs.Prelude.{◌≡◌, ◌++◌, [], ◌∷◌, option_map};
ghost use Rattle.spvk.specs.Rules.{PutsIfAny};
ghost use Rattle.spvk.specs.Status.{status_text as text_of_status};

use crate::static_text::StaticText;

/// What a status says, with a zero octet at its end; None where there is no such status.
fn status_text(status: u32) -> Option<&'static str>
    ensures { option_map (λ t. t.now) result ≡ option_map (λ said. said ++ 0 ∷ []) (text_of_status status) }
{
    match status {
        0 => Some("success\0"),
        1 => Some("out of memory\0"),
        2 => Some("there is no grammar\0"),
        3 => Some("a pointer is null that must not be\0"),
        4 => Some("the text is no UTF-8\0"),
        5 => Some("there is no such flag\0"),
        101 => Some("the grammar file is no JSON, or nests deeper than 127 levels\0"),
        102 => Some(
            "a key of the grammar file is missing, or a value of it is of another sort than it must be\0",
        ),
        103 => Some("an opcode or a value of the grammar file is out of its range or form\0"),
        104 => Some("the grammar file names a kind that it does not have\0"),
        105 => Some("the grammar file has an unknown category or quantifier\0"),
        106 => Some("a result kind of the grammar file stands where none may\0"),
        107 => Some(
            "a composite of the grammar file has no bases, or one that is neither an id nor a literal\0",
        ),
        _ => None,
    }
}

/// Puts where what a status says begins, and answers whether there is such a status.
#[unsafe(no_mangle)]
pub extern "C" fn spvk_raw_status_text(status: u32, text: &mut StaticText) -> bool
    ensures { PutsIfAny (text_of_status status) text.old text.new result }
{
    match status_text(status) {
        Some(said) => {
            *text = StaticText::of(said.as_bytes());
            true
        }
        None => false,
    }
}
