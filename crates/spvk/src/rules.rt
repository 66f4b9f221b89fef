//! Names and sentences of codes, and the version, for C.
ghost use Rattle.std.specs.Prelude.{◌≡◌, ◌++◌, [], ◌∷◌, Some, codes};
ghost use Rattle.spv_rules.specs.Rules.{name_of, sentence_of};
ghost use Rattle.spvk.specs.Rules.{Puts};

use crate::static_text::StaticText;
use spv_rules::Code;

/// Puts where the name of the code of that number begins, and answers whether there is one.
#[unsafe(no_mangle)]
pub extern "C" fn spvk_raw_rule_name(code: u32, text: &mut StaticText) -> bool
    ensures { Puts name_of code text.old text.new result }
{
    match Code::numbered(code) {
        Some(code) => {
            *text = StaticText::of(code.c_name().as_bytes());
            true
        }
        None => false,
    }
}

/// Puts where the sentence of the code of that number begins, and answers whether there is one.
#[unsafe(no_mangle)]
pub extern "C" fn spvk_raw_rule_sentence(code: u32, text: &mut StaticText) -> bool
    ensures { Puts sentence_of code text.old text.new result }
{
    match Code::numbered(code) {
        Some(code) => {
            *text = StaticText::of(code.c_sentence().as_bytes());
            true
        }
        None => false,
    }
}

/// Puts where the version begins.
#[unsafe(no_mangle)]
pub extern "C" fn spvk_raw_version(text: &mut StaticText)
    ensures { text.new.octets ≡ Some (codes "1.2.0" ++ 0 ∷ []) }
{
    *text = StaticText::of(b"1.2.0\0");
}
