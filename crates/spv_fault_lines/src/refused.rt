//! The lines of bytes that are no words of a module.
ghost use Rattle.std.specs.Prelude.{◌≡◌, ◌++◌, OnOk, option_map};
ghost use Rattle.std.specs.Prelude.{string_bytes};
ghost use Rattle.spv_fault_lines.specs.Refused as seen;
ghost use Rattle.spv_facts.specs.declared.key.Key.TheVariants as keys;

use spv_facts::{Front, Key, found_in, help_for};
use spv_words::WordError;
use std::alloc::{AllocError, Global};

/// Adds the line of a key, where there is something to tell.
fn push_piece(out: &mut String, key: Key, text: Option<&str>) -> Result<(), AllocError>
    ensures { OnOk result (string_bytes out.new ≡ string_bytes out.old ++ seen.piece_line key
        (option_map (λ t. t.now) text.entry)) }
{
    let Some(text) = text else {
        return Ok(());
    };
    out.push_str(key.line_name())?;
    out.push_str(": ")?;
    out.push_str(text)?;
    out.push_str("\n")
}

/// Adds the line of what is found, where there is something to tell.
fn push_found(out: &mut String, found: Option<String>) -> Result<(), AllocError>
    ensures { OnOk result (string_bytes out.new ≡ string_bytes out.old ++ seen.piece_line keys.Found
        (option_map (λ t. string_bytes t) found)) }
{
    match found {
        Some(text) => push_piece(out, Key::Found, Some(text.as_str())),
        None => Ok(()),
    }
}

/// Adds the lines of what is found in bytes that break a code, by what stands in front of them.
///
/// An `AllocError` comes only where a growth of memory was refused.
pub fn push_refused(
    out: &mut String,
    alloc: Global,
    code: WordError,
    front: Front,
) -> Result<(), AllocError>
    ensures { OnOk result (string_bytes out.new ≡ string_bytes out.old ++ seen.found_lines code front) }
{
    let found = found_in(alloc, code, front)?;
    push_found(out, found)?;
    push_piece(out, Key::Help, help_for(code, front))
}
