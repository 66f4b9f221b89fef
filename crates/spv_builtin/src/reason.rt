//! What a grammar file is refused for, in lines for people.

ghost use Rattle.std.specs.Prelude.{◌≡◌, ◌++◌, ◌<◌, IfOk, OnOk, flat_map, string_bytes};
ghost use Rattle.spv_grammar.specs.Reason.{IsReason, digit_shown, fault_lines, line_of, octet_shown, path_line};

use crate::fault::fault_of;
use spv_grammar::GrammarFault;
use spv_table::Memory;
use std::alloc::{AllocError, Global};

/// The digit of a number below 16.
fn digit(number: u8) -> u8
    requires { number < 16 }
    ensures { result ≡ digit_shown number }
{
    if number < 10 {
        b'0' + number
    } else {
        b'a' - 10 + number
    }
}

/// Adds an octet of a text.
fn push_octet(out: &mut Vec<u8>, octet: u8) -> Result<(), AllocError>
    ensures { OnOk result (out.new.items ≡ out.old.items ++ octet_shown octet) }
{
    if octet < 32 || octet >= 127 {
        return out.extend_from_slice(&[b'\\', b'x', digit(octet / 16), digit(octet % 16)]);
    }
    out.extend_from_slice(&[octet])
}

/// Adds a text.
fn push_text(out: &mut Vec<u8>, text: &[u8]) -> Result<(), AllocError>
    ensures { OnOk result (out.new.items ≡ out.old.items ++ flat_map octet_shown text.now) }
{
    for octet in text {
        push_octet(out, *octet)?;
    }
    Ok(())
}

/// Adds the line of a key.
fn push_line(out: &mut Vec<u8>, key: &[u8], text: &[u8]) -> Result<(), AllocError>
    ensures { OnOk result (out.new.items ≡ out.old.items ++ line_of key.now text.now) }
{
    out.extend_from_slice(key)?;
    out.extend_from_slice(b": ")?;
    push_text(out, text)?;
    out.extend_from_slice(b"\n")
}

/// Adds the line of a path.
fn push_path(out: &mut Vec<u8>, path: &[u8]) -> Result<(), AllocError>
    ensures { OnOk result (out.new.items ≡ out.old.items ++ path_line path.now) }
{
    match path {
        [] => Ok(()),
        _ => push_line(out, b"at", path),
    }
}

/// The lines of a fault.
fn lines_of_fault(alloc: Global, fault: &GrammarFault) -> Result<Vec<u8>, AllocError>
    ensures { IfOk result (λ lines. lines.items ≡ fault_lines fault.now) }
{
    let mut out = Vec::new(alloc);
    push_path(&mut out, fault.path.as_bytes())?;
    push_line(&mut out, b"found", fault.found.as_bytes())?;
    push_line(&mut out, b"wanted", fault.wanted.as_bytes())?;
    Ok(out)
}

/// What a grammar file's text is refused for, in lines that end with a line feed: `at:` and the path to it, but where
/// that is the whole file; `found:` and what stands there, `wanted:` and what is wanted. Each octet of a
/// control character, and each that is none of ASCII, is `\xNN`. It is empty where the text breaks no code.
///
/// # Errors
///
/// `Memory` where a growth of memory was refused; there is no other.
pub fn grammar_reason(alloc: Global, text: &[u8]) -> Result<Vec<u8>, Memory>
    ensures { IfOk result (λ lines. IsReason text.now lines.items) }
{
    match fault_of(alloc, text)? {
        Some(fault) => Ok(lines_of_fault(alloc, &fault)?),
        None => Ok(Vec::new(alloc)),
    }
}
