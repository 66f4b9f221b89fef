//! The codes as JSON objects, one a line.
ghost use Rattle.std.specs.Prelude.{◌≡◌, ◌++◌, IfOk, OnOk, false, flat_map};
ghost use Rattle.spv_rules.specs.Codes.{all_codes};
ghost use Rattle.spv_explain.specs.Json as objects;
ghost use Rattle.spv_explain.specs.Json.{code_line, meaning_members, told_json};

use crate::answers::push_rule;
use spv_fault_json::Output;
use spv_rules::{AnyCode, code_at};
use std::alloc::{AllocError, Global};

/// Adds where a code is broken, if that is asked for.
fn push_meaning(out: &mut Output, code: AnyCode, full: bool) -> Result<(), AllocError>
    ensures { OnOk result (out.new ≡ out.old ++ meaning_members full code) }
{
    if full {
        return out.text_member("meaning", code.meaning());
    }
    Ok(())
}

/// The object of a code.
fn rule_object(alloc: Global, code: AnyCode, full: bool) -> Result<Output, AllocError>
    ensures { IfOk result (λ o. o ≡ objects.rule_object full code) }
{
    let mut out = Output::new(alloc);
    out.begin_object()?;
    out.text_member("code", code.name())?;
    push_rule(&mut out, code.sentence(), code.section())?;
    push_meaning(&mut out, code, full)?;
    out.end_object()?;
    Ok(out)
}

/// The object of a code, as a line.
fn rule_line(alloc: Global, code: AnyCode, full: bool) -> Result<Vec<u8>, AllocError>
    ensures { IfOk result (λ v. v.items ≡ code_line full code) }
{
    let object = rule_object(alloc, code, full)?;
    let text = object.into_line()?;
    Ok(text)
}

/// Adds bytes.
fn push_bytes(text: &mut Vec<u8>, bytes: &[u8]) -> Result<(), AllocError>
    ensures { OnOk result (text.new.items ≡ text.old.items ++ bytes.now) }
{
    text.extend_from_slice(bytes)
}

/// The objects of all codes, in the order of the tables.
fn all_lines(alloc: Global) -> Result<Vec<u8>, AllocError>
    ensures { IfOk result (λ v. v.items ≡ flat_map (code_line false) all_codes) }
{
    let mut text = Vec::new(alloc);
    let mut place = 0;
    while let Some(code) = code_at(place) {
        let line = rule_line(alloc, code, false)?;
        push_bytes(&mut text, &line)?;
        place += 1;
    }
    Ok(text)
}

/// An object for each code that a command prints, one a line, in the order of the tables: `code`, `rule` and `section`.
/// Of one code, if one is asked for, that line, with its `meaning` too.
///
/// An `AllocError` comes only where a growth of memory was refused.
pub fn rules_json(alloc: Global, code: Option<AnyCode>) -> Result<Vec<u8>, AllocError>
    ensures { IfOk result (λ v. v.items ≡ told_json code) }
{
    match code {
        Some(code) => rule_line(alloc, code, true),
        None => all_lines(alloc),
    }
}
