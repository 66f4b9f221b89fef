//! The lines of the header.

ghost use Rattle.std.specs.Prelude.{◌≡◌, ◌<◌, ◌^◌, ◌++◌, ◌∷◌, [], ℕ, List, Some, None, IfOk};
ghost use Rattle.std.specs.Prelude.{IfErr, MatchOption, decimal, slice_get};
ghost use Rattle.spv_inst.specs.Limits.{HeaderFits};
ghost use Rattle.spv_lines.specs.Text.{header_lines, lines_of};
ghost use Rattle.spv_lines.specs.Fault.{HeaderFails};
ghost use Rattle.spv_parser.specs.inner.Lines.{IsNoNumber};

use spv_lines::{AsmCode, AsmError, Misread, read_short, split_line};
use spv_words::{GREATEST_BOUND, Header, VERSION};

/// The first line of a text, if it has any, and what stands behind it.
fn next_line(text: &str) -> Option<(&str, &str)>
    ensures { MatchOption result (lines_of text.now ≡ []) (λ p. lines_of text.now ≡ p.0.now ∷ lines_of p.1.now) }
{
    if text.is_empty() {
        return None;
    }
    Some(split_line(text))
}

/// What stands behind the first line of a text, if that is the one that is wanted.
fn behind_line<'a>(text: &'a str, wanted: &str) -> Option<&'a str>
    ensures { MatchOption result (slice_get (lines_of text.now) 0 ≡ Some wanted.now → ⊥)
        (λ rest. lines_of text.now ≡ wanted.now ∷ lines_of rest.now) }
{
    let (line, rest) = next_line(text)?;
    if line == wanted { Some(rest) } else { None }
}

/// The number of 32 bits at the end of the first line of a text, which begins with that front, and what stands behind
/// the line.
fn numbered_line<'a>(text: &'a str, front: &str) -> Result<(u32, &'a str), Misread>
    ensures found { IfOk result (λ p. (p.0 < 2 ^ 32)
        × (lines_of text.now ≡ (front.now ++ decimal p.0) ∷ lines_of p.1.now)) }
    ensures none { IfErr result (λ e. IsNoNumber text.now front.now e) }
{
    let Some((line, rest)) = next_line(text) else {
        return Err(Misread::IllFormed);
    };
    let Some(digits) = line.strip_prefix(front) else {
        return Err(Misread::IllFormed);
    };
    match read_short(digits.as_bytes()) {
        Ok(number) => Ok((number, rest)),
        Err(why) => Err(why),
    }
}

/// The error of a header's line.
fn header_error(code: AsmCode, line: u32) -> AsmError
    ensures { result ≡ record { code = code; line = line } }
{
    AsmError { code, line }
}

/// Reads the lines of the header, and gives what stands behind them.
///
/// # Errors
///
/// `S1`, with the line: it is missing or ill-formed, or the bound is not one from 1 to 4,194,303. `S4`, with the line:
/// the generator takes over 32 bits.
pub fn read_header(text: &str) -> Result<(Header, &str), AsmError>
    ensures fits { IfOk result (λ p. HeaderFits p.0) }
    ensures small { IfOk result (λ p. p.0.generator < 2 ^ 32) }
    ensures lines { IfOk result (λ p. lines_of text.now ≡ header_lines p.0 ++ lines_of p.1.now) }
    ensures failed { IfErr result (λ e. HeaderFails (lines_of text.now) e.code e.line) }
{
    let Some(text) = behind_line(text, "; SPIR-V") else {
        return Err(header_error(AsmCode::S1, 1));
    };
    let Some(text) = behind_line(text, "; Version: 1.6") else {
        return Err(header_error(AsmCode::S1, 2));
    };
    let (generator, text) = match numbered_line(text, "; Generator: ") {
        Ok(found) => found,
        Err(why) => match why {
            Misread::IllFormed => return Err(header_error(AsmCode::S1, 3)),
            Misread::TooLarge => return Err(header_error(AsmCode::S4, 3)),
        },
    };
    let (bound, text) = match numbered_line(text, "; Bound: ") {
        Ok(found) => found,
        Err(_) => return Err(header_error(AsmCode::S1, 4)),
    };
    if bound < 1 || bound > GREATEST_BOUND {
        return Err(header_error(AsmCode::S1, 4));
    }
    let Some(text) = behind_line(text, "; Schema: 0") else {
        return Err(header_error(AsmCode::S1, 5));
    };
    let header = Header {
        version: VERSION,
        generator,
        bound,
        schema: 0,
    };
    Ok((header, text))
}
