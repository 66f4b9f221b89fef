//! What a line of the table of versions tells.
ghost use Rattle.std.specs.Prelude.{◌≡◌, ◌++◌, map, option_map, slice_get, string_bytes, OnOk};
ghost use Rattle.spv_versions.specs.Table.{lines};
ghost use Rattle.spv_versions.specs.inner.Lines.{plain_line};
ghost use Rattle.spv_facts.specs.Versions as versions;

use crate::about::push_number;
use spv_versions::{Line, TABLE};
use std::alloc::AllocError;

/// The lines of the table.
fn all_lines() -> &'static [Line]
    ensures { map plain_line result.now ≡ lines }
{
    &TABLE
}

/// The line of a number, from 0.
fn line_at(number: u32) -> Option<&'static Line>
    ensures { option_map (λ l. plain_line l.now) result ≡ slice_get lines number }
{
    all_lines().get(number as usize)
}

/// The minor number of the first version that has what a line is of, if one has.
pub fn first_version(line: u32) -> Option<u8>
    ensures { result ≡ versions.first_version line }
{
    match line_at(line) {
        Some(line) => line.3,
        None => None,
    }
}

/// The names of the extensions that have it.
pub fn extensions(line: u32) -> &'static [&'static str]
    ensures { map (λ name. name.now) result.now ≡ versions.extensions_of line }
{
    let Some(line) = line_at(line) else {
        return &[];
    };
    line.4
}

/// Adds a version by its minor number, as `1.4`.
pub fn push_since(out: &mut String, minor: u8) -> Result<(), AllocError>
    ensures { OnOk result (string_bytes out.new ≡ string_bytes out.old ++ versions.since_text minor) }
{
    out.push_str("1.")?;
    push_number(out, u32::from(minor))
}
