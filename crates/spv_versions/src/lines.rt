//! Lines of the table, and which of them are missing.

ghost use Rattle.std.specs.Prelude.{◌≡◌, ◌<◌, ◌≤◌, ◌↔◌, ◌&&◌, ℕ, Some, false, not, IsTrue, MatchOption, length, map, slice_get};
ghost use Rattle.std.specs.Prelude.{slice_index, slice_index_or};
ghost use Rattle.spv_versions.specs.declared.table.Kind.{Kind};
ghost use Rattle.spv_versions.specs.Table as spec;
ghost use Rattle.spv_versions.specs.Table.{IsBefore, IsOf};
ghost use Rattle.spv_versions.specs.inner.Lines.{IsListed, IsListedAt, Read, names_have, plain_line};
ghost use Rattle.spv_versions.specs.inner.Told.{place_of, undated};

use crate::table::{ALL_KINDS, COUNT, DATED, Kind, Line, is_before, undated};

/// Whether a name is one of some.
fn is_among(names: &[&str], name: &str) -> bool
    ensures { result ≡ names_have names.now name.now }
{
    for one in names {
        if *one == name {
            return true;
        }
    }
    false
}

/// Whether a line is of a number of a kind.
fn is_of(line: &Line, kind: Kind, number: u32) -> bool
    ensures { IsTrue result ↔ IsOf (plain_line line.now) kind number }
{
    line.0 == kind && line.1 <= number && number <= line.2
}

/// Of each line whether a version is before what it says.
pub fn lacking(lines: &[Line; COUNT], minor: u8) -> [bool; COUNT]
    requires { map plain_line lines.now ≡ spec.lines }
    ensures count { length result ≡ COUNT }
    ensures each { (k : ℕ) (l : Read) → slice_get lines.now k ≡ Some l
        → IsTrue (slice_index_or result k false) ↔ IsBefore minor l.3 }
{
    let mut flags = [true; COUNT];
    for k in 0..DATED {
        flags[k] = is_before(minor, lines[k].3);
    }
    flags
}

/// Takes note of an extension: lines that have its name are not missing.
pub fn declare(lines: &[Line; COUNT], flags: &mut [bool; COUNT], name: &str)
    ensures { (k : ℕ) (l : Read) → slice_get lines.now k ≡ Some l
        → slice_index_or flags.new k false ≡ (slice_index_or flags.old k false && not (names_have l.4.now name.now)) }
{
    for k in 0..COUNT {
        if flags[k] && is_among(lines[k].4, name) {
            flags[k] = false;
        }
    }
}

/// Lowers the number at a place to another one, if there is that place and the other one is below.
#[inline(always)]
pub fn lower(numbers: &mut [u32], place: usize, number: u32)
    ensures others { (j : ℕ) → slice_index numbers.new j ≤ slice_index numbers.old j }
    ensures own { place < length numbers.old → slice_index numbers.new place ≤ number }
{
    if place < numbers.len() {
        numbers[place] = numbers[place].min(number);
    }
}

/// Takes note of a line, if it is missing: none of its numbers is below that at the place of its kind.
#[inline(always)]
fn note_line(least: &mut [u32; ALL_KINDS], line: &Line, is_missing: bool)
    ensures others { (j : ℕ) → slice_index least.new j ≤ slice_index least.old j }
    ensures own { IsTrue is_missing → slice_index least.new (place_of line.now.0) ≤ line.now.1 }
{
    if is_missing {
        lower(least, line.0 as usize, line.1);
    }
}

/// By the place of a kind a number that no number of the kind that is missing is below.
pub fn least_numbers(lines: &[Line; COUNT], flags: &[bool; COUNT]) -> [u32; ALL_KINDS]
    requires { map plain_line lines.now ≡ spec.lines }
    ensures { (k : Kind) (n : ℕ) → IsListed (map plain_line lines.now) flags.now k n
        → slice_index result (place_of k) ≤ n }
{
    let mut least = undated();
    for k in 0..DATED {
        note_line(&mut least, &lines[k], flags[k]);
    }
    least
}

/// How many lines there are to look at for a number of a kind: those of table V alone where none of table X is of it.
fn looked_at(kind: Kind, number: u32) -> usize
    ensures within { result ≤ COUNT }
    ensures all { (k : ℕ) → result ≤ k → k < COUNT → (DATED ≤ k) × (number < slice_index undated (place_of kind)) }
{
    if number < undated()[kind as usize] {
        DATED
    } else {
        COUNT
    }
}

/// Whether a number of a kind is missing.
pub fn is_listed(lines: &[Line; COUNT], flags: &[bool; COUNT], kind: Kind, number: u32) -> bool
    requires { map plain_line lines.now ≡ spec.lines }
    ensures { IsTrue result ↔ IsListed (map plain_line lines.now) flags.now kind number }
{
    for k in 0..looked_at(kind, number) {
        if flags[k] && is_of(&lines[k], kind, number) {
            return true;
        }
    }
    false
}

/// The line by which a number of a kind is missing, if one is.
pub fn listed_line(
    lines: &[Line; COUNT],
    flags: &[bool; COUNT],
    kind: Kind,
    number: u32,
) -> Option<u32>
    ensures { MatchOption result (¬ (IsListed (map plain_line lines.now) flags.now kind number))
        (IsListedAt (map plain_line lines.now) flags.now kind number) }
{
    for k in 0..COUNT {
        if flags[k] && is_of(&lines[k], kind, number) {
            return Some(k as u32);
        }
    }
    None
}
