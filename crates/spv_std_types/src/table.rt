//! The table of OpenCL.std: what each of its instructions asks.

ghost use Rattle.std.specs.Prelude.{◌≡◌, ◌≤◌, ◌<◌, [], length, map, slice_get, slice_index};
ghost use Rattle.spv_std_types.specs.Table as spec;
ghost use Rattle.spv_std_types.specs.inner.Table.{asked_by, line};

use crate::condition::{Among, Classes, Condition, Number, Relation, Subject, Wanted};
use spv_conditions::Kind;

/// A line of the table as the code reads it: numbers of instructions, each from one to another, and what they ask.
#[derive(Clone, Copy)]
pub struct Entry {
    pub numbers: &'static [(u32, u32)],
    pub conditions: &'static [Condition],
}

/// A line of the table as definitions read it.
pub type Line = (&'static [(u32, u32)], &'static [Condition]);

/// The number of an operand.
macro_rules! operand {
    (o) => { 0 };
    (p) => { 1 };
    (q) => { 2 };
    (s) => { 3 };
}

/// Whose type it is: r is the result type; o, p and q are those of the first three operands.
macro_rules! subject {
    (r) => { Subject::Result };
    ($k:ident) => { Subject::Value(operand!($k)) };
}

/// Storage classes by their word.
macro_rules! classes {
    ($class:literal) => { Classes::Only($class) };
    ($classes:ident) => { Classes::$classes };
}

/// What a type is to be by its word.
macro_rules! wanted {
    (Void) => { Wanted::Void };
    (Numbers) => { Wanted::Numbers };
    (Half) => { Wanted::Half };
    ($kind:ident) => { Wanted::Kind(Kind::$kind) };
}

/// Some numbers by their words.
macro_rules! among {
    (not $a:literal) => { Among::Not($a) };
    (most $a:literal) => { Among::AtMost($a) };
    ($a:literal) => { Among::One($a) };
    ($a:literal $b:literal) => { Among::Two($a, $b) };
    ($a:literal $b:literal $c:literal) => { Among::Three($a, $b, $c) };
    ($a:literal $b:literal $c:literal $d:literal) => { Among::Four($a, $b, $c, $d) };
}

/// What is asked of a type by its words.
macro_rules! of {
    ($subject:expr, is $kind:ident) => { Condition::Type { of: $subject, wanted: wanted!($kind) } };
    ($subject:expr, count $($number:tt)+) => {
        Condition::Type { of: $subject, wanted: Wanted::Count(among!($($number)+)) }
    };
    ($subject:expr, width $($number:tt)+) => {
        Condition::Type { of: $subject, wanted: Wanted::Width(among!($($number)+)) }
    };
    ($subject:expr, in $classes:tt) => {
        Condition::Type { of: $subject, wanted: Wanted::Pointer(classes!($classes)) }
    };
    ($subject:expr, $relation:ident $to:ident) => {
        Condition::Relation { of: $subject, relation: Relation::$relation, to: subject!($to) }
    };
}

/// A condition by its words: `number` is said of an operand that is a number, and `to` of what a pointer points to.
macro_rules! condition {
    (number $k:ident $number:ident) => {
        Condition::Number { at: operand!($k), wanted: Number::$number }
    };
    (to $k:ident $($ask:tt)+) => { of!(Subject::Pointee(operand!($k)), $($ask)+) };
    ($s:ident $($ask:tt)+) => { of!(subject!($s), $($ask)+) };
}

/// The last number of some.
macro_rules! last {
    ($first:literal) => { $first };
    ($first:literal $last:literal) => { $last };
}

/// The table of OpenCL.std (OpenCL Extended Instruction Set Specification 1.00, sections 2.1 to 2.6; own): numbers of
/// instructions, or the first and the last of some, and the conditions that they ask, in the order in which they are
/// looked at: first of the result type, then of the operands from left to right. A number that is nowhere in it is that
/// of no instruction. Each line speaks of as many operands as its instructions have, but for printf, whose further
/// operands may be of any type.
macro_rules! table {
    ($what:ident) => {
        $what! {
            // Floats of one type: acos to atan, atanh, atanpi, cbrt, ceil, cos and so on.
            0 to 6, 8 to 9, 11 to 12, 14 to 23, 25, 35, 37 to 41, 53, 55 to 57, 59 to 67, 69 to 74, 76 to 81, 83 to 88,
            90 to 94, 96, 100, 103:
                [r is Floats] [o Same r];
            // Two of them: atan2, atan2pi, copysign, fdim, fmax, fmin, fmod, hypot, maxmag, minmag, nextafter, pow,
            // powr, remainder, half_divide, half_powr, native_divide, native_powr, fmax_common, fmin_common, step.
            7, 10, 13, 24, 27 to 29, 32, 43 to 44, 47 to 48, 50 to 51, 68, 75, 82, 89, 97 to 98, 101:
                [r is Floats] [o Same r] [p Same r];
            // Three of them: fma, mad, fclamp, mix, smoothstep.
            26, 42, 95, 99, 102: [r is Floats] [o Same r] [p Same r] [q Same r];
            // Ints of one type: s_abs, clz, ctz, popcount, u_abs.
            141, 151 to 152, 166, 201: [r is Ints] [o Same r];
            // Two of them: s_abs_diff to u_rhadd, s_max to u_sub_sat, u_abs_diff, u_mul_hi.
            142 to 148, 156 to 163, 202 to 203: [r is Ints] [o Same r] [p Same r];
            // Three of them: s_clamp, u_clamp, s_mad_hi, u_mad_sat, s_mad_sat, u_mad_hi.
            149 to 150, 153 to 155, 204: [r is Ints] [o Same r] [p Same r] [q Same r];
            // s_mul24, u_mul24; s_mad24, u_mad24.
            169 to 170: [r is Ints] [r width 32] [o Same r] [p Same r];
            167 to 168: [r is Ints] [r width 32] [o Same r] [p Same r] [q Same r];
            // normalize, fast_normalize; cross; bitselect.
            107, 110: [r is Floats] [r count most 4] [o Same r];
            104: [r is Floats] [r count 3 4] [o Same r] [p Same r];
            186: [r is Numbers] [o Same r] [p Same r] [q Same r];
            // length, fast_length; distance, fast_distance.
            106, 109: [r is Floats] [r count 1] [o is Floats] [o count most 4] [o SameComponent r];
            105, 108: [r is Floats] [r count 1] [o is Floats] [o count most 4] [o SameComponent r] [p Same o];
            // fract, modf, sincos.
            30, 45, 58: [r is Floats] [o Same r] [p in Stored] [to p Same r];
            // frexp, lgamma_r; remquo.
            31, 36: [r is Floats] [o Same r] [p in Stored] [to p is Ints] [to p width 32] [to p SameCount r];
            52: [r is Floats] [o Same r] [p Same r] [q in Stored] [to q is Ints] [to q width 32] [to q SameCount r];
            // ldexp, pown, rootn; ilogb; nan.
            34, 49, 54: [r is Floats] [o Same r] [p is Ints] [p width 32] [p SameCount r];
            33: [r is Ints] [r width 32] [o is Floats] [o SameCount r];
            46: [r is Floats] [o is Ints] [o SameWidth r] [o SameCount r];
            // u_upsample, s_upsample.
            164 to 165: [r is Ints] [r width 16 32 64] [o is Ints] [o HalfWidth r] [o SameCount r] [p Same o];
            // select.
            187: [r is Numbers] [o Same r] [p Same r] [q is Ints] [q SameWidth r] [q SameCount r];
            // shuffle; shuffle2.
            182:
                [r is Numbers] [r count 2 4 8 16] [o SameComponent r] [o count 2 4 8 16] [p is Ints] [p SameWidth r]
                [p SameCount r];
            183:
                [r is Numbers] [r count 2 4 8 16] [o SameComponent r] [o count 2 4 8 16] [p Same o] [q is Ints]
                [q SameWidth r] [q SameCount r];
            // vloadn; vload_half; vload_halfn, vloada_halfn.
            171: [r is Numbers] [r count not 1] [o is Size] [p in Loaded] [to p ComponentOf r] [number q Count];
            173: [r is Floats] [r count 1] [o is Size] [p in Loaded] [to p is Half];
            174, 179: [r is Floats] [r count not 1] [o is Size] [p in Loaded] [to p is Half] [number q Count];
            // vstoren; vstore_half, vstore_half_r.
            172: [r is Void] [o is Numbers] [o count not 1] [p is Size] [q in Stored] [to q ComponentOf o];
            175: [r is Void] [o is Floats] [o count 1] [o width 32 64] [p is Size] [q in Stored] [to q is Half];
            176:
                [r is Void] [o is Floats] [o count 1] [o width 32 64] [p is Size] [q in Stored] [to q is Half]
                [number s Rounding];
            // vstore_halfn, vstorea_halfn; vstore_halfn_r, vstorea_halfn_r.
            177, 180:
                [r is Void] [o is Floats] [o count not 1] [o width 32 64] [p is Size] [q in Stored] [to q is Half];
            178, 181:
                [r is Void] [o is Floats] [o count not 1] [o width 32 64] [p is Size] [q in Stored] [to q is Half]
                [number s Rounding];
            // prefetch, from CrossWorkgroup; printf, whose format is of UniformConstant.
            185: [r is Void] [o in 5] [to o is Numbers] [p is Size];
            184: [r is Int32] [o in 0] [to o is Int] [to o width 8];
        }
    };
}

/// Lines, as definitions read them.
macro_rules! lines {
    ($(
        $first:literal $(to $last:literal)? $(, $more:literal $(to $end:literal)?)*: $([$($ask:tt)+])+;
    )+) => {
        [$((
            &[($first, last!($first $($last)?)) $(, ($more, last!($more $($end)?)))*],
            &[$(condition!($($ask)+)),+],
        )),+]
    };
}

/// Lines, as the code reads them.
macro_rules! entries {
    ($(
        $first:literal $(to $last:literal)? $(, $more:literal $(to $end:literal)?)*: $([$($ask:tt)+])+;
    )+) => {
        [$(Entry {
            numbers: &[($first, last!($first $($last)?)) $(, ($more, last!($more $($end)?)))*],
            conditions: &[$(condition!($($ask)+)),+],
        }),+]
    };
}

/// The table as definitions read it.
pub static TABLE: [Line; 33] = table!(lines);

/// The same as the code reads it.
static ENTRIES: [Entry; 33] = table!(entries);

/// For each number up to the last one of the table the number of its line, from 0, or 255 where it has none. Written by
/// `tests/rows-of-opcodes`.
static NUMBERS: [u8; 205] = [
    0, 0, 0, 0, 0, 0, 0, 1, 0, 0, 1, 0, 0, 1, 0, 0, 0, 0, 0, 0, 0, 0, 0, 0, 1, 0, 2, 1, 1, 1, 13,
    14, 1, 17, 16, 0, 14, 0, 0, 0, 0, 0, 2, 1, 1, 13, 18, 1, 1, 16, 1, 1, 15, 0, 16, 0, 0, 0, 13,
    0, 0, 0, 0, 0, 0, 0, 0, 0, 1, 0, 0, 0, 0, 0, 0, 1, 0, 0, 0, 0, 0, 0, 1, 0, 0, 0, 0, 0, 0, 1, 0,
    0, 0, 0, 0, 2, 0, 1, 1, 2, 0, 1, 2, 0, 9, 12, 11, 8, 12, 11, 8, 255, 255, 255, 255, 255, 255,
    255, 255, 255, 255, 255, 255, 255, 255, 255, 255, 255, 255, 255, 255, 255, 255, 255, 255, 255,
    255, 255, 255, 255, 255, 3, 4, 4, 4, 4, 4, 4, 4, 5, 5, 3, 3, 5, 5, 5, 4, 4, 4, 4, 4, 4, 4, 4,
    19, 19, 3, 7, 7, 6, 6, 23, 26, 24, 25, 27, 28, 29, 30, 25, 29, 30, 21, 22, 32, 31, 10, 20, 255,
    255, 255, 255, 255, 255, 255, 255, 255, 255, 255, 255, 255, 3, 4, 4, 5,
];

/// What the line of a place asks. Nothing where there is no such line.
fn conditions_at(entries: &[Entry], place: usize) -> &'static [Condition]
    ensures { result.now ≡ asked_by (slice_get (map line entries.now) place) }
{
    match entries.get(place) {
        Some(entry) => entry.conditions,
        None => &[],
    }
}

/// What these lines ask of a number, by a list of their places. Nothing where the number is not in the list.
fn conditions_by(numbers: &[u8], entries: &[Entry], number: u32) -> &'static [Condition]
    ensures near { number < length numbers.now
        → result.now ≡ asked_by (slice_get (map line entries.now) (slice_index numbers.now number)) }
    ensures far { length numbers.now ≤ number → result.now ≡ [] }
{
    let at = number as usize;
    if at < numbers.len() {
        conditions_at(entries, usize::from(numbers[at]))
    } else {
        &[]
    }
}

/// What the instruction of OpenCL.std of a number asks, in the order in which it is looked at. Nothing where there is
/// no such instruction.
pub fn conditions_of(number: u32) -> &'static [Condition]
    ensures { result.now ≡ spec.conditions_of number }
{
    conditions_by(&NUMBERS, &ENTRIES, number)
}
