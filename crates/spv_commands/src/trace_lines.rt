//! The lines of a trace.
ghost use Rattle.std.specs.Prelude.{◌≡◌, ◌≤◌, ◌↔◌, ◌+◌, ◌*◌, ◌++◌, ℕ, Some};
ghost use Rattle.std.specs.Prelude.{length, take, drop, flat_map, IfErr, IfSome, IsErrOf, OnOk};
ghost use Rattle.std.specs.Io.KnownBytes.{Appends};
ghost use Rattle.spv_words.specs.declared.words.WordError.TheVariants.{W1};
ghost use Rattle.spv_check.specs.Outcome.{HasFailed};
ghost use Rattle.spv_commands.specs.Trace.{ending_line, step_line, trace_text};

use itoa::write_digits;
use spv_verdict::{Ending, Step};
use spv_words::{Sink, WordError, write_all};

/// How many steps are written at a time.
const BLOCK_STEPS: usize = 2_978;

/// The most bytes that their lines have: 22 each, for two numbers of ten digits, a space and a line feed.
const BLOCK_SIZE: usize = 65_516;

/// The line of a run's end, its line feed included.
fn ending_text(ending: Ending) -> &'static [u8]
    ensures { result.now ≡ ending_line ending }
{
    match ending {
        Ending::Finished => b"end finished\n",
        Ending::Unreachable => b"end unreachable\n",
        Ending::Limit => b"end limit\n",
        Ending::NoChoice => b"end nochoice\n",
        Ending::BadChoice => b"end badchoice\n",
    }
}

/// Puts the line of a step before the place `end`, where there is room for the longest, and answers where it begins.
fn put_line(depth: u32, inst: u32, block: &mut [u8], end: usize) -> usize
    requires room { 22 ≤ end }
    requires within { end ≤ length block.old }
    ensures line { drop result block.new ≡ step_line (record { depth = depth; inst = inst }) ++ drop end block.old }
    ensures low { end ≤ result + 22 }
    ensures high { result ≤ end }
{
    block[end - 1] = b'\n';
    let second = write_digits(u64::from(inst), block, end - 1);
    block[second - 1] = b' ';
    write_digits(u64::from(depth), block, second - 1)
}

/// Puts the lines of steps at the end of a block, which has room for the longest, and answers where they begin.
fn put_lines(steps: &[Step], block: &mut [u8]) -> usize
    requires { 22 * length steps.now ≤ length block.old }
    ensures lines { drop result block.new ≡ flat_map step_line steps.now }
    ensures within { result ≤ length block.new }
{
    let mut begin = block.len();
    let mut left = steps.len();
    while left > 0 {
        left -= 1;
        let step = steps[left];
        begin = put_line(step.depth, step.inst, block, begin);
    }
    begin
}

/// Writes the lines of steps, in order. It takes no memory.
fn write_steps<W: Sink>(steps: &[Step], w: &mut W) -> Result<(), WordError>
    ensures all { OnOk result (Appends (W.contents w.old) (W.contents w.new) (flat_map step_line steps.now)) }
    ensures begun { IfSome (W.contents w.old)
        (λ xs. (n : ℕ) × (n ≤ length (flat_map step_line steps.now))
        × (W.contents w.new ≡ Some (xs ++ take n (flat_map step_line steps.now)))) }
    ensures only { IfErr result (λ e. e ≡ W1) }
    ensures count { HasFailed W.failures w.old w.new ↔ IsErrOf result W1 }
    ensures steady { OnOk result (W.failures w.new ≡ W.failures w.old) }
{
    let mut block = [0u8; BLOCK_SIZE];
    let mut at = 0;
    while at < steps.len() {
        let size = (steps.len() - at).min(BLOCK_STEPS);
        let begin = put_lines(&steps[at..at + size], &mut block);
        write_all(&block[begin..], w)?;
        at += size;
    }
    Ok(())
}

/// Writes the text of a trace: a line for each step, in order, and that of the end. It takes no memory. (Own.)
///
/// # Errors
///
/// Only `W1`, where a write failed or took nothing. A beginning of the text was then written.
pub fn write_trace<W: Sink>(steps: &[Step], ending: Ending, w: &mut W) -> Result<(), WordError>
    ensures all { OnOk result (Appends (W.contents w.old) (W.contents w.new) (trace_text steps.now ending)) }
    ensures begun { IfSome (W.contents w.old)
        (λ xs. (n : ℕ) × (n ≤ length (trace_text steps.now ending))
        × (W.contents w.new ≡ Some (xs ++ take n (trace_text steps.now ending)))) }
    ensures only { IfErr result (λ e. e ≡ W1) }
    // The answer is W1 exactly where a write failed.
    ensures count { HasFailed W.failures w.old w.new ↔ IsErrOf result W1 }
    ensures steady { OnOk result (W.failures w.new ≡ W.failures w.old) }
{
    write_steps(steps, w)?;
    write_all(ending_text(ending), w)
}
