//! Runs the commands of `spv` on the worked rows of the file `rows`, and prints the whole answer of each.
//!
//! Lines of the file build a row, and its line `run` has it run. A line has a key and, behind a space, a text:
//! `profile`, which is the grammar file of the profile, `grammar` and the text of another, or `grammar-hex` and its
//! bytes, for all rows from there on; `old` and a text of the grammar file, and `new` and what stands in its place,
//! where the file's words stand with one space between each two; `row` and the name of a row; `word` and a word of
//! its command line; `input` and bytes of the file that it reads, or `times`, a number and bytes that stand there
//! so many times. Bytes are in hexadecimal.
#![tactic(auto)]

mod answer;
mod rows;

use rows::Rows;
use std::fs;

/// Reads the lines of the file, and prints the answer of each row.
fn main(rt: HostRuntime) -> anyhow::Result<()> {
    let text = fs::read_to_string(&rt, "rows")?;
    let mut rows = Rows::new(rt.alloc());
    for line in text.lines() {
        rows.take_line(&rt, line)?;
    }
    Ok(())
}
