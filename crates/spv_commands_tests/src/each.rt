//! A run on several files, one of which cannot be read.

use spv_commands::{Judging, Scope, Task, Telling};
use spv_samples::{PROFILE, SMALLEST_KERNEL, image_of};
use spv_streams::{InMemory, run_each};
use spv_words::FromWrite;
use std::alloc::Global;
use std::test::Fail;

/// What a run came to: its exit status, and what it wrote to the standard output and the standard error.
#[derive(Drop)]
struct Outcome {
    status: u8,
    out: Vec<u8>,
    err: Vec<u8>,
}

impl Outcome {
    /// Whether it is this.
    fn is(&self, status: u8, out: &[u8], err: &[u8]) -> bool {
        self.status == status && self.out.as_slice() == out && self.err.as_slice() == err
    }
}

/// How modules of 1.6 are judged by a task, and told.
fn judging(task: Task, telling: Telling) -> Judging {
    Judging {
        task,
        scope: Scope::Own { as_1_6: false },
        telling,
    }
}

/// Judges these files, with their names.
fn outcome_of(alloc: Global, how: Judging, names: &[&str], files: &[Option<&[u8]>]) -> Outcome {
    let grammar = Some(PROFILE.as_bytes());
    let mut files = InMemory { files };
    let mut out = FromWrite::new(Vec::new(alloc));
    let mut err = FromWrite::new(Vec::new(alloc));
    let status = run_each(alloc, how, grammar, names, &mut files, &mut out, &mut err);
    Outcome {
        status,
        out: out.inner,
        err: err.inner,
    }
}

#[test]
fn files_in_order(rt: HostRuntime) -> Result<(), Fail> {
    let kernel = image_of(rt.alloc(), SMALLEST_KERNEL.words)?;
    let good = Some(kernel.octets());
    let short: Option<&[u8]> = Some(&[1, 2, 3]);
    let names = ["a", "b", "c", "d"];
    let files = [good, None, short, good];
    let how = judging(Task::Check, Telling::Named);
    let run = outcome_of(rt.alloc(), how, &names, &files);
    let is_right = run.is(2, b"a: valid\nc: fault W2\nd: valid\n", b"b: error file\n");
    drop(run);
    assert!(rt; is_right);
    Ok(())
}

/// The objects of a valid module and of a file that does not open.
const OBJECTS: &str = r#"{"file":"a","verdict":"valid","profile":"own"}
{"file":"b","verdict":"error","error":"file"}
"#;

/// Whether a task tells these objects of two files.
fn are_objects(alloc: Global, task: Task, files: &[Option<&[u8]>]) -> bool {
    let how = judging(task, Telling::Json);
    let run = outcome_of(alloc, how, &["a", "b"], files);
    run.is(2, OBJECTS.as_bytes(), b"b: error file\n")
}

#[test]
fn objects_in_order(rt: HostRuntime) -> Result<(), Fail> {
    let kernel = image_of(rt.alloc(), SMALLEST_KERNEL.words)?;
    let files = [Some(kernel.octets()), None];
    let checked = are_objects(rt.alloc(), Task::Check, &files);
    let explained = are_objects(rt.alloc(), Task::Explain { full: false }, &files);
    assert!(rt; checked && explained, "{checked}, {explained}");
    Ok(())
}

/// The smallest kernel, with the instruction `%6 = OpExtInst %1 %5 7 %9`, of which 9 is over the bound.
const ID_OVER_THE_BOUND_IN_AN_EXTENDED_INSTRUCTION: &str =
    "7230203 10600 0 7 0 20011 4 20011 6 3000b 5 78 3000e 2 2 4000f 6 3 6b 20013 1
30021 2 1 50036 1 3 0 2 200f8 4 6000c 1 6 5 7 9 100fd 10038";

#[test]
fn extended_instructions(rt: HostRuntime) -> Result<(), Fail> {
    let image = image_of(rt.alloc(), ID_OVER_THE_BOUND_IN_AN_EXTENDED_INSTRUCTION)?;
    let files = [Some(image.octets())];
    let mut how = judging(Task::Check, Telling::Bare);
    let is_passed_over = outcome_of(rt.alloc(), how, &["a"], &files).is(0, b"valid\n", b"");
    how.scope = Scope::Extended { as_1_6: false };
    let run = outcome_of(rt.alloc(), how, &["a"], &files);
    let is_told = run.is(1, b"fault D1 inst 9 word 31\n", b"");
    drop(run);
    assert!(rt; is_passed_over && is_told, "{is_passed_over}, {is_told}");
    Ok(())
}
