//! The verdict line of modules from readers that give pieces, or fail, and to writers that fail.

use spv_builtin::{FromGrammar, Table};
use spv_extended::Reach;
use spv_samples::{
    Failures, LOAD_WITH_MASK, PROFILE, Pieces, SMALLEST_KERNEL, Sample, Shelf, Trouble, image_of,
};
use spv_verdict::check_stream;
use spv_words::{FromRead, FromWrite, Image, WordError};
use std::alloc::Global;
use std::io::ErrorKind;
use std::test::Fail;

/// How a check ended.
#[derive(Drop)]
struct Outcome {
    answer: Result<bool, WordError>,
    written: Vec<u8>,
    /// How many bytes were read.
    given: u64,
}

impl Outcome {
    /// Whether this line was written.
    fn tells(&self, line: &str) -> bool {
        self.answer == Ok(line == "valid\n") && self.written.as_slice() == line.as_bytes()
    }

    /// Whether a read or a write failed when so many bytes of this line were written.
    fn stops(&self, line: &str, bytes: u64) -> bool {
        self.answer == Err(WordError::W1)
            && self.written.len() as u64 == bytes
            && line.as_bytes().starts_with(&self.written)
    }
}

/// Checks what is given in pieces.
fn outcome_of(alloc: Global, table: &Table, pieces: Pieces<'_>, shelf: Shelf) -> Outcome {
    let mut reader = FromRead::new(pieces);
    let mut writer = FromWrite::new(shelf);
    let answer = check_stream(alloc, table, Reach::Profile, &mut reader, &mut writer);
    Outcome {
        answer,
        written: writer.inner.kept,
        given: reader.inner.given,
    }
}

/// A sample that is checked.
#[derive(Clone, Copy)]
struct Checked {
    sample: Sample<'static>,
    line: &'static str,
    /// How many reads of 7 bytes the check takes, the one that finds the end among them.
    reads: u64,
    /// How many writes of 2 bytes the line takes.
    writes: u64,
}

const KERNEL: Checked = Checked {
    sample: SMALLEST_KERNEL,
    line: "valid\n",
    reads: 19,
    writes: 3,
};

const LOAD: Checked = Checked {
    sample: LOAD_WITH_MASK,
    line: "fault L1 inst 0 word 5\n",
    reads: 8,
    writes: 12,
};

/// Whether an image is told by this line, in pieces of each of these sizes.
fn is_told(alloc: Global, table: &Table, image: &Image, line: &str) -> bool {
    for piece in [1, 3, 4, 7, 120] {
        let pieces = Pieces::new(image.octets(), piece, Failures::none());
        let shelf = Shelf::new(Vec::new(alloc), 100, Failures::none());
        if !outcome_of(alloc, table, pieces, shelf).tells(line) {
            return false;
        }
    }
    true
}

/// The same of a sample.
fn is_sample_told(alloc: Global, table: &Table, of: Checked) -> Result<bool, WordError> {
    let image = image_of(alloc, of.sample.words)?;
    Ok(is_told(alloc, table, &image, of.line))
}

#[test]
fn reads_in_pieces(rt: HostRuntime) -> Result<(), Fail> {
    let table = Table::from_slice(rt.alloc(), PROFILE.as_bytes())?;
    let kernel = is_sample_told(rt.alloc(), &table, KERNEL);
    let load = is_sample_told(rt.alloc(), &table, LOAD);
    drop(table);
    assert!(rt; kernel == Ok(true) && load == Ok(true));
    Ok(())
}

/// What comes of a check where so many reads go well, and then one does not.
fn after_reads(
    alloc: Global,
    table: &Table,
    image: &Image,
    reads: u64,
    kind: ErrorKind,
) -> Outcome {
    let mut pieces = Pieces::new(image.octets(), 7, Failures::once_after(reads));
    pieces.kind = kind;
    let shelf = Shelf::new(Vec::new(alloc), 100, Failures::none());
    outcome_of(alloc, table, pieces, shelf)
}

/// Whether a check ends as it is to end where only so many reads go well.
fn reads_as_told(
    alloc: Global,
    table: &Table,
    image: &Image,
    of: Checked,
    n: u64,
    kind: ErrorKind,
) -> bool {
    let outcome = after_reads(alloc, table, image, n, kind);
    if n < of.reads {
        outcome.stops(of.line, 0)
    } else {
        outcome.tells(of.line)
    }
}

/// The first read at whose failure the check of a sample does not end as it is to end.
fn wrong_read(alloc: Global, table: &Table, of: Checked) -> Result<Option<u64>, WordError> {
    let image = image_of(alloc, of.sample.words)?;
    for n in 0..20 {
        if !reads_as_told(alloc, table, &image, of, n, ErrorKind::Interrupted)
            || !reads_as_told(alloc, table, &image, of, n, ErrorKind::Other)
        {
            return Ok(Some(n));
        }
    }
    Ok(None)
}

#[test]
fn reads_that_fail(rt: HostRuntime) -> Result<(), Fail> {
    let table = Table::from_slice(rt.alloc(), PROFILE.as_bytes())?;
    let kernel = wrong_read(rt.alloc(), &table, KERNEL);
    let load = wrong_read(rt.alloc(), &table, LOAD);
    drop(table);
    assert!(rt;
        kernel == Ok(None) && load == Ok(None),
        "{kernel:?}, {load:?}"
    );
    Ok(())
}

/// What comes of a check where so many writes go well, and then one does not.
fn after_writes(
    alloc: Global,
    table: &Table,
    image: &Image,
    writes: u64,
    trouble: Trouble,
) -> Outcome {
    let pieces = Pieces::new(image.octets(), 120, Failures::none());
    let mut shelf = Shelf::new(Vec::new(alloc), 2, Failures::once_after(writes));
    shelf.trouble = trouble;
    outcome_of(alloc, table, pieces, shelf)
}

/// Whether a check ends as it is to end where only so many writes go well.
fn writes_as_told(
    alloc: Global,
    table: &Table,
    image: &Image,
    of: Checked,
    n: u64,
    trouble: Trouble,
) -> bool {
    let outcome = after_writes(alloc, table, image, n, trouble);
    if n < of.writes {
        outcome.stops(of.line, n.wrapping_mul(2))
    } else {
        outcome.tells(of.line)
    }
}

/// The first write at whose failure the check of a sample does not end as it is to end.
fn wrong_write(alloc: Global, table: &Table, of: Checked) -> Result<Option<u64>, WordError> {
    let image = image_of(alloc, of.sample.words)?;
    for n in 0..13 {
        if !writes_as_told(alloc, table, &image, of, n, Trouble::Fails)
            || !writes_as_told(alloc, table, &image, of, n, Trouble::TakesNothing)
        {
            return Ok(Some(n));
        }
    }
    Ok(None)
}

#[test]
fn writes_that_fail(rt: HostRuntime) -> Result<(), Fail> {
    let table = Table::from_slice(rt.alloc(), PROFILE.as_bytes())?;
    let kernel = wrong_write(rt.alloc(), &table, KERNEL);
    let load = wrong_write(rt.alloc(), &table, LOAD);
    drop(table);
    assert!(rt;
        kernel == Ok(None) && load == Ok(None),
        "{kernel:?}, {load:?}"
    );
    Ok(())
}

/// Whether a module that never ends is told to be too long after one byte more than a module has.
fn is_endless_told(alloc: Global, table: &Table) -> Result<bool, WordError> {
    let image = image_of(alloc, SMALLEST_KERNEL.words)?;
    let mut pieces = Pieces::new(image.octets(), 120, Failures::none());
    pieces.is_endless = true;
    let shelf = Shelf::new(Vec::new(alloc), 100, Failures::none());
    let outcome = outcome_of(alloc, table, pieces, shelf);
    Ok(outcome.tells("fault W8\n") && outcome.given == 16_777_217)
}

#[test]
fn an_endless_reader(rt: HostRuntime) -> Result<(), Fail> {
    let table = Table::from_slice(rt.alloc(), PROFILE.as_bytes())?;
    let is_told = is_endless_told(rt.alloc(), &table);
    drop(table);
    assert!(rt; is_told == Ok(true));
    Ok(())
}
