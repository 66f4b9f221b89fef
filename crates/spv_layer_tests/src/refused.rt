//! Each growth of memory refused in turn: out of memory is told. With none refused the calls answer rightly.

use crate::layers::flow_of;
use spv_builtin::{FromGrammar, Table};
use spv_extended::Reach;
use spv_inst::{Fault, Rule, Stop};
use spv_samples::{
    CALL_OF_LATER_FUNCTION, LOAD_WITH_MASK, LOOP_WITH_PHI, PROFILE, SMALLEST_KERNEL, Sample, Told,
    WrongAnswer, each_refused, image_of,
};
use spv_verdict::{Checked, Ending, TraceError, Verdict, check, check_stream, trace};
use spv_words::{FromRead, FromWrite, Image, WordError};
use std::alloc::Global;
use std::test::Fail;

/// What is said of a load where a module begins.
const LOAD_FIRST: Fault = Fault {
    rule: Rule::L1,
    inst: 0,
    word: 5,
};

/// How the layers answer of an image of so many function definitions, or else of that load.
fn told_of_flow(alloc: Global, table: &Table, image: &Image, definitions: Option<u32>) -> Told {
    match flow_of(alloc, table, image) {
        Ok(count) if definitions == Some(count) => Told::Right,
        Err(Stop::Fault(fault)) if definitions.is_none() && fault == LOAD_FIRST => Told::Right,
        Err(Stop::Memory) => Told::NoMemory,
        _ => Told::Wrong,
    }
}

/// How the check of a sound module answers, or else of that load, which is looked at so far.
fn told_of_check(
    alloc: Global,
    table: &Table,
    reach: Reach,
    image: &Image,
    is_sound: bool,
) -> Told {
    match check(alloc, table, reach, image) {
        Ok(Verdict::Valid(_)) if is_sound => Told::Right,
        Ok(Verdict::Fault(fault)) if !is_sound && fault == LOAD_FIRST => Told::Right,
        Ok(_) => Told::Wrong,
        Err(_) => Told::NoMemory,
    }
}

/// How the check of its bytes answers. Where there is no memory, nothing is written.
fn told_of_stream(alloc: Global, table: &Table, image: &Image, is_sound: bool) -> Told {
    let mut line = [0u8; 23];
    let mut reader = FromRead::new(image.octets());
    let answer = check_stream(
        alloc,
        table,
        Reach::Profile,
        &mut reader,
        &mut FromWrite::new(&mut line[..]),
    );
    match answer {
        Ok(true) if is_sound && line.starts_with(b"valid\n\0") => Told::Right,
        Ok(false) if !is_sound && line == *b"fault L1 inst 0 word 5\n" => Told::Right,
        Err(WordError::W9) if line == [0; 23] => Told::NoMemory,
        _ => Told::Wrong,
    }
}

/// How one of the calls answers of a sound module of so many function definitions, or else of that load.
fn told(call: u32, alloc: Global, table: &Table, image: &Image, definitions: Option<u32>) -> Told {
    let is_sound = definitions.is_some();
    match call {
        0 => told_of_flow(alloc, table, image, definitions),
        1 => told_of_check(alloc, table, Reach::Profile, image, is_sound),
        2 => told_of_check(alloc, table, Reach::Extended, image, is_sound),
        _ => told_of_stream(alloc, table, image, is_sound),
    }
}

/// Makes each of the calls.
fn each_call(
    alloc: Global,
    table: &Table,
    image: &Image,
    definitions: Option<u32>,
) -> Result<(), WrongAnswer> {
    for call in 0..4 {
        each_refused(alloc, || told(call, alloc, table, image, definitions))?;
    }
    Ok(())
}

/// Makes each of the calls of a sample.
fn of_sample(
    alloc: Global,
    table: &Table,
    sample: Sample<'_>,
    definitions: Option<u32>,
) -> Result<Result<(), WrongAnswer>, WordError> {
    let image = image_of(alloc, sample.words)?;
    Ok(each_call(alloc, table, &image, definitions))
}

#[test]
fn checks(rt: HostRuntime) -> Result<(), Fail> {
    let table = Table::from_slice(rt.alloc(), PROFILE.as_bytes())?;
    let kernel = of_sample(rt.alloc(), &table, SMALLEST_KERNEL, Some(1));
    let with_phi = of_sample(rt.alloc(), &table, LOOP_WITH_PHI, Some(1));
    let with_mask = of_sample(rt.alloc(), &table, LOAD_WITH_MASK, None);
    let with_call = of_sample(rt.alloc(), &table, CALL_OF_LATER_FUNCTION, Some(2));
    drop(table);
    for answer in [kernel, with_phi, with_mask, with_call] {
        answer??;
    }
    Ok(())
}

/// A run: the function, the choices, and how many steps it has.
#[derive(Clone, Copy)]
struct Run {
    function: u32,
    choices: &'static [u32],
    steps: usize,
}

/// The runs of the samples' entry points.
const RUNS: [(Sample<'static>, Run); 3] = [
    (
        SMALLEST_KERNEL,
        Run {
            function: 3,
            choices: &[],
            steps: 2,
        },
    ),
    (
        LOOP_WITH_PHI,
        Run {
            function: 10,
            choices: &[0, 1],
            steps: 13,
        },
    ),
    (
        CALL_OF_LATER_FUNCTION,
        Run {
            function: 10,
            choices: &[0],
            steps: 10,
        },
    ),
];

/// How a run answers.
fn told_of_trace(alloc: Global, checked: &Checked<'_>, run: Run) -> Told {
    match trace(alloc, checked, run.function, run.choices, 100) {
        Ok(told) if told.steps.len() == run.steps && told.ending == Ending::Finished => Told::Right,
        Err(TraceError::Memory) => Told::NoMemory,
        _ => Told::Wrong,
    }
}

/// Whether a module is checked, and then has its run.
fn is_traced(alloc: Global, table: &Table, image: &Image, run: Run) -> bool {
    match check(alloc, table, Reach::Profile, image) {
        Ok(Verdict::Valid(checked)) => {
            each_refused(alloc, || told_of_trace(alloc, &checked, run)).is_ok()
        }
        _ => false,
    }
}

/// How many of the samples have their runs, from the first on.
fn count_traced(alloc: Global, table: &Table) -> Result<u32, WordError> {
    let mut count = 0u32;
    for (sample, run) in RUNS {
        let image = image_of(alloc, sample.words)?;
        if !is_traced(alloc, table, &image, run) {
            break;
        }
        count = count.wrapping_add(1);
    }
    Ok(count)
}

#[test]
fn traces(rt: HostRuntime) -> Result<(), Fail> {
    let table = Table::from_slice(rt.alloc(), PROFILE.as_bytes())?;
    let count = count_traced(rt.alloc(), &table);
    drop(table);
    assert!(rt; count == Ok(3), "{count:?}");
    Ok(())
}

/// Whether a module is checked, and this is known of the call in its first function, instruction 15 at word 52, whose
/// result is %16.
fn is_known(alloc: Global, table: &Table, image: &Image) -> bool {
    let Ok(Verdict::Valid(checked)) = check(alloc, table, Reach::Profile, image) else {
        return false;
    };
    let parts = checked.parts();
    match parts.plan.at(15) {
        Some(place) => {
            place.word == 52
                && place.block == Some(14)
                && parts.ids.definition(16) == Some(15)
                && parts.flow.definitions() == 2
        }
        None => false,
    }
}

#[test]
fn parts_of_a_module(rt: HostRuntime) -> Result<(), Fail> {
    let image = image_of(rt.alloc(), CALL_OF_LATER_FUNCTION.words)?;
    let table = Table::from_slice(rt.alloc(), PROFILE.as_bytes())?;
    let is_known = is_known(rt.alloc(), &table, &image);
    drop(table);
    assert!(rt; is_known);
    Ok(())
}
