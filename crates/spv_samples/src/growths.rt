//! How a test has each growth of memory in a call refused, one after another.
//!
//! A test speaks with the C library of `tests/refuse` by growths of sizes that nothing else asks for. Without that
//! library they are growths like any other, and nothing is refused.

use std::alloc::Global;

/// A growth of this many bytes and N more has the Nth growth from there on refused.
const REFUSE: usize = 7_000_000;

/// A growth of this many bytes ends that, and is itself refused where one was.
const END: usize = 6_999_999;

/// A growth of this many bytes tells that a call answered rightly although a growth was refused.
const DONE_WITHOUT: usize = 6_999_998;

/// The most growths of one call.
const MOST: usize = 100_000;

/// How a call answered.
#[derive(Clone, Copy, Debug, PartialEq, Eq)]
pub enum Told {
    /// As it is to answer with ample memory.
    Right,
    /// By its own error for lack of memory.
    NoMemory,
    /// In any other way.
    Wrong,
}

/// The call answered wrongly with this growth refused, or with none of so many.
#[derive(Clone, Copy, Debug, PartialEq, Eq)]
pub struct WrongAnswer {
    pub growth: usize,
    pub told: Told,
}

/// Asks for so many bytes and gives them back: whether they were refused.
fn mark(alloc: Global, size: usize) -> bool {
    let bytes: Result<Vec<u8>, _> = Vec::with_capacity(alloc, size);
    bytes.is_err()
}

/// Makes a call with its first growth refused, then with its second, and so on until none is. What the call keeps is to
/// be let go of before it answers.
///
/// # Errors
///
/// `WrongAnswer` where it answered wrongly, or told out of memory with no growth refused.
pub fn each_refused<F: FnMut() -> Told>(alloc: Global, mut call: F) -> Result<(), WrongAnswer>
    requires { F.IsAlwaysCallable call }
{
    for growth in 0..MOST {
        mark(alloc, REFUSE + growth + 1);
        let told = call();
        let was_refused = mark(alloc, END);
        match told {
            Told::Right if was_refused => {
                mark(alloc, DONE_WITHOUT);
            }
            Told::Right => return Ok(()),
            Told::NoMemory if was_refused => {}
            _ => return Err(WrongAnswer { growth, told }),
        }
    }
    Err(WrongAnswer {
        growth: MOST,
        told: Told::NoMemory,
    })
}
