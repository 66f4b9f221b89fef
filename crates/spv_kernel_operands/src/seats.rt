//! Which operands are scopes and which are memory semantics.

ghost use Rattle.std.specs.Prelude.{◌≡◌, ◌<◌, [], IsTrue, map};
ghost use Rattle.spv_module.specs.declared.opcode.TheConstants as opcode;
ghost use Rattle.spv_kernel_operands.specs.Seats as spec;
ghost use Rattle.spv_kernel_operands.specs.inner.Seats.{line};

use spv_module::opcode;

/// A line of the table as the code reads it: from which opcode to which, and the numbers of the operands, from 0, that
/// are scopes, and that are semantics.
#[derive(Clone, Copy)]
pub struct Seats {
    pub from: u16,
    pub to: u16,
    pub scopes: &'static [u32],
    pub semantics: &'static [u32],
}

/// A line as definitions read it.
pub type Line = (u16, u16, &'static [u32], &'static [u32]);

/// The table: of each opcode, or of those from one to another, the operands that are scopes, and behind them
/// those that are semantics.
macro_rules! table {
    ($what:ident) => {
        $what! {
            CONTROL_BARRIER to CONTROL_BARRIER: [0, 1] [2];
            MEMORY_BARRIER to MEMORY_BARRIER: [0] [1];
            ATOMIC_LOAD to ATOMIC_LOAD: [3] [4];
            ATOMIC_STORE to ATOMIC_STORE: [1] [2];
            ATOMIC_EXCHANGE to ATOMIC_EXCHANGE: [3] [4];
            ATOMIC_COMPARE_EXCHANGE to ATOMIC_COMPARE_EXCHANGE_WEAK: [3] [4, 5];
            ATOMIC_I_INCREMENT to ATOMIC_XOR: [3] [4];
            GROUP_ASYNC_COPY to GROUP_ASYNC_COPY: [2] [];
            GROUP_WAIT_EVENTS to GROUP_WAIT_EVENTS: [0] [];
            GROUP_ALL to GROUP_S_MAX: [2] [];
            GROUP_RESERVE_READ_PIPE_PACKETS to GROUP_RESERVE_WRITE_PIPE_PACKETS: [2] [];
            GROUP_COMMIT_READ_PIPE to GROUP_COMMIT_WRITE_PIPE: [0] [];
            ATOMIC_FLAG_TEST_AND_SET to ATOMIC_FLAG_TEST_AND_SET: [3] [4];
            ATOMIC_FLAG_CLEAR to ATOMIC_FLAG_CLEAR: [1] [2];
            MEMORY_NAMED_BARRIER to MEMORY_NAMED_BARRIER: [1] [2];
            GROUP_NON_UNIFORM_ELECT to GROUP_NON_UNIFORM_QUAD_SWAP: [2] [];
        }
    };
}

/// Lines, as definitions read them.
macro_rules! lines {
    ($($from:ident to $to:ident: [$($scope:literal),*] [$($order:literal),*];)+) => {
        [$((opcode::$from, opcode::$to, &[$($scope),*], &[$($order),*])),+]
    };
}

/// Lines, as the code reads them.
macro_rules! entries {
    ($($from:ident to $to:ident: [$($scope:literal),*] [$($order:literal),*];)+) => {
        [$(Seats {
            from: opcode::$from,
            to: opcode::$to,
            scopes: &[$($scope),*],
            semantics: &[$($order),*],
        }),+]
    };
}

/// The table as definitions read it.
pub static TABLE: [Line; 16] = table!(lines);

/// The same as the code reads it.
static ENTRIES: [Seats; 16] = table!(entries);

/// Whether a line has an opcode.
fn is_of(opcode: u16, seats: Seats) -> bool
    ensures { result ≡ spec.is_of opcode (line seats) }
{
    seats.from <= opcode && opcode <= seats.to
}

/// Whether none of some lines has an opcode.
fn is_absent(entries: &[Seats], opcode: u16) -> bool
    ensures { IsTrue result → (spec.scopes_in (map line entries.now) opcode ≡ [])
        × (spec.semantics_in (map line entries.now) opcode ≡ []) }
{
    for entry in entries {
        if is_of(opcode, *entry) {
            return false;
        }
    }
    true
}

/// The scopes of the first of some lines that has an opcode.
fn scopes_in(entries: &[Seats], opcode: u16) -> &'static [u32]
    ensures { result.now ≡ spec.scopes_in (map line entries.now) opcode }
{
    for entry in entries {
        if is_of(opcode, *entry) {
            return entry.scopes;
        }
    }
    &[]
}

/// The semantics of the first of some lines that has an opcode.
fn semantics_in(entries: &[Seats], opcode: u16) -> &'static [u32]
    ensures { result.now ≡ spec.semantics_in (map line entries.now) opcode }
{
    for entry in entries {
        if is_of(opcode, *entry) {
            return entry.semantics;
        }
    }
    &[]
}

/// Whether an opcode is one of blocks, or near it: behind those of atomics and before those of groups.
fn is_of_blocks(code: u16) -> bool
    ensures { IsTrue result → (opcode.ATOMIC_XOR < code) × (code < opcode.GROUP_ASYNC_COPY) }
{
    opcode::ATOMIC_XOR < code && code < opcode::GROUP_ASYNC_COPY
}

/// Whether no operand of an opcode is a scope or memory semantics. The lines begin with OpControlBarrier, and none is
/// of an opcode of blocks.
pub fn is_seatless(code: u16) -> bool
    ensures { IsTrue result → (spec.scopes_of code ≡ []) × (spec.semantics_of code ≡ []) }
{
    if code < opcode::CONTROL_BARRIER {
        return true;
    }
    if is_of_blocks(code) {
        return true;
    }
    is_absent(&ENTRIES, code)
}

/// The numbers of the operands of an opcode, from 0, that are scopes.
pub fn scopes_of(opcode: u16) -> &'static [u32]
    ensures { result.now ≡ spec.scopes_of opcode }
{
    scopes_in(&ENTRIES, opcode)
}

/// The numbers of the operands of an opcode, from 0, that are memory semantics.
pub fn semantics_of(opcode: u16) -> &'static [u32]
    ensures { result.now ≡ spec.semantics_of opcode }
{
    semantics_in(&ENTRIES, opcode)
}
