//! What the lines that explain a fault tell, in numbers alone.

use spv_evidence::{Condition, EntryPart, Lister, Role, Side};
use spv_table::Listed;

/// How much the lines tell of opcodes that may come.
#[derive(Clone, Copy, PartialEq, Eq)]
pub enum Detail {
    /// The names of the opcodes where there are at most eight, and else their classes in words.
    Short,
    /// The names of all.
    Full,
}

/// The function and the block that are open at a place of a module, by the numbers of their OpFunction and OpLabel.
#[derive(Clone, Copy)]
pub struct Place {
    pub function: Option<u32>,
    pub block: Option<u32>,
}

/// What is told of a type, or of one of two things that are to be the same.
#[derive(Clone, Copy)]
pub enum Thing {
    /// That there is none.
    Nothing,
    /// A count.
    Count { count: u32 },
    /// An instruction in full, by its number.
    Inst { inst: u32 },
    /// An id alone.
    Id { id: u32 },
}

/// What one line tells. Operands and instructions count from 0; a block goes by the number of its OpLabel, and a
/// function by that of its OpFunction.
#[derive(Drop)]
pub enum Fact {
    /// `at`: the instruction at which the rule is told.
    At {
        inst: u32,
    },
    /// `in`: the function and the block that it is of.
    In {
        place: Place,
    },
    /// `open`: the function and the block that are open at the end of the module.
    Open {
        place: Place,
    },
    /// `words`: words of an instruction, and whether it has others before or after these.
    Words {
        before: bool,
        words: Listed<u32>,
        after: bool,
    },
    /// `word`: the word that fails, by its place in the instruction, and its value if the module has it.
    Word {
        offset: u32,
        word: Option<u32>,
    },
    /// `opcode`: an opcode.
    Opcode {
        opcode: u16,
    },
    /// `row`: the operands that an opcode's row in the table of shapes asks for, or that the profile has none.
    Row {
        opcode: u16,
        known: bool,
    },
    /// `may come`: the opcodes that may come, and whether the module may end.
    MayCome {
        opcodes: Listed<u32>,
        end: bool,
    },
    /// `missing`: the end of the block, or of the function, that is open before an instruction.
    Unended {
        place: Place,
    },
    /// `operand`: an operand of an instruction.
    Operand {
        inst: u32,
        operand: u32,
    },
    /// `operand`, of words that spell no instruction: its number alone.
    Failing {
        operand: u32,
    },
    /// `due`: the kind that is due there, by its number.
    Due {
        kind: Option<u32>,
    },
    /// `bound`: the bound of ids.
    Bound {
        bound: u32,
    },
    /// `defined`: the instruction that defines an operand's id.
    Defined {
        inst: u32,
    },
    /// `local to`: the function that a definition is local to.
    LocalTo {
        function: u32,
    },
    /// `role`: the role that is asked for.
    Role {
        role: Role,
    },
    /// `earlier`: an earlier instruction with the same result, an earlier type, or one that speaks against this one.
    Earlier {
        inst: u32,
    },
    /// `implied` or `not implied`: a capability.
    Capability {
        capability: u32,
        implied: bool,
    },
    /// `bit`: a bit of an operand that is a mask, by its value.
    Bit {
        inst: u32,
        operand: u32,
        bit: u32,
    },
    /// `needs one of`: the capabilities that are listed.
    NeedsOneOf {
        inst: u32,
        lister: Lister,
    },
    /// `missing`: that there is no entry point.
    NoEntry,
    /// `part`, `called` or `imported`: the part of E2 that is broken.
    Part {
        part: EntryPart,
    },
    /// `condition`: the condition that fails.
    Condition {
        condition: Condition,
    },
    /// `type`: types, each on a line.
    Types {
        things: Listed<Thing>,
    },
    /// `place`, `parameter` or `argument`: where two things are to be the same.
    Differs {
        side: Side,
    },
    /// `wanted`: what is to stand there.
    Wanted {
        thing: Thing,
    },
    /// `found`: what stands there.
    Found {
        thing: Thing,
    },
    /// `type`: types that a condition reads, each on a line, and the types of the operands of an instruction.
    ReadTypes {
        inst: u32,
        operands: Listed<Option<u32>>,
        things: Listed<Thing>,
    },
    /// `wanted`: the type that is to stand there, and the operands of an instruction that are of it.
    WantedOf {
        inst: u32,
        thing: Thing,
        operands: Listed<u32>,
    },
    /// `found`: the type that stands there, and the operand of an instruction, if it is of it.
    FoundOf {
        inst: u32,
        thing: Thing,
        operands: Listed<u32>,
    },
    /// `size`: how many parts the type has that stands there.
    Size {
        count: u32,
    },
    /// `missing parent`: a predecessor that no pair names.
    MissingParent {
        block: u32,
    },
    /// `no predecessor`: an operand that names no predecessor.
    NoPredecessor {
        inst: u32,
        operand: u32,
    },
    /// `twice`: an operand that names a parent again.
    Twice {
        inst: u32,
        operand: u32,
    },
    /// `predecessors`: all predecessors of a block.
    Predecessors {
        blocks: Listed<u32>,
    },
    /// `walk`: the blocks of a walk.
    Walk {
        blocks: Listed<u32>,
    },
    /// `calls`: the functions of a chain of calls.
    Calls {
        functions: Listed<u32>,
    },
    /// `cycle`: the functions of a cycle, the caller last.
    Cycle {
        functions: Listed<u32>,
    },
    /// `number`: the number of an extended instruction.
    Number {
        number: u32,
    },
    /// `operands`: how many operands stand behind that number.
    Operands {
        count: u32,
    },
    /// `least`: how many its set's instruction takes at least, if the set has one of that number.
    Least {
        count: Option<u32>,
    },
    /// `most`: how many it takes at most, if it does not take any; or how many a limit allows.
    Most {
        count: Option<u32>,
    },
    /// `other operand`: an operand of an instruction that may not stand beside the first.
    OtherOperand {
        inst: u32,
        operand: u32,
    },
    /// `on the way`: a block that stands higher, and is on each walk to this one.
    OnTheWay {
        block: u32,
    },
    /// `given`: the instruction that gives a group its decoration.
    Given {
        inst: u32,
    },
    /// `used by`: an instruction that uses a variable.
    UsedBy {
        inst: u32,
    },
    /// `since`: the first version that has what an earlier one lacks, by its minor number.
    Since {
        minor: u8,
    },
    /// `needs one of`: the extensions that have it, by the line of the table of versions that names them.
    Extensions {
        line: u32,
    },
}
