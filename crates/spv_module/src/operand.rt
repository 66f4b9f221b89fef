/// An operand of an instruction (SPIR-V Specification 1.6, section 2.2.1).
///
/// It takes one word, but for a `Number`, which takes one or two, and a `Text`, which takes a word for each four octets
/// and one more, with the rest and the zero octet. Which operands an instruction has is told by the grammar table.
#[derive(Clone, Copy, Debug)]
pub enum Operand<'a> {
    /// The id of the result's type: an operand of the kind IdResultType.
    OfType(u32),
    /// The id of the result: an operand of the kind IdResult.
    Result(u32),
    /// Another id: an operand of any other kind of ids.
    Id(u32),
    /// A literal of one word: a LiteralInteger that is no case of OpSwitch, a LiteralFloat or a LiteralExtInstInteger.
    Word(u32),
    /// A literal whose width another instruction tells: a LiteralContextDependentNumber, or a case of OpSwitch. `low`
    /// is its first word, `high` its second, or 0 where it takes one, and `words` says how many it takes, 1 or 2.
    Number { low: u32, high: u32, words: u8 },
    /// A LiteralString, without the zero octet after it. A text that was decoded is lent by the image.
    Text(&'a str),
    /// A value of a kind whose enumerants exclude one another. `kind` is the number of the kind in the grammar table,
    /// from 0.
    Value { kind: u32, value: u32 },
    /// A mask of a kind whose enumerants are bits. `kind` is the number of the kind in the grammar table, from 0.
    Mask { kind: u32, value: u32 },
    /// An id that an extended instruction takes as a value: what an `Id` behind its number becomes where such ids are
    /// looked at. No words spell it.
    Argument(u32),
    /// An id that an extended instruction names, for its set alone to know as what: as `Argument`.
    Mention(u32),
}
