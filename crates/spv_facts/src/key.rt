//! The keys of what is told: how each is written in lines, and as a member of JSON.
ghost use Rattle.std.specs.Prelude.{◌≡◌};
ghost use Rattle.spv_facts.specs.Keys as keys;
ghost use Rattle.spv_facts.specs.Keys.{key_of, line_name, member_name};
ghost use Rattle.spv_facts.specs.inner.Parts as parts;

use crate::fact::Fact;
use spv_evidence::{EntryPart, Side};

/// What a fact tells, by its key.
#[derive(Clone, Copy)]
pub enum Key {
    At,
    In,
    Open,
    Name,
    Block,
    Words,
    Word,
    Opcode,
    Row,
    MayCome,
    MayEnd,
    Missing,
    Operand,
    Due,
    Bound,
    Defined,
    LocalTo,
    Role,
    Earlier,
    Implied,
    NotImplied,
    Bit,
    NeedsOneOf,
    Part,
    Called,
    Imported,
    Condition,
    Type,
    Place,
    Parameter,
    Argument,
    Wanted,
    Found,
    Size,
    Help,
    MissingParent,
    NoPredecessor,
    Twice,
    Predecessors,
    Walk,
    Calls,
    Cycle,
    Number,
    Operands,
    Least,
    Most,
    OtherOperand,
    OnTheWay,
    Given,
    UsedBy,
    Since,
}

impl Key {
    /// How the key of a fact about control flow, about calls, or of the rules O alone is written before the colon of a
    /// line. Nothing of another.
    fn further_name(self) -> &'static str
        ensures { result.now ≡ parts.further_name self }
    {
        match self {
            Key::MissingParent => "missing parent",
            Key::NoPredecessor => "no predecessor",
            Key::Twice => "twice",
            Key::Predecessors => "predecessors",
            Key::Walk => "walk",
            Key::Calls => "calls",
            Key::Cycle => "cycle",
            Key::OtherOperand => "other operand",
            Key::OnTheWay => "on the way",
            Key::Given => "given",
            Key::UsedBy => "used by",
            Key::Since => "since",
            _ => "",
        }
    }

    /// How it is written before the colon of a line, as `may come`.
    pub fn line_name(self) -> &'static str
        ensures { result.now ≡ line_name self }
    {
        match self {
            Key::At => "at",
            Key::In => "in",
            Key::Open => "open",
            Key::Name => "name",
            Key::Block => "block",
            Key::Words => "words",
            Key::Word => "word",
            Key::Opcode => "opcode",
            Key::Row => "row",
            Key::MayCome => "may come",
            Key::MayEnd => "end of module",
            Key::Missing => "missing",
            Key::Operand => "operand",
            Key::Due => "due",
            Key::Bound => "bound",
            Key::Defined => "defined",
            Key::LocalTo => "local to",
            Key::Role => "role",
            Key::Earlier => "earlier",
            Key::Implied => "implied",
            Key::NotImplied => "not implied",
            Key::Bit => "bit",
            Key::NeedsOneOf => "needs one of",
            Key::Part => "part",
            Key::Called => "called",
            Key::Imported => "imported",
            Key::Condition => "condition",
            Key::Type => "type",
            Key::Place => "place",
            Key::Parameter => "parameter",
            Key::Argument => "argument",
            Key::Wanted => "wanted",
            Key::Found => "found",
            Key::Size => "size",
            Key::Help => "help",
            Key::Number => "number",
            Key::Operands => "operands",
            Key::Least => "least",
            Key::Most => "most",
            _ => self.further_name(),
        }
    }

    /// How it is written as a member of a JSON object, as `mayComeNext`: one word, and mostly that of lines.
    pub fn member_name(self) -> &'static str
        ensures { result.now ≡ member_name self }
    {
        match self {
            Key::In => "function",
            Key::Open => "function",
            Key::Name => "functionName",
            Key::Word => "failingWord",
            Key::MayCome => "mayComeNext",
            Key::MayEnd => "mayEnd",
            Key::LocalTo => "localTo",
            Key::NotImplied => "notImplied",
            Key::NeedsOneOf => "needsOneOf",
            Key::Type => "types",
            Key::MissingParent => "missingParent",
            Key::NoPredecessor => "noPredecessor",
            Key::OtherOperand => "otherOperand",
            Key::OnTheWay => "onTheWay",
            Key::UsedBy => "usedBy",
            _ => self.line_name(),
        }
    }
}

/// The key of a capability.
fn capability_key(implied: bool) -> Key
    ensures { result ≡ keys.capability_key implied }
{
    if implied {
        Key::Implied
    } else {
        Key::NotImplied
    }
}

/// The key of a broken part of E2.
fn part_key(part: EntryPart) -> Key
    ensures { result ≡ keys.part_key part }
{
    match part {
        EntryPart::Called { .. } => Key::Called,
        EntryPart::Imported { .. } => Key::Imported,
        _ => Key::Part,
    }
}

/// The key of a place where two things are to be the same.
fn side_key(side: Side) -> Key
    ensures { result ≡ keys.side_key side }
{
    match side {
        Side::Parameter { .. } => Key::Parameter,
        Side::Argument { .. } => Key::Argument,
        _ => Key::Place,
    }
}

impl Fact {
    /// The key of what it tells.
    pub fn key(&self) -> Key
        ensures { result ≡ key_of self.now }
    {
        match self {
            Fact::At { .. } => Key::At,
            Fact::In { .. } => Key::In,
            Fact::Open { .. } => Key::Open,
            Fact::Words { .. } => Key::Words,
            Fact::Word { .. } => Key::Word,
            Fact::Opcode { .. } => Key::Opcode,
            Fact::Row { .. } => Key::Row,
            Fact::MayCome { .. } => Key::MayCome,
            Fact::Unended { .. } => Key::Missing,
            Fact::Operand { .. } => Key::Operand,
            Fact::Failing { .. } => Key::Operand,
            Fact::Due { .. } => Key::Due,
            Fact::Bound { .. } => Key::Bound,
            Fact::Defined { .. } => Key::Defined,
            Fact::LocalTo { .. } => Key::LocalTo,
            Fact::Role { .. } => Key::Role,
            Fact::Earlier { .. } => Key::Earlier,
            Fact::Capability { implied, .. } => capability_key(*implied),
            Fact::Bit { .. } => Key::Bit,
            Fact::NeedsOneOf { .. } => Key::NeedsOneOf,
            Fact::NoEntry => Key::Missing,
            Fact::Part { part } => part_key(*part),
            Fact::Condition { .. } => Key::Condition,
            Fact::Types { .. } => Key::Type,
            Fact::Differs { side } => side_key(*side),
            Fact::Wanted { .. } => Key::Wanted,
            Fact::Found { .. } => Key::Found,
            Fact::ReadTypes { .. } => Key::Type,
            Fact::WantedOf { .. } => Key::Wanted,
            Fact::FoundOf { .. } => Key::Found,
            Fact::Size { .. } => Key::Size,
            Fact::MissingParent { .. } => Key::MissingParent,
            Fact::NoPredecessor { .. } => Key::NoPredecessor,
            Fact::Twice { .. } => Key::Twice,
            Fact::Predecessors { .. } => Key::Predecessors,
            Fact::Walk { .. } => Key::Walk,
            Fact::Calls { .. } => Key::Calls,
            Fact::Cycle { .. } => Key::Cycle,
            Fact::Number { .. } => Key::Number,
            Fact::Operands { .. } => Key::Operands,
            Fact::Least { .. } => Key::Least,
            Fact::Most { .. } => Key::Most,
            Fact::OtherOperand { .. } => Key::OtherOperand,
            Fact::OnTheWay { .. } => Key::OnTheWay,
            Fact::Given { .. } => Key::Given,
            Fact::UsedBy { .. } => Key::UsedBy,
            Fact::Since { .. } => Key::Since,
            Fact::Extensions { .. } => Key::NeedsOneOf,
        }
    }
}
