//! The codes of errors, by name, and what each says to a person.
ghost use Rattle.std.specs.Prelude.{◌≡◌, ◌<◌, MatchOption, Some, length, map, slice_get};
ghost use Rattle.spv_rules.specs.Errors.{any_name, error_codes, error_meaning, error_name, error_section};
ghost use Rattle.spv_rules.specs.Errors.{error_sentence, place_of_error};
ghost use Rattle.spv_rules.specs.Rules.{IsNamed};
ghost use Rattle.spv_rules.specs.inner.Found.{IsErrorNamed};
ghost use Rattle.spv_rules.specs.inner.Held.{plain_error};
ghost use Rattle.spv_rules.specs.declared.errors.AnyCode.{AnyCode};
ghost use Rattle.spv_rules.specs.declared.errors.ErrorCode.{ErrorCode};
ghost use Rattle.spv_rules.specs.declared.errors.TheConstants.{ERROR_ROWS};

use crate::rules::Code;

/// A code that is told of what is no module: a grammar file, a text, a function that is asked for, or a
/// module that is not encoded.
#[derive(Clone, Copy, PartialEq, Eq)]
pub enum ErrorCode {
    /// Of a grammar file.
    J1,
    J2,
    J3,
    J4,
    J5,
    J6,
    J7,
    J8,
    /// Of a text that is assembled.
    S1,
    S2,
    S3,
    S4,
    S5,
    S6,
    /// Of a function that is asked for.
    X1,
    X2,
    /// Of a module that is encoded.
    N1,
    N2,
    N3,
}

/// A row: a code, its name, what it says, the sources that the sentence ends with, and when it is told.
pub type ErrorRow = (
    ErrorCode,
    &'static str,
    &'static str,
    &'static str,
    &'static str,
);

/// The row of a code: its sentence, the sources of that, and when it is told, as docs/PROFILE.md says it.
macro_rules! error {
    ($variant:ident, $sentence:literal, $sources:literal, $told:literal) => {
        (
            ErrorCode::$variant,
            stringify!($variant),
            concat!($sentence, " [", $sources, "]"),
            $sources,
            $told,
        )
    };
}

/// The codes of errors, in the order of the variants, in which they are told.
pub static ERROR_ROWS: &[ErrorRow] = &[
    error!(
        J1,
        "A grammar file is one JSON value, at most 127 levels deep.",
        "own",
        "the file is not one JSON value: it is ill-formed, not UTF-8, empty, or deeper than 127 levels"
    ),
    error!(
        J2,
        "Required members are present, and all that is read has the right JSON type.",
        "own",
        "something has the wrong JSON type: what should be an object is not one, a key is missing, or its value has \
        the wrong type (null too; a mask's value as a number; an opcode as a text)"
    ),
    error!(
        J3,
        "Each opcode and each value is in range and well formed.",
        "own",
        "an opcode or value is out of range or ill-formed: 65,536 as an opcode, 1.5, 1.0, a mask's value without 0x \
        or with nine digits"
    ),
    error!(
        J4,
        "Each kind that is named is defined in the file.",
        "own",
        "an operand, a parameter or a base names a kind that the file does not define"
    ),
    error!(
        J5,
        "Each category and each quantifier is a known one.",
        "own",
        "an unknown category or quantifier"
    ),
    error!(
        J6,
        "An instruction has each result kind at most once, without a quantifier; parameters and bases have none.",
        "own",
        "the same result kind twice in one instruction, or a result kind with a quantifier, among parameters, or \
        among bases"
    ),
    error!(
        J7,
        "A Composite has bases, each of category Id or Literal.",
        "own",
        "a Composite has no bases, or has one whose category is neither Id nor Literal"
    ),
    error!(
        J8,
        "Memory suffices for the table.",
        "own",
        "there was not enough memory for the table: reported as error memory"
    ),
    error!(
        S1,
        "A text begins with the five lines of its header.",
        "own",
        "a header line is missing or has the wrong form, or the bound, however large, is not from 1 to 4,194,303"
    ),
    error!(
        S2,
        "A line has the name of an instruction in the right place.",
        "own",
        "no known instruction's name is in the right place, or a #N there, however large, is the opcode of none; an \
        empty line has no name"
    ),
    error!(
        S3,
        "A line has the operands and the result of its instruction, each in the right form.",
        "own",
        "an operand or the result is missing, is one too many, has the wrong form (a text with a zero octet too) or \
        an unknown name; or a number's width is unknown, which is reported before its digits are read"
    ),
    error!(
        S4,
        "A number fits its place.",
        "own",
        "a decimal number in the right form, also in an operand's #N, is too large for its place; a number of one or \
        two words is bounded by its words, not by its width. A generator over 4,294,967,295 is S4"
    ),
    error!(
        S5,
        "An instruction has at most 65,535 words, and a module at most 16,777,216 bytes.",
        "2.3; own",
        "an instruction of more than 65,535 words, or a module of more than 16,777,216 bytes"
    ),
    error!(
        S6,
        "Memory suffices for the module of a text.",
        "own",
        "out of memory: reported as error memory"
    ),
    error!(
        X1,
        "The function that is run is that of an entry point.",
        "own",
        "the id is not the function of an OpEntryPoint: reported as error X1"
    ),
    error!(
        X2,
        "The requested function is in the module.",
        "own",
        "the id is not the result of an OpFunction: reported as error X2"
    ),
    error!(
        N1,
        "The header of a module that is encoded satisfies W5 to W7.",
        "own",
        "the version, the schema or the bound in the header breaks W5, W6 or W7"
    ),
    error!(
        N2,
        "The grammar has the instruction, with these operands.",
        "own",
        "the grammar has no entry for the opcode, the operands do not match its entry, or a text has a zero octet"
    ),
    error!(
        N3,
        "An instruction that is encoded has at most 65,535 words, and a module at most 16,777,216 bytes.",
        "2.3; own",
        "an instruction of more than 65,535 words, or a module of more than 16,777,216 bytes"
    ),
];

/// The rows.
fn error_rows() -> &'static [ErrorRow]
    ensures same { map plain_error result.now ≡ ERROR_ROWS.now }
    ensures long { length result.now ≡ length error_codes }
{
    ERROR_ROWS
}

/// How many codes of errors there are.
pub fn error_count() -> usize
    ensures { result ≡ length error_codes }
{
    error_rows().len()
}

/// The row at a place.
fn error_row_at(place: usize) -> &'static ErrorRow
    requires { place < length error_codes }
    ensures { slice_get ERROR_ROWS.now place ≡ Some (plain_error result.now) }
{
    &error_rows()[place]
}

/// The code at a place.
pub fn error_at(place: usize) -> ErrorCode
    requires { place < length error_codes }
    ensures { slice_get error_codes place ≡ Some result }
{
    error_row_at(place).0
}

impl ErrorCode {
    /// Its row of the table.
    fn row(self) -> &'static ErrorRow
        ensures { slice_get ERROR_ROWS.now (place_of_error self) ≡ Some (plain_error result.now) }
    {
        error_row_at(self as usize)
    }

    /// Its name, as `J4`.
    pub fn name(self) -> &'static str
        ensures { result.now ≡ error_name self }
    {
        self.row().1
    }

    /// The code of that name, in capital or small letters; None where no code has it.
    pub fn named(name: &str) -> Option<ErrorCode>
        ensures { MatchOption result ((code : ErrorCode) → ¬ (IsNamed name.now (error_name code)))
            (λ code. IsNamed name.now (error_name code)) }
    {
        for place in 0..error_count() {
            let code = error_at(place);
            if name.eq_ignore_ascii_case(code.name()) {
                return Some(code);
            }
        }
        None
    }

    /// What it says, in a sentence, with its sources in brackets.
    pub fn sentence(self) -> &'static str
        ensures { result.now ≡ error_sentence self }
    {
        self.row().2
    }

    /// The sources of the sentence.
    pub fn section(self) -> &'static str
        ensures { result.now ≡ error_section self }
    {
        self.row().3
    }

    /// When it is told.
    pub fn meaning(self) -> &'static str
        ensures { result.now ≡ error_meaning self }
    {
        self.row().4
    }
}

/// The code of an error of that name, as any code.
fn error_named(name: &str) -> Option<AnyCode>
    ensures { IsErrorNamed name.now result }
{
    match ErrorCode::named(name) {
        Some(code) => Some(AnyCode::Error(code)),
        None => None,
    }
}

/// Any code that a command prints.
#[derive(Clone, Copy, PartialEq, Eq)]
pub enum AnyCode {
    /// One of a verdict.
    Verdict(Code),
    /// One of an error.
    Error(ErrorCode),
}

impl AnyCode {
    /// The code of that name, in capital or small letters; None where no code has it.
    pub fn named(name: &str) -> Option<AnyCode>
        ensures { MatchOption result ((code : AnyCode) → ¬ (IsNamed name.now (any_name code)))
            (λ code. IsNamed name.now (any_name code)) }
    {
        match Code::named(name) {
            Some(code) => Some(AnyCode::Verdict(code)),
            None => error_named(name),
        }
    }
}
