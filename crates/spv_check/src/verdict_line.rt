//! The text of a verdict: one line of ASCII.
ghost use Rattle.std.specs.Prelude.{◌≡◌};
ghost use Rattle.spv_check.specs.Verdict.{fault_line, refused_line};
ghost use Rattle.spv_check.specs.Text.{line_of, text_of};

use crate::line::Line;
use spv_module::Fault;
use spv_rules::Code;
use spv_words::WordError;

/// What a stream of bytes comes to.
#[derive(Clone, Copy, PartialEq, Eq)]
pub enum Judgment {
    /// No rule is broken.
    Valid,
    /// The bytes are no words of a module: the first rule of W2 to W8 that they break.
    Refused(WordError),
    /// The first rule that the instructions break, with the instruction and the word by which it is told.
    Broken(Fault),
}

/// `fault W4`, as an example.
fn refused(code: WordError) -> Line
    ensures { text_of result ≡ refused_line code }
{
    let mut line = Line::of(b"fault ");
    line.push(Code::Word(code).name().as_bytes());
    line.push(b"\n");
    line
}

/// `fault I7 inst 0 word 9`, as an example.
fn broken(fault: Fault) -> Line
    ensures { text_of result ≡ fault_line fault.rule fault.inst fault.word }
{
    let mut line = Line::of(b"fault ");
    line.push(Code::Rule(fault.rule).name().as_bytes());
    line.push(b" inst ");
    line.push_number(fault.inst);
    line.push(b" word ");
    line.push_number(fault.word);
    line.push(b"\n");
    line
}

/// The line of a verdict, its line feed included.
pub fn line_for(verdict: Judgment) -> Line
    ensures { text_of result ≡ line_of verdict }
{
    match verdict {
        Judgment::Valid => Line::of(b"valid\n"),
        Judgment::Refused(code) => refused(code),
        Judgment::Broken(fault) => broken(fault),
    }
}
