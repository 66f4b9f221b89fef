ghost use Rattle.std.specs.Prelude.{◌≡◌};
ghost use Rattle.spv_layout.specs.inner.Span.{mark, at_first, entered_in, left_in, no_spans};

use crate::class::Class;

/// In place of the number of an instruction: there is none. A module has fewer instructions.
const NONE: u32 = u32::MAX;

/// Which function and block the instructions so far leave open, and where sections 10 and 11 begin: each by the number
/// of an OpFunction or OpLabel, or `NONE`.
#[derive(Clone, Copy)]
pub struct Spans {
    /// The OpFunction whose OpFunctionEnd is still to come.
    pub function: u32,
    /// The OpLabel whose block's terminator is still to come.
    pub block: u32,
    /// The first OpFunction.
    pub functions: u32,
    /// The first OpFunction with an OpLabel after it.
    pub definitions: u32,
}

/// The number that is kept, if it is one.
#[inline(always)]
pub fn number(kept: u32) -> Option<u32>
    ensures { result ≡ mark kept }
{
    if kept < NONE { Some(kept) } else { None }
}

/// A number that is kept, or where there is none this one.
#[inline(always)]
fn or_first(kept: u32, at: u32) -> u32
    ensures { result ≡ at_first kept at }
{
    if kept == NONE { at } else { kept }
}

impl Spans {
    /// Before the first instruction.
    pub fn new() -> Spans
        ensures { result ≡ no_spans }
    {
        Spans {
            function: NONE,
            block: NONE,
            functions: NONE,
            definitions: NONE,
        }
    }

    /// At an instruction of a class and number, which may begin a function or a block.
    #[inline(always)]
    pub fn enter(&mut self, class: Class, at: u32)
        ensures { self.new ≡ entered_in self.old class at }
    {
        match class {
            Class::Function => {
                self.function = at;
                self.functions = or_first(self.functions, at);
            }
            Class::Label => {
                self.block = at;
                self.definitions = or_first(self.definitions, self.function);
            }
            _ => {}
        }
    }

    /// After an instruction of a class, which may end a function or a block.
    #[inline(always)]
    pub fn leave(&mut self, class: Class)
        ensures { self.new ≡ left_in self.old class }
    {
        match class {
            Class::FunctionEnd => {
                self.function = NONE;
            }
            Class::Branch | Class::BranchConditional | Class::Switch | Class::Return => {
                self.block = NONE;
            }
            _ => {}
        }
    }
}
