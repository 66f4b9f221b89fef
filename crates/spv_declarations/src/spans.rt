//! Between which instructions before the functions those stand that rules look at.

ghost use Rattle.std.specs.Prelude.{◌≡◌, ◌<◌, ◌+◌, ◌≤◌};
ghost use Rattle.spv_module.specs.Operand.{PlainInst};
ghost use Rattle.spv_declarations.specs.inner.Kinds.{Enters};
ghost use Rattle.spv_declarations.specs.inner.Spans.{Says, Widens};

/// Where the instructions that say something of ids or members stand among some, and the OpEntryPoints.
#[derive(Clone, Copy)]
pub struct Spans {
    /// No instruction before this one says something of ids or members,
    pub from: u32,
    /// and neither does this one or one behind it.
    pub to: u32,
    /// Neither this instruction nor one behind it is an OpEntryPoint.
    pub entries: u32,
}

/// The first of two numbers, where a span that ends there is empty; and else the second.
#[inline(always)]
fn first_unless(end: u32, fresh: u32, kept: u32) -> u32
    ensures empty { end ≡ 0 → result ≡ fresh }
    ensures other { 0 < end → result ≡ kept }
{
    if end == 0 { fresh } else { kept }
}

impl Spans {
    /// Takes note that the instruction of a number says something of ids or members.
    #[inline(always)]
    pub fn widen(&mut self, number: u32)
        requires { number < 4294967295 }
        ensures { (i : PlainInst) → ¬ (Enters i) → Widens number self.old self.new i }
    {
        self.from = first_unless(self.to, number, self.from);
        self.to = number + 1;
    }

    /// Takes note that the instruction of a number is an OpEntryPoint.
    #[inline(always)]
    pub fn enter(&mut self, number: u32)
        requires { number < 4294967295 }
        ensures { (i : PlainInst) → ¬ (Says i) → Widens number self.old self.new i }
    {
        self.entries = number + 1;
    }
}
