//! Which part of a stage a rule is of.
ghost use Rattle.std.specs.Prelude.{◌≡◌};
ghost use Rattle.spv_explain.specs.inner.Kinds as kinds;

use spv_module::Rule;

/// What the rules O are parted into, by what shows that one is broken.
#[derive(Clone, Copy)]
pub enum Part {
    /// O1 and O2: the order of blocks, and of instructions in them.
    Order,
    /// O4: the interfaces of entry points.
    Interfaces,
    /// O3, O5, O6, O12 and O13: declarations, but for decorations.
    Declarations,
    /// O7: what decorations stand on.
    Placements,
    /// O8 to O11: what decorations say together.
    Decorations,
    /// O14 to O20, and O23: operands.
    Operands,
    /// O21: the version.
    Version,
    /// O22: the universal limits.
    Limits,
}

/// Whether it is the rule on roles.
pub fn is_of_roles(rule: Rule) -> bool
    ensures { result ≡ kinds.is_of_roles rule }
{
    matches!(rule, Rule::Y1)
}

/// Whether it is one on capabilities or entry points.
pub fn is_of_capabilities(rule: Rule) -> bool
    ensures { result ≡ kinds.is_of_capabilities rule }
{
    matches!(rule, Rule::C1 | Rule::C2 | Rule::M1 | Rule::E1 | Rule::E2)
}

/// Whether it is the one on operations.
pub fn is_of_operations(rule: Rule) -> bool
    ensures { result ≡ kinds.is_of_operations rule }
{
    matches!(rule, Rule::Y5)
}

/// Whether it is one on values.
pub fn is_of_values(rule: Rule) -> bool
    ensures { result ≡ kinds.is_of_values rule }
{
    matches!(rule, Rule::A1 | Rule::A2)
}

/// Whether it is the one on calls.
pub fn is_of_calls(rule: Rule) -> bool
    ensures { result ≡ kinds.is_of_calls rule }
{
    matches!(rule, Rule::G1)
}

/// The part that a rule O is of.
pub fn part_of(rule: Rule) -> Part
    ensures { result ≡ kinds.part_of rule }
{
    match rule {
        Rule::O1 | Rule::O2 => Part::Order,
        Rule::O4 => Part::Interfaces,
        Rule::O7 => Part::Placements,
        Rule::O8 | Rule::O9 | Rule::O10 | Rule::O11 => Part::Decorations,
        Rule::O14
        | Rule::O15
        | Rule::O16
        | Rule::O17
        | Rule::O18
        | Rule::O19
        | Rule::O20
        | Rule::O23 => Part::Operands,
        Rule::O21 => Part::Version,
        Rule::O22 => Part::Limits,
        _ => Part::Declarations,
    }
}
