//! Numbers the kinds of a grammar file by their names.

ghost use Rattle.std.specs.Prelude.{◌≡◌, ◌<◌, ◌^◌, length, slice_get, position, codes, Some, IfOk, IfErr};
ghost use Rattle.std.specs.Prelude.{map, option_map};
ghost use Rattle.spv_table.specs.inner.Named.{Finds};
ghost use Rattle.spv_grammar.specs.Kinds.{first_kinds, number_in, kind_named};
ghost use Rattle.spv_grammar.specs.declared.error.GrammarError.TheVariants.{J8};

use crate::error::GrammarError;
use crate::file::FileKind;
use spv_table::{Named, Names};
use std::alloc::{AllocError, Global};
use std::marker::Model;

impl<'a> Named for FileKind<'a> {
    ghost name = { λ k. k.name };

    fn name(&self) -> &str {
        self.name.as_str()
    }
}

/// A kind that is the first with its name.
#[derive(Drop)]
struct First<'a> {
    kind: &'a FileKind<'a>,
}

impl<'a> Named for First<'a> {
    ghost name = { λ f. f.kind.now.name };

    fn name(&self) -> &str {
        self.kind.name.as_str()
    }
}

/// The numbers of the five names that most operands bear: IdRef, IdResult, IdResultType, LiteralInteger and IdScope.
#[derive(Clone, Copy)]
struct Usual {
    reference: Option<u32>,
    result: Option<u32>,
    result_type: Option<u32>,
    integer: Option<u32>,
    scope: Option<u32>,
}

/// The kinds of a grammar file, each name once. Contracts see the list of the kinds.
#[derive(Drop)]
pub(crate) struct Numbers<'a> {
    kinds: Vec<First<'a>>,
    /// Where the names of the kinds are.
    names: Names,
    usual: Usual,
}

impl<'a> Model for Numbers<'a> {
    ghost use Rattle.std.specs.Prelude.{List, ℕ, ◌≡◌, ◌<◌, ◌^◌, map, length, codes};
    ghost use Rattle.spv_grammar.specs.declared.file.FileKind.{FileKind};
    ghost use Rattle.spv_table.specs.inner.Named.{Finds};
    ghost use Rattle.spv_grammar.specs.Kinds.{number_in};

    ghost Value = { List FileKind };

    ghost view = { λ n. map (λ f. f.kind.now) n.kinds.items };

    ghost invariant = { λ n. Finds (λ f. f.kind.now.name) n.kinds.items n.names
        × (n.usual.reference ≡ number_in (map (λ f. f.kind.now) n.kinds.items) (codes "IdRef"))
        × (n.usual.result ≡ number_in (map (λ f. f.kind.now) n.kinds.items) (codes "IdResult"))
        × (n.usual.result_type ≡ number_in (map (λ f. f.kind.now) n.kinds.items) (codes "IdResultType"))
        × (n.usual.integer ≡ number_in (map (λ f. f.kind.now) n.kinds.items) (codes "LiteralInteger"))
        × (n.usual.scope ≡ number_in (map (λ f. f.kind.now) n.kinds.items) (codes "IdScope")) };
}

/// The kinds without those whose name an earlier one bears. The error is that memory ran out, or places: there may be
/// 4,294,967,295 kinds.
fn firsts<'a>(alloc: Global, kinds: &'a [FileKind<'a>]) -> Result<Vec<First<'a>>, AllocError>
    ensures firsts { IfOk result (λ v. map (λ f. f.kind.now) v.items ≡ first_kinds kinds.now) }
    ensures few { IfOk result (λ v. length v.items < 2 ^ 32) }
{
    if kinds.len() > 0xffff_ffff {
        return Err(AllocError);
    }
    let names = Names::of(alloc, kinds)?;
    let mut firsts = Vec::new(alloc);
    for (place, kind) in kinds.iter().enumerate() {
        if names.place(kinds, kind.name.as_str()) == Some(place) {
            firsts.push(First { kind })?;
        }
    }
    Ok(firsts)
}

/// The number of a name among kinds.
fn place_of<'a>(names: &Names, kinds: &[First<'a>], name: &str) -> Option<u32>
    requires { Finds (λ f. f.kind.now.name) kinds.now names.now }
    ensures { result ≡ number_in (map (λ f. f.kind.now) kinds.now) name.now }
{
    Some(names.place(kinds, name)? as u32)
}

/// The numbers of the usual names among kinds.
fn usual_of(names: &Names, kinds: &[First<'_>]) -> Usual
    requires { Finds (λ f. f.kind.now.name) kinds.now names.now }
    ensures reference { result.reference ≡ number_in (map (λ f. f.kind.now) kinds.now) (codes "IdRef") }
    ensures result { result.result ≡ number_in (map (λ f. f.kind.now) kinds.now) (codes "IdResult") }
    ensures result_type { result.result_type ≡ number_in (map (λ f. f.kind.now) kinds.now) (codes "IdResultType") }
    ensures integer { result.integer ≡ number_in (map (λ f. f.kind.now) kinds.now) (codes "LiteralInteger") }
    ensures scope { result.scope ≡ number_in (map (λ f. f.kind.now) kinds.now) (codes "IdScope") }
{
    Usual {
        reference: place_of(names, kinds, "IdRef"),
        result: place_of(names, kinds, "IdResult"),
        result_type: place_of(names, kinds, "IdResultType"),
        integer: place_of(names, kinds, "LiteralInteger"),
        scope: place_of(names, kinds, "IdScope"),
    }
}

impl<'a> Numbers<'a> {
    /// Numbers the kinds. The error is that memory ran out, or numbers: there may be 4,294,967,295.
    pub(crate) fn new(alloc: Global, kinds: &'a [FileKind<'a>]) -> Result<Numbers<'a>, GrammarError>
        ensures numbered { IfOk result (λ n. n ≡ first_kinds kinds.now) }
        ensures few { IfOk result (λ n. length n < 2 ^ 32) }
        ensures memory { IfErr result (λ e. e ≡ J8) }
    {
        let kinds = firsts(alloc, kinds)?;
        let names = Names::of(alloc, kinds.as_slice())?;
        let usual = usual_of(&names, kinds.as_slice());
        Ok(Numbers {
            kinds,
            names,
            usual,
        })
    }

    /// The number of a kind's name.
    pub(crate) fn number(&self, name: &str) -> Option<u32>
        ensures { result ≡ number_in self.now name.now }
    {
        match name {
            "IdRef" => self.usual.reference,
            "IdResult" => self.usual.result,
            "IdResultType" => self.usual.result_type,
            "LiteralInteger" => self.usual.integer,
            "IdScope" => self.usual.scope,
            _ => place_of(&self.names, self.kinds.as_slice(), name),
        }
    }

    /// The kind that a name means.
    pub(crate) fn kind(&self, name: &str) -> Option<&FileKind<'a>>
        ensures { option_map (λ k. k.now) result ≡ kind_named self.now name.now }
    {
        let number = self.number(name)?;
        Some(self.kinds[number as usize].kind)
    }

    /// How many kinds there are.
    pub(crate) fn len(&self) -> usize
        ensures { result ≡ length self.now }
    {
        self.kinds.len()
    }

    /// The kind of a number.
    pub(crate) fn nth(&self, number: usize) -> &FileKind<'a>
        requires { number < length self.now }
        ensures { slice_get self.now number ≡ Some result.now }
    {
        self.kinds[number].kind
    }
}
