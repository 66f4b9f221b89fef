//! The first of the rules O3 and O5 to O13 that is broken.

ghost use Rattle.std.specs.Prelude.{◌≡◌, ◌≤◌, ◌∷◌, [], IfOk, MatchOption, codes, length, true};
ghost use Rattle.spv_table.specs.Table.{Table};
ghost use Rattle.spv_table.specs.Lookups.{number_named};
ghost use Rattle.spv_module.specs.declared.fault.Rule.TheVariants as rule;
ghost use Rattle.spv_layout.specs.First.{IsFirst, IsUnbroken};
ghost use Rattle.spv_layout.specs.Place.{AreFew};
ghost use Rattle.spv_layout.specs.Plan.{IsPlan};
ghost use Rattle.spv_layout.specs.Stage.{of_standard};
ghost use Rattle.spv_declarations.specs.Broken.{Broken};
ghost use Rattle.spv_declarations.specs.inner.Early.{AreEarly};
ghost use Rattle.spv_declarations.specs.inner.First.{IsFirstAmong};
ghost use Rattle.spv_declarations.specs.inner.Kinds.{AreKinds};
ghost use Rattle.spv_declarations.specs.inner.Spans.{AreSpans};

use crate::built_in::first_half_built_in;
use crate::capable::first_incapable;
use crate::entry::{first_repeated, first_with_id};
use crate::found::{Found, earlier};
use crate::front::Front;
use crate::initialized::first_initialized;
use crate::kinds::{Kinds, kinds_among};
use crate::linked::first_linked;
use crate::member::first_of_no_member;
use crate::misplaced::first_misplaced;
use crate::pointer::first_elsewhere;
use crate::said::Said;
use crate::second::first_second;
use spv_capabilities::Capabilities;
use spv_layout::Plan;
use spv_module::Rule;
use spv_type_forms::Definitions;
use std::alloc::{AllocError, Global};

/// The first of the rules O6 to O11 that is broken by the instructions before the functions, or what was found before
/// of O3 and O5, if that is told first.
fn first_decorated(
    alloc: Global,
    definitions: &Definitions,
    front: &Front,
    linkage: Option<u32>,
    before: Option<Found>,
) -> Result<Option<Found>, AllocError>
    requires count { front.now.count ≤ length definitions.now }
    requires early { AreEarly definitions.now front.now.count }
    requires kinds { AreKinds definitions.now front.now.count front.now.kinds }
    requires spans { AreSpans definitions.now front.now.count front.now.spans }
    ensures { (G : Table) → (front.now.kinds.initialized ≡ true → linkage ≡ number_named G (codes "LinkageType"))
        → IsFirstAmong G definitions.now (rule.O5 ∷ rule.O3 ∷ []) before
        → IfOk result (IsFirstAmong G definitions.now
        (rule.O11 ∷ rule.O10 ∷ rule.O9 ∷ rule.O8 ∷ rule.O7 ∷ rule.O6 ∷ rule.O5 ∷ rule.O3 ∷ [])) }
{
    let count = front.count;
    let kinds = &front.kinds;
    let said = Said::among(alloc, definitions, kinds, linkage, count)?;
    let of_no_member = first_of_no_member(definitions, kinds, count);
    let misplaced = first_misplaced(alloc, definitions, &front.spans, &said, count)?;
    let second = first_second(alloc, definitions, kinds, &said, count)?;
    let linked = first_linked(alloc, definitions, front, &said)?;
    let initialized = first_initialized(alloc, definitions, front, linkage, &said)?;
    let half = first_half_built_in(alloc, definitions, kinds, &said, count)?;
    let found = earlier(before, Rule::O6, of_no_member);
    let found = earlier(found, Rule::O7, misplaced);
    let found = earlier(found, Rule::O8, second);
    let found = earlier(found, Rule::O9, linked);
    let found = earlier(found, Rule::O10, initialized);
    Ok(earlier(found, Rule::O11, half))
}

/// The number of the kind LinkageType in the grammar table. It is looked up only where there is an OpVariable with an
/// initializer.
fn linkage_type(capabilities: &Capabilities<'_, '_>, kinds: &Kinds) -> Option<u32>
    ensures { kinds.now.initialized ≡ true → result ≡ number_named capabilities.now.table (codes "LinkageType") }
{
    if kinds.initialized {
        capabilities.table().kind_named("LinkageType")
    } else {
        None
    }
}

/// The first of the rules O3 and O5 to O13 that is broken in a module: the lowest instruction at which one is, and
/// there the first of them. `capabilities` and `definitions` are those of the module, and `plan` is what `lay_out`
/// answered of it.
///
/// One pass over the sections before the functions finds which kinds of instructions stand there, and each rule that
/// speaks of a kind that does has a pass of its own. Time is near-linear in the words of these sections. An
/// `AllocError` comes only where a growth of memory was refused.
pub fn first_misdeclared(
    alloc: Global,
    capabilities: &Capabilities<'_, '_>,
    definitions: &Definitions<'_, '_>,
    plan: &Plan,
) -> Result<Option<Found>, AllocError>
    requires few { AreFew definitions.now }
    requires plan { IsPlan capabilities.now.table definitions.now plan.now }
    requires capabilities { capabilities.now.insts ≡ definitions.now }
    ensures { IfOk result (λ found. MatchOption found
        (IsUnbroken (Broken capabilities.now.table capabilities.now.insts) of_standard)
        (λ f. IsFirst (Broken capabilities.now.table capabilities.now.insts) of_standard f.rule f.inst)) }
{
    let count = plan.before_functions();
    let (kinds, spans) = kinds_among(definitions, count);
    let front = Front {
        count,
        kinds,
        spans,
    };
    let linkage = linkage_type(capabilities, &kinds);
    let repeated = first_repeated(alloc, definitions, &kinds, count)?;
    let with_id = first_with_id(definitions, &kinds, count);
    let found = earlier(None, Rule::O3, repeated);
    let found = earlier(found, Rule::O5, with_id);
    let decorated = first_decorated(alloc, definitions, &front, linkage, found)?;
    let elsewhere = first_elsewhere(definitions, &kinds, count);
    let incapable = first_incapable(capabilities, &kinds, count);
    let found = earlier(decorated, Rule::O12, elsewhere);
    Ok(earlier(found, Rule::O13, incapable))
}
