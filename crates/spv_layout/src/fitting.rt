//! Whether an instruction fits its row.

ghost use Rattle.std.specs.Prelude.{◌≡◌, ◌<◌, ◌+◌, ◌*◌, ◌&&◌, [], ◌∷◌, true, length, map, Some, IfSome, IfNone};
ghost use Rattle.spv_table.specs.Table.{Table};
ghost use Rattle.spv_layout.specs.Place.{section_of, word_count};
ghost use Rattle.spv_module.specs.Module.{plain_inst, plain_operand};
ghost use Rattle.spv_layout.specs.Row.{has_masks};
ghost use Rattle.spv_layout.specs.inner.Row.{plain_ending, plain_row};
ghost use Rattle.spv_layout.specs.Rows.{class_of};
ghost use Rattle.spv_layout.specs.Shape.{is_of};
ghost use Rattle.spv_layout.specs.Profile.{FitsProfile};
ghost use Rattle.spv_layout.specs.inner.Single.{IsFront};
ghost use Rattle.spv_layout.specs.declared.form.Form.TheVariants.{Kind};
ghost use Rattle.spv_layout.specs.inner.Test.{sort_of, sort_for, sorts_of, HasSorts, is_of_at, are_of, are_others};
ghost use Rattle.spv_layout.specs.inner.Test.{are_rounds, is_kind_and_others, is_first_and_rounds, fits_ending};
ghost use Rattle.spv_layout.specs.inner.Test.{fits_row};

use crate::form::{Ending, Form, Named, Role, Row};
use crate::kinds::Kinds;
use crate::profile::includes;
use crate::rows::sorted_row;
use spv_module::{Inst, Operand, Profile};

/// Whether a kind's operands are masks.
#[inline(always)]
fn is_mask(kind: Named) -> bool
    ensures { result ≡ has_masks kind }
{
    match kind {
        Named::FunctionControl => true,
        Named::MemoryAccess => true,
        Named::LoopControl => true,
        Named::SelectionControl => true,
        Named::ImageOperands => true,
        _ => false,
    }
}

/// The sort of an operand, by number.
#[inline(always)]
fn sort(operand: Operand<'_>) -> u8
    ensures sort { result ≡ sort_of (plain_operand operand.entry) }
    ensures few { result < 10 }
{
    match operand {
        Operand::OfType(_) => 0,
        Operand::Result(_) => 1,
        Operand::Id(_) => 2,
        Operand::Word(_) => 3,
        Operand::Number { .. } => 4,
        Operand::Text(_) => 5,
        Operand::Value { .. } => 6,
        Operand::Mask { .. } => 7,
        Operand::Argument(_) => 8,
        Operand::Mention(_) => 9,
    }
}

/// The sort of which each operand is of a form, or 15 where there is none.
#[inline(always)]
fn sort_asked(form: Form) -> u8
    ensures { result ≡ sort_for form }
{
    match form {
        Form::OfType => 0,
        Form::Result => 1,
        Form::Word => 3,
        Form::Number => 4,
        Form::Text => 5,
        Form::Id(_) => 2,
        Form::Unseen => 2,
        Form::Kind(_) => 15,
        Form::Other => 15,
    }
}

/// Whether an operand is a value or mask of a kind.
#[inline(always)]
fn is_of_kind(kinds: &Kinds<'_>, kind: Named, operand: Operand<'_>) -> bool
    ensures { result ≡ is_of kinds.now (Kind kind) (plain_operand operand.entry) }
{
    match operand {
        Operand::Value { kind: number, .. } => !is_mask(kind) && kinds.is_kind(kind, number),
        Operand::Mask { kind: number, .. } => is_mask(kind) && kinds.is_kind(kind, number),
        _ => false,
    }
}

/// Whether an operand is of a form.
#[inline(always)]
fn is_of_form(kinds: &Kinds<'_>, form: Form, operand: Operand<'_>) -> bool
    ensures { result ≡ is_of kinds.now form (plain_operand operand.entry) }
{
    match form {
        Form::OfType => matches!(operand, Operand::OfType(_)),
        Form::Result => matches!(operand, Operand::Result(_)),
        Form::Word => matches!(operand, Operand::Word(_)),
        Form::Number => matches!(operand, Operand::Number { .. }),
        Form::Text => matches!(operand, Operand::Text(_)),
        Form::Id(_) => matches!(operand, Operand::Id(_)),
        Form::Unseen => matches!(
            operand,
            Operand::Id(_) | Operand::Argument(_) | Operand::Mention(_)
        ),
        Form::Kind(kind) => is_of_kind(kinds, kind, operand),
        Form::Other => !matches!(
            operand,
            Operand::OfType(_) | Operand::Result(_) | Operand::Argument(_) | Operand::Mention(_)
        ),
    }
}

/// Whether an operand is of a form, where its sort does not tell.
#[cold]
#[inline(never)]
fn is_of_rare_form(kinds: &Kinds<'_>, form: Form, operand: Operand<'_>) -> bool
    ensures { result ≡ is_of kinds.now form (plain_operand operand.entry) }
{
    is_of_form(kinds, form, operand)
}

/// Whether an operand is of a form: most forms ask for a sort alone.
#[inline(always)]
fn has_form(kinds: &Kinds<'_>, form: Form, operand: Operand<'_>) -> bool
    ensures { result ≡ is_of kinds.now form (plain_operand operand.entry) }
{
    if sort(operand) == sort_asked(form) {
        true
    } else {
        is_of_rare_form(kinds, form, operand)
    }
}

/// The sort of an operand in front of those of others.
#[inline(always)]
fn with_sort(operand: Operand<'_>, others: u64) -> u64
    requires { others < 268435456 }
    ensures sorts { result ≡ sort_of (plain_operand operand.entry) + 16 * others }
    ensures few { result < 10 + 16 * others }
{
    u64::from(sort(operand)) + 16 * others
}

/// The sorts of two operands in front of those of others.
#[inline(always)]
fn with_two(one: Operand<'_>, two: Operand<'_>, others: u64) -> u64
    requires { others < 1048576 }
    ensures sorts { result ≡ sort_of (plain_operand one.entry)
        + 16 * (sort_of (plain_operand two.entry) + 16 * others) }
    ensures few { result < 256 + 256 * others }
{
    with_sort(one, with_sort(two, others))
}

/// The sorts of four operands.
#[inline(always)]
fn four_sorts(w: Operand<'_>, x: Operand<'_>, y: Operand<'_>, z: Operand<'_>) -> u64
    ensures sorts { result ≡ sort_of (plain_operand w.entry) + 16 * (sort_of (plain_operand x.entry)
        + 16 * (sort_of (plain_operand y.entry) + 16 * (sort_of (plain_operand z.entry) + 16 * 9))) }
    ensures few { result < 1048576 }
{
    with_two(w, x, with_two(y, z, 9))
}

/// The sorts of five or six operands, as `sorts` tells them.
#[inline(always)]
fn most_sorts(operands: &[Operand<'_>]) -> u64
    ensures { 0 < result → result ≡ sorts_of (map plain_operand operands.now) }
{
    match operands {
        [v, w, x, y, z] => with_sort(*v, four_sorts(*w, *x, *y, *z)),
        [u, v, w, x, y, z] => with_two(*u, *v, four_sorts(*w, *x, *y, *z)),
        _ => 0,
    }
}

/// The sorts of three to six operands, as `sorts` tells them.
#[inline(always)]
fn many_sorts(operands: &[Operand<'_>]) -> u64
    ensures { 0 < result → result ≡ sorts_of (map plain_operand operands.now) }
{
    match operands {
        [_, _, _, _, _, ..] => most_sorts(operands),
        [w, x, y, z] => four_sorts(*w, *x, *y, *z),
        [w, x, y] => with_two(*w, *x, with_sort(*y, 9)),
        _ => 0,
    }
}

/// The sorts of six operands at most, as `Row` keeps those that it asks for, or 0 where there are more. How many there
/// are is found by halves, since it is asked of each instruction.
#[inline(always)]
fn sorts(operands: &[Operand<'_>]) -> u64
    ensures { 0 < result → result ≡ sorts_of (map plain_operand operands.now) }
{
    match operands {
        [_, _, _, ..] => many_sorts(operands),
        [w] => with_sort(*w, 9),
        [w, x] => with_two(*w, *x, 9),
        [] => 9,
    }
}

/// Whether it is told at once that an operand is of a form that asks for a kind.
#[inline(always)]
fn is_kind_told(kinds: &Kinds<'_>, form: Form, operand: Operand<'_>) -> bool
    ensures { result ≡ true → is_of kinds.now form (plain_operand operand.entry) ≡ true }
{
    match form {
        Form::Kind(kind) => is_of_kind(kinds, kind, operand),
        _ => false,
    }
}

/// Whether the operand at a place is of the kind that the form there asks for.
#[inline(always)]
fn is_kind_there(kinds: &Kinds<'_>, forms: &[Form], operands: &[Operand<'_>], place: u8) -> bool
    ensures { result ≡ true → is_of_at kinds.now (Some place) forms.now (map plain_operand operands.now) ≡ true }
{
    let at = usize::from(place);
    if forms.len() <= at || operands.len() <= at {
        return false;
    }
    is_kind_told(kinds, forms[at], operands[at])
}

/// Whether it is told by their sorts together, and by the kind of one of them, that operands are of the fixed forms of
/// a row that asks for one kind.
#[inline(always)]
fn are_kinded(kinds: &Kinds<'_>, row: &Row, operands: &[Operand<'_>]) -> bool
    requires { HasSorts row.now.sorts row.now.kind row.now.fixed.now }
    ensures { result ≡ true → are_of kinds.now row.now.fixed.now (map plain_operand operands.now) ≡ true }
{
    let Some(kind) = row.kind else {
        return false;
    };
    if sorts(operands) == kind.sorts {
        is_kind_there(kinds, row.fixed, operands, kind.place)
    } else {
        false
    }
}

/// Whether it is told by their sorts together that operands are of the fixed forms of a row that has sorts.
#[inline(always)]
fn are_sorted(row: &Row, operands: &[Operand<'_>]) -> bool
    requires sorts { HasSorts row.now.sorts row.now.kind row.now.fixed.now }
    requires some { 0 < row.now.sorts }
    ensures { (G : Table) → result ≡ true → are_of G row.now.fixed.now (map plain_operand operands.now) ≡ true }
{
    sorts(operands) == row.sorts
}

/// Whether it is told at once that operands are of a row's fixed forms, one by one: by their sorts together, and where
/// the row asks for a kind by that too.
#[inline(always)]
fn are_fixed_told(kinds: &Kinds<'_>, row: &Row, operands: &[Operand<'_>]) -> bool
    requires { HasSorts row.now.sorts row.now.kind row.now.fixed.now }
    ensures { result ≡ true → are_of kinds.now row.now.fixed.now (map plain_operand operands.now) ≡ true }
{
    if row.sorts == 0 {
        are_kinded(kinds, row, operands)
    } else {
        are_sorted(row, operands)
    }
}

/// Whether operands are of these forms, one by one.
#[cold]
#[inline(never)]
fn have_forms(kinds: &Kinds<'_>, forms: &[Form], operands: &[Operand<'_>]) -> bool
    ensures { result ≡ are_of kinds.now forms.now (map plain_operand operands.now) }
{
    if forms.len() != operands.len() {
        return false;
    }
    for i in 0..forms.len() {
        if !has_form(kinds, forms[i], operands[i]) {
            return false;
        }
    }
    true
}

/// Whether operands are of the fixed forms, one by one, of a row that asks for kinds.
#[inline(never)]
fn have_kinds(kinds: &Kinds<'_>, row: &Row, operands: &[Operand<'_>]) -> bool
    requires { HasSorts row.now.sorts row.now.kind row.now.fixed.now }
    ensures { result ≡ are_of kinds.now row.now.fixed.now (map plain_operand operands.now) }
{
    are_kinded(kinds, row, operands) || have_forms(kinds, row.fixed, operands)
}

/// Whether operands are of the fixed forms of a row that has no sorts: there are none, or some ask for kinds.
#[inline(always)]
fn have_unsorted(kinds: &Kinds<'_>, row: &Row, operands: &[Operand<'_>]) -> bool
    requires { HasSorts row.now.sorts row.now.kind row.now.fixed.now }
    ensures { result ≡ are_of kinds.now row.now.fixed.now (map plain_operand operands.now) }
{
    match (row.fixed, operands) {
        ([], []) => true,
        _ => have_kinds(kinds, row, operands),
    }
}

/// Whether operands are of a row's fixed forms, one by one.
#[inline(always)]
fn have_fixed(kinds: &Kinds<'_>, row: &Row, operands: &[Operand<'_>]) -> bool
    requires { HasSorts row.now.sorts row.now.kind row.now.fixed.now }
    ensures { result ≡ are_of kinds.now row.now.fixed.now (map plain_operand operands.now) }
{
    if row.sorts == 0 {
        return have_unsorted(kinds, row, operands);
    }
    are_sorted(row, operands) || have_forms(kinds, row.fixed, operands)
}

/// Whether operands are neither types nor results.
fn are_free(kinds: &Kinds<'_>, operands: &[Operand<'_>]) -> bool
    ensures { result ≡ are_others kinds.now (map plain_operand operands.now) }
{
    for operand in operands {
        if !is_of_form(kinds, Form::Other, *operand) {
            return false;
        }
    }
    true
}

/// Whether operands are all of a form.
fn are_all(kinds: &Kinds<'_>, form: Form, operands: &[Operand<'_>]) -> bool
    ensures { result ≡ are_rounds kinds.now (form ∷ []) [] (map plain_operand operands.now) }
{
    for operand in operands {
        if !has_form(kinds, form, *operand) {
            return false;
        }
    }
    true
}

/// Whether operands are of two forms in turn, any number of times.
fn are_pairs(kinds: &Kinds<'_>, one: Form, two: Form, operands: &[Operand<'_>]) -> bool
    ensures { result ≡ are_rounds kinds.now (one ∷ two ∷ []) [] (map plain_operand operands.now) }
{
    let mut at = 0;
    while at + 1 < operands.len() {
        if !has_form(kinds, one, operands[at]) {
            return false;
        }
        if !has_form(kinds, two, operands[at + 1]) {
            return false;
        }
        at += 2;
    }
    at == operands.len()
}

/// Whether operands are of these forms in turn, any number of times.
fn have_rounds(kinds: &Kinds<'_>, forms: &[Form], operands: &[Operand<'_>]) -> bool
    ensures { result ≡ are_rounds kinds.now forms.now [] (map plain_operand operands.now) }
{
    let mut at = forms.len();
    for operand in operands {
        if at == forms.len() {
            at = 0;
        }
        if at == forms.len() || !has_form(kinds, forms[at], *operand) {
            return false;
        }
        at += 1;
    }
    at == forms.len()
}

/// Whether operands are one of a form and any number of others that are neither types nor results, or none.
#[inline(always)]
fn have_first(kinds: &Kinds<'_>, form: Form, operands: &[Operand<'_>]) -> bool
    ensures { result ≡ is_kind_and_others kinds.now form (map plain_operand operands.now) }
{
    match operands {
        [] => true,
        [first, rest @ ..] => has_form(kinds, form, *first) && are_free(kinds, rest),
    }
}

/// Whether operands are one of a form and any number of another, or none.
fn have_first_and_all(kinds: &Kinds<'_>, form: Form, other: Form, operands: &[Operand<'_>]) -> bool
    ensures { result ≡ is_first_and_rounds kinds.now form other (map plain_operand operands.now) }
{
    match operands {
        [] => true,
        [first, rest @ ..] => has_form(kinds, form, *first) && are_all(kinds, other, rest),
    }
}

/// Whether operands fit the ending of a row.
#[inline(never)]
fn have_ending(kinds: &Kinds<'_>, row: &Row, operands: &[Operand<'_>]) -> bool
    ensures { result ≡ fits_ending kinds.now (plain_ending row.now.ending) (map plain_operand operands.now) }
{
    match row.ending {
        Ending::Closed => operands.is_empty(),
        Ending::Maybe(form) => operands.is_empty() || have_forms(kinds, &[form], operands),
        Ending::FileAndText => match operands {
            [] => true,
            [only] => {
                has_form(kinds, Form::Id(Role::Text), *only) || has_form(kinds, Form::Text, *only)
            }
            _ => have_forms(kinds, &[Form::Id(Role::Text), Form::Text], operands),
        },
        Ending::Repeated(forms) => match forms {
            [form] => are_all(kinds, *form, operands),
            [one, two] => are_pairs(kinds, *one, *two, operands),
            _ => have_rounds(kinds, forms, operands),
        },
        Ending::Others => are_free(kinds, operands),
        Ending::MaybeOthers(form) => have_first(kinds, form, operands),
        Ending::MaybeRepeated(form, other) => have_first_and_all(kinds, form, other, operands),
    }
}

/// Whether it is told at once that operands are one of a form and any number of others that are neither types nor
/// results, or none.
#[inline(always)]
fn is_first_told(kinds: &Kinds<'_>, form: Form, operands: &[Operand<'_>]) -> bool
    ensures { result ≡ true → is_kind_and_others kinds.now form (map plain_operand operands.now) ≡ true }
{
    match operands {
        [] => true,
        [first, rest @ ..] => is_kind_told(kinds, form, *first) && are_free(kinds, rest),
    }
}

/// Whether operands fit the ending of a row: those that most rows have are looked at first.
#[inline(always)]
fn have_rest(kinds: &Kinds<'_>, row: &Row, operands: &[Operand<'_>]) -> bool
    ensures { result ≡ fits_ending kinds.now (plain_ending row.now.ending) (map plain_operand operands.now) }
{
    match row.ending {
        Ending::MaybeOthers(form) => {
            is_first_told(kinds, form, operands) || have_ending(kinds, row, operands)
        }
        Ending::Others => are_free(kinds, operands),
        Ending::Repeated([form]) => are_all(kinds, *form, operands),
        _ => have_ending(kinds, row, operands),
    }
}

/// Whether operands are of a row's fixed forms, one by one, and others fit its ending.
#[cold]
#[inline(never)]
fn have_both(kinds: &Kinds<'_>, row: &Row, front: &[Operand<'_>], rest: &[Operand<'_>]) -> bool
    ensures { result ≡ (are_of kinds.now row.now.fixed.now (map plain_operand front.now)
        && fits_ending kinds.now (plain_ending row.now.ending) (map plain_operand rest.now)) }
{
    have_forms(kinds, row.fixed, front) && have_ending(kinds, row, rest)
}

/// Whether operands fit a row with an ending.
#[inline(never)]
fn have_parts(kinds: &Kinds<'_>, row: &Row, operands: &[Operand<'_>]) -> bool
    requires { HasSorts row.now.sorts row.now.kind row.now.fixed.now }
    ensures { result ≡ fits_row kinds.now (Some (plain_row row.now)) (map plain_operand operands.now) }
{
    let fixed = row.fixed.len();
    if operands.len() < fixed {
        return false;
    }
    let (front, rest) = operands.split_at(fixed);
    if are_fixed_told(kinds, row, front) {
        have_rest(kinds, row, rest)
    } else {
        have_both(kinds, row, front, rest)
    }
}

/// Whether operands fit a row. Where they are as many as its fixed ones, its ending allows that none come after them.
#[inline(always)]
fn have_row(kinds: &Kinds<'_>, row: &Row, operands: &[Operand<'_>]) -> bool
    requires { HasSorts row.now.sorts row.now.kind row.now.fixed.now }
    ensures { result ≡ fits_row kinds.now (Some (plain_row row.now)) (map plain_operand operands.now) }
{
    if operands.len() == row.fixed.len() {
        have_fixed(kinds, row, operands)
    } else {
        have_parts(kinds, row, operands)
    }
}

/// The row of an instruction that fits its opcode's row, which the profile has, under a grammar table.
#[inline(always)]
pub fn fitting(profile: Profile, kinds: &Kinds<'_>, inst: &Inst<'_>) -> Option<&'static Row>
    ensures fits { IfSome result (λ r. FitsProfile profile kinds.now (plain_inst inst.now)) }
    ensures class { IfSome result (λ r. r.now.class ≡ class_of inst.now.opcode) }
    ensures section { IfSome result (λ r. r.now.section ≡ section_of r.now.class) }
    ensures single { IfSome result (λ r. r.now.single ≡ true
        → word_count (plain_inst inst.now) ≡ 1 + length (plain_inst inst.now).operands) }
    ensures front { IfSome result (λ r. IsFront (plain_inst inst.now).operands r.now.front) }
    ensures misfit { IfNone result (¬ (FitsProfile profile kinds.now (plain_inst inst.now))) }
{
    let Some(row) = sorted_row(inst.opcode) else {
        return None;
    };
    if !includes(profile, row.profile) {
        return None;
    }
    if have_row(kinds, row, inst.operands.as_slice()) {
        Some(row)
    } else {
        None
    }
}
