//! Steps into the tree of a grammar file, and how they and what they lead to are told.

ghost use Rattle.std.specs.Prelude.{◌≡◌, [], option_map, is_some, string_bytes, IfOk, OnOk};
ghost use Rattle.serde_json.specs.Find.{get_item, as_array, as_object};
ghost use Rattle.serde_json.specs.View.{number_view};
ghost use Rattle.json_tree.specs.View.{view, items_view};
ghost use Rattle.spv_grammar.specs.Place.{step_into, leads_to, with_step, path_of};
ghost use Rattle.spv_grammar.specs.Place.{sort_shown, number_shown, value_shown, found_shown};

use json_tree::{Items, Node};
use serde_json::Number;
use std::alloc::{AllocError, Global};

/// A step from a value of a tree.
#[derive(Clone, Copy)]
pub(crate) enum Step {
    /// None: the value itself.
    Stay,
    /// To the value at a key.
    Key(&'static str),
    /// To an item of an array, from 0.
    Item(usize),
}

/// The steps to a value. No value that a rule asks for is further away than seven.
#[derive(Clone, Copy)]
pub(crate) struct Steps {
    pub steps: [Step; 7],
}

impl Steps {
    /// No step: to the whole tree.
    pub(crate) fn none() -> Steps {
        Steps {
            steps: [Step::Stay; 7],
        }
    }

    /// One step more.
    pub(crate) fn then(self, step: Step) -> Steps {
        let mut steps = self.steps;
        for place in 0..7 {
            if let Step::Stay = steps[place] {
                steps[place] = step;
                return Steps { steps };
            }
        }
        self
    }

    /// A step to a key more.
    pub(crate) fn key(self, key: &'static str) -> Steps {
        self.then(Step::Key(key))
    }

    /// A step to an item more.
    pub(crate) fn item(self, place: usize) -> Steps {
        self.then(Step::Item(place))
    }
}

/// The item of a number among those that are left.
fn item<'t, 'a>(items: Items<'t, 'a>, number: usize) -> Option<Node<'t, 'a>>
    ensures { option_map view result ≡ get_item number (items_view items.entry) }
{
    let mut left = number;
    for element in items {
        if left == 0 {
            return Some(element);
        }
        left -= 1;
    }
    None
}

/// Where a step leads.
fn into<'t, 'a>(value: &Node<'t, 'a>, step: Step) -> Option<Node<'t, 'a>>
    ensures { option_map view result ≡ step_into step (view value.now) }
{
    match step {
        Step::Stay => Some(value.same()),
        Step::Key(key) => value.get(key),
        Step::Item(number) => item(value.items()?, number),
    }
}

/// Where steps lead.
pub(crate) fn value_at<'t, 'a>(root: &Node<'t, 'a>, steps: &[Step]) -> Option<Node<'t, 'a>>
    ensures { option_map view result ≡ leads_to steps.now (view root.now) }
{
    let mut value = root.same();
    for step in steps {
        value = into(&value, *step)?;
    }
    Some(value)
}

/// Adds a key to a path.
fn push_key(path: &mut String, key: &str) -> Result<(), AllocError>
    ensures { OnOk result (string_bytes path.new
        ≡ Rattle.spv_grammar.specs.Place.with_key (string_bytes path.old) key.now) }
{
    if path.is_empty() {
        return path.push_str(key);
    }
    path.push_str(".")?;
    path.push_str(key)
}

/// Adds a place to a path.
fn push_place(alloc: Global, path: &mut String, place: usize) -> Result<(), AllocError>
    ensures { OnOk result (string_bytes path.new
        ≡ with_step (string_bytes path.old) (Step.Item place)) }
{
    let shown = format!(in alloc; "[{place}]")?;
    path.push_str(shown.as_str())
}

/// Adds a step to a path.
fn push_step(alloc: Global, path: &mut String, step: Step) -> Result<(), AllocError>
    ensures { OnOk result (string_bytes path.new ≡ with_step (string_bytes path.old) step) }
{
    match step {
        Step::Stay => Ok(()),
        Step::Key(key) => push_key(path, key),
        Step::Item(place) => push_place(alloc, path, place),
    }
}

/// Steps as a path.
pub(crate) fn path_of(alloc: Global, steps: &[Step]) -> Result<String, AllocError>
    ensures { IfOk result (λ s. string_bytes s ≡ path_of [] steps.now) }
{
    let mut path = String::new(alloc);
    for step in steps {
        push_step(alloc, &mut path, *step)?;
    }
    Ok(path)
}

/// Which sort of value this is, where it is neither a text nor a number.
fn sort_shown(value: &Node<'_, '_>) -> &'static str
    ensures { result.now ≡ sort_shown (is_some (as_array (view value.now))) (is_some (as_object (view value.now))) }
{
    if value.items().is_some() {
        "an array"
    } else if value.members().is_some() {
        "an object"
    } else {
        "null, true or false"
    }
}

/// A number in a few words.
fn number_shown(alloc: Global, number: Number) -> Result<String, AllocError>
    ensures { IfOk result (λ s. string_bytes s ≡ number_shown (number_view number)) }
{
    match number.as_u64() {
        Some(whole) => format!(in alloc; "{whole}"),
        None => String::from_str(alloc, "a number that is no whole one from 0"),
    }
}

/// A value in a few words.
fn value_shown(alloc: Global, value: &Node<'_, '_>) -> Result<String, AllocError>
    ensures { IfOk result (λ s. string_bytes s ≡ value_shown (view value.now)) }
{
    if let Some(text) = value.as_str() {
        return format!(in alloc; "\"{text}\"");
    }
    match value.as_number() {
        Some(number) => number_shown(alloc, number),
        None => String::from_str(alloc, sort_shown(value)),
    }
}

/// What steps lead to, in a few words.
pub(crate) fn found_shown(alloc: Global, found: &Option<Node<'_, '_>>) -> Result<String, AllocError>
    ensures { IfOk result (λ s. string_bytes s ≡ found_shown (option_map view found.now)) }
{
    match found {
        Some(value) => value_shown(alloc, value),
        None => String::from_str(alloc, "nothing"),
    }
}
