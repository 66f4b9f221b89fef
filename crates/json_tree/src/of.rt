//! The tree of a value of `serde_json`, whose texts it borrows.

ghost use Rattle.std.specs.Prelude.{◌≡◌, IfOk, OnOk};
ghost use Rattle.serde_json.specs.Data.{array, object};
ghost use Rattle.serde_json.specs.View.{view as value_view, items_view as values_view, members_view as entries_view};
ghost use Rattle.json_tree.specs.View.{view};
ghost use Rattle.json_tree.specs.inner.Run.{AddsOne};

use crate::nodes::Nodes;
use crate::tree::Tree;
use serde_json::{Map, Value};
use std::alloc::{AllocError, Global};

impl<'a> Tree<'a> {
    /// The tree of a value of `serde_json`, whose texts it borrows. The error is that memory ran out,
    /// or that there are more than 4,294,967,295 nodes.
    pub fn of(alloc: Global, value: &'a Value) -> Result<Tree<'a>, AllocError>
        ensures { IfOk result (λ t. view t ≡ value_view value.now) }
    {
        let mut nodes = Nodes::new(alloc, "");
        of_value(&mut nodes, value)?;
        Ok(Tree::of_nodes(nodes))
    }
}

/// Adds the nodes of a value.
#[cycle(of)]
fn of_value<'a>(nodes: &mut Nodes<'a>, value: &'a Value) -> Result<(), AllocError>
    ensures { OnOk result (AddsOne nodes.old (value_view value.now) nodes.new) }
{
    match value {
        Value::Null => nodes.push_null(),
        Value::Bool(b) => nodes.push_bool(*b),
        Value::Number(number) => nodes.push_number(*number),
        Value::String(text) => nodes.push_text(text.as_str(), 0),
        Value::Array(items) => of_items(nodes, items),
        Value::Object(members) => of_members(nodes, members),
    }
}

/// Adds the nodes of an array.
#[cycle(of)]
fn of_items<'a>(nodes: &mut Nodes<'a>, items: &'a Vec<Value>) -> Result<(), AllocError>
    ensures { OnOk result (AddsOne nodes.old (array (values_view items.now.items)) nodes.new) }
{
    let place = nodes.len();
    nodes.push_null()?;
    for item in items {
        of_value(nodes, item)?;
    }
    nodes.close_array(place)
}

/// Adds the nodes of an object, in the order of its keys.
#[cycle(of)]
fn of_members<'a>(nodes: &mut Nodes<'a>, members: &'a Map<String, Value>) -> Result<(), AllocError>
    ensures { OnOk result (AddsOne nodes.old (object (entries_view members.now.entries)) nodes.new) }
{
    let place = nodes.len();
    nodes.push_null()?;
    for (key, member) in members.iter() {
        nodes.push_text(key.as_str(), 0)?;
        of_value(nodes, member)?;
    }
    nodes.close_object(place)
}
