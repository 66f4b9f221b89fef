//! A node of a tree, and looking into it.

ghost use Rattle.std.specs.Prelude.{◌≡◌, ◌<◌, length, drop, is_some, true, option_map};
ghost use Rattle.serde_json.specs.Find.{get, as_str, as_number, as_array, as_object};
ghost use Rattle.serde_json.specs.View.{number_view};
ghost use Rattle.json_tree.specs.View.{values, view, items_view, members_view};

use crate::content::Content;
use crate::nodes::Nodes;
use crate::walk::{Items, Members};
use serde_json::Number;
use std::marker::Model;

/// A node of a tree: a value with all that lies in it. Contracts see what it and the nodes after it
/// are.
#[derive(Drop)]
pub struct Node<'t, 'a> {
    nodes: &'t Nodes<'a>,
    place: usize,
}

impl<'t, 'a> Model for Node<'t, 'a> {
    ghost use Rattle.std.specs.Prelude.{◌≡◌, ◌<◌, List, length, drop, is_some, true};
    ghost use Rattle.json_tree.specs.View.{Content, values};

    ghost Value = { List Content };

    ghost view = { λ n. drop n.place n.nodes.now };

    ghost invariant = { λ n. (n.place < length n.nodes.now)
        × (is_some (values (drop n.place n.nodes.now)) ≡ true) };
}

impl<'t, 'a> Node<'t, 'a> {
    /// The node at a place.
    pub(crate) fn at(nodes: &'t Nodes<'a>, place: usize) -> Node<'t, 'a>
        requires inside { place < length nodes.now }
        requires whole { is_some (values (drop place nodes.now)) ≡ true }
        ensures { result ≡ drop place nodes.now }
    {
        Node { nodes, place }
    }

    /// The same node once more.
    pub fn same(&self) -> Node<'t, 'a>
        ensures { result ≡ self.now }
    {
        Node {
            nodes: self.nodes,
            place: self.place,
        }
    }

    /// The text, where this is one.
    pub fn as_str(&self) -> Option<&'a str>
        ensures { option_map (λ s. s.now) result ≡ as_str (view self.now) }
    {
        match self.nodes.content(self.place) {
            Content::String(text) => Some(text),
            _ => None,
        }
    }

    /// The number, where this is one.
    pub fn as_number(&self) -> Option<Number>
        ensures { option_map number_view result ≡ as_number (view self.now) }
    {
        match self.nodes.content(self.place) {
            Content::Number(number) => Some(number),
            _ => None,
        }
    }

    /// The items, where this is an array.
    pub fn items(&self) -> Option<Items<'t, 'a>>
        ensures { option_map items_view result ≡ as_array (view self.now) }
    {
        match self.nodes.content(self.place) {
            Content::Array(count) => Some(Items::from(self.nodes, self.place + 1, count)),
            _ => None,
        }
    }

    /// The members, where this is an object, also those of equal keys.
    pub fn members(&self) -> Option<Members<'t, 'a>>
        ensures { option_map members_view result ≡ as_object (view self.now) }
    {
        match self.nodes.content(self.place) {
            Content::Object(count) => Some(Members::from(self.nodes, self.place + 1, count)),
            _ => None,
        }
    }

    /// The last member of that name, where this is an object.
    pub fn get(&self, name: &str) -> Option<Node<'t, 'a>>
        ensures { option_map view result ≡ get name.now (view self.now) }
    {
        last_named(self.members()?, name)
    }
}

/// The last member of that name.
fn last_named<'t, 'a>(members: Members<'t, 'a>, name: &str) -> Option<Node<'t, 'a>>
    ensures { option_map view result
        ≡ Rattle.serde_json.specs.Find.get_member name.now (members_view members.entry) }
{
    let mut found = None;
    for (key, value) in members {
        if key == name {
            found = Some(value);
        }
    }
    found
}
