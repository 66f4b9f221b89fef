//! A tree, as the list of its nodes.

ghost use Rattle.std.specs.Prelude.{◌≡◌, ◌<◌, length, is_some, true};
ghost use Rattle.json_tree.specs.View.{values};

use crate::node::Node;
use crate::nodes::Nodes;
use std::marker::Model;

/// A JSON value: the list of its nodes, in the order of the text. An object keeps also the members
/// of equal keys; the last one counts. Contracts see the list of what the nodes are.
#[derive(Drop)]
pub struct Tree<'a> {
    nodes: Nodes<'a>,
}

impl<'a> Model for Tree<'a> {
    ghost use Rattle.std.specs.Prelude.{◌≡◌, ◌<◌, List, length, is_some, true};
    ghost use Rattle.json_tree.specs.View.{Content, values};

    ghost Value = { List Content };

    ghost view = { λ t. t.nodes };

    ghost invariant = { λ t. (0 < length t.nodes) × (is_some (values t.nodes) ≡ true) };
}

impl<'a> Tree<'a> {
    /// The tree of some nodes.
    pub(crate) fn of_nodes(nodes: Nodes<'a>) -> Tree<'a>
        requires some { 0 < length nodes }
        requires whole { is_some (values nodes) ≡ true }
        ensures { result ≡ nodes.entry }
    {
        Tree { nodes }
    }

    /// The node of the whole value.
    pub fn root(&self) -> Node<'_, 'a>
        ensures { result ≡ self.now }
    {
        Node::at(&self.nodes, 0)
    }
}
