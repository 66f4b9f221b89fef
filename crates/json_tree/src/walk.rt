//! The items of an array and the members of an object, one after another.

ghost use Rattle.std.specs.Prelude.{◌≡◌, length, drop, is_some, true, option_and_then};
ghost use Rattle.std.specs.Iterator.{YieldsFirstBy, item_count};
ghost use Rattle.json_tree.specs.View.{view, inside, paired, items_left, members_left, member_view};

use crate::content::Content;
use crate::node::Node;
use crate::nodes::Nodes;
use std::marker::Model;

/// The items of an array that are left. Contracts see what the nodes from them on are, and how many
/// of these lie in the array.
#[derive(Drop)]
pub struct Items<'t, 'a> {
    nodes: &'t Nodes<'a>,
    place: usize,
    left: usize,
}

impl<'t, 'a> Model for Items<'t, 'a> {
    ghost use Rattle.std.specs.Prelude.{◌≡◌, ℕ, List, drop, is_some, true};
    ghost use Rattle.json_tree.specs.View.{Content, inside};

    ghost Value = { List Content × ℕ };

    ghost view = { λ i. (drop i.place i.nodes.now, i.left) };

    ghost invariant = { λ i. is_some (inside (drop i.place i.nodes.now, i.left)) ≡ true };
}

impl<'t, 'a> Items<'t, 'a> {
    /// The items in so many nodes from a place on.
    pub(crate) fn from(nodes: &'t Nodes<'a>, place: usize, count: usize) -> Items<'t, 'a>
        requires { is_some (inside (drop place nodes.now, count)) ≡ true }
        ensures { result ≡ (drop place nodes.now, count) }
    {
        Items {
            nodes,
            place,
            left: count,
        }
    }

    /// How many items are left. It takes a step for each.
    pub fn len(&self) -> usize
        ensures { result ≡ length (items_left self.now) }
    {
        let mut count = 0;
        let mut place = self.place;
        let mut left = self.left;
        'items: while left > 0 {
            let next = self.nodes.after(place);
            left -= next - place;
            place = next;
            count += 1;
        }
        count
    }
}

impl<'t, 'a> Iterator for Items<'t, 'a> {
    type Item = Node<'t, 'a>;

    ghost next_gives = { YieldsFirstBy view items_left };

    ghost remaining = { item_count items_left };

    fn next(&mut self) -> Option<Node<'t, 'a>> {
        if self.left == 0 {
            return None;
        }
        let item = Node::at(self.nodes, self.place);
        let next = self.nodes.after(self.place);
        self.left -= next - self.place;
        self.place = next;
        Some(item)
    }
}

/// The members of an object that are left. Contracts see what the nodes from them on are, and how
/// many of these lie in the object.
#[derive(Drop)]
pub struct Members<'t, 'a> {
    nodes: &'t Nodes<'a>,
    place: usize,
    left: usize,
}

impl<'t, 'a> Model for Members<'t, 'a> {
    ghost use Rattle.std.specs.Prelude.{◌≡◌, ℕ, List, drop, is_some, true, option_and_then};
    ghost use Rattle.json_tree.specs.View.{Content, inside, paired};

    ghost Value = { List Content × ℕ };

    ghost view = { λ m. (drop m.place m.nodes.now, m.left) };

    ghost invariant = { λ m. is_some (option_and_then paired (inside (drop m.place m.nodes.now, m.left)))
        ≡ true };
}

impl<'t, 'a> Members<'t, 'a> {
    /// The members in so many nodes from a place on.
    pub(crate) fn from(nodes: &'t Nodes<'a>, place: usize, count: usize) -> Members<'t, 'a>
        requires { is_some (option_and_then paired (inside (drop place nodes.now, count))) ≡ true }
        ensures { result ≡ (drop place nodes.now, count) }
    {
        Members {
            nodes,
            place,
            left: count,
        }
    }
}

impl<'t, 'a> Iterator for Members<'t, 'a> {
    type Item = (&'a str, Node<'t, 'a>);

    ghost next_gives = { YieldsFirstBy member_view members_left };

    ghost remaining = { item_count members_left };

    fn next(&mut self) -> Option<(&'a str, Node<'t, 'a>)> {
        if self.left == 0 {
            return None;
        }
        let Content::String(key) = self.nodes.content(self.place) else {
            return None;
        };
        let value = Node::at(self.nodes, self.place + 1);
        let next = self.nodes.after(self.place + 1);
        self.left -= next - self.place;
        self.place = next;
        Some((key, value))
    }
}
