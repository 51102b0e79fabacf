//! The parts of a node, to be changed in place.
ghost use Rattle.std.specs.Prelude.{◌≡◌, option_map};
ghost use Rattle.std.specs.Borrow.{LendsIf, sem};
ghost use Rattle.swc_tree_node.specs.contracts.node.Node.{the_row};
ghost use Rattle.swc_tree_node.specs.declared.node.Node.{List as Many};
ghost use Rattle.swc_tree_node.specs.Changed.{fields_in, ident_row, items_in, nodes_in, nodes_row, with_children, with_fields, with_ident};
ghost use Rattle.swc_tree_node.specs.Parts.{ident_of};

use crate::node::Node;
use swc_tree_marks::Ident;
use swc_tree_marks::swc_tree_items::{Boxed, Items};

impl Node {
    /// What stands right below, to be changed in place: the items of a list, or the fields of a tree.
    /// `kind` tells which. There is nothing below a leaf or an identifier.
    pub fn children_mut(&mut self) -> Option<&mut Items<Node>>
        ensures* writes_back { sem 𝓛 (LendsIf the_row nodes_row self.entry result (with_children self.old) self.old) }
        ensures value { option_map (λ r. r.now) result ≡ nodes_in self.old }
    {
        match self {
            Node::List(items) => Some(items),
            Node::Tree(_, fields) => Some(fields),
            _ => None,
        }
    }

    /// The items of a list, to be changed in place.
    pub fn items_mut(&mut self) -> Option<&mut Items<Node>>
        ensures* writes_back { sem 𝓛 (LendsIf the_row nodes_row self.entry result Many self.old) }
        ensures value { option_map (λ r. r.now) result ≡ items_in self.old }
    {
        if let Node::List(items) = self {
            Some(items)
        } else {
            None
        }
    }

    /// The fields of a tree, to be changed in place.
    pub fn fields_mut(&mut self) -> Option<&mut Items<Node>>
        ensures* writes_back { sem 𝓛 (LendsIf the_row nodes_row self.entry result (with_fields self.old) self.old) }
        ensures value { option_map (λ r. r.now) result ≡ fields_in self.old }
    {
        if let Node::Tree(_, fields) = self {
            Some(fields)
        } else {
            None
        }
    }

    /// The identifier that the node is, to be changed in place.
    pub fn ident_mut(&mut self) -> Option<&mut Boxed<Ident>>
        ensures* writes_back { sem 𝓛 (LendsIf the_row ident_row self.entry result (with_ident self.old) self.old) }
        ensures value { option_map (λ r. r.now) result ≡ ident_of self.old }
    {
        if let Node::Identifier(_, ident) = self {
            Some(ident)
        } else {
            None
        }
    }
}
