//! Patterns.
ghost use Rattle.std.specs.Prelude.{◌≡◌, IfOk, length};
ghost use Rattle.swc_tree_grammar.specs.Normal.{as_pattern, with_default as is_with_default, written_step};
ghost use Rattle.swc_tree_node.specs.declared.kind.Kind.TheVariants as kind;
ghost use Rattle.swc_tree_node.specs.declared.node.Node.{Span as Where};
ghost use Rattle.swc_tree_node.specs.declared.node.Node.TheOpen.{Node-F};

use crate::names::{key_of, tree};
use std::alloc::Global;
use std::mem;
use swc_tree_items::Items;
use swc_tree_marks::{NoMemory, Span};
use swc_tree_node::fields::assign_pat_prop;
use swc_tree_node::{Kind, Node};

/// An expression that is a name, where a pattern stands, becomes a pattern.
pub fn write_pattern(node: &mut Node)
    ensures { node.new ≡ as_pattern node.old }
{
    match mem::replace(node, Node::Absent) {
        Node::Identifier(Kind::Ident, name) => *node = Node::Identifier(Kind::BindingIdent, name),
        other => *node = other,
    }
}

// A target with its default, where there is one.
fn with_default(alloc: Global, span: Span, target: Node, value: Node) -> Result<Node, NoMemory>
    ensures { IfOk result (λ node. node ≡ is_with_default (Where span) target value) }
{
    match value {
        Node::Absent => Ok(target),
        value => tree(alloc, Kind::AssignPat, [Node::Span(span), target, value]),
    }
}

/// A shorthand property of a pattern, written out: `{ a = 1 }` as `{ a: a = 1 }`.
pub fn pattern_property(alloc: Global, mut fields: Items<Node>) -> Result<Node, NoMemory>
    requires { length fields ≡ 3 }
    ensures { IfOk result (λ node. node ≡ written_step (Node-F.Tree kind.AssignPatProp fields)) }
{
    match fields.replace(assign_pat_prop::KEY, Node::Absent) {
        Node::Identifier(kind, name) => {
            let value = fields.replace(assign_pat_prop::VALUE, Node::Absent);
            let span = name.get().span;
            let key = key_of(alloc, name.get())?;
            let target = with_default(alloc, span, Node::Identifier(kind, name), value)?;
            let node = tree(alloc, Kind::KeyValuePatProp, [key, target])?;
            Ok(node)
        }
        other => {
            fields.set(assign_pat_prop::KEY, other);
            Ok(Node::Tree(Kind::AssignPatProp, fields))
        }
    }
}
