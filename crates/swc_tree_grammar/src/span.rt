//! Where a node stands in its source text.
ghost use Rattle.std.specs.Prelude.{◌≡◌, ◌<◌, length, IfSome};
ghost use Rattle.swc_tree_grammar.specs.Blocks.{span_of as place_of};
ghost use Rattle.swc_tree_grammar.specs.Spans.{span_field as span_field_of};

use swc_tree_node::swc_tree_marks::{DUMMY_SP, Span};
use swc_tree_node::{Kind, Node};

// The field that says where a node stands, if it has fields.
fn span_field(kind: Kind, fields: &[Node]) -> Option<usize>
    ensures field { result ≡ span_field_of kind fields.now }
    ensures within { IfSome result (λ i. i < length fields.now) }
{
    match kind {
        Kind::FnExpr | Kind::ClassExpr if fields.len() == 2 => Some(1),
        _ if fields.is_empty() => None,
        _ => Some(0),
    }
}

/// Where a node stands in the source.
pub fn span_of(node: &Node) -> Span
    ensures { result ≡ place_of node.now }
{
    match node {
        Node::Span(span) => *span,
        Node::Identifier(_, ident) => ident.get().span,
        Node::Tree(kind, fields) => {
            let fields = fields.as_slice();
            match span_field(*kind, fields) {
                Some(index) => span_of(&fields[index]),
                None => DUMMY_SP,
            }
        }
        _ => DUMMY_SP,
    }
}
