//! Where nodes stand in a text.
ghost use Rattle.std.specs.Prelude.{◌≡◌, ◌-◌};
ghost use Rattle.swc_tree_node.specs.declared.node.Node.{out-Node};
ghost use Rattle.swc_tree_grammar.specs.Blocks.{no_span};
ghost use Rattle.swc_base_alpha.specs.Shapes as shape;
ghost use Rattle.swc_base_alpha.specs.declared.spans.Unplaced.TheVariants as unplaced;

use swc_tree_marks::{DUMMY_SP, Span};
use swc_tree_node::Node;

// How many bytes are before a span: none before that of no source text.
pub(crate) fn bytes_before(span: Span) -> usize
    ensures { result ≡ span.lo - 1 }
{
    span.lo.saturating_sub(1) as usize
}

// The span that a field is.
fn field_span(field: &Node) -> Option<Span>
    ensures { result ≡ shape.field_span (out-Node field.now) }
{
    match field {
        Node::Span(span) => Some(*span),
        _ => None,
    }
}

fn first_span(fields: &[Node]) -> Option<Span>
    ensures { result ≡ shape.first_span fields.now }
{
    match fields {
        [first, ..] => field_span(first),
        [] => None,
    }
}

// The span of a node itself, if it has one.
fn own_span(node: &Node) -> Option<Span>
    ensures { result ≡ shape.own_span (out-Node node.now) }
{
    match node {
        Node::Span(span) => Some(*span),
        Node::Identifier(_, ident) => Some(ident.get().span),
        Node::Tree(_, fields) => first_span(fields.as_slice()),
        _ => None,
    }
}

// ... or that round it.
fn span_of(node: &Node, round: Span) -> Span
    ensures { result ≡ shape.span_or unplaced.IsUnknown round (shape.own_span (out-Node node.now)) }
{
    match own_span(node) {
        Some(own) => own,
        None => round,
    }
}

// The span of the node at a path, or of the last above it that has one.
fn span_at(tree: &Node, path: &[usize]) -> Span
    ensures { result ≡ shape.nearest unplaced.IsUnknown no_span tree.now path.now }
{
    let mut near = span_of(tree, DUMMY_SP);
    let mut node = tree;
    for number in path {
        match node.children().get(*number) {
            Some(child) => node = child,
            None => return near,
        }
        near = span_of(node, near);
    }
    near
}

// How many bytes are before the node at a path.
pub(crate) fn place_at(tree: &Node, path: &[usize]) -> usize
    ensures { result ≡ (shape.nearest unplaced.IsUnknown no_span tree.now path.now).lo - 1 }
{
    bytes_before(span_at(tree, path))
}
