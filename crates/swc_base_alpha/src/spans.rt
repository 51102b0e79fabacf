//! Spans by which nodes are found again: a normal form keeps those of what stands in it.
ghost use Rattle.std.specs.Prelude.{◌≡◌, Some};
ghost use Rattle.swc_tree_node.specs.declared.node.Node.{out-Node};
ghost use Rattle.swc_base_alpha.specs.Shapes as spec;

use swc_tree_marks::{DUMMY_SP, Span};
use swc_tree_node::Node;

/// Spans of nodes of two trees.
#[derive(Clone, Copy)]
pub struct Spans {
    pub before: Span,
    pub after: Span,
}

/// The spans of no source text.
pub const NOWHERE: Spans = Spans {
    before: DUMMY_SP,
    after: DUMMY_SP,
};

/// What it says of a node that its span is that of no source text.
#[derive(Clone, Copy)]
pub enum Unplaced {
    /// That a normal form made it, as all that came in has a place: the span round it stands for it, and of a name that of its binding.
    IsMade,
    /// Nothing: it came so.
    IsUnknown,
}

// The span that a field is.
fn field_span(field: &Node) -> Option<Span>
    ensures { result ≡ spec.field_span (out-Node field.now) }
{
    match field {
        Node::Span(span) => Some(*span),
        _ => None,
    }
}

fn first_span(fields: &[Node]) -> Option<Span>
    ensures { result ≡ spec.first_span fields.now }
{
    match fields {
        [first, ..] => field_span(first),
        [] => None,
    }
}

/// The span of a node itself, if it has one.
pub fn own_span(node: &Node) -> Option<Span>
    ensures { result ≡ spec.own_span (out-Node node.now) }
{
    match node {
        Node::Span(span) => Some(*span),
        Node::Identifier(_, ident) => Some(ident.get().span),
        Node::Tree(_, fields) => first_span(fields.as_slice()),
        _ => None,
    }
}

/// The first of two spans, if it is one of source text.
pub fn placed(own: Span, round: Span) -> Span
    ensures { result ≡ spec.span_or Unplaced.IsMade round (Some own) }
{
    if own.lo == 0 && own.hi == 0 {
        round
    } else {
        own
    }
}

/// The span of a node, or that round it where it has none.
pub fn span_of(node: &Node, round: Span, unplaced: Unplaced) -> Span
    ensures { result ≡ spec.span_or unplaced round (spec.own_span (out-Node node.now)) }
{
    match own_span(node) {
        None => round,
        Some(own) => match unplaced {
            Unplaced::IsMade => placed(own, round),
            Unplaced::IsUnknown => own,
        },
    }
}
