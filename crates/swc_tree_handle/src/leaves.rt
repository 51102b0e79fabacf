//! Spans, texts and flags as nodes.
ghost use Rattle.std.specs.Prelude.{◌≡◌};
ghost use Rattle.swc_tree_node.specs.declared.node.Node.TheVariants as leaf;
ghost use Rattle.swc_tree_node.specs.declared.slot.Slot.TheVariants.{One, Optional};
ghost use Rattle.swc_tree_node.specs.declared.slot.Content.TheVariants as content;
ghost use Rattle.swc_tree_node.specs.Fits.{Fits};
ghost use Rattle.swc_tree_handle.specs.Handles.{optional_span, optional_text};

use swc_tree_marks::{Atom, Span};
use swc_tree_node::Node;

/// The span that a node is.
#[tactic(auto, using(swc_tree_node::proofs::Fit::fitting))]
pub fn to_span(node: Node) -> Span
    requires { Fits node (One content.Span) }
    ensures { leaf.Span result ≡ node }
{
    match node {
        Node::Span(span) => span,
        _ => unreachable!(),
    }
}

/// A span as a node.
#[tactic(auto, using(swc_tree_node::proofs::Fit::fitting))]
pub fn from_span(span: Span) -> Node
    ensures is { result ≡ leaf.Span span }
    ensures fits { Fits result (One content.Span) }
{
    Node::Span(span)
}

/// The span that a node is, if it is there.
#[tactic(auto, using(swc_tree_node::proofs::Fit::fitting))]
pub fn to_optional_span(node: Node) -> Option<Span>
    requires { Fits node (Optional content.Span) }
    ensures { optional_span result ≡ node }
{
    match node {
        Node::Absent => None,
        Node::Span(span) => Some(span),
        _ => unreachable!(),
    }
}

/// A span, if there is one, as a node.
#[tactic(auto, using(swc_tree_node::proofs::Fit::fitting))]
pub fn from_optional_span(span: Option<Span>) -> Node
    ensures is { result ≡ optional_span span }
    ensures fits { Fits result (Optional content.Span) }
{
    match span {
        Some(span) => Node::Span(span),
        None => Node::Absent,
    }
}

/// The text that a node is.
#[tactic(auto, using(swc_tree_node::proofs::Fit::fitting))]
pub fn to_text(node: Node) -> Atom
    requires { Fits node (One content.Text) }
    ensures { leaf.Text result ≡ node }
{
    match node {
        Node::Text(text) => text,
        _ => unreachable!(),
    }
}

/// A text as a node.
#[tactic(auto, using(swc_tree_node::proofs::Fit::fitting))]
pub fn from_text(text: Atom) -> Node
    ensures is { result ≡ leaf.Text text }
    ensures fits { Fits result (One content.Text) }
{
    Node::Text(text)
}

/// The text that a node is, if it is there.
#[tactic(auto, using(swc_tree_node::proofs::Fit::fitting))]
pub fn to_optional_text(node: Node) -> Option<Atom>
    requires { Fits node (Optional content.Text) }
    ensures { optional_text result ≡ node }
{
    match node {
        Node::Absent => None,
        Node::Text(text) => Some(text),
        _ => unreachable!(),
    }
}

/// A text, if there is one, as a node.
#[tactic(auto, using(swc_tree_node::proofs::Fit::fitting))]
pub fn from_optional_text(text: Option<Atom>) -> Node
    ensures is { result ≡ optional_text text }
    ensures fits { Fits result (Optional content.Text) }
{
    match text {
        Some(text) => Node::Text(text),
        None => Node::Absent,
    }
}

/// The flag that a node is.
#[tactic(auto, using(swc_tree_node::proofs::Fit::fitting))]
pub fn to_flag(node: Node) -> bool
    requires { Fits node (One content.Flag) }
    ensures { leaf.Flag result ≡ node }
{
    match node {
        Node::Flag(flag) => flag,
        _ => unreachable!(),
    }
}

/// A flag as a node.
#[tactic(auto, using(swc_tree_node::proofs::Fit::fitting))]
pub fn from_flag(flag: bool) -> Node
    ensures is { result ≡ leaf.Flag flag }
    ensures fits { Fits result (One content.Flag) }
{
    Node::Flag(flag)
}
