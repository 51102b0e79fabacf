//! Where nodes begin and stop.
#![tactic(auto, using(crate::proofs::Sinks::stays))]

ghost use Rattle.std.specs.Prelude.{◌≡◌, ◌≤◌, OnOk, slice_get};
ghost use Rattle.swc_tree_node.specs.declared.node.Node.{out-Node};
ghost use Rattle.text_pieces.specs.Frames as spec;
ghost use Rattle.text_walk.specs.Sinks.{Gains};

use crate::leaf::field_at;
use crate::sink::{Refusal, Sink, begin, push, stop};
use swc_tree_marks::Span;
use swc_tree_node::{Kind, Node};
use text_lexer::TemplatePart;
use text_pieces::{Frame, Piece};

/// Puts the beginning of a span there.
pub(crate) fn push_begun<'a>(span: Option<Span>, found: &mut Sink<'a>) -> Result<(), Refusal>
    ensures { OnOk result (Gains found.old (spec.begun span) found.new) }
{
    match span {
        Some(span) => begin(found, span.lo as usize),
        None => Ok(()),
    }
}

/// Puts the end of a span there.
pub(crate) fn push_stopped<'a>(span: Option<Span>, found: &mut Sink<'a>) -> Result<(), Refusal>
    ensures { OnOk result (Gains found.old (spec.stopped span) found.new) }
{
    match span {
        Some(span) => stop(found, span.hi as usize),
        None => Ok(()),
    }
}

/// The span that a field is.
pub(crate) fn span_at(fields: &[Node], n: usize) -> Option<Span>
    ensures { result ≡ spec.span_at fields.now n }
{
    match field_at(fields, n) {
        Some(node) => node.as_span(),
        None => None,
    }
}

fn is_elsewhere(kind: Kind) -> bool
    ensures { result ≡ spec.is_elsewhere kind }
{
    match kind {
        Kind::Module
        | Kind::Script
        | Kind::ExportNamespaceSpecifier
        | Kind::ExprOrSpread
        | Kind::SpreadElement => true,
        _ => false,
    }
}

fn is_outer(kind: Kind) -> bool
    ensures { result ≡ spec.is_outer kind }
{
    match kind {
        Kind::FnDecl | Kind::FnExpr | Kind::ClassDecl | Kind::ClassExpr | Kind::StaticBlock => true,
        _ => false,
    }
}

/// The span of a node's own, from its first token to its last.
pub(crate) fn own_span(kind: Kind, fields: &[Node]) -> Option<Span>
    ensures { result ≡ spec.own_span kind fields.now }
{
    if is_elsewhere(kind) {
        None
    } else {
        span_at(fields, 0)
    }
}

/// The span that the first field of a node is.
pub fn first_span(node: &Node) -> Option<Span>
    ensures { result ≡ spec.first_span (out-Node node.now) }
{
    match node {
        Node::Tree(_, fields) => span_at(fields.as_slice(), 0),
        _ => None,
    }
}

fn first_span_at(fields: &[Node], n: usize) -> Option<Span>
    ensures { result ≡ spec.first_span_in (slice_get fields.now n) }
{
    match field_at(fields, n) {
        Some(node) => first_span(node),
        None => None,
    }
}

/// The span of what a node holds that is that of the whole.
pub(crate) fn inner_span(kind: Kind, fields: &[Node]) -> Option<Span>
    ensures { result ≡ spec.inner_span kind fields.now }
{
    if is_outer(kind) {
        first_span_at(fields, 1)
    } else {
        None
    }
}

fn behind_text(part: TemplatePart) -> usize
    ensures value { result ≡ spec.behind_text part }
    ensures few { result ≤ 2 }
{
    match part {
        TemplatePart::Head | TemplatePart::Middle => 2,
        TemplatePart::Whole | TemplatePart::Tail => 1,
    }
}

/// Puts there where a token begins that a text of a template has this span in.
pub(crate) fn push_text_begun<'a>(span: Option<Span>, found: &mut Sink<'a>) -> Result<(), Refusal>
    ensures { OnOk result (Gains found.old (spec.text_begun span) found.new) }
{
    match span {
        Some(span) => begin(found, (span.lo as usize).saturating_sub(1)),
        None => Ok(()),
    }
}

/// Puts there where it ends.
pub(crate) fn push_text_stopped<'a>(
    part: TemplatePart,
    span: Option<Span>,
    found: &mut Sink<'a>,
) -> Result<(), Refusal>
    ensures { OnOk result (Gains found.old (spec.text_stopped part span) found.new) }
{
    match span {
        Some(span) => stop(found, span.hi as usize + behind_text(part)),
        None => Ok(()),
    }
}

/// Puts there where a name stands, if that is asked.
pub(crate) fn push_named<'a>(
    framed: bool,
    span: Option<Span>,
    name: &'a str,
    found: &mut Sink<'a>,
) -> Result<(), Refusal>
    ensures { OnOk result (Gains found.old (spec.framed_name framed span name.now) found.new) }
{
    if !framed {
        return Ok(());
    }
    match span {
        Some(span) => push(found, Piece::Frame(Frame::Named(name, span))),
        None => Ok(()),
    }
}
