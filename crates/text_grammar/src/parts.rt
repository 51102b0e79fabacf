//! Templates, calls, `yield`, patterns and statements (ECMA-262, 13 to 15).
ghost use Rattle.std.specs.Prelude.{◌≡◌, false, length, nat_eq, nat_le, slice_get, suc};
ghost use Rattle.std.specs.List.{list_any};
ghost use Rattle.swc_tree_grammar.specs.Kinds.{has_kind, is_destructuring as takes_apart};
ghost use Rattle.swc_tree_grammar.specs.Shapes.{items_of};
ghost use Rattle.text_grammar.specs.Shaped as spec;

use crate::leaves::{is_absent, is_set, items};
use swc_tree_node::fields::{expr_or_spread, rest_pat, switch_case, tpl_element};
use swc_tree_node::{Kind, Node};

fn is_tail(node: &Node) -> bool
    ensures { result ≡ spec.is_tail node.now }
{
    match node {
        Node::Tree(kind, fields) => {
            let fields = fields.as_slice();
            match kind {
                Kind::TplElement if fields.len() == 4 => is_set(&fields[tpl_element::TAIL]),
                _ => false,
            }
        }
        _ => false,
    }
}

fn is_tail_at(texts: &[Node], index: usize) -> bool
    ensures { result ≡ spec.tail_at (slice_get texts.now index) }
{
    match texts.get(index) {
        Some(text) => is_tail(text),
        None => false,
    }
}

fn any_is_tail(texts: &[Node]) -> bool
    ensures { result ≡ list_any spec.is_tail texts.now }
{
    texts.iter().any(|text| is_tail(text))
}

// Whether the last of a template's texts is the tail, and none before it.
fn ends_in_tail(texts: &[Node]) -> bool
    ensures { result ≡ spec.ends_in_tail texts.now }
{
    let last = texts.len().saturating_sub(1);
    is_tail_at(texts, last) && !any_is_tail(&texts[..last])
}

// Whether a template has one text more than parts.
fn has_each_text(parts: &Node, texts: &Node) -> bool
    ensures { result ≡ nat_eq (length (items_of texts.now)) (suc (length (items_of parts.now))) }
{
    let parts = items(parts).len();
    let texts = items(texts).len();
    0 < texts && texts - 1 == parts
}

/// Whether a template has one text more than parts, the last of which alone is the tail.
pub fn is_template(parts: &Node, texts: &Node) -> bool
    ensures { result ≡ spec.is_template (items_of parts.now) (items_of texts.now) }
{
    has_each_text(parts, texts) && ends_in_tail(items(texts))
}

fn is_import(node: &Node) -> bool
    ensures { result ≡ has_kind spec.import_kind node.now }
{
    match node {
        Node::Tree(kind, _) => matches!(kind, Kind::Import),
        _ => false,
    }
}

fn is_spread(node: &Node) -> bool
    ensures { result ≡ spec.is_spread node.now }
{
    match node {
        Node::Tree(kind, fields) => {
            let fields = fields.as_slice();
            match kind {
                Kind::ExprOrSpread if fields.len() == 2 => {
                    !is_absent(&fields[expr_or_spread::SPREAD])
                }
                _ => false,
            }
        }
        _ => false,
    }
}

// Whether some nodes are what `import` is called with.
fn are_imported(arguments: &[Node]) -> bool
    ensures { result ≡ spec.are_imported arguments.now }
{
    match arguments {
        [module] => !is_spread(module),
        [module, options] => !is_spread(module) && !is_spread(options),
        _ => false,
    }
}

/// Whether `import` is called with what it can't be.
pub fn is_odd_call(callee: &Node, arguments: &Node) -> bool
    ensures { result ≡ spec.is_odd_call callee.now arguments.now }
{
    is_import(callee) && !are_imported(items(arguments))
}

/// Whether a `yield` with a star has no operand.
pub fn is_odd_yield(arg: &Node, delegate: &Node) -> bool
    ensures { result ≡ spec.is_odd_yield arg.now delegate.now }
{
    is_set(delegate) && is_absent(arg)
}

fn is_destructuring(node: &Node) -> bool
    ensures { result ≡ has_kind takes_apart node.now }
{
    match node {
        Node::Tree(kind, _) => matches!(kind, Kind::ArrayPat | Kind::ObjectPat),
        _ => false,
    }
}

// Whether a node takes the rest by a pattern that takes it apart.
fn is_odd_rest(node: &Node) -> bool
    ensures { result ≡ spec.is_odd_rest node.now }
{
    match node {
        Node::Tree(kind, fields) => {
            let fields = fields.as_slice();
            match kind {
                Kind::RestPat if fields.len() == 2 => is_destructuring(&fields[rest_pat::ARG]),
                _ => false,
            }
        }
        _ => false,
    }
}

/// Whether a property of an object pattern takes the rest by a pattern.
pub fn has_odd_rest(properties: &Node) -> bool
    ensures { result ≡ list_any spec.is_odd_rest (items_of properties.now) }
{
    items(properties)
        .iter()
        .any(|property| is_odd_rest(property))
}

/// Whether a list has two items or more.
pub fn has_two(node: &Node) -> bool
    ensures { result ≡ nat_le 2 (length (items_of node.now)) }
{
    2 <= items(node).len()
}

fn is_default(node: &Node) -> bool
    ensures { result ≡ spec.is_default node.now }
{
    match node {
        Node::Tree(kind, fields) => {
            let fields = fields.as_slice();
            match kind {
                Kind::SwitchCase if fields.len() == 3 => is_absent(&fields[switch_case::TEST]),
                _ => false,
            }
        }
        _ => false,
    }
}

// Whether no case is a second default.
fn has_no_second(cases: &[Node]) -> bool
    ensures { result ≡ spec.no_second spec.is_default false cases.now }
{
    let mut found = false;
    for case in cases {
        if !is_default(case) {
            continue;
        }
        if found {
            return false;
        }
        found = true;
    }
    true
}

/// Whether at most one of some cases is the default.
pub fn has_one_default(cases: &Node) -> bool
    ensures { result ≡ spec.at_most_one spec.is_default (items_of cases.now) }
{
    has_no_second(items(cases))
}

/// Whether a `try` has neither a handler nor a finalizer.
pub fn is_bare_try(handler: &Node, finalizer: &Node) -> bool
    ensures { result ≡ spec.is_bare_try handler.now finalizer.now }
{
    is_absent(handler) && is_absent(finalizer)
}
