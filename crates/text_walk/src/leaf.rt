//! What is seen of a node by its form alone.
ghost use Rattle.std.specs.Prelude.{◌≡◌, slice_get};
ghost use Rattle.std.specs.Option.{option_copied};
ghost use Rattle.swc_tree_node.specs.declared.node.Node.{out-Node};
ghost use Rattle.text_pieces.specs.Leaves as spec;

use swc_tree_marks::Span;
use swc_tree_node::{Kind, Node, Word};

/// A field by its number.
pub(crate) fn field_at(fields: &[Node], n: usize) -> Option<&Node>
    ensures { option_copied result ≡ slice_get fields.now n }
{
    if n < fields.len() {
        Some(&fields[n])
    } else {
        None
    }
}

pub(crate) fn is_set(node: &Node) -> bool
    ensures { result ≡ spec.is_set (out-Node node.now) }
{
    match node {
        Node::Absent | Node::Word(Word::Method) => false,
        Node::Flag(flag) => *flag,
        _ => true,
    }
}

pub(crate) fn is_computed(node: &Node) -> bool
    ensures { result ≡ spec.is_computed (out-Node node.now) }
{
    match node {
        Node::Tree(Kind::ComputedPropName, _) => true,
        _ => false,
    }
}

fn is_declaration(node: &Node) -> bool
    ensures { result ≡ spec.is_declaration (out-Node node.now) }
{
    match node {
        Node::Tree(Kind::VarDecl | Kind::UsingDecl, _) => true,
        _ => false,
    }
}

pub(crate) fn is_block(node: &Node) -> bool
    ensures { result ≡ spec.is_block (out-Node node.now) }
{
    match node {
        Node::Tree(Kind::BlockStmt, _) => true,
        _ => false,
    }
}

pub(crate) fn is_named(node: &Node) -> bool
    ensures { result ≡ spec.is_named (out-Node node.now) }
{
    match node {
        Node::Tree(Kind::ImportNamedSpecifier | Kind::ExportNamedSpecifier, _) => true,
        _ => false,
    }
}

fn is_default(node: &Node) -> bool
    ensures { result ≡ spec.is_default (out-Node node.now) }
{
    match node {
        Node::Tree(Kind::ImportDefaultSpecifier, _) => true,
        _ => false,
    }
}

fn is_rest(node: &Node) -> bool
    ensures { result ≡ spec.is_rest (out-Node node.now) }
{
    match node {
        Node::Tree(Kind::RestPat, _) => true,
        _ => false,
    }
}

/// Whether a comma may stand behind a last item.
fn takes_comma(node: &Node) -> bool
    ensures { result ≡ spec.takes_comma (out-Node node.now) }
{
    match node {
        Node::Absent | Node::Tree(Kind::RestPat, _) => false,
        Node::Tree(Kind::Param, fields) => match field_at(fields.as_slice(), 1) {
            Some(pattern) => !is_rest(pattern),
            None => true,
        },
        _ => true,
    }
}

fn is_hole(node: &Node) -> bool
    ensures { result ≡ spec.is_hole (out-Node node.now) }
{
    match node {
        Node::Absent => true,
        _ => false,
    }
}

pub(crate) fn items_of(node: &Node) -> &[Node]
    ensures { result.now ≡ spec.items_of (out-Node node.now) }
{
    match node {
        Node::List(items) => items.as_slice(),
        _ => &[],
    }
}

/// Whether a comma may stand behind the items of a list.
pub(crate) fn may_comma(node: &Node) -> bool
    ensures { result ≡ spec.may_comma (out-Node node.now) }
{
    match items_of(node).last() {
        Some(item) => takes_comma(item),
        None => false,
    }
}

/// Whether the last item of a list is left out.
pub(crate) fn ends_with_hole(node: &Node) -> bool
    ensures { result ≡ spec.ends_with_hole (out-Node node.now) }
{
    match items_of(node).last() {
        Some(item) => is_hole(item),
        None => false,
    }
}

pub(crate) fn has_items(node: &Node) -> bool
    ensures { result ≡ spec.has_items (out-Node node.now) }
{
    match items_of(node) {
        [] => false,
        _ => true,
    }
}

pub(crate) fn is_empty_list(node: &Node) -> bool
    ensures { result ≡ spec.is_empty_list (out-Node node.now) }
{
    match node {
        Node::List(items) => items.as_slice().is_empty(),
        _ => false,
    }
}

/// Whether a list is a default import alone.
pub(crate) fn is_default_alone(node: &Node) -> bool
    ensures { result ≡ spec.is_default_alone (out-Node node.now) }
{
    match items_of(node) {
        [item] => is_default(item),
        _ => false,
    }
}

fn bound_name(node: &Node) -> Option<&str>
    ensures { option_copied result ≡ spec.bound_name (out-Node node.now) }
{
    match node {
        Node::Identifier(Kind::BindingIdent, ident) => Some(ident.get().sym.as_str()),
        _ => None,
    }
}

/// The plain name that is the one item of a list.
pub(crate) fn lone_name(node: &Node) -> Option<&str>
    ensures { option_copied result ≡ spec.lone_name (out-Node node.now) }
{
    match items_of(node) {
        [item] => bound_name(item),
        _ => None,
    }
}

fn bound_span(node: &Node) -> Option<Span>
    ensures { result ≡ spec.bound_span (out-Node node.now) }
{
    match node {
        Node::Identifier(Kind::BindingIdent, ident) => Some(ident.get().span),
        _ => None,
    }
}

/// Where the plain name stands that is the one item of a list.
pub(crate) fn lone_span(node: &Node) -> Option<Span>
    ensures { result ≡ spec.lone_span (out-Node node.now) }
{
    match items_of(node) {
        [item] => bound_span(item),
        _ => None,
    }
}

pub(crate) fn is_identifier_let(node: &Node) -> bool
    ensures { result ≡ spec.is_let (out-Node node.now) }
{
    match node {
        Node::Identifier(_, ident) => ident.get().sym.as_str() == "let",
        _ => false,
    }
}

/// The text of a field.
pub(crate) fn text_at(fields: &[Node], n: usize) -> Option<&str>
    ensures { option_copied result ≡ spec.text_at fields.now n }
{
    match field_at(fields, n) {
        Some(node) => node.as_text(),
        None => None,
    }
}

/// Whether a field is set.
pub(crate) fn is_set_at(fields: &[Node], n: usize) -> bool
    ensures { result ≡ spec.is_set_at fields.now n }
{
    match field_at(fields, n) {
        Some(node) => is_set(node),
        None => false,
    }
}

/// Whether a field is a declaration of variables.
pub(crate) fn is_declaration_at(fields: &[Node], n: usize) -> bool
    ensures { result ≡ spec.is_declaration_at fields.now n }
{
    match field_at(fields, n) {
        Some(node) => is_declaration(node),
        None => false,
    }
}

fn is_expression_statement(node: &Node) -> bool
    ensures { result ≡ spec.is_expression_statement (out-Node node.now) }
{
    match node {
        Node::Tree(kind, _) => matches!(kind, Kind::ExprStmt),
        _ => false,
    }
}

/// Whether a field is an expression as a statement.
pub(crate) fn is_expression_at(fields: &[Node], n: usize) -> bool
    ensures { result ≡ spec.is_expression_at fields.now n }
{
    match field_at(fields, n) {
        Some(node) => is_expression_statement(node),
        None => false,
    }
}

/// Whether a field is a list of one plain name.
pub(crate) fn is_lone_at(fields: &[Node], n: usize) -> bool
    ensures { result ≡ spec.is_lone_at fields.now n }
{
    match field_at(fields, n) {
        Some(node) => lone_name(node).is_some(),
        None => false,
    }
}

/// Whether a flag of a function is set.
pub(crate) fn is_set_in(node: &Node, n: usize) -> bool
    ensures { result ≡ spec.is_set_in n (out-Node node.now) }
{
    match node {
        Node::Tree(_, fields) => is_set_at(fields.as_slice(), n),
        _ => false,
    }
}
