//! Names that are bound or referred to (ECMA-262, 13.1), and templates without a tag (13.2.8.1).
ghost use Rattle.std.specs.Prelude.{◌≡◌};
ghost use Rattle.std.specs.List.{list_any};
ghost use Rattle.swc_tree_node.specs.declared.node.Node.{out-Node};
ghost use Rattle.swc_tree_node.specs.declared.node.Node.TheOpen.{Node-F};
ghost use Rattle.swc_tree_grammar.specs.Shapes.{items_of};
ghost use Rattle.text_checks.specs.Spelled as spec;

use crate::leaf::is_absent;
use swc_tree_node::fields::{
    export_named_specifier, import_named_specifier, named_export, tagged_tpl, tpl, tpl_element,
};
use swc_tree_node::{Kind, Node};
use text_words::is_reserved;

fn items(node: &Node) -> &[Node]
    ensures { result.now ≡ items_of node.now }
{
    match node {
        Node::List(items) => items.as_slice(),
        _ => &[],
    }
}

fn has_no_value(node: &Node) -> bool
    ensures { result ≡ spec.has_no_value (out-Node node.now) }
{
    match node {
        Node::Tree(kind, fields) => {
            let fields = fields.as_slice();
            match kind {
                Kind::TplElement if fields.len() == 4 => is_absent(&fields[tpl_element::COOKED]),
                _ => false,
            }
        }
        _ => false,
    }
}

fn any_has_no_value(texts: &[Node]) -> bool
    ensures { result ≡ list_any (λ t. spec.has_no_value (out-Node t)) texts.now }
{
    texts.iter().any(|text| has_no_value(text))
}

// Whether a tree is a template that has a text without a value.
fn is_valueless_tree(kind: Kind, fields: &[Node]) -> bool
    ensures { result ≡ spec.is_valueless (Node-F.Tree kind fields.now) }
{
    match kind {
        Kind::Tpl if fields.len() == 3 => any_has_no_value(items(&fields[tpl::QUASIS])),
        _ => false,
    }
}

fn is_valueless(node: &Node) -> bool
    ensures { result ≡ spec.is_valueless (out-Node node.now) }
{
    match node {
        Node::Tree(kind, fields) => is_valueless_tree(*kind, fields.as_slice()),
        _ => false,
    }
}

fn is_reserved_name(node: &Node) -> bool
    ensures { result ≡ spec.is_reserved_name (out-Node node.now) }
{
    match node {
        Node::Identifier(_, ident) => is_reserved(ident.get().sym.as_str()),
        _ => false,
    }
}

// Whether a child can't stand where names are bound or referred to, and expressions stand.
fn is_amiss(node: &Node) -> bool
    ensures { result ≡ spec.is_amiss node.now }
{
    is_reserved_name(node) || is_valueless(node)
}

// Whether one of some children can't stand there.
fn any_is_amiss(nodes: &[Node]) -> bool
    ensures { result ≡ list_any spec.is_amiss nodes.now }
{
    nodes.iter().any(|node| is_amiss(node))
}

fn is_amiss_specifier(node: &Node) -> bool
    ensures { result ≡ spec.is_amiss_specifier (out-Node node.now) }
{
    match node {
        Node::Tree(kind, fields) => {
            let fields = fields.as_slice();
            match kind {
                Kind::ExportNamedSpecifier if fields.len() == 3 => {
                    is_amiss(&fields[export_named_specifier::ORIG])
                }
                _ => false,
            }
        }
        _ => false,
    }
}

fn any_specifier_is_amiss(specifiers: &[Node]) -> bool
    ensures { result ≡ list_any (λ t. spec.is_amiss_specifier (out-Node t)) specifiers.now }
{
    specifiers
        .iter()
        .any(|specifier| is_amiss_specifier(specifier))
}

// Whether an export list without a source has a name that can't stand there.
fn is_amiss_export(specifiers: &Node, src: &Node) -> bool
    ensures { result ≡ spec.is_amiss_export specifiers.now src.now }
{
    is_absent(src) && any_specifier_is_amiss(items(specifiers))
}

// Whether a tree has a child that can't stand there.
fn has_amiss_field(kind: Kind, fields: &[Node]) -> bool
    ensures { result ≡ spec.has_amiss (Node-F.Tree kind fields.now) }
{
    match kind {
        Kind::ImportNamedSpecifier if fields.len() == 3 => {
            is_amiss(&fields[import_named_specifier::LOCAL])
        }
        Kind::ExportNamedSpecifier | Kind::ExportNamespaceSpecifier => false,
        Kind::NamedExport if fields.len() == 4 => {
            is_amiss_export(
                &fields[named_export::SPECIFIERS],
                &fields[named_export::SRC],
            )
        }
        Kind::TaggedTpl if fields.len() == 3 => is_amiss(&fields[tagged_tpl::TAG]),
        _ => any_is_amiss(fields),
    }
}

/// Whether a node has a child that can't stand there.
pub fn has_amiss(node: &Node) -> bool
    ensures { result ≡ spec.has_amiss (out-Node node.now) }
{
    match node {
        Node::Tree(kind, fields) => has_amiss_field(*kind, fields.as_slice()),
        Node::List(items) => any_is_amiss(items.as_slice()),
        _ => false,
    }
}
