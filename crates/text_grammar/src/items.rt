//! Declarations, imports and exports (ECMA-262, 14.3, 16.2).
ghost use Rattle.std.specs.Prelude.{◌≡◌};
ghost use Rattle.swc_tree_node.specs.declared.node.Node.TheOpen.{Node-F};
ghost use Rattle.swc_tree_grammar.specs.Kinds.{has_kind};
ghost use Rattle.swc_tree_grammar.specs.Shapes.{items_of};
ghost use Rattle.text_grammar.specs.Shaped as spec;

use crate::leaves::{is_absent, items};
use swc_tree_node::fields::{import_decl, named_export, var_decl};
use swc_tree_node::{Kind, Node};

fn is_first(node: &Node) -> bool
    ensures { result ≡ has_kind spec.default_kind node.now }
{
    match node {
        Node::Tree(kind, _) => matches!(kind, Kind::ImportDefaultSpecifier),
        _ => false,
    }
}

fn is_star(node: &Node) -> bool
    ensures { result ≡ has_kind spec.star_kind node.now }
{
    match node {
        Node::Tree(kind, _) => matches!(
            kind,
            Kind::ImportStarAsSpecifier | Kind::ExportNamespaceSpecifier
        ),
        _ => false,
    }
}

fn is_named(node: &Node) -> bool
    ensures { result ≡ has_kind spec.named_kind node.now }
{
    match node {
        Node::Tree(kind, _) => matches!(
            kind,
            Kind::ImportNamedSpecifier | Kind::ExportNamedSpecifier
        ),
        _ => false,
    }
}

fn are_names(specifiers: &[Node]) -> bool
    ensures { result ≡ spec.are_names specifiers.now }
{
    specifiers.iter().all(|specifier| is_named(specifier))
}

fn star_or_names(specifiers: &[Node]) -> bool
    ensures { result ≡ spec.star_or_names specifiers.now }
{
    match specifiers {
        [specifier] => is_star(specifier) || is_named(specifier),
        _ => are_names(specifiers),
    }
}

// Whether some specifiers are what an import binds.
fn is_clause(specifiers: &[Node]) -> bool
    ensures { result ≡ spec.is_clause specifiers.now }
{
    match specifiers {
        [first, rest @ ..] => {
            if is_first(first) {
                star_or_names(rest)
            } else {
                star_or_names(specifiers)
            }
        }
        [] => true,
    }
}

// Whether an export list has what it may.
fn is_export(specifiers: &[Node], src: &Node, attributes: &Node) -> bool
    ensures { result ≡ spec.is_export specifiers.now src.now attributes.now }
{
    if is_absent(src) {
        are_names(specifiers) && is_absent(attributes)
    } else {
        star_or_names(specifiers)
    }
}

fn has_no_items(node: &Node) -> bool
    ensures { result ≡ spec.is_empty (items_of node.now) }
{
    items(node).is_empty()
}

/// Whether a declaration, an import or an export has lengths that no production has.
pub fn is_misshapen_item(kind: Kind, fields: &[Node]) -> bool
    ensures { result ≡ spec.is_misshapen_item (Node-F.Tree kind fields.now) }
{
    match kind {
        Kind::VarDecl | Kind::UsingDecl if fields.len() == 3 => {
            has_no_items(&fields[var_decl::DECLS])
        }
        Kind::ImportDecl if fields.len() == 4 => {
            !is_clause(items(&fields[import_decl::SPECIFIERS]))
        }
        Kind::NamedExport if fields.len() == 4 => {
            !is_export(
                items(&fields[named_export::SPECIFIERS]),
                &fields[named_export::SRC],
                &fields[named_export::WITH],
            )
        }
        _ => false,
    }
}
