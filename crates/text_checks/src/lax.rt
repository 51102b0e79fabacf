//! What is a program, and what "can be written down" leaves out: names and statements that only sloppy code has.
ghost use Rattle.std.specs.Prelude.{◌≡◌, nat_eq};
ghost use Rattle.std.specs.Cmp.Lexicographic.{pointwise};
ghost use Rattle.std.specs.List.{list_any};
ghost use Rattle.swc_tree_node.specs.declared.node.Node.{out-Node};
ghost use Rattle.swc_tree_node.specs.declared.node.Node.TheOpen.{Node-F};
ghost use Rattle.swc_tree_grammar.specs.Kinds.{has_kind};
ghost use Rattle.swc_tree_grammar.specs.Shapes.{items_of};
ghost use Rattle.text_checks.specs.Pinned as spec;

use crate::leaves::{is_absent, items};
use swc_tree_node::fields::{
    class_decl, class_expr, expr_stmt, fn_decl, fn_expr, for_in_stmt, import_default_specifier,
    import_named_specifier, import_star_as_specifier, paren_expr, var_decl, var_declarator,
};
use swc_tree_node::{Kind, Node};
use swc_tree_walk::Finder;

// The words that are names in sloppy code alone (12.7.2).
static SLOPPY: [&str; 10] = [
    "await",
    "yield",
    "let",
    "static",
    "implements",
    "interface",
    "package",
    "private",
    "protected",
    "public",
];

fn is_one_of(words: &[&str], text: &str) -> bool
    ensures { result ≡ list_any (λ word. pointwise nat_eq text.now word.now) words.now }
{
    words.iter().any(|word| text == *word)
}

fn is_sloppy_word(text: &str) -> bool
    ensures { result ≡ spec.is_sloppy_word text.now }
{
    is_one_of(&SLOPPY, text)
}

// Whether strict code does not bind the name (13.1.1).
fn is_warded(text: &str) -> bool
    ensures { result ≡ spec.is_warded text.now }
{
    text == "eval" || text == "arguments"
}

fn is_bound_so(node: &Node) -> bool
    ensures { result ≡ spec.is_bound_so node.now }
{
    match node {
        Node::Identifier(_, ident) => is_warded(ident.get().sym.as_str()),
        _ => false,
    }
}

fn is_pair_or_string(node: &Node) -> bool
    ensures { result ≡ has_kind spec.is_pair_or_string node.now }
{
    match node {
        Node::Tree(kind, _) => matches!(kind, Kind::ParenExpr | Kind::Str),
        _ => false,
    }
}

// Whether a node is a string in parentheses, or has two pairs.
fn is_string_in_pair(node: &Node) -> bool
    ensures { result ≡ spec.string_in_pair_in (out-Node node.now) }
{
    match node {
        Node::Tree(kind, fields) => {
            let fields = fields.as_slice();
            match kind {
                Kind::ParenExpr if fields.len() == 2 => {
                    is_pair_or_string(&fields[paren_expr::EXPR])
                }
                _ => false,
            }
        }
        _ => false,
    }
}

fn has_value(node: &Node) -> bool
    ensures { result ≡ spec.has_value node.now }
{
    match node {
        Node::Tree(kind, fields) => {
            let fields = fields.as_slice();
            match kind {
                Kind::VarDeclarator if fields.len() == 3 => {
                    !is_absent(&fields[var_declarator::INIT])
                }
                _ => false,
            }
        }
        _ => false,
    }
}

fn any_has_value(variables: &Node) -> bool
    ensures { result ≡ list_any spec.has_value (items_of variables.now) }
{
    items(variables).iter().any(|variable| has_value(variable))
}

fn is_valued_head(node: &Node) -> bool
    ensures { result ≡ spec.valued_head_in (out-Node node.now) }
{
    match node {
        Node::Tree(kind, fields) => {
            let fields = fields.as_slice();
            match kind {
                Kind::VarDecl if fields.len() == 3 => any_has_value(&fields[var_decl::DECLS]),
                _ => false,
            }
        }
        _ => false,
    }
}

// Whether a node binds a name that strict code doesn't, patterns aside.
fn binds_warded(kind: Kind, fields: &[Node]) -> bool
    ensures { result ≡ spec.binds_warded (Node-F.Tree kind fields.now) }
{
    match kind {
        Kind::FnDecl if fields.len() == 2 => is_bound_so(&fields[fn_decl::IDENT]),
        Kind::FnExpr if fields.len() == 2 => is_bound_so(&fields[fn_expr::IDENT]),
        Kind::ClassDecl if fields.len() == 2 => is_bound_so(&fields[class_decl::IDENT]),
        Kind::ClassExpr if fields.len() == 2 => is_bound_so(&fields[class_expr::IDENT]),
        Kind::ImportNamedSpecifier if fields.len() == 3 => {
            is_bound_so(&fields[import_named_specifier::LOCAL])
        }
        Kind::ImportDefaultSpecifier if fields.len() == 2 => {
            is_bound_so(&fields[import_default_specifier::LOCAL])
        }
        Kind::ImportStarAsSpecifier if fields.len() == 2 => {
            is_bound_so(&fields[import_star_as_specifier::LOCAL])
        }
        _ => false,
    }
}

fn is_lax_tree(kind: Kind, fields: &[Node]) -> bool
    ensures { result ≡ spec.is_lax (Node-F.Tree kind fields.now) }
{
    match kind {
        Kind::ExprStmt if fields.len() == 2 => is_string_in_pair(&fields[expr_stmt::EXPR]),
        Kind::ForInStmt if fields.len() == 4 => is_valued_head(&fields[for_in_stmt::LEFT]),
        kind => binds_warded(kind, fields),
    }
}

fn is_lax_name(kind: Kind, text: &str) -> bool
    ensures { result ≡ spec.is_lax_name kind text.now }
{
    match kind {
        Kind::BindingIdent => is_sloppy_word(text) || is_warded(text),
        _ => is_sloppy_word(text),
    }
}

/// Looks for what "can be written down" leaves out.
#[derive(Clone, Copy)]
pub struct Lax;

impl Finder for Lax {
    ghost use Rattle.text_checks.specs.Pinned as spec;

    ghost is_sought = { λ _ node. spec.is_lax node };

    fn is_sought(&self, node: &Node) -> bool {
        match node {
            Node::Identifier(kind, ident) => is_lax_name(*kind, ident.get().sym.as_str()),
            Node::Tree(kind, fields) => is_lax_tree(*kind, fields.as_slice()),
            _ => false,
        }
    }
}
