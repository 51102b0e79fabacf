//! Patterns that are read as expressions (ECMA-262, 13.15.5, 14.3.3).
ghost use Rattle.std.specs.Prelude.{◌≡◌};
ghost use Rattle.std.specs.List.{list_any};
ghost use Rattle.swc_tree_grammar.specs.Shapes.{items_of};
ghost use Rattle.swc_tree_node.specs.declared.node.Node.TheOpen.{Node-F};
ghost use Rattle.text_checks.specs.Pinned as spec;

use crate::leaves::items;
use swc_tree_node::fields::{
    array_pat, arrow_expr, assign_pat, catch_clause, key_value_pat_prop, param, rest_pat,
    setter_prop, var_declarator,
};
use swc_tree_node::{Kind, Node};

/// Whether a node is an expression that is written as a pattern is.
pub fn is_like_pattern(node: &Node) -> bool
    ensures { result ≡ spec.is_like_pattern node.now }
{
    match node {
        Node::Identifier(kind, _) => matches!(kind, Kind::Ident),
        Node::Tree(kind, _) => {
            matches!(kind, Kind::ArrayLit | Kind::ObjectLit | Kind::AssignExpr)
        }
        _ => false,
    }
}

fn any_like_pattern(list: &Node) -> bool
    ensures { result ≡ list_any spec.is_like_pattern (items_of list.now) }
{
    items(list).iter().any(|node| is_like_pattern(node))
}

/// Whether such an expression stands in a node where the table has a pattern, heads of `for` aside.
pub fn is_astray_pattern(kind: Kind, fields: &[Node]) -> bool
    ensures { result ≡ spec.is_astray_pattern (Node-F.Tree kind fields.now) }
{
    match kind {
        Kind::Param if fields.len() == 2 => is_like_pattern(&fields[param::PAT]),
        Kind::ArrowExpr if fields.len() == 4 => any_like_pattern(&fields[arrow_expr::PARAMS]),
        Kind::SetterProp if fields.len() == 4 => is_like_pattern(&fields[setter_prop::PARAM]),
        Kind::ArrayPat if fields.len() == 2 => any_like_pattern(&fields[array_pat::ELEMS]),
        Kind::RestPat if fields.len() == 2 => is_like_pattern(&fields[rest_pat::ARG]),
        Kind::AssignPat if fields.len() == 3 => is_like_pattern(&fields[assign_pat::LEFT]),
        Kind::KeyValuePatProp if fields.len() == 2 => {
            is_like_pattern(&fields[key_value_pat_prop::VALUE])
        }
        Kind::VarDeclarator if fields.len() == 3 => is_like_pattern(&fields[var_declarator::NAME]),
        Kind::CatchClause if fields.len() == 3 => is_like_pattern(&fields[catch_clause::PARAM]),
        _ => false,
    }
}
