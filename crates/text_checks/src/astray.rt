//! Nodes that no text is read as: chains that ask nothing, operators grouped to the right, heads of `for` that begin as a declaration.
ghost use Rattle.std.specs.Prelude.{◌≡◌};
ghost use Rattle.swc_tree_node.specs.declared.node.Node.{out-Node};
ghost use Rattle.swc_tree_node.specs.declared.node.Node.TheOpen.{Node-F};
ghost use Rattle.swc_tree_grammar.specs.Kinds.{is_chain as is_chain_node};
ghost use Rattle.text_checks.specs.Pinned as spec;

use crate::leaves::{is_set, word_of};
use crate::patterns::{is_astray_pattern, is_like_pattern};
use swc_tree_node::fields::{
    bin_expr, for_in_stmt, for_of_stmt, for_stmt, member_expr, opt_call, opt_chain_expr,
};
use swc_tree_node::{Kind, Node, Word};
use swc_tree_walk::Finder;
use text_derives::begins_with_let_bracket;

fn is_chain(node: &Node) -> bool
    ensures { result ≡ is_chain_node node.now }
{
    match node {
        Node::Tree(kind, _) => matches!(kind, Kind::OptChainExpr),
        _ => false,
    }
}

// Whether a part of a chain goes on from one.
fn goes_on(base: &Node) -> bool
    ensures { result ≡ spec.goes_on_in (out-Node base.now) }
{
    match base {
        Node::Tree(kind, fields) => {
            let fields = fields.as_slice();
            match kind {
                Kind::MemberExpr if fields.len() == 3 => is_chain(&fields[member_expr::OBJ]),
                Kind::OptCall if fields.len() == 3 => is_chain(&fields[opt_call::CALLEE]),
                _ => false,
            }
        }
        _ => false,
    }
}

fn asks_nothing(optional: &Node, base: &Node) -> bool
    ensures { result ≡ spec.asks_nothing optional.now base.now }
{
    !is_set(optional) && !goes_on(base)
}

// Which operator it is of those that the grammar groups either way; 0 of any other.
fn loose(word: Option<Word>) -> u8
    ensures { result ≡ spec.loose word }
{
    match word {
        Some(Word::LogicalOr) => 1,
        Some(Word::LogicalAnd) => 2,
        Some(Word::NullishCoalescing) => 3,
        _ => 0,
    }
}

fn loose_within(node: &Node) -> u8
    ensures { result ≡ spec.loose_in (out-Node node.now) }
{
    match node {
        Node::Tree(kind, fields) => {
            let fields = fields.as_slice();
            match kind {
                Kind::BinExpr if fields.len() == 4 => loose(word_of(&fields[bin_expr::OP])),
                _ => 0,
            }
        }
        _ => 0,
    }
}

// Whether the right side of an operator is joined by the same.
fn is_grouped_right(op: &Node, right: &Node) -> bool
    ensures { result ≡ spec.is_grouped_right op.now right.now }
{
    let number = loose(word_of(op));
    number != 0 && loose_within(right) == number
}

fn begins_so(node: &Node) -> bool
    ensures { result ≡ spec.begins_so node.now }
{
    begins_with_let_bracket(node)
}

fn is_astray_head(left: &Node) -> bool
    ensures { result ≡ spec.is_astray_head left.now }
{
    is_like_pattern(left) || begins_so(left)
}

fn is_astray(kind: Kind, fields: &[Node]) -> bool
    ensures { result ≡ spec.is_astray (Node-F.Tree kind fields.now) }
{
    match kind {
        Kind::OptChainExpr if fields.len() == 3 => {
            asks_nothing(
                &fields[opt_chain_expr::OPTIONAL],
                &fields[opt_chain_expr::BASE],
            )
        }
        Kind::BinExpr if fields.len() == 4 => {
            is_grouped_right(&fields[bin_expr::OP], &fields[bin_expr::RIGHT])
        }
        Kind::ForStmt if fields.len() == 5 => begins_so(&fields[for_stmt::INIT]),
        Kind::ForInStmt if fields.len() == 4 => is_astray_head(&fields[for_in_stmt::LEFT]),
        Kind::ForOfStmt if fields.len() == 5 => is_astray_head(&fields[for_of_stmt::LEFT]),
        kind => is_astray_pattern(kind, fields),
    }
}

/// Looks for nodes that no text is read as.
#[derive(Clone, Copy)]
pub struct Astray;

impl Finder for Astray {
    ghost use Rattle.text_checks.specs.Pinned as spec;

    ghost is_sought = { λ _ node. spec.is_astray node };

    fn is_sought(&self, node: &Node) -> bool {
        match node {
            Node::Tree(kind, fields) => is_astray(*kind, fields.as_slice()),
            _ => false,
        }
    }
}
