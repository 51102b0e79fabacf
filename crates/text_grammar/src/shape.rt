//! Lengths that productions have (ECMA-262, 13 to 16).
ghost use Rattle.std.specs.Prelude.{◌≡◌, ◌↔◌, IsTrue};
ghost use Rattle.swc_tree_node.specs.declared.node.Node.TheOpen.{Node-F};
ghost use Rattle.text_grammar.specs.Shaped as spec;
ghost use Rattle.text_grammar.specs.Shaped.{Shaped};

use crate::classes::is_misshapen_member;
use crate::parts::{
    has_odd_rest, has_one_default, has_two, is_bare_try, is_odd_call, is_odd_yield, is_template,
};
use swc_tree_node::fields::{
    call_expr, object_pat, seq_expr, switch_stmt, tpl, try_stmt, yield_expr,
};
use swc_tree_node::{Kind, Node};
use swc_tree_walk::{Finder, has_node};

// Whether a node's lengths are those of no production.
fn is_misshapen(kind: Kind, fields: &[Node]) -> bool
    ensures { result ≡ spec.is_misshapen (Node-F.Tree kind fields.now) }
{
    match kind {
        Kind::TryStmt if fields.len() == 4 => {
            is_bare_try(&fields[try_stmt::HANDLER], &fields[try_stmt::FINALIZER])
        }
        Kind::SwitchStmt if fields.len() == 3 => !has_one_default(&fields[switch_stmt::CASES]),
        Kind::SeqExpr if fields.len() == 2 => !has_two(&fields[seq_expr::EXPRS]),
        Kind::YieldExpr if fields.len() == 3 => {
            is_odd_yield(&fields[yield_expr::ARG], &fields[yield_expr::DELEGATE])
        }
        Kind::Tpl if fields.len() == 3 => !is_template(&fields[tpl::EXPRS], &fields[tpl::QUASIS]),
        Kind::CallExpr if fields.len() == 3 => {
            is_odd_call(&fields[call_expr::CALLEE], &fields[call_expr::ARGS])
        }
        Kind::ObjectPat if fields.len() == 2 => has_odd_rest(&fields[object_pat::PROPS]),
        kind => is_misshapen_member(kind, fields),
    }
}

/// Looks for nodes with lengths that no production has.
#[derive(Clone, Copy)]
pub struct Misshapen;

impl Finder for Misshapen {
    ghost use Rattle.text_grammar.specs.Shaped as spec;

    ghost is_sought = { λ _ node. spec.is_misshapen node };

    fn is_sought(&self, node: &Node) -> bool {
        match node {
            Node::Tree(kind, fields) => is_misshapen(*kind, fields.as_slice()),
            _ => false,
        }
    }
}

/// Whether each node of a tree has lengths that its production has.
///
/// It takes no memory, and looks at each node once; the time is in step with the size of the tree.
pub fn is_shaped(tree: &Node) -> bool
    ensures { IsTrue result ↔ Shaped tree.now }
{
    !has_node(&Misshapen, tree)
}
