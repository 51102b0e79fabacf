//! What reads names as a program runs.
ghost use Rattle.std.specs.Prelude.{◌≡◌, ◌↔◌, IsTrue};
ghost use Rattle.swc_tree_node.specs.declared.node.Node.{Tree};
ghost use Rattle.swc_tree_node.specs.declared.node.Node.TheOpen.{Node-F};
ghost use Rattle.swc_base_rename_units.specs.Eval.{AnyHasEval, HasEval, is_eval as is_named_eval, reads_names as is_reading};

use swc_tree_node::fields::{call_expr, paren_expr, seq_expr};
use swc_tree_node::{Kind, Node};

// Whether an expression is the identifier `eval`, bare or in parentheses and sequences of one.
#[cycle(is_eval)]
fn is_eval(node: &Node) -> bool
    ensures { result ≡ is_named_eval node.now }
{
    match node {
        Node::Identifier(Kind::Ident, ident) => ident.get().sym.as_str() == "eval",
        Node::List(items) => {
            let items = items.as_slice();
            items.len() == 1 && is_eval(&items[0])
        }
        Node::Tree(kind, fields) => is_eval_within(*kind, fields.as_slice()),
        _ => false,
    }
}

#[cycle(is_eval)]
fn is_eval_within(kind: Kind, fields: &[Node]) -> bool
    ensures { result ≡ is_named_eval (Tree kind fields.now) }
{
    let inner = match kind {
        Kind::ParenExpr => fields.get(paren_expr::EXPR),
        Kind::SeqExpr => fields.get(seq_expr::EXPRS),
        _ => None,
    };
    match inner {
        Some(inner) => is_eval(inner),
        None => false,
    }
}

/// Whether a node itself reads names: a call of `eval` that is not optional, or `with`.
pub fn reads_names(kind: Kind, fields: &[Node]) -> bool
    ensures { result ≡ is_reading (Node-F.Tree kind fields.now) }
{
    match kind {
        Kind::CallExpr => match fields.get(call_expr::CALLEE) {
            Some(callee) => is_eval(callee),
            None => false,
        },
        Kind::WithStmt => true,
        _ => false,
    }
}

/// Whether a direct `eval` or a `with` stands in a tree: a call, but no optional one, whose callee is the identifier `eval`,
/// bare or in parentheses and sequences of one (ECMA-262, 13.3.6.1), or a `with` statement (14.11).
///
/// It looks at each node at most once, and stops at the first that it finds.
#[cycle(has_eval)]
pub fn has_eval(node: &Node) -> bool
    ensures { IsTrue result ↔ HasEval node.now }
{
    match node {
        Node::List(items) => any_has_eval(items.as_slice()),
        Node::Tree(kind, fields) => {
            reads_names(*kind, fields.as_slice()) || any_has_eval(fields.as_slice())
        }
        _ => false,
    }
}

#[cycle(has_eval)]
fn any_has_eval(nodes: &[Node]) -> bool
    ensures { IsTrue result ↔ AnyHasEval nodes.now }
{
    for i in 0..nodes.len() {
        let node = &nodes[i];
        if !node.has_parts() {
            continue;
        }
        if has_eval(node) {
            return true;
        }
    }
    false
}
