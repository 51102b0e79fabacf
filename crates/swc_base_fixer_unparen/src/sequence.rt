//! What is left of a sequence.
ghost use Rattle.std.specs.Prelude.{◌≡◌, ◌++◌, ◌<◌, get_or, length, IfOk, OnOk, IfSome};
ghost use Rattle.std.specs.List.{flat_map, filter, list_all};
ghost use Rattle.swc_tree_node.specs.declared.node.Node.{Absent};
ghost use Rattle.swc_tree_grammar.specs.Shapes.{items_of as listed};
ghost use Rattle.swc_tree_grammar.specs.Stripped.{effects, is_idle as idle, is_void as voids, busy as busy_of, parts, sequence as sequence_of, settled as settled_of};
ghost use Rattle.swc_base_fixer_unparen.specs.Fields.{field_left as field_left_of};

use std::alloc::{AllocError, Global};
use swc_tree_items::Items;
use swc_tree_node::fields::{seq_expr, unary_expr};
use swc_tree_node::{Kind, Node, Word};

/// The items of a list; another node has none.
pub fn items_of(alloc: Global, node: Node) -> Items<Node>
    ensures { result ≡ listed node }
{
    match node {
        Node::List(items) => items,
        _ => Items::new(alloc),
    }
}

// Whether an operator is `void`.
fn is_void(op: &Node) -> bool
    ensures { result ≡ voids op.now }
{
    matches!(op, Node::Word(Word::Void))
}

// Where the value of an expression is dropped: the field with all that is left of it, if that is one.
fn field_left(kind: Kind, fields: &[Node]) -> Option<usize>
    ensures field { result ≡ field_left_of kind fields.now }
    ensures within { IfSome result (λ i. i < length fields.now) }
{
    match kind {
        Kind::SeqExpr if fields.len() == 2 => Some(seq_expr::EXPRS),
        Kind::UnaryExpr if fields.len() == 3 && is_void(&fields[unary_expr::OP]) => {
            Some(unary_expr::ARG)
        }
        _ => None,
    }
}

// Whether evaluating an expression does nothing: a function, an arrow or a literal.
fn is_idle(expr: &Node) -> bool
    ensures { result ≡ idle expr.now }
{
    match expr {
        Node::Tree(kind, _) => matches!(
            kind,
            Kind::FnExpr
                | Kind::ArrowExpr
                | Kind::Str
                | Kind::Bool
                | Kind::Null
                | Kind::Number
                | Kind::BigInt
                | Kind::Regex
        ),
        _ => false,
    }
}

// Adds what is left of an expression whose value is dropped.
#[cycle(effects)]
fn add_effects(expr: Node, out: &mut Items<Node>) -> Result<(), AllocError>
    ensures { OnOk result (out.new ≡ out.old ++ effects expr) }
{
    match expr {
        Node::List(items) => add_all_effects(items, out),
        Node::Tree(kind, mut fields) => match field_left(kind, fields.as_slice()) {
            Some(index) => add_effects(fields.replace(index, Node::Absent), out),
            None => out.push(Node::Tree(kind, fields)),
        },
        expr => out.push(expr),
    }
}

#[cycle(effects)]
fn add_all_effects(mut exprs: Items<Node>, out: &mut Items<Node>) -> Result<(), AllocError>
    ensures { OnOk result (out.new ≡ out.old ++ flat_map effects exprs) }
{
    for i in 0..exprs.len() {
        let expr = exprs.replace(i, Node::Absent);
        add_effects(expr, out)?;
    }
    Ok(())
}

// Adds an expression to a sequence: of a sequence in it the items.
fn add_parts(alloc: Global, expr: Node, out: &mut Items<Node>) -> Result<(), AllocError>
    ensures { OnOk result (out.new ≡ out.old ++ parts expr) }
{
    match expr {
        Node::Tree(kind, mut fields) => match kind {
            Kind::SeqExpr if fields.len() == 2 => {
                out.append(items_of(alloc, fields.replace(seq_expr::EXPRS, Node::Absent)))
            }
            kind => out.push(Node::Tree(kind, fields)),
        },
        expr => out.push(expr),
    }
}

/// Adds expressions to a sequence: of sequences among them the items.
pub fn add_all_parts(
    alloc: Global,
    mut exprs: Items<Node>,
    out: &mut Items<Node>,
) -> Result<(), AllocError>
    ensures { OnOk result (out.new ≡ out.old ++ flat_map parts exprs) }
{
    for i in 0..exprs.len() {
        let expr = exprs.replace(i, Node::Absent);
        add_parts(alloc, expr, out)?;
    }
    Ok(())
}

fn all_idle(exprs: &[Node]) -> bool
    ensures { result ≡ list_all idle exprs.now }
{
    exprs.iter().all(|expr| is_idle(expr))
}

// The items before the last without the idle ones, of which the first stays where there is no other.
fn busy(exprs: Items<Node>) -> Items<Node>
    ensures { result ≡ busy_of exprs }
{
    let all = all_idle(exprs.as_slice());
    let mut exprs = exprs.into_vec();
    if all {
        exprs.truncate(1);
    } else {
        exprs.retain(|expr| !is_idle(expr));
    }
    Items::from_vec(exprs)
}

// The items of a sequence that has no sequence among them, without those that do nothing.
fn settled(alloc: Global, mut exprs: Items<Node>) -> Result<Items<Node>, AllocError>
    ensures { IfOk result (λ r. r ≡ settled_of exprs) }
{
    match exprs.pop() {
        None => Ok(exprs),
        Some(last) => {
            let mut effects = Items::new(alloc);
            add_all_effects(exprs, &mut effects)?;
            let mut items = busy(effects);
            items.push(last)?;
            Ok(items)
        }
    }
}

/// What is left of a sequence with these items, by its fields. The items are stripped, and no sequence is
/// among them.
pub fn sequence(
    alloc: Global,
    mut fields: Items<Node>,
    exprs: Items<Node>,
) -> Result<Node, AllocError>
    requires { length fields ≡ 2 }
    ensures { IfOk result (λ t. t ≡ sequence_of (get_or fields 0 Absent) (settled_of exprs)) }
{
    let mut items = settled(alloc, exprs)?;
    if items.len() == 1 {
        return Ok(items.replace(0, Node::Absent));
    }
    fields.set(seq_expr::EXPRS, Node::List(items));
    Ok(Node::Tree(Kind::SeqExpr, fields))
}
