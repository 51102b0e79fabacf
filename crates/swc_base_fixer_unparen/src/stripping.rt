//! The tree without its pairs, and without what is idle in sequences and classes.
ghost use Rattle.std.specs.Prelude.{◌≡◌, [], Some, true, false, length, slice_get, map, IfOk, OnOk};
ghost use Rattle.std.specs.List.{flat_map};
ghost use Rattle.swc_tree_node.specs.declared.kind.Kind.TheVariants as kind;
ghost use Rattle.swc_tree_node.specs.declared.node.Node.{out-Node, Tree};
ghost use Rattle.swc_tree_node.specs.declared.node.Node.TheOpen.{Node-F};
ghost use Rattle.swc_tree_grammar.specs.Shapes.{items_of as listed};
ghost use Rattle.swc_tree_grammar.specs.Stripped.{is_member as defines, parts, strip_step, stripped, target as target_of};
ghost use Rattle.swc_base_fixer_unparen.specs.Gathered.{Gathered, is_pair as is_paren, is_sequence as is_seq, is_sequence_node, parts_left};

use crate::sequence::{add_all_parts, items_of, sequence};
use std::alloc::{AllocError, Global};
use std::mem;
use swc_tree_items::Items;
use swc_tree_node::fields::{assign_expr, paren_expr, seq_expr};
use swc_tree_node::{Kind, Node};

// The content of a parenthesised target, as a target.
fn target(left: Node) -> Node
    ensures { result ≡ target_of left }
{
    match left {
        Node::Identifier(Kind::Ident, ident) => Node::Identifier(Kind::BindingIdent, ident),
        left => left,
    }
}

fn assignment(mut fields: Items<Node>) -> Node
    requires { length fields ≡ 4 }
    ensures { result ≡ strip_step (Node-F.Tree kind.AssignExpr fields) }
{
    let left = fields.replace(assign_expr::LEFT, Node::Absent);
    fields.set(assign_expr::LEFT, target(left));
    Node::Tree(Kind::AssignExpr, fields)
}

// Whether a class member is more than a semicolon.
fn is_member(member: &Node) -> bool
    ensures { result ≡ defines member.now }
{
    match member {
        Node::Tree(kind, _) => !matches!(kind, Kind::EmptyStmt),
        _ => true,
    }
}

fn class(alloc: Global, mut fields: Items<Node>) -> Node
    requires { length fields ≡ 3 }
    ensures { result ≡ strip_step (Node-F.Tree kind.Class fields) }
{
    let mut members = items_of(
        alloc,
        fields.replace(swc_tree_node::fields::class::BODY, Node::Absent),
    )
    .into_vec();
    members.retain(|member| is_member(member));
    fields.set(
        swc_tree_node::fields::class::BODY,
        Node::List(Items::from_vec(members)),
    );
    Node::Tree(Kind::Class, fields)
}

// Whether a tree is a pair of parentheses.
fn is_pair(kind: Kind, fields: &[Node]) -> bool
    ensures { result ≡ is_paren kind fields.now }
{
    matches!(kind, Kind::ParenExpr) && fields.len() == 2
}

// Whether a tree is a sequence.
fn is_sequence(kind: Kind, fields: &[Node]) -> bool
    ensures { result ≡ is_seq kind fields.now }
{
    matches!(kind, Kind::SeqExpr) && fields.len() == 2
}

// The two fields of a sequence, taken out.
fn taken(fields: &mut Items<Node>) -> (Node, Node)
    requires { length fields.old ≡ 2 }
    ensures span { slice_get fields.old 0 ≡ Some result.0 }
    ensures exprs { slice_get fields.old 1 ≡ Some result.1 }
    ensures length { length fields.new ≡ 2 }
{
    let exprs = fields.replace(seq_expr::EXPRS, Node::Absent);
    let span = fields.replace(seq_expr::SPAN, Node::Absent);
    (span, exprs)
}

// A tree, but for a sequence, whose fields are stripped.
fn settle(alloc: Global, kind: Kind, mut fields: Items<Node>) -> Node
    requires { is_seq kind fields ≡ false }
    ensures { result ≡ strip_step (Node-F.Tree kind fields) }
{
    match kind {
        Kind::ParenExpr if fields.len() == 2 => fields.replace(paren_expr::EXPR, Node::Absent),
        Kind::AssignExpr if fields.len() == 4 => assignment(fields),
        Kind::Class if fields.len() == 3 => class(alloc, fields),
        kind => Node::Tree(kind, fields),
    }
}

// Whether a node whose parts are stripped is left as it is.
fn is_settled(node: &Node) -> bool
    ensures { result ≡ true → node.now ≡ strip_step (out-Node node.now) }
{
    !matches!(
        node,
        Node::Tree(
            Kind::ParenExpr | Kind::SeqExpr | Kind::AssignExpr | Kind::Class,
            _
        )
    )
}

// The same in place.
fn settle_node(alloc: Global, node: &mut Node)
    requires { is_sequence_node node.old ≡ false }
    ensures { node.new ≡ strip_step (out-Node node.old) }
{
    if !is_settled(node) {
        settle_apart(alloc, node);
    }
}

// The same of a node that may not be left as it is. It is kept out of the walk, which thus has little to do elsewhere.
#[inline(never)]
fn settle_apart(alloc: Global, node: &mut Node)
    requires { is_sequence_node node.old ≡ false }
    ensures { node.new ≡ strip_step (out-Node node.old) }
{
    match mem::replace(node, Node::Absent) {
        Node::Tree(kind, fields) => *node = settle(alloc, kind, fields),
        other => *node = other,
    }
}

/// The tree without parentheses, without sequences in sequences or of one item, without `void` and idle
/// items before the last of a sequence, and without empty class members.
///
/// It goes through the tree once, in place; only the lists of sequences are made anew, one for a sequence
/// and all those that are items of it, with or without parentheses.
pub fn strip(alloc: Global, node: Node) -> Result<Node, AllocError>
    ensures { IfOk result (λ t. t ≡ stripped node) }
{
    let mut node = node;
    strip_node(alloc, &mut node)?;
    Ok(node)
}

#[cycle(strip)]
fn strip_node(alloc: Global, node: &mut Node) -> Result<(), AllocError>
    ensures { OnOk result (node.new ≡ stripped node.old) }
{
    let kind = node.kind();
    let Some(children) = node.children_mut() else {
        return Ok(());
    };
    let Some(kind) = kind else {
        return strip_all(alloc, children);
    };
    if is_sequence(kind, children.as_slice()) {
        let fields = mem::replace(children, Items::new(alloc));
        *node = strip_sequence(alloc, fields)?;
        return Ok(());
    }
    strip_all(alloc, children)?;
    settle_node(alloc, node);
    Ok(())
}

#[cycle(strip)]
fn strip_all(alloc: Global, items: &mut Items<Node>) -> Result<(), AllocError>
    ensures { OnOk result (items.new ≡ map stripped items.old) }
{
    for i in 0..items.len() {
        if items.as_slice()[i].has_parts() {
            strip_node(alloc, items.item_mut(i))?;
        }
    }
    Ok(())
}

// A sequence, by its fields. All its items are gathered before any of them goes. It is kept out of the walk, too.
#[cycle(strip)]
#[inline(never)]
fn strip_sequence(alloc: Global, mut fields: Items<Node>) -> Result<Node, AllocError>
    requires { length fields ≡ 2 }
    ensures { IfOk result (λ t. t ≡ stripped (Tree kind.SeqExpr fields)) }
{
    let (mut span, exprs) = taken(&mut fields);
    strip_node(alloc, &mut span)?;
    fields.set(seq_expr::SPAN, span);
    let mut items = Items::new(alloc);
    gather_items(alloc, exprs, &mut items)?;
    let tree = sequence(alloc, fields, items)?;
    Ok(tree)
}

// Adds the stripped items of a sequence, by its field with them. One that is no list may strip to one.
#[cycle(strip)]
fn gather_items(alloc: Global, exprs: Node, out: &mut Items<Node>) -> Result<(), AllocError>
    ensures { OnOk result (Gathered out.old (flat_map parts (listed (stripped exprs))) out.new) }
{
    match exprs {
        Node::List(items) => gather_each(alloc, items, out),
        exprs => {
            let mut exprs = exprs;
            strip_node(alloc, &mut exprs)?;
            add_all_parts(alloc, items_of(alloc, exprs), out)
        }
    }
}

#[cycle(strip)]
fn gather_each(
    alloc: Global,
    mut exprs: Items<Node>,
    out: &mut Items<Node>,
) -> Result<(), AllocError>
    ensures { OnOk result (Gathered out.old (flat_map parts_left exprs) out.new) }
{
    for i in 0..exprs.len() {
        let expr = exprs.replace(i, Node::Absent);
        gather(alloc, expr, out)?;
    }
    Ok(())
}

// Adds a stripped item of a sequence: of a pair its content, of a sequence in it the items.
#[cycle(strip)]
fn gather(alloc: Global, expr: Node, out: &mut Items<Node>) -> Result<(), AllocError>
    ensures { OnOk result (Gathered out.old (parts_left expr) out.new) }
{
    match expr {
        Node::Tree(kind, mut fields) => {
            if is_pair(kind, fields.as_slice()) {
                return gather(alloc, fields.replace(paren_expr::EXPR, Node::Absent), out);
            }
            if is_sequence(kind, fields.as_slice()) {
                return gather_items(alloc, fields.replace(seq_expr::EXPRS, Node::Absent), out);
            }
            strip_all(alloc, &mut fields)?;
            out.push(settle(alloc, kind, fields))
        }
        Node::List(mut items) => {
            strip_all(alloc, &mut items)?;
            out.push(Node::List(items))
        }
        expr => out.push(expr),
    }
}
