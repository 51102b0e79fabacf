//! The pairs of a tree, the last of the source first.
ghost use Rattle.std.specs.Prelude.{◌≡◌, ◌++◌, map, OnOk, IfOk, reverse};
ghost use Rattle.std.specs.List.{flat_map};
ghost use Rattle.swc_tree_node.specs.declared.node.Node.TheOpen.{Node-F};
ghost use Rattle.swc_base_fixer_unparen.specs.Fields.{is_assignment as assigns};
ghost use Rattle.swc_tree_grammar.specs.Pairs.{found, inside_of, own_of, pairs, pairs_inside};

use std::alloc::{AllocError, Global};
use swc_tree_grammar::{Pair, span_of};
use swc_tree_items::Items;
use swc_tree_node::fields::{assign_expr, paren_expr};
use swc_tree_node::{Kind, Node};

// Whether the third field is the target of an assignment.
fn is_assignment(kind: Kind, fields: &[Node]) -> bool
    ensures { result ≡ assigns kind fields.now }
{
    matches!(kind, Kind::AssignExpr) && fields.len() == 4
}

// Adds the pair that the node is, if it is one.
#[tactic(auto, using(crate::proofs::Found::own_pair))]
fn add_own(kind: Kind, fields: &[Node], out: &mut Items<Pair>) -> Result<(), AllocError>
    ensures { OnOk result (out.new ≡ out.old ++ own_of (Node-F.Tree kind (map found fields.now))) }
{
    match kind {
        Kind::ParenExpr if fields.len() == 2 => out.push(Pair {
            content: span_of(&fields[paren_expr::EXPR]),
            whole: span_of(&fields[paren_expr::SPAN]),
        }),
        _ => Ok(()),
    }
}

// Adds the pairs in a node, each before those in it.
#[cycle(pairs)]
fn add_pairs(node: &Node, out: &mut Items<Pair>) -> Result<(), AllocError>
    ensures { OnOk result (out.new ≡ out.old ++ pairs node.now) }
{
    match node {
        Node::List(items) => add_each(items.as_slice(), out),
        Node::Tree(kind, fields) => {
            let fields = fields.as_slice();
            add_own(*kind, fields, out)?;
            add_inside(*kind, fields, out)?;
            Ok(())
        }
        _ => Ok(()),
    }
}

// Adds the pairs in a target, but for the one that the target is.
#[cycle(pairs)]
fn add_below(node: &Node, out: &mut Items<Pair>) -> Result<(), AllocError>
    ensures { OnOk result (out.new ≡ out.old ++ pairs_inside node.now) }
{
    match node {
        Node::List(items) => add_each(items.as_slice(), out),
        Node::Tree(kind, fields) => add_inside(*kind, fields.as_slice(), out),
        _ => Ok(()),
    }
}

#[cycle(pairs)]
#[inline(always)]
fn add_inside(kind: Kind, fields: &[Node], out: &mut Items<Pair>) -> Result<(), AllocError>
    ensures { OnOk result (out.new ≡ out.old ++ inside_of (Node-F.Tree kind (map found fields.now))) }
{
    if is_assignment(kind, fields) {
        add_below(&fields[assign_expr::LEFT], out)?;
        add_pairs(&fields[assign_expr::RIGHT], out)?;
        Ok(())
    } else {
        add_each(fields, out)
    }
}

#[cycle(pairs)]
#[tactic(auto, using(crate::proofs::Leaves::no_pairs))]
fn add_each(nodes: &[Node], out: &mut Items<Pair>) -> Result<(), AllocError>
    ensures { OnOk result (out.new ≡ out.old ++ flat_map pairs nodes.now) }
{
    for node in nodes {
        if node.has_parts() {
            add_pairs(node, out)?;
        }
    }
    Ok(())
}

/// The pairs at places of expressions, the last in the source first.
pub fn pairs_of(alloc: Global, node: &Node) -> Result<Items<Pair>, AllocError>
    ensures { IfOk result (λ r. r ≡ reverse (pairs node.now)) }
{
    let mut pairs = Items::new(alloc);
    add_pairs(node, &mut pairs)?;
    let mut pairs = pairs.into_vec();
    pairs.reverse();
    Ok(Items::from_vec(pairs))
}
