//! Where the nodes of a tree stand in its text.
ghost use Rattle.std.specs.List.{flat_map};
ghost use Rattle.std.specs.Prelude.{◌≡◌, ◌↔◌, ◌++◌, IfOk, IsTrue, OnOk, drop, map};
ghost use Rattle.mucwathi_looks.specs.Spots.{names, seen, spots, untold};

use std::alloc::{AllocError, Global};
use swc_tree_node::{Kind, Node};

/// Where a node begins in a text, and what it is called if it is an identifier.
#[derive(Clone, Copy, Debug)]
pub(crate) struct Spot<'a> {
    /// Where its span begins: with 1 the first byte of a text, with 0 none.
    pub lo: u32,
    pub name: Option<&'a str>,
}

// The fields of a node that are told of: all, but for the span of a binary operation.
fn told_fields(kind: Kind, fields: &[Node]) -> &[Node]
    ensures { result.now ≡ drop (untold kind) fields.now }
{
    match kind {
        Kind::BinExpr => fields.get(1..).unwrap_or(fields),
        _ => fields,
    }
}

#[cycle(add_spots)]
fn add_spots<'a>(node: &'a Node, found: &mut Vec<Spot<'a>>) -> Result<(), AllocError>
    ensures { OnOk result (map seen found.new.items ≡ map seen found.old.items ++ spots node.now) }
{
    match node {
        Node::Identifier(_, ident) => {
            let ident = ident.get();
            found.push(Spot {
                lo: ident.span.lo,
                name: Some(ident.sym.as_str()),
            })?;
            Ok(())
        }
        Node::Span(span) => {
            found.push(Spot {
                lo: span.lo,
                name: None,
            })?;
            Ok(())
        }
        Node::List(nodes) => add_spots_of(nodes.as_slice(), found),
        Node::Tree(kind, fields) => add_spots_of(told_fields(*kind, fields.as_slice()), found),
        _ => Ok(()),
    }
}

#[cycle(add_spots)]
fn add_spots_of<'a>(nodes: &'a [Node], found: &mut Vec<Spot<'a>>) -> Result<(), AllocError>
    ensures { OnOk result (map seen found.new.items ≡ map seen found.old.items ++ flat_map spots nodes.now) }
{
    for i in 0..nodes.len() {
        add_spots(&nodes[i], found)?;
    }
    Ok(())
}

/// Where the nodes of a tree stand, each before what is below it.
pub(crate) fn spots_of(alloc: Global, tree: &Node) -> Result<Vec<Spot<'_>>, AllocError>
    ensures { IfOk result (λ found. map seen found.items ≡ spots tree.now) }
{
    let mut found = Vec::new(alloc);
    add_spots(tree, &mut found)?;
    Ok(found)
}

// Whether two nodes have one name, or none has one.
fn same_name(one: &Spot<'_>, other: &Spot<'_>) -> bool
    ensures { IsTrue result ↔ ((seen one.now).1 ≡ (seen other.now).1) }
{
    match one.name {
        Some(name) => match other.name {
            Some(beside) => name == beside,
            None => false,
        },
        None => other.name.is_none(),
    }
}

/// Whether nodes are as many as others, and each has the name of the one beside it, or none has one.
pub(crate) fn same_names(ones: &[Spot<'_>], others: &[Spot<'_>]) -> bool
    ensures { IsTrue result ↔ (names (map seen ones.now) ≡ names (map seen others.now)) }
{
    if ones.len() != others.len() {
        return false;
    }
    for i in 0..ones.len() {
        if !same_name(&ones[i], &others[i]) {
            return false;
        }
    }
    true
}
