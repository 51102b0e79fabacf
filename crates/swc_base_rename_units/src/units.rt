//! Units: functions and classes whose names may be given apart from those round them.
ghost use Rattle.std.specs.Prelude.{◌≡◌, ◌≤◌, IfOk, IfErr, OnOk, length};
ghost use Rattle.swc_tree_node.specs.declared.node.Node.{out-Node};
ghost use Rattle.swc_base_rename_substitution.specs.Room.{FitsAs};
ghost use Rattle.swc_base_rename_units.specs.Eval.{HasEval};
ghost use Rattle.swc_base_rename_units.specs.Units.{HasUnits, RefusesUnit, is_unit_kind as is_kind_of_unit};
ghost use Rattle.swc_base_rename_units.specs.Walk.{AreFreeTo, AreNamedTo, AreWalked, IsChildNamed, IsNextWalked, IsWalked, RefusesBefore, RefusesChild, RefusesEachWhereRead, RefusesNext, RefusesWhereRead, is_unit_at as is_unit_there, waiting_to};

use crate::eval::reads_names;
use std::alloc::Global;
use swc_tree_items::Items;
use swc_tree_marks::PassError;
use swc_tree_node::fields::{class_decl, fn_decl};
use swc_tree_node::{Kind, Node};

/// Gives a unit its names, apart from all round it.
pub trait Alone {
    ghost use Rattle.swc_tree_node.specs.declared.node.Node.{Node};
    ghost use Rattle.swc_tree_marks.specs.declared.error.PassError.{PassError};
    ghost use Rattle.std.specs.Prelude.{IfOk, IfErr};
    ghost use Rattle.swc_base_rename_substitution.specs.Room.{FitsAs};

    /// What a unit becomes.
    ghost becomes: { Self → Node → Node → Type 0 };

    /// Why it is refused.
    ghost refuses: { Self → Node → PassError → Type 0 };

    /// The unit with its names.
    ///
    /// # Errors
    ///
    /// Those that `refuses` says. The unit is then dropped.
    fn rename(&self, alloc: Global, unit: Node) -> Result<Node, PassError>
        ensures becomes { IfOk result (becomes self.now unit) }
        ensures refused { IfErr result (refuses self.now unit) }
        ensures fits { IfOk result (FitsAs unit) };
}

// What the children are that are looked at.
#[derive(Clone, Copy)]
pub enum Above {
    Items,
    Fields(Kind),
}

fn is_unit_kind(kind: Kind) -> bool
    ensures { result ≡ is_kind_of_unit kind }
{
    matches!(
        kind,
        Kind::ArrowExpr
            | Kind::FnExpr
            | Kind::MethodProp
            | Kind::GetterProp
            | Kind::SetterProp
            | Kind::ClassMethod
            | Kind::PrivateMethod
            | Kind::Constructor
    )
}

// Whether a child is a unit.
fn is_unit(above: Above, index: usize, child: &Node) -> bool
    ensures { result ≡ is_unit_there above index (out-Node child.now) }
{
    match above {
        Above::Fields(Kind::FnDecl) => index == fn_decl::FUNCTION,
        Above::Fields(Kind::ClassDecl) => index == class_decl::CLASS,
        Above::Fields(Kind::ExportDefaultDecl) => false,
        _ => match child {
            Node::Tree(kind, _) => is_unit_kind(*kind),
            _ => false,
        },
    }
}

/// A tree in which each outermost unit without a direct `eval` and `with` has its names, and nothing else changed.
///
/// Each node is looked at a fixed number of times, beside what the units cost alone: once by a walk that tells where a reader
/// of names stands, and at most once more by one that names what lies outside all readers.
///
/// # Errors
///
/// Those of a unit. The tree is then dropped.
pub fn rename_units<A: Alone>(alloc: Global, alone: &A, node: Node) -> Result<Node, PassError>
    ensures renamed { IfOk result (HasUnits (A.becomes alone.now) node) }
    ensures refused { IfErr result (RefusesUnit (A.refuses alone.now) node) }
    ensures fits { IfOk result (FitsAs node) }
{
    let (found, node) = name_where_read(alloc, alone, node)?;
    if found {
        return Ok(node);
    }
    name_free(alloc, alone, false, node)
}

// Whether a reader of names stands in a node. Where one does, its outermost units without a reader have their names, and
// else it is as it was: its units wait, since the node may itself be in a unit without a reader.
#[cycle(name_where_read)]
fn name_where_read<A: Alone>(
    alloc: Global,
    alone: &A,
    node: Node,
) -> Result<(bool, Node), PassError>
    ensures walked { IfOk result (λ answer. IsWalked (A.becomes alone.now) node answer.0 answer.1) }
    ensures refused { IfErr result (RefusesWhereRead (A.refuses alone.now) node) }
{
    match node {
        Node::List(items) => {
            let (found, items) = name_each(alloc, alone, Above::Items, false, items)?;
            Ok((found, Node::List(items)))
        }
        Node::Tree(kind, fields) => {
            let reads = reads_names(kind, fields.as_slice());
            let (found, fields) = name_each(alloc, alone, Above::Fields(kind), reads, fields)?;
            Ok((found, Node::Tree(kind, fields)))
        }
        leaf => Ok((false, leaf)),
    }
}

// The same for the children of a node, which may itself be a reader. With the first reader, the children before it have
// their units named.
#[cycle(name_where_read)]
fn name_each<A: Alone>(
    alloc: Global,
    alone: &A,
    above: Above,
    reads: bool,
    mut nodes: Items<Node>,
) -> Result<(bool, Items<Node>), PassError>
    ensures walked { IfOk result (λ answer. AreWalked (A.becomes alone.now) above reads nodes answer.0 answer.1) }
    ensures refused { IfErr result (RefusesEachWhereRead (A.refuses alone.now) above reads nodes) }
{
    let mut found = reads;
    for i in 0..nodes.len() {
        let node = nodes.replace(i, Node::Absent);
        let is_unit = is_unit(above, i, &node);
        let (read, node) = name_next(alloc, alone, found, is_unit, node)?;
        nodes.set(i, node);
        name_before(alloc, alone, above, waiting(found, read, i), &mut nodes)?;
        found = found || read;
    }
    Ok((found, nodes))
}

// How many children wait for their units' names no longer: all before the first with a reader.
fn waiting(found: bool, read: bool, index: usize) -> usize
    ensures { result ≡ waiting_to found read index }
{
    if read && !found { index } else { 0 }
}

// A child: where a reader was found before it, it has its units named in any case.
#[cycle(name_where_read)]
fn name_next<A: Alone>(
    alloc: Global,
    alone: &A,
    found: bool,
    is_unit: bool,
    node: Node,
) -> Result<(bool, Node), PassError>
    ensures walked { IfOk result (λ answer. IsNextWalked (A.becomes alone.now) found is_unit node answer.0 answer.1) }
    ensures refused { IfErr result (RefusesNext (A.refuses alone.now) found is_unit node) }
{
    let (read, node) = name_where_read(alloc, alone, node)?;
    if read || !found {
        return Ok((read, node));
    }
    let node = name_free(alloc, alone, is_unit, node)?;
    Ok((false, node))
}

// A child without a reader of names: a unit is renamed alone, and any other has its units renamed.
#[cycle(name_free)]
fn name_free<A: Alone>(
    alloc: Global,
    alone: &A,
    is_unit: bool,
    node: Node,
) -> Result<Node, PassError>
    requires { ¬ HasEval node }
    ensures renamed { IfOk result (IsChildNamed (A.becomes alone.now) is_unit node) }
    ensures refused { IfErr result (RefusesChild (A.refuses alone.now) is_unit node) }
{
    if is_unit {
        return alone.rename(alloc, node);
    }
    match node {
        Node::List(mut items) => {
            name_before(alloc, alone, Above::Items, items.len(), &mut items)?;
            Ok(Node::List(items))
        }
        Node::Tree(kind, mut fields) => {
            name_before(alloc, alone, Above::Fields(kind), fields.len(), &mut fields)?;
            Ok(Node::Tree(kind, fields))
        }
        leaf => Ok(leaf),
    }
}

// The same for the children before a number, which have no reader of names.
#[cycle(name_free)]
fn name_before<A: Alone>(
    alloc: Global,
    alone: &A,
    above: Above,
    end: usize,
    nodes: &mut Items<Node>,
) -> Result<(), PassError>
    requires within { end ≤ length nodes.old }
    requires free { AreFreeTo nodes.old end }
    ensures named { OnOk result (AreNamedTo (A.becomes alone.now) above end nodes.old nodes.new) }
    ensures refused { IfErr result (RefusesBefore (A.refuses alone.now) above end nodes.old) }
{
    for i in 0..end {
        let node = nodes.replace(i, Node::Absent);
        let is_unit = is_unit(above, i, &node);
        let node = name_free(alloc, alone, is_unit, node)?;
        nodes.set(i, node);
    }
    Ok(())
}
