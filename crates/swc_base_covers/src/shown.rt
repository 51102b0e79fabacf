//! Where a cause shows.
ghost use Rattle.std.specs.Prelude.{◌≡◌, IfOk, OnOk, slice_get};
ghost use Rattle.swc_tree_node.specs.declared.node.Node.{Tree, out-Node};
ghost use Rattle.swc_tree_node.specs.declared.node.Node.TheOpen.{Node-F};
ghost use Rattle.swc_tree_scoping.specs.Places.{given};
ghost use Rattle.swc_base_rename_units.specs.Eval.{is_eval as is_named_eval, reads_names as is_reading};
ghost use Rattle.swc_base_covers.specs.Shown as spec;
ghost use Rattle.swc_base_covers.specs.Shown.{IsShown};
ghost use Rattle.swc_base_covers.specs.Sought.{IsSought, IsSoughtBelow};

use crate::causes::has_any;
use crate::gap::Cause;
use std::alloc::{AllocError, Global};
use swc_tree_marks::Ident;
use swc_tree_node::fields::{call_expr, labeled_stmt, paren_expr, seq_expr};
use swc_tree_node::{Kind, Node};
use swc_tree_scoping::{
    PROGRAM_PLACE, Place, PlacesBelow, Standing, is_binding, places_of_fields, places_of_items,
};

// Whether an expression is the identifier `eval`, bare or in parentheses and sequences of one.
#[cycle(is_eval)]
fn is_eval(node: &Node) -> bool
    ensures { result ≡ is_named_eval node.now }
{
    match node {
        Node::Identifier(Kind::Ident, ident) => ident.get().sym.as_str() == "eval",
        Node::List(items) => {
            let items = items.as_slice();
            items.len() == 1 && is_eval(&items[0])
        }
        Node::Tree(kind, fields) => is_eval_within(*kind, fields.as_slice()),
        _ => false,
    }
}

#[cycle(is_eval)]
fn is_eval_within(kind: Kind, fields: &[Node]) -> bool
    ensures { result ≡ is_named_eval (Tree kind fields.now) }
{
    let inner = match kind {
        Kind::ParenExpr => fields.get(paren_expr::EXPR),
        Kind::SeqExpr => fields.get(seq_expr::EXPRS),
        _ => None,
    };
    match inner {
        Some(inner) => is_eval(inner),
        None => false,
    }
}

// Whether a tree is a call of `eval`, or a `with`.
fn reads_names(kind: Kind, fields: &[Node]) -> bool
    ensures { result ≡ is_reading (Node-F.Tree kind fields.now) }
{
    match kind {
        Kind::CallExpr => match fields.get(call_expr::CALLEE) {
            Some(callee) => is_eval(callee),
            None => false,
        },
        Kind::WithStmt => true,
        _ => false,
    }
}

fn declares_type(kind: Kind) -> bool
    ensures { result ≡ spec.declares_type kind }
{
    matches!(
        kind,
        Kind::TsInterfaceDecl | Kind::TsTypeAliasDecl | Kind::TsEnumDecl | Kind::TsModuleDecl
    )
}

fn declares_function(node: &Node) -> bool
    ensures { result ≡ spec.declares_function (out-Node node.now) }
{
    match node {
        Node::Tree(Kind::FnDecl, _) => true,
        _ => false,
    }
}

// Whether a label stands before a function declaration.
fn labels_function(kind: Kind, fields: &[Node]) -> bool
    ensures { result ≡ spec.labels_function kind fields.now }
{
    match kind {
        Kind::LabeledStmt => match fields.get(labeled_stmt::BODY) {
            Some(body) => declares_function(body),
            None => false,
        },
        _ => false,
    }
}

// Whether a cause shows at a tree of a kind.
fn shows_at_tree(cause: Cause, kind: Kind, fields: &[Node]) -> bool
    ensures { result ≡ spec.shows_tree cause kind fields.now }
{
    match cause {
        Cause::Types => declares_type(kind),
        Cause::Reads => reads_names(kind, fields),
        Cause::Label => labels_function(kind, fields),
        _ => false,
    }
}

// Whether a cause shows at an identifier that stands so.
fn shows_at_name(cause: Cause, standing: Standing, ident: &Ident) -> bool
    ensures { result ≡ spec.shows_name cause standing ident.now }
{
    match cause {
        Cause::Context => has_any(ident.ctxt.marks()),
        Cause::Function => matches!(standing, Standing::SloppyFunction),
        Cause::Eval => {
            is_binding(standing)
                && (ident.sym.as_str() == "eval" || ident.sym.as_str() == "arguments")
        }
        _ => false,
    }
}

// Goes on to the first node at which a cause shows, and whether there is one; the path leads there then.
#[cycle(seek)]
fn seek(cause: Cause, node: &Node, place: Place, path: &mut Vec<usize>) -> Result<bool, AllocError>
    ensures { IfOk result (IsSought cause place node.now path.old.items path.new.items) }
{
    match node {
        Node::Identifier(_, ident) => Ok(shows_at_name(cause, place.standing, ident.get())),
        Node::List(items) => seek_below(cause, items.as_slice(), places_of_items(place), path),
        Node::Tree(kind, fields) => {
            let fields = fields.as_slice();
            if shows_at_tree(cause, *kind, fields) {
                return Ok(true);
            }
            seek_below(cause, fields, places_of_fields(place, *kind, fields), path)
        }
        _ => Ok(false),
    }
}

#[cycle(seek)]
fn seek_below(
    cause: Cause,
    nodes: &[Node],
    places: PlacesBelow,
    path: &mut Vec<usize>,
) -> Result<bool, AllocError>
    ensures { IfOk result (IsSoughtBelow cause places nodes.now path.old.items path.new.items) }
{
    for i in 0..nodes.len() {
        let node = &nodes[i];
        if !node.may_hold_names() {
            continue;
        }
        path.push(i)?;
        if seek(cause, node, places.at(i, node), path)? {
            return Ok(true);
        }
        path.pop();
    }
    Ok(false)
}

/// Where a cause shows first in a program, if it shows at a node.
///
/// # Errors
///
/// Where memory was refused.
pub fn first_shown(
    alloc: Global,
    cause: Cause,
    program: &Node,
) -> Result<Option<Vec<usize>>, AllocError>
    ensures { IfOk result (IsShown cause program.now) }
{
    let mut path = Vec::new(alloc);
    if seek(cause, program, PROGRAM_PLACE, &mut path)? {
        return Ok(Some(path));
    }
    Ok(None)
}
