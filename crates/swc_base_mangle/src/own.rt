//! The ids of a program's own scope.
ghost use Rattle.std.specs.Prelude.{◌≡◌, ◌∷◌, [], ◌&&◌, ◌||◌, true, IfOk, OnOk, if◌then◌else◌};
ghost use Rattle.std.specs.List.{list_any};
ghost use Rattle.std.specs.HashSet.{contains};
ghost use Rattle.std.specs.Str.{bytes_eq};
ghost use Rattle.swc_tree_scoping.specs.BoundNames.{Id};
ghost use Rattle.swc_base_rename_naming.specs.Ids.{HasJust};
ghost use Rattle.swc_base_rename_substitution.specs.Names.{same_id};
ghost use Rattle.swc_base_mangle.specs.Own.{is_own};

use std::alloc::Global;
use std::collections::HashSet;
use swc_tree_marks::{Id, Ident, Mark, NoMemory, SyntaxContext};
use swc_tree_node::Node;

// Whether a mark is all of a context.
fn is_just(context: &SyntaxContext, mark: Mark) -> bool
    ensures { result ≡ bytes_eq context.now (mark ∷ []) }
{
    context.marks() == [mark].as_slice()
}

// Adds the id of an identifier that has just the mark.
fn note(top: Mark, ident: &Ident, ids: &mut HashSet<Id>) -> Result<(), NoMemory>
    ensures { OnOk result ((x : Id) → contains same_id ids.new x ≡ (if bytes_eq ident.now.ctxt (top ∷ []) && same_id (ident.now.sym, ident.now.ctxt) x then true else contains same_id ids.old x)) }
{
    if is_just(&ident.ctxt, top) {
        let id = ident.to_id()?;
        ids.insert(id)?;
    }
    Ok(())
}

// Adds the ids that stand in a tree with just the mark.
#[cycle(gather)]
#[tactic(auto, using(crate::proofs::OwnIds::noted, crate::proofs::OwnIds::own_of_identifier, crate::proofs::OwnIds::own_of_list, crate::proofs::OwnIds::own_of_tree))]
fn gather(top: Mark, tree: &Node, ids: &mut HashSet<Id>) -> Result<(), NoMemory>
    ensures { OnOk result ((x : Id) → contains same_id ids.new x ≡ (contains same_id ids.old x || is_own top tree.now x)) }
{
    match tree {
        Node::Identifier(_, ident) => note(top, ident.get(), ids),
        Node::List(trees) => gather_all(top, trees.as_slice(), ids),
        Node::Tree(_, trees) => gather_all(top, trees.as_slice(), ids),
        _ => Ok(()),
    }
}

// The same of some trees.
#[cycle(gather)]
#[tactic(auto, using(crate::proofs::OwnIds::own_of_leaf))]
fn gather_all(top: Mark, trees: &[Node], ids: &mut HashSet<Id>) -> Result<(), NoMemory>
    ensures { OnOk result ((x : Id) → contains same_id ids.new x ≡ (contains same_id ids.old x || list_any (λ t. is_own top t x) trees.now)) }
{
    for tree in trees {
        if !tree.may_hold_names() {
            continue;
        }
        gather(top, tree, ids)?;
    }
    Ok(())
}

/// The ids that stand in a tree with just the mark. Where it is the mark of a program that was resolved, they are the names that the
/// program's scope declares.
///
/// It looks at each node at most once.
///
/// # Errors
///
/// `NoMemory` where memory is refused.
pub fn own_ids(alloc: Global, top: Mark, tree: &Node) -> Result<HashSet<Id>, NoMemory>
    ensures { IfOk result (HasJust (is_own top tree.now)) }
{
    let mut ids = HashSet::new(alloc);
    gather(top, tree, &mut ids)?;
    Ok(ids)
}
