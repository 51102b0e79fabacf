//! The names that a pattern binds.
ghost use Rattle.std.specs.Prelude.{◌≡◌, ◌++◌, IfOk, OnOk};
ghost use Rattle.swc_tree_patterns.specs.Nodes.{of_pat};
ghost use Rattle.swc_tree_scoping.specs.BoundNames.{bound_ids};

use std::alloc::Global;
use swc_tree_items::Items;
use swc_tree_marks::{Id, NoMemory};
use swc_tree_patterns::Pat;
use swc_tree_scoping::{add_bound_ids, add_bound_in_items};

// Adds the ids that a pattern binds.
#[tactic(auto, using(crate::proofs::Bound::bound))]
fn add_pat_ids(pat: &Pat, ids: &mut Items<Id>) -> Result<(), NoMemory>
    ensures { OnOk result (ids.new ≡ ids.old ++ bound_ids (of_pat pat.now)) }
{
    match pat {
        Pat::Ident(binding) => {
            ids.push(binding.id.to_id()?)?;
            Ok(())
        }
        Pat::Array(array) => { add_bound_in_items(array.elems.as_slice(), ids) }
        Pat::Rest(rest) => { add_bound_ids(rest.arg.node(), ids) }
        Pat::Object(object) => { add_bound_in_items(object.props.as_slice(), ids) }
        Pat::Assign(assign) => { add_bound_ids(assign.left.node(), ids) }
        Pat::Expr(expr) => { add_bound_ids(expr.node(), ids) }
    }
}

/// The ids that a pattern binds, in the order of the source.
///
/// A name that is a key alone binds nothing, nor does one in a default, nor does an expression. It costs time in
/// step with the size of the pattern, its keys and defaults left out.
///
/// # Errors
///
/// `NoMemory` where memory was refused.
pub fn find_pat_ids(alloc: Global, pat: &Pat) -> Result<Vec<Id>, NoMemory>
    ensures { IfOk result (λ ids. ids.items ≡ bound_ids (of_pat pat.now)) }
{
    let mut ids = Items::new(alloc);
    add_pat_ids(pat, &mut ids)?;
    Ok(ids.into_vec())
}
