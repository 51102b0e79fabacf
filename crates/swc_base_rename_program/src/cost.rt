//! What it costs to rename a scope.
ghost use Rattle.std.specs.Prelude.{IfOk};
ghost use Rattle.swc_base_rename_program.specs.Cost.{CostsAreOfTheDefinitions, CostsByNumber};

use crate::surrounding::surrounds;
use std::alloc::Global;
use std::collections::BTreeSet;
use swc_base_rename_analysis::Analysis;
use swc_tree_marks::NoMemory;

/// How many ids are declared at a scope or below it, each counted once, which is what it costs to rename the scope.
/// The scope is told by its number.
///
/// # Errors
///
/// `NoMemory` where memory is refused.
///
/// # Cost
///
/// Time in step with the number of sites, but for the logarithm of how many ids they declare.
pub fn rename_cost(alloc: Global, analysis: &Analysis, scope: usize) -> Result<usize, NoMemory>
    ensures { IfOk result (CostsByNumber analysis.now scope) }
{
    let mut ids = BTreeSet::new(alloc);
    for site in analysis.sites.as_slice() {
        if surrounds(analysis, scope, site.scope) {
            ids.insert(site.id)?;
        }
    }
    Ok(ids.len())
}

/// Where what is read off a tree means the definitions, what is counted by numbers is what it costs to rename a scope.
pub fn costs_are_those_of_the_definitions()
    ensures { CostsAreOfTheDefinitions }
{}
