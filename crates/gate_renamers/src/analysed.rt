//! What a renamer is to know of a program, as text.
ghost use Rattle.swc_base_rename_analysis.specs.Read.{PositionsRise};

use std::alloc::{AllocError, Global};
use std::fmt::Write;
use swc_base_rename_analysis::{Analysis, analyse};
use swc_base_rename_program::rename_cost;
use swc_tree_marks::NoMemory;
use swc_tree_node::Node;

// An id of a number, with its marks behind it.
fn add_id(text: &mut String, analysis: &Analysis, id: usize) -> Result<(), AllocError> {
    let Some(entry) = analysis.ids.get(id) else {
        return Ok(());
    };
    write!(text, " {}", entry.id.0.as_str())?;
    for mark in entry.id.1.marks() {
        write!(text, "#{}", mark.as_u32())?;
    }
    Ok(())
}

// The ids that occur in a scope or below it.
fn add_occurring(text: &mut String, analysis: &Analysis, scope: usize) -> Result<(), AllocError>
    requires { PositionsRise analysis.now }
{
    write!(text, "{scope}:")?;
    for id in 0..analysis.ids.len() {
        if analysis.occurs(scope, id) {
            add_id(text, analysis, id)?;
        }
    }
    text.push_str("; ")
}

// The ids that scopes declare.
fn add_sites(text: &mut String, analysis: &Analysis) -> Result<(), AllocError> {
    for site in analysis.sites.as_slice() {
        write!(text, "{}", site.scope)?;
        add_id(text, analysis, site.id)?;
        text.push_str("; ")?;
    }
    Ok(())
}

// The ids that occur in each scope, those that each declares, and the texts of loose ids.
fn add_all(text: &mut String, analysis: &Analysis) -> Result<(), AllocError>
    requires { PositionsRise analysis.now }
{
    for scope in 0..analysis.regions.len() {
        add_occurring(text, analysis, scope)?;
    }
    text.push_str("declared: ")?;
    add_sites(text, analysis)?;
    text.push_str("loose:")?;
    for loose in &analysis.loose {
        write!(text, " {loose}")?;
    }
    Ok(())
}

// What it costs to rename each scope.
fn add_costs(alloc: Global, text: &mut String, analysis: &Analysis) -> Result<(), NoMemory> {
    text.push_str("; costs:")?;
    for scope in 0..analysis.regions.len() {
        let cost = rename_cost(alloc, analysis, scope)?;
        write!(text, " {cost}")?;
    }
    Ok(())
}

/// Of each scope the ids that occur in it, then the ids that each declares, in the order in which they get names, the
/// texts of loose ids, and last what it costs to rename each scope.
///
/// # Errors
///
/// `NoMemory` where memory is refused.
pub fn read_off(alloc: Global, tree: &Node) -> Result<String, NoMemory> {
    let analysis = analyse(alloc, tree)?;
    let mut text = String::new(alloc);
    add_all(&mut text, &analysis)?;
    add_costs(alloc, &mut text, &analysis)?;
    Ok(text)
}
