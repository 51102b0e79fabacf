//! The ids that a program binds.
use std::alloc::{AllocError, Global};
use std::collections::HashSet;
use swc_tree::{Id, Ident, Module, Opened};
use swc_tree_node::Node;
use swc_tree_walk::sites;

/// A program, and the ids that it binds, each once, in the order in which they first stand.
#[derive(Drop)]
pub struct Bound {
    pub program: Module,
    pub ids: Vec<Id>,
}

// Adds the id of an identifier, unless it was seen.
fn add_id(ident: &Ident, seen: &mut HashSet<Id>, ids: &mut Vec<Id>) -> Result<(), AllocError> {
    let id = ident.to_id()?;
    if !seen.contains(&id) {
        ids.push(ident.to_id()?)?;
        seen.insert(id)?;
    }
    Ok(())
}

// The ids that a tree binds.
fn ids_of(alloc: Global, tree: &Node) -> Result<Vec<Id>, AllocError> {
    let mut seen = HashSet::new(alloc);
    let mut ids = Vec::new(alloc);
    for site in sites(alloc, tree)? {
        if site.is_binding() {
            add_id(site.ident, &mut seen, &mut ids)?;
        }
    }
    Ok(ids)
}

impl Bound {
    /// A program with its ids.
    ///
    /// # Errors
    ///
    /// Where memory is refused.
    pub fn of(alloc: Global, program: Module) -> Result<Bound, AllocError> {
        let tree = program.into_node(alloc)?;
        let ids = ids_of(alloc, &tree)?;
        Ok(Bound {
            program: Module::from_node(tree),
            ids,
        })
    }
}
