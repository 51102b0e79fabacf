//! Where a node that is looked for stands.
ghost use Rattle.std.specs.Prelude.{◌≡◌, ◌++◌, ◌∷◌, [], IfOk};
ghost use Rattle.text_writing.specs.Places.{IsPlace, Leads, LeadsBelow};

use std::alloc::{AllocError, Global};
use swc_tree_node::Node;
use swc_tree_walk::Finder;

// A path with one step more behind it.
fn with_step(path: Vec<usize>, step: usize) -> Result<Vec<usize>, AllocError>
    ensures { IfOk result (λ longer. longer.items ≡ path.items ++ step ∷ []) }
{
    let mut longer = path;
    longer.push(step)?;
    Ok(longer)
}

// The path to the first node that is looked for, the last step first.
#[cycle(find)]
fn find<F: Finder>(alloc: Global, finder: &F, tree: &Node) -> Result<Option<Vec<usize>>, AllocError>
    ensures { IfOk result (Leads (F.is_sought finder.now) tree.now) }
{
    if finder.is_sought(tree) {
        return Ok(Some(Vec::new(alloc)));
    }
    find_below(alloc, finder, tree.children())
}

// The same from one of some trees on.
#[cycle(find)]
fn find_below<F: Finder>(
    alloc: Global,
    finder: &F,
    trees: &[Node],
) -> Result<Option<Vec<usize>>, AllocError>
    ensures { IfOk result (LeadsBelow (F.is_sought finder.now) trees.now) }
{
    for i in 0..trees.len() {
        let found = find(alloc, finder, &trees[i])?;
        match found {
            Some(path) => {
                let longer = with_step(path, i)?;
                return Ok(Some(longer));
            }
            None => (),
        }
    }
    Ok(None)
}

/// Where a node that is looked for stands: numbers of children that lead to the first from the root; none if none stands there.
///
/// It looks at each node at most once.
///
/// # Errors
///
/// Where memory is refused.
pub fn place_of<F: Finder>(
    alloc: Global,
    finder: &F,
    tree: &Node,
) -> Result<Option<Vec<usize>>, AllocError>
    ensures { IfOk result (IsPlace (F.is_sought finder.now) tree.now) }
{
    let found = find(alloc, finder, tree)?;
    match found {
        Some(mut path) => {
            path.reverse();
            Ok(Some(path))
        }
        None => Ok(None),
    }
}
