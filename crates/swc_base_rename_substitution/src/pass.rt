//! Substitution over a tree.
ghost use Rattle.std.specs.Prelude.{IfOk};
ghost use Rattle.swc_base_rename_substitution.specs.Names.{new_id};
ghost use Rattle.swc_base_rename_substitution.specs.Substituted.{Substituted};
ghost use Rattle.swc_base_rename_substitution.specs.Room.{FitsAs};

use crate::config::Config;
use crate::names::Names;
use crate::place::Place;
use crate::substitution::substitute_node;
use std::alloc::Global;
use swc_tree_marks::NoMemory;
use swc_tree_node::Node;

/// The tree with its names given anew: at each binding and each reference whose id has a new text there
/// stands the new id. Labels, keys, private names, imported and exported names stay, and so does an
/// identifier whose new text is its old one.
///
/// What the old name still stands for is written out: `{ a }` becomes `{ a: a1 }`, `{ a = 1 }` in a pattern
/// `{ a: a1 = 1 }`, `import { a }` becomes `import { a as a1 }`, `export { a }` becomes `export { a1 as a }`,
/// and `export let a, b;` becomes `let a1, b; export { a1 as a, b };`. Where classes keep their names,
/// `class A {}` becomes `let A1 = class A {};`, unless it is exported.
///
/// A tree that fits its place in a program still does.
///
/// The tree is changed in place. Memory is asked for where a name is put in and where one is written out,
/// for lists in which an exported declaration stands, and for the names of such declarations.
///
/// # Errors
///
/// `NoMemory` where memory is refused. The tree is then dropped.
pub fn substitute(
    alloc: Global,
    names: &Names,
    config: &Config,
    node: Node,
) -> Result<Node, NoMemory>
    ensures answer { IfOk result (Substituted (new_id names.now) config.now.keep_class_names node) }
    ensures fits { IfOk result (FitsAs node) }
{
    substitute_node(alloc, *names, config.keep_class_names, Place::Other, node)
}
