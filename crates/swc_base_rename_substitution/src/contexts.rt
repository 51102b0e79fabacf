//! Contexts that are taken away once texts alone tell names apart.
ghost use Rattle.std.specs.Prelude.{◌≡◌, map};
ghost use Rattle.swc_tree_scoping.specs.Readings.{by_texts};

use std::alloc::Global;
use swc_tree_items::Items;
use swc_tree_marks::SyntaxContext;
use swc_tree_node::Node;

/// The tree with the context of each identifier empty.
///
/// The tree is changed in place, once over it, and no memory is asked for.
pub fn clear_contexts(alloc: Global, node: Node) -> Node
    ensures { result ≡ by_texts node }
{
    let mut node = node;
    clear(alloc, &mut node);
    node
}

#[cycle(clear)]
fn clear(alloc: Global, node: &mut Node)
    ensures { node.new ≡ by_texts node.old }
{
    if let Some(children) = node.children_mut() {
        clear_all(alloc, children);
    } else if let Node::Identifier(_, ident) = node {
        ident.get_mut().ctxt = SyntaxContext::empty(alloc);
    }
}

#[cycle(clear)]
fn clear_all(alloc: Global, nodes: &mut Items<Node>)
    ensures { nodes.new ≡ map by_texts nodes.old }
{
    for i in 0..nodes.len() {
        if !nodes.as_slice()[i].may_hold_names() {
            continue;
        }
        clear(alloc, nodes.item_mut(i));
    }
}
