//! A new text for every id of a tree.
use std::alloc::{AllocError, Global};
use std::collections::HashMap;
use swc_tree_items::Text;
use swc_tree_marks::{Id, Ident, JsWord};
use swc_tree_node::Node;

// Gives an id a text of its own, unless it has one.
fn add_text(
    alloc: Global,
    ident: &Ident,
    texts: &mut HashMap<Id, JsWord>,
) -> Result<(), AllocError> {
    let id = ident.to_id()?;
    if !texts.contains_key(&id) {
        let count = texts.len();
        let text = format!(in alloc; "v{count}")?;
        texts.insert(id, Text::from_string(alloc, text)?)?;
    }
    Ok(())
}

#[cycle(texts)]
fn add_texts(
    alloc: Global,
    node: &Node,
    texts: &mut HashMap<Id, JsWord>,
) -> Result<(), AllocError> {
    match node {
        Node::Identifier(_, ident) => add_text(alloc, ident.get(), texts),
        Node::List(nodes) | Node::Tree(_, nodes) => add_each(alloc, nodes.as_slice(), texts),
        _ => Ok(()),
    }
}

#[cycle(texts)]
fn add_each(
    alloc: Global,
    nodes: &[Node],
    texts: &mut HashMap<Id, JsWord>,
) -> Result<(), AllocError> {
    for node in nodes {
        add_texts(alloc, node, texts)?;
    }
    Ok(())
}

/// A text for each id of trees: `v0`, `v1` and so on, in the order in which they first stand.
///
/// # Errors
///
/// `AllocError` where memory is refused.
pub fn text_each(alloc: Global, trees: &[Node]) -> Result<HashMap<Id, JsWord>, AllocError> {
    let mut texts = HashMap::new(alloc);
    add_each(alloc, trees, &mut texts)?;
    Ok(texts)
}
