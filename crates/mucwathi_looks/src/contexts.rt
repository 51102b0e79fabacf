//! Marks put on the names of a tree.
ghost use Rattle.std.specs.Prelude.{◌≡◌, ◌++◌, OnOk, map};
ghost use Rattle.mucwathi_looks.specs.Given.{Rise, marks_at, signed, signed_name};

use mucwathi_signs::Sign;
use std::alloc::AllocError;
use swc_tree_items::Items;
use swc_tree_marks::{Ident, Mark, SyntaxContext};
use swc_tree_node::Node;

// Puts marks on top of those of a context.
fn put_all(ctxt: &mut SyntaxContext, marks: &[u32]) -> Result<(), AllocError>
    ensures { OnOk result (ctxt.new ≡ ctxt.old ++ marks.now) }
{
    'marks: for i in 0..marks.len() {
        ctxt.apply_mark(Mark::from_u32(marks[i]))?;
    }
    Ok(())
}

// The marks of the sign at a place.
fn marks_behind<'s>(signs: &'s [Sign], place: usize) -> &'s [u32]
    ensures { Rise signs.now → result.now ≡ marks_at signs.now place }
{
    match signs.binary_search_by_key(&place, |sign| sign.at) {
        Ok(index) => signs[index].marks.as_slice(),
        Err(_) => &[],
    }
}

// Puts the marks of the sign behind an identifier on it, if there is one.
fn put_on(ident: &mut Ident, signs: &[Sign]) -> Result<(), AllocError>
    ensures { Rise signs.now → OnOk result (ident.new ≡ signed_name signs.now ident.old) }
{
    let behind = ident.span.hi.saturating_sub(1) as usize;
    let marks = marks_behind(signs, behind);
    put_all(&mut ident.ctxt, marks)?;
    Ok(())
}

/// Puts the marks of signs, which rise by their places, on the identifiers before them.
#[cycle(put_marks)]
pub(crate) fn put_marks(node: &mut Node, signs: &[Sign]) -> Result<(), AllocError>
    ensures { Rise signs.now → OnOk result (node.new ≡ signed signs.now node.old) }
{
    if let Some(children) = node.children_mut() {
        put_marks_on_all(children, signs)?;
    } else if let Node::Identifier(_, ident) = node {
        put_on(ident.get_mut(), signs)?;
    }
    Ok(())
}

#[cycle(put_marks)]
fn put_marks_on_all(nodes: &mut Items<Node>, signs: &[Sign]) -> Result<(), AllocError>
    ensures { Rise signs.now → OnOk result (nodes.new ≡ map (signed signs.now) nodes.old) }
{
    for i in 0..nodes.len() {
        put_marks(nodes.item_mut(i), signs)?;
    }
    Ok(())
}
