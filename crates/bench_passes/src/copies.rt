//! Copies of a template, in which each number in the place of a name becomes a name.
ghost use Rattle.std.specs.Prelude.{◌≡◌, IfOk, map};
ghost use Rattle.swc_tree_node.specs.Fits.{fits};

use anyhow::Result;
use std::alloc::{AllocError, Global};
use swc_tree::{Ident, JsWord, Module, Trees};
use swc_tree_items::{Boxed, Items};
use swc_tree_node::Node;

/// What a copy is made by: of each number the name that takes its place.
#[derive(Clone, Copy)]
struct Names<'a> {
    alloc: Global,
    names: &'a [JsWord],
}

// What stands in a copy for a name of the template: the name of its number, or itself where it is no number.
fn copy_name(by: Names<'_>, name: &JsWord) -> Result<JsWord, AllocError> {
    match name.as_str().parse::<usize>() {
        Ok(number) => match by.names.get(number) {
            Some(name) => name.clone(),
            None => name.clone(),
        },
        Err(_) => name.clone(),
    }
}

fn copy_ident(by: Names<'_>, ident: &Ident) -> Result<Boxed<Ident>, AllocError> {
    let ident = Ident {
        span: ident.span,
        ctxt: ident.ctxt.clone()?,
        sym: copy_name(by, &ident.sym)?,
    };
    Boxed::new(by.alloc, ident)
}

#[cycle(copy)]
#[tactic(auto, using(crate::proofs::Alike::fits_list, crate::proofs::Alike::fits_identifier, crate::proofs::Alike::fits_tree))]
fn copy(by: Names<'_>, node: &Node) -> Result<Node, AllocError>
    ensures { IfOk result (λ copy. fits copy ≡ fits node.now) }
{
    match node {
        Node::Absent => Ok(Node::Absent),
        Node::Flag(flag) => Ok(Node::Flag(*flag)),
        Node::Word(word) => Ok(Node::Word(*word)),
        Node::Text(text) => Ok(Node::Text(text.clone()?)),
        Node::Span(span) => Ok(Node::Span(*span)),
        Node::List(items) => Ok(Node::List(copy_all(by, items.as_slice())?)),
        Node::Identifier(kind, ident) => Ok(Node::Identifier(*kind, copy_ident(by, ident.get())?)),
        Node::Tree(kind, fields) => Ok(Node::Tree(*kind, copy_all(by, fields.as_slice())?)),
    }
}

#[cycle(copy)]
fn copy_all(by: Names<'_>, nodes: &[Node]) -> Result<Items<Node>, AllocError>
    ensures { IfOk result (λ copies. map fits copies ≡ map fits nodes.now) }
{
    let mut copies = Items::with_capacity(by.alloc, nodes.len())?;
    for node in nodes {
        copies.push(copy(by, node)?)?;
    }
    Ok(copies)
}

/// A copy of a template, with these names.
///
/// # Errors
///
/// Where memory is refused.
#[tactic(auto, using(crate::proofs::Alike::all_alike))]
pub fn copy_template(alloc: Global, names: &[JsWord], template: &Module) -> Result<Module> {
    let by = Names { alloc, names };
    let items = template.body.as_slice();
    let body = copy_all(by, items)?;
    Ok(Module {
        span: template.span,
        body: Trees::from_nodes(body),
        shebang: template.shebang.clone()?,
    })
}
