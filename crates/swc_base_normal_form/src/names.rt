//! Names that are written once more: as keys, and on the other side of a specifier.
ghost use Rattle.std.specs.Prelude.{◌≡◌, IfOk, OnOk, length};
ghost use Rattle.swc_tree_grammar.specs.Levels.{is_absent as is_nothing};
ghost use Rattle.swc_tree_grammar.specs.Normal.{again_in, plain_name as is_plain_name, property as is_property, specifier as is_specifier};
ghost use Rattle.swc_tree_node.specs.declared.node.Node.{out-Node};
ghost use Rattle.swc_tree_scoping.specs.Shorthands.{computed_key as is_computed_key, key_of as is_key_of, shorthand_key as is_shorthand_key};
ghost use Rattle.swc_base_normal_form.specs.Forms.{with_both_names};

use std::alloc::Global;
use std::mem;
use swc_tree_items::{Boxed, Items};
use swc_tree_marks::{Ident, NoMemory, SyntaxContext};
use swc_tree_node::{Kind, Node};

/// A node of a kind with these fields.
pub fn tree<const N: usize>(alloc: Global, kind: Kind, fields: [Node; N]) -> Result<Node, NoMemory>
    ensures { IfOk result (λ node. node ≡ Node.Tree kind fields.entry) }
{
    let fields = Vec::from_array(alloc, fields)?;
    Ok(Node::Tree(kind, Items::from_vec(fields)))
}

/// A name as a key.
pub fn key_of(alloc: Global, name: &Ident) -> Result<Node, NoMemory>
    ensures { IfOk result (λ node. node ≡ is_key_of name.now) }
{
    let text = Node::Text(name.sym.clone()?);
    tree(alloc, Kind::IdentName, [Node::Span(name.span), text])
}

// A name as a computed key, which sets no prototype.
fn computed_key(alloc: Global, name: &Ident) -> Result<Node, NoMemory>
    ensures { IfOk result (λ node. node ≡ is_computed_key name.now) }
{
    let text = Node::Text(name.sym.clone()?);
    let fields = [Node::Span(name.span), text, Node::Absent];
    let text = tree(alloc, Kind::Str, fields)?;
    tree(alloc, Kind::ComputedPropName, [Node::Span(name.span), text])
}

// The key of a shorthand property.
fn shorthand_key(alloc: Global, name: &Ident) -> Result<Node, NoMemory>
    ensures { IfOk result (λ node. node ≡ is_shorthand_key name.now) }
{
    if name.sym.as_str() != "__proto__" {
        return key_of(alloc, name);
    }
    computed_key(alloc, name)
}

/// Writes a shorthand property out: `{ a }` as `{ a: a }`.
pub fn write_property(alloc: Global, node: &mut Node) -> Result<(), NoMemory>
    ensures { OnOk result (node.new ≡ is_property node.old) }
{
    let Some(name) = node.as_ident() else {
        return Ok(());
    };
    let key = shorthand_key(alloc, name)?;
    let value = mem::replace(node, Node::Absent);
    *node = tree(alloc, Kind::KeyValueProp, [key, value])?;
    Ok(())
}

/// A name without its context.
pub fn plain_name(alloc: Global, name: &Ident) -> Result<Node, NoMemory>
    ensures { IfOk result (λ node. node ≡ is_plain_name name.now) }
{
    let ctxt = SyntaxContext::empty(alloc);
    let sym = name.sym.clone()?;
    let span = name.span;
    let name = Boxed::new(alloc, Ident { span, ctxt, sym })?;
    Ok(Node::Identifier(Kind::Ident, name))
}

// What stands where the other name of a specifier was left out.
fn again(alloc: Global, name: &Node) -> Result<Node, NoMemory>
    ensures { IfOk result (λ node. node ≡ again_in name.now (out-Node name.now)) }
{
    match name {
        Node::Identifier(_, name) => plain_name(alloc, name.get()),
        name => Ok(name.clone()?),
    }
}

/// Whether nothing stands there.
pub fn is_absent(node: &Node) -> bool
    ensures { result ≡ is_nothing node.now }
{
    matches!(node, Node::Absent)
}

/// Writes both names of a specifier, by its fields.
pub fn write_both_names(alloc: Global, fields: &mut Items<Node>) -> Result<(), NoMemory>
    requires { length fields.old ≡ 3 }
    ensures { OnOk result (fields.new ≡ with_both_names fields.old) }
{
    if is_absent(&fields.as_slice()[2]) {
        let other = again(alloc, &fields.as_slice()[1])?;
        fields.set(2, other);
    }
    Ok(())
}

/// Writes both names of a specifier in an export list.
pub fn write_specifier(alloc: Global, node: &mut Node) -> Result<(), NoMemory>
    ensures { OnOk result (node.new ≡ is_specifier node.old) }
{
    match node {
        Node::Tree(Kind::ExportNamedSpecifier, fields) => {
            if fields.len() == 3 {
                write_both_names(alloc, fields)?;
            }
            Ok(())
        }
        _ => Ok(()),
    }
}
