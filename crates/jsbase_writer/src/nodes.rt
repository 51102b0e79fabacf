//! Writing nodes.
ghost use Rattle.std.specs.Prelude.{◌≡◌, ◌≤◌, [], ◌++◌, Some, IfOk, OnOk, IsTrue, length, map, string_bytes};
ghost use Rattle.json.specs.Lex.{tokens};
ghost use Rattle.json.specs.Print.{print};
ghost use Rattle.json.specs.Tree.{depth};
ghost use Rattle.json.specs.Value.{items_of};
ghost use Rattle.swc_tree_node.specs.declared.node.Node.{Tree};
ghost use Rattle.swc_tree_node.specs.Table.{fields_of};
ghost use Rattle.jsbase_form.specs.Known.{ReadsAs, NumbersShort, numbers_short, all_keyed, all_of, ident_short};
ghost use Rattle.jsbase_form.specs.Writing.{json, ident_json, typed, fields_put};
ghost use Rattle.jsbase_reader.specs.Envelopes.{document, max_depth};
ghost use Rattle.jsbase_writer.specs.Envelopes.{text_of};
ghost use Rattle.jsbase_writer.specs.Members.{members_data, MembersShort};
ghost use Rattle.jsbase_writer.specs.Tokens.{tokens_of, tokens_of_items, tokens_of_members};

use crate::members::{Member, Part, members_of};
use crate::numbers::{write_marks, write_pair};
use crate::order::order_of;
use json::Writer;
use std::alloc::{AllocError, Global};
use swc_tree_marks::Ident;
use swc_tree_node::{Kind, Node, fields_of, name_of, spelling_of};

fn write_ident(out: &mut Writer, kind: Kind, ident: &Ident) -> Result<(), AllocError>
    ensures written { OnOk result (out.new.tokens ≡ out.old.tokens ++ tokens_of (ident_json kind ident.now)) }
    ensures before { OnOk result (out.new.before ≡ out.old.before) }
    ensures short { OnOk result (IsTrue (ident_short ident.now)) }
{
    out.begin_object()?;
    out.key("ctxt")?;
    write_marks(out, ident.ctxt.marks())?;
    out.key("span")?;
    write_pair(out, ident.span.lo, ident.span.hi)?;
    out.key("sym")?;
    out.string(ident.sym.as_str())?;
    out.key("type")?;
    out.string(name_of(kind))?;
    out.end_object()?;
    Ok(())
}

// The text that was written.
pub(crate) fn text_of(out: Writer) -> String
    requires { out.before ≡ [] }
    ensures text { string_bytes result ≡ print out.tokens }
    ensures reads_back { tokens (string_bytes result) ≡ out.tokens }
{
    match String::from_utf8(out.into_inner()) {
        Ok(text) => text,
        Err(_) => unreachable!(),
    }
}

/// The JSON text of a tree.
///
/// The tree is only read. Memory is taken for the text alone, and the time is in step with the tree's
/// size: the order of the keys is kept for each kind. A node that lacks a field of its kind, or has one
/// more, is the exception: its members are put into order in a list, which costs the square of how many
/// there are.
///
/// # Errors
///
/// Where memory is refused.
pub fn write(alloc: Global, tree: &Node) -> Result<String, AllocError>
    ensures text { IfOk result (λ text. string_bytes text ≡ text_of (json tree.now)) }
    ensures value { IfOk result (λ text. depth (json tree.now) ≤ max_depth → document (string_bytes text) ≡ Some (json tree.now)) }
    ensures reads_back { IfOk result (λ _. ReadsAs (json tree.now) tree.now) }
{
    let mut out = Writer::new(Vec::new(alloc));
    write_value(alloc, &mut out, tree)?;
    Ok(text_of(out))
}

#[cycle(write)]
pub(crate) fn write_value(alloc: Global, out: &mut Writer, node: &Node) -> Result<(), AllocError>
    ensures written { OnOk result (out.new.tokens ≡ out.old.tokens ++ tokens_of (json node.now)) }
    ensures before { OnOk result (out.new.before ≡ out.old.before) }
    ensures short { OnOk result (NumbersShort node.now) }
{
    match node {
        Node::Absent => out.null()?,
        Node::Flag(flag) => out.boolean(*flag)?,
        Node::Word(word) => out.string(spelling_of(*word))?,
        Node::Text(text) => out.string(text.as_str())?,
        Node::Span(span) => write_pair(out, span.lo, span.hi)?,
        Node::List(nodes) => {
            out.begin_array()?;
            write_all(alloc, out, nodes.as_slice())?;
        }
        Node::Identifier(kind, ident) => write_ident(out, *kind, ident.get())?,
        Node::Tree(kind, nodes) => {
            let nodes = nodes.as_slice();
            if nodes.len() == fields_of(*kind).len() {
                out.begin_object()?;
                write_in_order(alloc, out, *kind, nodes)?;
            } else {
                write_sorted(alloc, out, *kind, nodes)?;
            }
        }
    }
    Ok(())
}

// A tree that lacks a field of its kind, or has one more. It is kept out of `write_value`, which stands on the stack once for each
// level of a tree: no level has room for a list that it does not make.
#[cycle(write)]
#[inline(never)]
fn write_sorted(
    alloc: Global,
    out: &mut Writer,
    kind: Kind,
    nodes: &[Node],
) -> Result<(), AllocError>
    ensures written { OnOk result (out.new.tokens ≡ out.old.tokens ++ tokens_of (json (Tree kind nodes.now))) }
    ensures before { OnOk result (out.new.before ≡ out.old.before) }
    ensures short { OnOk result (NumbersShort (Tree kind nodes.now)) }
{
    let members = members_of(alloc, kind, nodes)?;
    out.begin_object()?;
    write_members(alloc, out, members.as_slice())?;
    Ok(())
}

#[cycle(write)]
fn write_all(alloc: Global, out: &mut Writer, nodes: &[Node]) -> Result<(), AllocError>
    ensures written { OnOk result (out.new.tokens ≡ out.old.tokens ++ tokens_of_items (items_of (map json nodes.now))) }
    ensures before { OnOk result (out.new.before ≡ out.old.before) }
    ensures short { OnOk result (IsTrue (all_of (map numbers_short nodes.now))) }
{
    for node in nodes {
        write_value(alloc, out, node)?;
    }
    out.end_array()?;
    Ok(())
}

// The members of a tree that has each field of its kind: they stand in an order that is kept for the kind, so none is
// sorted, and no list is made. Past the last field is the member that names the kind.
#[cycle(write)]
fn write_in_order(
    alloc: Global,
    out: &mut Writer,
    kind: Kind,
    nodes: &[Node],
) -> Result<(), AllocError>
    requires { length nodes.now ≡ length (fields_of kind) }
    ensures written { OnOk result (out.new.tokens ≡ out.old.tokens ++ tokens_of_members (fields_put (fields_of kind) (map json nodes.now) (typed kind))) }
    ensures before { OnOk result (out.new.before ≡ out.old.before) }
    ensures short { OnOk result (IsTrue (all_keyed (fields_of kind) (map numbers_short nodes.now))) }
{
    for number in order_of(kind) {
        if *number < nodes.len() {
            let field = &fields_of(kind)[*number];
            out.key(field.key)?;
            write_value(alloc, out, &nodes[*number])?;
        } else {
            out.key("type")?;
            out.string(name_of(kind))?;
        }
    }
    out.end_object()?;
    Ok(())
}

#[cycle(write)]
fn write_members(alloc: Global, out: &mut Writer, members: &[Member<'_>]) -> Result<(), AllocError>
    ensures written { OnOk result (out.new.tokens ≡ out.old.tokens ++ tokens_of_members (members_data members.now)) }
    ensures before { OnOk result (out.new.before ≡ out.old.before) }
    ensures short { OnOk result (MembersShort members.now) }
{
    for member in members {
        out.key(member.key)?;
        match member.part {
            Part::Name(kind) => out.string(name_of(kind))?,
            Part::Node(node) => write_value(alloc, out, node)?,
        }
    }
    out.end_object()?;
    Ok(())
}
