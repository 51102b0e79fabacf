//! Making a tree plain.
ghost use Rattle.std.specs.Prelude.{◌≡◌, ◌&&◌, if◌then◌else◌, IfOk, OnOk, map};
ghost use Rattle.swc_base_plain_numbers.specs.Numbers.{plain_big as is_plain_big, plain_number as is_plain_number};
ghost use Rattle.swc_base_plain_form.specs.PlainForm.{forms, is_string as is_string_statement, literal as is_literal, parts, plain_form as is_plain_form, respelled};

use crate::directives::{holds_statements, is_string};
use std::alloc::Global;
use swc_base_plain_numbers::{plain_big, plain_number};
use swc_tree_items::{Items, Text};
use swc_tree_marks::NoMemory;
use swc_tree_node::fields::{big_int, number, str};
use swc_tree_node::{Kind, Node};

/// The plain form of a tree. Two programs have one plain form where nothing but the spelling of strings, numbers and big integers
/// tells them apart: each string but directives stands by its value, numbers and big integers by theirs.
///
/// It goes through the tree once, in place; the texts of numbers are made anew.
///
/// # Errors
///
/// `NoMemory` where memory is refused.
pub fn plain_form(alloc: Global, node: Node) -> Result<Node, NoMemory>
    ensures { IfOk result (λ t. t ≡ is_plain_form node) }
{
    let mut node = node;
    make_plain(alloc, false, &mut node)?;
    Ok(node)
}

// Makes a node plain: first what is below it. It is told whether the node stands right in a program or a function.
#[cycle(make_plain)]
fn make_plain(alloc: Global, is_body: bool, node: &mut Node) -> Result<(), NoMemory>
    ensures { OnOk result (node.new ≡ (forms node.old).plain is_body) }
{
    let kind = node.kind();
    let Some(children) = node.children_mut() else {
        return Ok(());
    };
    let Some(kind) = kind else {
        return make_parts_plain(alloc, is_body, false, children);
    };
    make_parts_plain(alloc, false, holds_statements(is_body, kind), children)?;
    make_literal_plain(alloc, kind, children)?;
    Ok(())
}

// Makes the parts of a node plain, but for the strings that lead them where these are directives.
#[cycle(make_plain)]
fn make_parts_plain(
    alloc: Global,
    lead: bool,
    is_body: bool,
    items: &mut Items<Node>,
) -> Result<(), NoMemory>
    ensures { OnOk result (items.new ≡ parts lead is_body (map forms items.old)) }
{
    let mut leads = lead;
    for i in 0..items.len() {
        leads = make_next_plain(alloc, leads, is_body, items.item_mut(i))?;
    }
    Ok(())
}

// Makes a part plain, unless it is one of the strings that lead. Whether it is.
#[cycle(make_plain)]
fn make_next_plain(
    alloc: Global,
    lead: bool,
    is_body: bool,
    node: &mut Node,
) -> Result<bool, NoMemory>
    ensures leads { IfOk result (λ leads. leads ≡ (lead && is_string_statement node.old)) }
    ensures node { OnOk result (node.new ≡ (if lead && is_string_statement node.old then node.old else (forms node.old).plain is_body)) }
{
    if leads(lead, node) {
        return Ok(true);
    }
    make_plain(alloc, is_body, node)?;
    Ok(false)
}

// Whether a part is one of the strings that lead.
fn leads(lead: bool, node: &Node) -> bool
    ensures { result ≡ (lead && is_string_statement node.now) }
{
    lead && is_string(node)
}

// Makes the fields of a literal plain; those of another node stay.
fn make_literal_plain(alloc: Global, kind: Kind, fields: &mut Items<Node>) -> Result<(), NoMemory>
    ensures { OnOk result (fields.new ≡ is_literal kind fields.old) }
{
    match kind {
        Kind::Str if fields.len() == 3 => fields.set(str::RAW, Node::Absent),
        Kind::Number if fields.len() == 2 => make_number_plain(
            alloc,
            fields.item_mut(number::TEXT),
        )?,
        Kind::BigInt if fields.len() == 2 => make_big_plain(alloc, fields.item_mut(big_int::TEXT))?,
        _ => (),
    }
    Ok(())
}

fn make_number_plain(alloc: Global, node: &mut Node) -> Result<(), NoMemory>
    ensures { OnOk result (node.new ≡ respelled is_plain_number node.old) }
{
    if let Some(text) = node.as_text() {
        let plain = plain_number(alloc, text)?;
        *node = Node::Text(Text::from_string(alloc, plain)?);
    }
    Ok(())
}

fn make_big_plain(alloc: Global, node: &mut Node) -> Result<(), NoMemory>
    ensures { OnOk result (node.new ≡ respelled is_plain_big node.old) }
{
    if let Some(text) = node.as_text() {
        let plain = plain_big(alloc, text)?;
        *node = Node::Text(Text::from_string(alloc, plain)?);
    }
    Ok(())
}
