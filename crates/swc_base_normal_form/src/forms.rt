//! Which field of a node is written out, and as what.
ghost use Rattle.std.specs.Prelude.{◌≡◌, ◌<◌, IfSome, OnOk, false, length, map};
ghost use Rattle.swc_tree_grammar.specs.Normal.{written_step};
ghost use Rattle.swc_tree_node.specs.declared.node.Node.{Tree};
ghost use Rattle.swc_tree_node.specs.declared.node.Node.TheOpen.{Node-F};
ghost use Rattle.swc_base_normal_form.specs.Forms.{as_part, in_form, is_import as is_import_specifier, is_shorthand as is_shorthand_property, pattern_field as is_pattern_field, written_field as is_written_field};

use crate::blocks::open_block;
use crate::exports::split_all;
use crate::names::{is_absent, write_both_names, write_property, write_specifier};
use crate::patterns::write_pattern;
use std::alloc::Global;
use std::mem;
use swc_base_fixer_unparen::items_of;
use swc_tree_items::Items;
use swc_tree_marks::NoMemory;
use swc_tree_node::fields::{
    array_pat, arrow_expr, assign_pat, catch_clause, for_in_stmt, for_of_stmt, if_stmt,
    key_value_pat_prop, module_, named_export, object_lit, param, rest_pat, setter_prop,
    var_declarator,
};
use swc_tree_node::{Kind, Node};

/// What a node is written out as.
#[derive(Clone, Copy)]
pub enum Part {
    Statement,
    Pattern,
    Property,
    Specifier,
}

/// What a field is written out as.
#[derive(Clone, Copy)]
pub enum Form {
    One(Part),
    /// Each of its items.
    Each(Part),
    /// Items of a module.
    Items,
}

/// The field that is written out, if it is one field.
pub fn written_field(kind: Kind, fields: &[Node]) -> Option<(usize, Form)>
    ensures field { result ≡ is_written_field kind fields.now }
    ensures within { IfSome result (λ field. field.0 < length fields.now) }
{
    match kind {
        Kind::IfStmt if fields.len() == 4 => Some((if_stmt::CONS, Form::One(Part::Statement))),
        Kind::ObjectLit if fields.len() == 2 => {
            Some((object_lit::PROPS, Form::Each(Part::Property)))
        }
        Kind::NamedExport if fields.len() == 4 && is_absent(&fields[named_export::SRC]) => {
            Some((named_export::SPECIFIERS, Form::Each(Part::Specifier)))
        }
        Kind::Module if fields.len() == 3 => Some((module_::BODY, Form::Items)),
        kind => pattern_field(kind, fields),
    }
}

// The field with a pattern or a list of patterns, where one stands.
fn pattern_field(kind: Kind, fields: &[Node]) -> Option<(usize, Form)>
    ensures field { result ≡ is_pattern_field kind fields.now }
    ensures within { IfSome result (λ field. field.0 < length fields.now) }
{
    let index = match kind {
        Kind::ArrayPat if fields.len() == 2 => {
            return Some((array_pat::ELEMS, Form::Each(Part::Pattern)));
        }
        Kind::ArrowExpr if fields.len() == 4 => {
            return Some((arrow_expr::PARAMS, Form::Each(Part::Pattern)));
        }
        Kind::RestPat if fields.len() == 2 => rest_pat::ARG,
        Kind::KeyValuePatProp if fields.len() == 2 => key_value_pat_prop::VALUE,
        Kind::AssignPat if fields.len() == 3 => assign_pat::LEFT,
        Kind::Param if fields.len() == 2 => param::PAT,
        Kind::SetterProp if fields.len() == 4 => setter_prop::PARAM,
        Kind::VarDeclarator if fields.len() == 3 => var_declarator::NAME,
        Kind::CatchClause if fields.len() == 3 => catch_clause::PARAM,
        Kind::ForInStmt if fields.len() == 4 => for_in_stmt::LEFT,
        Kind::ForOfStmt if fields.len() == 5 => for_of_stmt::LEFT,
        _ => return None,
    };
    Some((index, Form::One(Part::Pattern)))
}

// Writes a node out as a part.
fn write_part(alloc: Global, part: Part, node: &mut Node) -> Result<(), NoMemory>
    ensures { OnOk result (node.new ≡ as_part part node.old) }
{
    match part {
        Part::Statement => open_block(node),
        Part::Pattern => write_pattern(node),
        Part::Property => write_property(alloc, node)?,
        Part::Specifier => write_specifier(alloc, node)?,
    }
    Ok(())
}

fn write_each(alloc: Global, part: Part, items: &mut Items<Node>) -> Result<(), NoMemory>
    ensures { OnOk result (items.new ≡ map (as_part part) items.old) }
{
    for i in 0..items.len() {
        write_part(alloc, part, items.item_mut(i))?;
    }
    Ok(())
}

// Writes each item of a list out; another node becomes a list without any.
fn write_items(alloc: Global, part: Part, node: &mut Node) -> Result<(), NoMemory>
    ensures { OnOk result (node.new ≡ in_form (Form.Each part) node.old) }
{
    let Some(items) = node.items_mut() else {
        *node = Node::List(Items::new(alloc));
        return Ok(());
    };
    write_each(alloc, part, items)
}

// Writes a field out.
fn write_form(alloc: Global, form: Form, node: &mut Node) -> Result<(), NoMemory>
    ensures { OnOk result (node.new ≡ in_form form node.old) }
{
    match form {
        Form::One(part) => write_part(alloc, part, node)?,
        Form::Each(part) => write_items(alloc, part, node)?,
        Form::Items => {
            let items = items_of(alloc, mem::replace(node, Node::Absent));
            *node = Node::List(split_all(alloc, items)?);
        }
    }
    Ok(())
}

// Whether a node is a name of an import list.
fn is_import(kind: Kind, fields: &[Node]) -> bool
    ensures { result ≡ is_import_specifier kind fields.now }
{
    matches!(kind, Kind::ImportNamedSpecifier) && fields.len() == 3
}

/// Whether a node is a shorthand property of a pattern.
pub fn is_shorthand(kind: Kind, fields: &[Node]) -> bool
    ensures { result ≡ is_shorthand_property kind fields.now }
{
    matches!(kind, Kind::AssignPatProp) && fields.len() == 3
}

/// Writes out the fields of a node that stays of its kind.
pub fn write_fields(alloc: Global, kind: Kind, fields: &mut Items<Node>) -> Result<(), NoMemory>
    requires { is_shorthand_property kind fields.old ≡ false }
    ensures { OnOk result (Tree kind fields.new ≡ written_step (Node-F.Tree kind fields.old)) }
{
    if is_import(kind, fields.as_slice()) {
        write_both_names(alloc, fields)?;
        return Ok(());
    }
    match written_field(kind, fields.as_slice()) {
        Some((index, form)) => {
            write_form(alloc, form, fields.item_mut(index))?;
            Ok(())
        }
        None => Ok(()),
    }
}
