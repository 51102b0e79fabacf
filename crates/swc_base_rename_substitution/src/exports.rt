//! Exported declarations, whose names stay as they were for other modules.
ghost use Rattle.std.specs.Prelude.{◌≡◌, ◌++◌, IfOk, OnOk, is_some, length, map};
ghost use Rattle.std.specs.List.{list_any};
ghost use Rattle.swc_base_rename_substitution.specs.Names.{new_id};
ghost use Rattle.swc_base_rename_substitution.specs.Exports.{made as is_made, specifier_to as is_specifier_to, specifier as is_specifier, export_list as is_export_list, declaration_of as is_declaration_of, exported_ids as are_exported, exports_of as is_exports_of, with_exports};
ghost use Rattle.swc_base_rename_substitution.specs.Walk.{each_with_exports, is_exported_declaration};

use crate::identifiers::tree;
use crate::names::Names;
use crate::unique::distinct;
use std::alloc::Global;
use swc_tree_items::{Boxed, Items};
use swc_tree_marks::{DUMMY_SP, Id, Ident, NoMemory, SyntaxContext};
use swc_tree_node::fields::export_decl;
use swc_tree_node::{Kind, Node};
use swc_tree_scoping::add_declared_ids;

// Whether the text of one of the ids changes.
fn any_changes(names: Names, ids: &[Id]) -> bool
    ensures { result ≡ list_any (λ id. is_some (new_id names.entry id)) ids.now }
{
    for id in ids {
        if names.changes(id) {
            return true;
        }
    }
    false
}

// An identifier that stands in no source text.
fn made(alloc: Global, id: Id) -> Result<Boxed<Ident>, NoMemory>
    ensures { IfOk result (λ ident. ident ≡ is_made id) }
{
    let (sym, ctxt) = id;
    let span = DUMMY_SP;
    Ok(Boxed::new(alloc, Ident { span, ctxt, sym })?)
}

// The specifier of an id whose text stays.
fn unchanged_specifier(alloc: Global, id: Id) -> Result<Node, NoMemory>
    ensures { IfOk result (λ node. node ≡ is_specifier_to id None) }
{
    let local = Node::Identifier(Kind::Ident, made(alloc, id)?);
    let fields = [Node::Span(DUMMY_SP), local, Node::Absent];
    tree(alloc, Kind::ExportNamedSpecifier, fields)
}

// The specifier of an id whose new id has another text.
fn changed_specifier(alloc: Global, id: Id, new: Id) -> Result<Node, NoMemory>
    ensures { IfOk result (λ node. node ≡ is_specifier_to id (Some new)) }
{
    let (sym, _) = id;
    let local = made(alloc, new)?;
    let exported = made(alloc, (sym, SyntaxContext::empty(alloc)))?;
    let fields = [
        Node::Span(DUMMY_SP),
        Node::Identifier(Kind::Ident, local),
        Node::Identifier(Kind::Ident, exported),
    ];
    tree(alloc, Kind::ExportNamedSpecifier, fields)
}

// `a1 as a` where `a` becomes `a1`, and else `a`.
fn specifier(alloc: Global, names: Names, id: Id) -> Result<Node, NoMemory>
    ensures { IfOk result (λ node. node ≡ is_specifier (new_id names.entry) id) }
{
    match names.new_id(alloc, &id)? {
        None => unchanged_specifier(alloc, id),
        Some(new) => changed_specifier(alloc, id, new),
    }
}

// `export { a1 as a, b };`
fn export_list(alloc: Global, names: Names, ids: Items<Id>) -> Result<Node, NoMemory>
    ensures { IfOk result (λ node. node ≡ is_export_list (new_id names.entry) ids) }
{
    let mut specifiers = Items::new(alloc);
    for id in ids.into_vec() {
        let specifier = specifier(alloc, names, id)?;
        specifiers.push(specifier)?;
    }
    let fields = [
        Node::Span(DUMMY_SP),
        Node::List(specifiers),
        Node::Absent,
        Node::Absent,
    ];
    tree(alloc, Kind::NamedExport, fields)
}

// The ids that an exported declaration binds, each once; of any other node none.
fn exported_ids(alloc: Global, item: &Node) -> Result<Items<Id>, NoMemory>
    ensures { IfOk result (λ ids. ids ≡ are_exported item.now) }
{
    let mut ids = Items::new(alloc);
    match item {
        Node::Tree(Kind::ExportDecl, fields) => {
            if fields.len() == 2 {
                add_declared_ids(&fields.as_slice()[export_decl::DECL], &mut ids)?;
            }
        }
        _ => {}
    }
    distinct(alloc, ids)
}

// The export list of an item's names, where it is an exported declaration one of whose names changes.
fn exports_of(alloc: Global, names: Names, item: &Node) -> Result<Option<Node>, NoMemory>
    ensures { IfOk result (λ exports. exports ≡ is_exports_of (new_id names.entry) (are_exported item.now)) }
{
    let ids = exported_ids(alloc, item)?;
    if !any_changes(names, ids.as_slice()) {
        return Ok(None);
    }
    let list = export_list(alloc, names, ids)?;
    Ok(Some(list))
}

/// The same for each of the items.
pub fn exports_of_all(
    alloc: Global,
    names: Names,
    items: &[Node],
) -> Result<Items<Option<Node>>, NoMemory>
    ensures { IfOk result (λ exports. exports ≡ map (λ item. is_exports_of (new_id names.entry) (are_exported item)) items.now) }
{
    let mut all = Items::new(alloc);
    for item in items {
        let exports = exports_of(alloc, names, item)?;
        all.push(exports)?;
    }
    Ok(all)
}

// Whether the node is an exported declaration.
fn is_exported(node: &Node) -> bool
    ensures { result ≡ is_exported_declaration node.now }
{
    matches!(node, Node::Tree(Kind::ExportDecl, _))
}

/// Whether one of the items is an exported declaration.
pub fn any_exported(items: &[Node]) -> bool
    ensures { result ≡ list_any is_exported_declaration items.now }
{
    for item in items {
        if is_exported(item) {
            return true;
        }
    }
    false
}

// The declaration among the fields of an exported declaration.
fn declaration_in(mut fields: Items<Node>) -> Node
    ensures { result ≡ is_declaration_of (Node.Tree Kind.ExportDecl fields) }
{
    if fields.len() == 2 {
        fields.replace(export_decl::DECL, Node::Absent)
    } else {
        Node::Tree(Kind::ExportDecl, fields)
    }
}

// The declaration without its `export`.
fn declaration_of(node: Node) -> Node
    ensures { result ≡ is_declaration_of node }
{
    match node {
        Node::Tree(Kind::ExportDecl, fields) => declaration_in(fields),
        node => node,
    }
}

// Adds an item and, where it has one, its export list.
fn push_with_exports(
    items: &mut Items<Node>,
    item: Node,
    exports: Option<Node>,
) -> Result<(), NoMemory>
    ensures { OnOk result (items.new ≡ items.old ++ with_exports item exports) }
{
    match exports {
        None => items.push(item)?,
        Some(exports) => {
            items.push(declaration_of(item))?;
            items.push(exports)?;
        }
    }
    Ok(())
}

/// The items, each with its export list where it has one.
pub fn with_all_exports(
    alloc: Global,
    mut items: Items<Node>,
    mut exports: Items<Option<Node>>,
) -> Result<Items<Node>, NoMemory>
    requires { length items ≡ length exports }
    ensures { IfOk result (λ all. all ≡ each_with_exports items exports) }
{
    let mut all = Items::new(alloc);
    for i in 0..items.len() {
        let item = items.replace(i, Node::Absent);
        let exports = exports.replace(i, None);
        push_with_exports(&mut all, item, exports)?;
    }
    Ok(all)
}
