//! Exported declarations as declarations and export lists.
ghost use Rattle.std.specs.Prelude.{◌≡◌, ◌∷◌, [], ◌++◌, ◌||◌, IfOk, OnOk, map, if◌then◌else◌};
ghost use Rattle.std.specs.BTreeSet.{contains};
ghost use Rattle.std.specs.List.{flat_map};
ghost use Rattle.swc_tree_grammar.specs.Normal.{each_once, export_list as is_export_list, exported_as_itself as is_exported_as_itself, made as is_made, split};
ghost use Rattle.swc_tree_scoping.specs.BoundNames.{Id as Id', same_id};
ghost use Rattle.swc_base_normal_form.specs.Exports.{id_cmp, is_exported as is_exported_declaration};

use crate::names::{plain_name, tree};
use std::alloc::Global;
use std::collections::BTreeSet;
use swc_tree_items::{Boxed, Items};
use swc_tree_marks::{DUMMY_SP, Id, Ident, NoMemory};
use swc_tree_node::fields::export_decl;
use swc_tree_node::{Kind, Node};
use swc_tree_scoping::add_declared_ids;

// An identifier that stands in no source text.
fn made(id: &Id) -> Result<Ident, NoMemory>
    ensures { IfOk result (λ name. name ≡ is_made id.now) }
{
    let span = DUMMY_SP;
    let ctxt = id.1.clone()?;
    let sym = id.0.clone()?;
    Ok(Ident { span, ctxt, sym })
}

// `a as a`.
fn exported_as_itself(alloc: Global, id: &Id) -> Result<Node, NoMemory>
    ensures { IfOk result (λ node. node ≡ is_exported_as_itself (is_made id.now)) }
{
    let name = made(id)?;
    let exported = plain_name(alloc, &name)?;
    let local = Node::Identifier(Kind::Ident, Boxed::new(alloc, name)?);
    let fields = [Node::Span(DUMMY_SP), local, exported];
    tree(alloc, Kind::ExportNamedSpecifier, fields)
}

// Adds the specifier of an id, unless the id was met. The table is ordered, so that no names can make it slow.
fn add_once(
    alloc: Global,
    id: Id,
    specifiers: &mut Items<Node>,
    met: &mut BTreeSet<Id>,
) -> Result<(), NoMemory>
    ensures specifiers { OnOk result (specifiers.new ≡ (if contains id_cmp met.old id then specifiers.old else specifiers.old ++ is_exported_as_itself (is_made id) ∷ [])) }
    ensures met { OnOk result ((x : Id') → contains id_cmp met.new x ≡ (same_id id x || contains id_cmp met.old x)) }
{
    let specifier = exported_as_itself(alloc, &id)?;
    if met.insert(id)? {
        specifiers.push(specifier)?;
    }
    Ok(())
}

// The specifiers of the ids, each once.
fn specifiers(alloc: Global, ids: Items<Id>) -> Result<Items<Node>, NoMemory>
    ensures { IfOk result (λ nodes. nodes ≡ map is_exported_as_itself (each_once (map is_made ids))) }
{
    let mut specifiers = Items::new(alloc);
    let mut met = BTreeSet::new(alloc);
    for id in ids.into_vec() {
        add_once(alloc, id, &mut specifiers, &mut met)?;
    }
    Ok(specifiers)
}

// `export { a as a, b as b };`
fn export_list(alloc: Global, ids: Items<Id>) -> Result<Node, NoMemory>
    ensures { IfOk result (λ node. node ≡ is_export_list (each_once (map is_made ids))) }
{
    let specifiers = specifiers(alloc, ids)?;
    let fields = [
        Node::Span(DUMMY_SP),
        Node::List(specifiers),
        Node::Absent,
        Node::Absent,
    ];
    tree(alloc, Kind::NamedExport, fields)
}

// Whether a node is an exported declaration.
fn is_exported(kind: Kind, fields: &[Node]) -> bool
    ensures { result ≡ is_exported_declaration kind fields.now }
{
    matches!(kind, Kind::ExportDecl) && fields.len() == 2
}

// Adds an item: of an exported declaration the declaration and its export list.
fn add_split(alloc: Global, item: Node, all: &mut Items<Node>) -> Result<(), NoMemory>
    ensures { OnOk result (all.new ≡ all.old ++ split item) }
{
    match item {
        Node::Tree(kind, mut fields) => {
            if !is_exported(kind, fields.as_slice()) {
                all.push(Node::Tree(kind, fields))?;
                return Ok(());
            }
            let declaration = fields.replace(export_decl::DECL, Node::Absent);
            let mut ids = Items::new(alloc);
            add_declared_ids(&declaration, &mut ids)?;
            let list = export_list(alloc, ids)?;
            all.push(declaration)?;
            all.push(list)?;
            Ok(())
        }
        item => {
            all.push(item)?;
            Ok(())
        }
    }
}

/// The items of a module, with each exported declaration as the declaration and, right behind it, its export list. It costs
/// time in step with the size of what the declarations bind, but for the logarithm of how many names one of them has.
pub fn split_all(alloc: Global, items: Items<Node>) -> Result<Items<Node>, NoMemory>
    ensures { IfOk result (λ all. all ≡ flat_map split items) }
{
    let mut all = Items::new(alloc);
    for item in items.into_vec() {
        add_split(alloc, item, &mut all)?;
    }
    Ok(all)
}
