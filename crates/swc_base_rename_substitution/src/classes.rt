//! Classes that keep their names.
ghost use Rattle.std.specs.Prelude.{◌≡◌, ◌∷◌, [], IfOk};
ghost use Rattle.swc_base_rename_substitution.specs.Identifiers.{identifier_at as is_identifier_at};
ghost use Rattle.swc_base_rename_substitution.specs.Classes.{class_span as is_class_span, kept_class as is_kept_class, let_of_class as is_let_of_class};

use crate::identifiers::{keep_name, tree};
use std::alloc::Global;
use swc_tree_items::{Boxed, Items};
use swc_tree_marks::{Ident, NoMemory, Span};
use swc_tree_node::fields::{class, class_decl};
use swc_tree_node::{Kind, Node, Word};

/// A copy of the identifier that stands in a field.
pub fn identifier_at(fields: &Items<Node>, field: usize) -> Result<Option<Boxed<Ident>>, NoMemory>
    ensures { IfOk result (λ ident. ident ≡ is_identifier_at fields.now field) }
{
    match fields.get(field) {
        Some(Node::Identifier(_, ident)) => Ok(Some(ident.clone()?)),
        _ => Ok(None),
    }
}

// The span of a class.
fn class_span(class: &Node) -> Option<Span>
    ensures { result ≡ is_class_span class.now }
{
    match class {
        Node::Tree(Kind::Class, fields) => match fields.get(class::SPAN) {
            Some(Node::Span(span)) => Some(*span),
            _ => None,
        },
        _ => None,
    }
}

// `let` of a name, with a class expression of the old name's text.
fn let_of_class(
    alloc: Global,
    span: Span,
    old: Boxed<Ident>,
    name: Boxed<Ident>,
    class: Node,
) -> Result<Node, NoMemory>
    ensures { IfOk result (λ node. node ≡ is_let_of_class span old name class) }
{
    let old = Node::Identifier(Kind::Ident, keep_name(alloc, old));
    let expression = tree(alloc, Kind::ClassExpr, [old, class])?;
    let name = Node::Identifier(Kind::BindingIdent, name);
    let declarator = tree(
        alloc,
        Kind::VarDeclarator,
        [Node::Span(span), name, expression],
    )?;
    let declarators = Items::from_vec(vec![in alloc; declarator]?);
    let fields = [
        Node::Span(span),
        Node::Word(Word::Let),
        Node::List(declarators),
    ];
    tree(alloc, Kind::VarDecl, fields)
}

// A class declaration, where it keeps the name that it had in a class expression.
fn let_if(alloc: Global, old: Boxed<Ident>, name: Node, class: Node) -> Result<Node, NoMemory>
    ensures { IfOk result (λ node. node ≡ is_kept_class (Some old) (name ∷ class ∷ [])) }
{
    match (name, class_span(&class)) {
        (Node::Identifier(_, name), Some(span)) => { let_of_class(alloc, span, old, name, class) }
        (name, _) => { tree(alloc, Kind::ClassDecl, [name, class]) }
    }
}

/// A class declaration of these fields, where it keeps the name that it had in a class expression.
pub fn kept_class(
    alloc: Global,
    old: Option<Boxed<Ident>>,
    mut fields: Items<Node>,
) -> Result<Node, NoMemory>
    ensures { IfOk result (λ node. node ≡ is_kept_class old fields) }
{
    match old {
        Some(old) if fields.len() == 2 => {
            let name = fields.replace(class_decl::IDENT, Node::Absent);
            let class = fields.replace(class_decl::CLASS, Node::Absent);
            let_if(alloc, old, name, class)
        }
        _ => Ok(Node::Tree(Kind::ClassDecl, fields)),
    }
}
