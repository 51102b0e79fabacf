//! Statements that bring helpers in from outside.
ghost use Rattle.std.specs.Prelude.{◌≡◌, ◌∷◌, [], ◌++◌, IfOk, map};
ghost use Rattle.swc_base_tables_injection.specs.Brought.{declarator_of as is_declarator_of, exported_name as is_exported_name, helper_name as is_helper_name, import_of as is_import_of, local_name as is_local_name, made as is_made, call_of as is_call_of, require_name as is_require_name, require_of as is_require_of, source_of as is_source_of, specifier_of as is_specifier_of, string as is_string};

use std::alloc::Global;
use swc_tree_items::{Boxed, Items, Text};
use swc_tree_marks::{DUMMY_SP, Ident, Mark, NoMemory, SyntaxContext};
use swc_tree_node::{Kind, Node, Word};

/// A node of a kind with these fields.
pub fn tree<const N: usize>(alloc: Global, kind: Kind, fields: [Node; N]) -> Result<Node, NoMemory>
    ensures { IfOk result (λ node. node ≡ Node.Tree kind fields.entry) }
{
    let fields = Vec::from_array(alloc, fields)?;
    Ok(Node::Tree(kind, Items::from_vec(fields)))
}

// A list of one node.
fn only(alloc: Global, node: Node) -> Result<Node, NoMemory>
    ensures { IfOk result (λ list. list ≡ Node.List (node ∷ [])) }
{
    let nodes = Vec::from_array(alloc, [node])?;
    Ok(Node::List(Items::from_vec(nodes)))
}

// Two texts, one behind the other.
fn joined(alloc: Global, front: &str, back: &str) -> Result<Text, NoMemory>
    ensures { IfOk result (λ text. text ≡ front.now ++ back.now) }
{
    let mut text = String::from_str(alloc, front)?;
    text.push_str(back)?;
    Ok(Text::from_string(alloc, text)?)
}

// The name of a helper in the program.
fn local_name(alloc: Global, name: &str) -> Result<Text, NoMemory>
    ensures { IfOk result (λ text. text ≡ is_local_name name.now) }
{
    joined(alloc, "_", name)
}

// The module of a helper.
fn source_of(alloc: Global, name: &str) -> Result<Text, NoMemory>
    ensures { IfOk result (λ text. text ≡ is_source_of name.now) }
{
    joined(alloc, "@swc/helpers/_/_", name)
}

// An identifier that stands in no source text.
fn made(alloc: Global, sym: Text, ctxt: SyntaxContext) -> Result<Boxed<Ident>, NoMemory>
    ensures { IfOk result (λ ident. ident ≡ is_made sym ctxt) }
{
    let span = DUMMY_SP;
    Ok(Boxed::new(alloc, Ident { span, ctxt, sym })?)
}

// The context of one mark.
fn context(alloc: Global, mark: Mark) -> Result<SyntaxContext, NoMemory>
    ensures { IfOk result (λ ctxt. ctxt ≡ mark ∷ []) }
{
    let mut ctxt = SyntaxContext::empty(alloc);
    ctxt.apply_mark(mark)?;
    Ok(ctxt)
}

/// A string literal that stands in no source text.
pub fn string(alloc: Global, value: Text) -> Result<Node, NoMemory>
    ensures { IfOk result (λ node. node ≡ is_string value) }
{
    let fields = [Node::Span(DUMMY_SP), Node::Text(value), Node::Absent];
    tree(alloc, Kind::Str, fields)
}

// An identifier of a kind, that stands in no source text.
fn identifier(alloc: Global, kind: Kind, sym: Text, ctxt: SyntaxContext) -> Result<Node, NoMemory>
    ensures { IfOk result (λ node. node ≡ Node.Identifier kind (is_made sym ctxt)) }
{
    let ident = made(alloc, sym, ctxt)?;
    Ok(Node::Identifier(kind, ident))
}

// `_throw`, with the helper mark.
fn helper_name(alloc: Global, kind: Kind, helper: Mark, name: &str) -> Result<Node, NoMemory>
    ensures { IfOk result (λ node. node ≡ is_helper_name kind helper name.now) }
{
    let text = local_name(alloc, name)?;
    let ctxt = context(alloc, helper)?;
    identifier(alloc, kind, text, ctxt)
}

// `require`, with the global mark.
fn require_name(alloc: Global, global: Mark) -> Result<Node, NoMemory>
    ensures { IfOk result (λ node. node ≡ is_require_name global) }
{
    let text = Text::new(alloc, "require")?;
    let ctxt = context(alloc, global)?;
    identifier(alloc, Kind::Ident, text, ctxt)
}

// `_`, under which a helper's module exports it.
fn exported_name(alloc: Global) -> Result<Node, NoMemory>
    ensures { IfOk result (λ node. node ≡ is_exported_name) }
{
    let text = Text::new(alloc, "_")?;
    identifier(alloc, Kind::Ident, text, SyntaxContext::empty(alloc))
}

// `"@swc/helpers/_/_throw"`
fn source(alloc: Global, name: &str) -> Result<Node, NoMemory>
    ensures { IfOk result (λ node. node ≡ is_string (is_source_of name.now)) }
{
    let text = source_of(alloc, name)?;
    string(alloc, text)
}

// `_ as _throw`
fn specifier_of(alloc: Global, helper: Mark, name: &str) -> Result<Node, NoMemory>
    ensures { IfOk result (λ node. node ≡ is_specifier_of helper name.now) }
{
    let local = helper_name(alloc, Kind::Ident, helper, name)?;
    let imported = exported_name(alloc)?;
    let fields = [Node::Span(DUMMY_SP), local, imported];
    tree(alloc, Kind::ImportNamedSpecifier, fields)
}

// `import { _ as _throw } from "@swc/helpers/_/_throw";`
fn import_of(alloc: Global, helper: Mark, name: &str) -> Result<Node, NoMemory>
    ensures { IfOk result (λ node. node ≡ is_import_of helper name.now) }
{
    let specifier = specifier_of(alloc, helper, name)?;
    let specifiers = only(alloc, specifier)?;
    let source = source(alloc, name)?;
    let fields = [Node::Span(DUMMY_SP), specifiers, source, Node::Absent];
    tree(alloc, Kind::ImportDecl, fields)
}

// `require("@swc/helpers/_/_throw")`
fn call_of(alloc: Global, global: Mark, name: &str) -> Result<Node, NoMemory>
    ensures { IfOk result (λ node. node ≡ is_call_of global name.now) }
{
    let callee = require_name(alloc, global)?;
    let source = source(alloc, name)?;
    let argument = tree(alloc, Kind::ExprOrSpread, [Node::Absent, source])?;
    let arguments = only(alloc, argument)?;
    let fields = [Node::Span(DUMMY_SP), callee, arguments];
    tree(alloc, Kind::CallExpr, fields)
}

// `_throw = require("@swc/helpers/_/_throw")`
fn declarator_of(alloc: Global, helper: Mark, global: Mark, name: &str) -> Result<Node, NoMemory>
    ensures { IfOk result (λ node. node ≡ is_declarator_of helper global name.now) }
{
    let local = helper_name(alloc, Kind::BindingIdent, helper, name)?;
    let call = call_of(alloc, global, name)?;
    let fields = [Node::Span(DUMMY_SP), local, call];
    tree(alloc, Kind::VarDeclarator, fields)
}

// `var _throw = require("@swc/helpers/_/_throw");`
fn require_of(alloc: Global, helper: Mark, global: Mark, name: &str) -> Result<Node, NoMemory>
    ensures { IfOk result (λ node. node ≡ is_require_of helper global name.now) }
{
    let declarator = declarator_of(alloc, helper, global, name)?;
    let declarators = only(alloc, declarator)?;
    let fields = [Node::Span(DUMMY_SP), Node::Word(Word::Var), declarators];
    tree(alloc, Kind::VarDecl, fields)
}

/// An import for each helper.
pub fn imports(alloc: Global, helper: Mark, names: &[Text]) -> Result<Items<Node>, NoMemory>
    ensures { IfOk result (λ nodes. nodes ≡ map (is_import_of helper) names.now) }
{
    let mut nodes = Items::new(alloc);
    for name in names {
        let node = import_of(alloc, helper, name.as_str())?;
        nodes.push(node)?;
    }
    Ok(nodes)
}

/// A `var` with `require` for each helper.
pub fn requires_of(
    alloc: Global,
    helper: Mark,
    global: Mark,
    names: &[Text],
) -> Result<Items<Node>, NoMemory>
    ensures { IfOk result (λ nodes. nodes ≡ map (is_require_of helper global) names.now) }
{
    let mut nodes = Items::new(alloc);
    for name in names {
        let node = require_of(alloc, helper, global, name.as_str())?;
        nodes.push(node)?;
    }
    Ok(nodes)
}
