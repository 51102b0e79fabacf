//! Forms of statements: which may stand where (ECMA-262, 14, B.3.1, B.3.3), and what is strict (11.2.2).
ghost use Rattle.std.specs.Prelude.{◌≡◌, Some, option_map, slice_get, not};
ghost use Rattle.std.specs.List.{list_all};
ghost use Rattle.swc_tree_node.specs.declared.node.Node.{out-Node};
ghost use Rattle.swc_tree_scoping.specs.Places.{block_in, directive_of, flag_of, has_use_strict as says_strict, is_plain_function as is_plain, items_of as items_in_field, literal_of, says, text_of};
ghost use Rattle.swc_tree_grammar.specs.Forms.{are_named as are_named_by, form, form_of_function as form_of_plain, form_of_word, holds as holds_flag, is_body as is_body_form, is_branch as is_branch_form, is_name_in, is_named_in, is_strict as makes_strict, is_using as is_using_statement, is_using_form as uses};
ghost use Rattle.swc_tree_grammar.specs.Grammar.{is_async_name as is_named_async, using_head_in};
ghost use Rattle.swc_tree_grammar.specs.Levels.{word_of as word_in};
ghost use Rattle.swc_tree_grammar.specs.Shapes.{items_of};
ghost use Rattle.text_derives.specs.Forms.{form_as};

use crate::demand::items;
use crate::level::{is_absent, word_of};
use swc_tree_node::fields::{
    block_stmt, expr_stmt, fn_decl, function, str, using_decl, var_decl, var_declarator,
};
use swc_tree_node::{Kind, Node, Word};

/// What kind of statement a node is.
#[derive(Clone, Copy)]
pub enum Form {
    Ordinary,
    PlainFunction,
    Declaring,
    Using,
}

/// Whether a flag is set.
pub fn is_set(node: &Node) -> bool
    ensures { result ≡ holds_flag node.now }
{
    match node {
        Node::Flag(flag) => *flag,
        _ => false,
    }
}

fn flag(fields: &[Node], index: usize) -> bool
    ensures { result ≡ flag_of (slice_get fields.now index) }
{
    match fields.get(index) {
        Some(Node::Flag(flag)) => *flag,
        _ => false,
    }
}

// Whether a function is neither async nor a generator.
fn is_plain_function(node: &Node) -> bool
    ensures { result ≡ is_plain (Some node.now) }
{
    match node {
        Node::Tree(kind, fields) => {
            let fields = fields.as_slice();
            match kind {
                Kind::Function => {
                    !flag(fields, function::IS_GENERATOR) && !flag(fields, function::IS_ASYNC)
                }
                _ => false,
            }
        }
        _ => false,
    }
}

fn form_of_variables(keyword: &Node) -> Form
    ensures { form_as result ≡ form_of_word (word_in keyword.now) }
{
    match word_of(keyword) {
        Some(Word::Var) => Form::Ordinary,
        _ => Form::Declaring,
    }
}

fn form_of_function(function: &Node) -> Form
    ensures { form_as result ≡ form_of_plain (is_plain (Some function.now)) }
{
    if is_plain_function(function) {
        Form::PlainFunction
    } else {
        Form::Declaring
    }
}

fn form_of(node: &Node) -> Form
    ensures { form_as result ≡ form node.now }
{
    match node {
        Node::Tree(kind, fields) => {
            let fields = fields.as_slice();
            match kind {
                Kind::VarDecl if fields.len() == 3 => form_of_variables(&fields[var_decl::KIND]),
                Kind::FnDecl if fields.len() == 2 => form_of_function(&fields[fn_decl::FUNCTION]),
                Kind::ClassDecl => Form::Declaring,
                Kind::UsingDecl => Form::Using,
                Kind::TsInterfaceDecl => Form::Declaring,
                Kind::TsTypeAliasDecl => Form::Declaring,
                Kind::TsEnumDecl => Form::Declaring,
                Kind::TsModuleDecl => Form::Declaring,
                _ => Form::Ordinary,
            }
        }
        _ => Form::Ordinary,
    }
}

/// Whether a statement may be the body of a loop or of a `with`.
pub fn is_body(node: &Node) -> bool
    ensures { result ≡ is_body_form (form node.now) }
{
    is_ordinary(form_of(node))
}

fn is_ordinary(form: Form) -> bool
    ensures { result ≡ is_body_form (form_as form) }
{
    matches!(form, Form::Ordinary)
}

// Whether a statement of a form may be a branch.
fn may_branch(strict: bool, form: Form) -> bool
    ensures { result ≡ is_branch_form strict (form_as form) }
{
    match form {
        Form::Ordinary => true,
        Form::PlainFunction => !strict,
        Form::Declaring | Form::Using => false,
    }
}

/// Whether a statement may be the branch of an `if`, or what a label names.
pub fn is_branch(strict: bool, node: &Node) -> bool
    ensures { result ≡ is_branch_form strict (form node.now) }
{
    may_branch(strict, form_of(node))
}

fn is_using_form(form: Form) -> bool
    ensures { result ≡ uses (form_as form) }
{
    matches!(form, Form::Using)
}

/// Whether a node is a declaration by `using`.
pub fn is_using(node: &Node) -> bool
    ensures { result ≡ is_using_statement node.now }
{
    is_using_form(form_of(node))
}

/// Whether none of the statements of a list is one.
pub fn has_no_using(node: &Node) -> bool
    ensures { result ≡ list_all (λ u. not (is_using_statement u)) (items_of node.now) }
{
    items(node).iter().all(|statement| !is_using(statement))
}

// The text of a string in a field says `use strict`, if one stands there.
fn text(fields: &[Node], index: usize) -> Option<bool>
    ensures { result ≡ option_map says (text_of (slice_get fields.now index)) }
{
    match fields.get(index) {
        Some(Node::Text(text)) => Some(text.as_str() == "use strict"),
        _ => None,
    }
}

fn literal(fields: &[Node], index: usize) -> Option<bool>
    ensures { result ≡ option_map says (literal_of (slice_get fields.now index)) }
{
    match fields.get(index) {
        Some(Node::Tree(Kind::Str, fields)) => text(fields.as_slice(), str::VALUE),
        _ => None,
    }
}

// Whether a statement is a directive, and then whether it is `use strict` (11.2.1).
fn directive(statement: &Node) -> Option<bool>
    ensures { result ≡ directive_of statement.now }
{
    match statement {
        Node::Tree(Kind::ExprStmt, fields) => literal(fields.as_slice(), expr_stmt::EXPR),
        _ => None,
    }
}

/// Whether one of the leading string statements is `use strict`.
pub fn has_use_strict(statements: &[Node]) -> bool
    ensures { result ≡ says_strict statements.now }
{
    for statement in statements {
        match directive(statement) {
            Some(true) => return true,
            Some(false) => (),
            None => return false,
        }
    }
    false
}

// The items of a list in a field.
fn listed(fields: &[Node], index: usize) -> &[Node]
    ensures { result.now ≡ items_in_field (slice_get fields.now index) }
{
    match fields.get(index) {
        Some(Node::List(items)) => items.as_slice(),
        _ => &[],
    }
}

// The statements of a block.
fn block(body: &Node) -> &[Node]
    ensures { result.now ≡ block_in (out-Node body.now) }
{
    match body {
        Node::Tree(Kind::BlockStmt, fields) => listed(fields.as_slice(), block_stmt::STMTS),
        _ => &[],
    }
}

/// Whether a body makes its code strict.
pub fn is_strict(body: &Node) -> bool
    ensures { result ≡ makes_strict body.now }
{
    has_use_strict(block(body))
}

// Whether a declarator names one identifier, with an initialiser or without.
fn is_named(with_init: bool, node: &Node) -> bool
    ensures { result ≡ is_named_in with_init (out-Node node.now) }
{
    match node {
        Node::Tree(kind, fields) => {
            let fields = fields.as_slice();
            match kind {
                Kind::VarDeclarator if fields.len() == 3 => {
                    is_bound(&fields[var_declarator::NAME])
                        && is_absent(&fields[var_declarator::INIT]) != with_init
                }
                _ => false,
            }
        }
        _ => false,
    }
}

// Whether a node is an identifier that stands as a pattern.
fn is_bound(node: &Node) -> bool
    ensures { result ≡ is_name_in (out-Node node.now) }
{
    match node {
        Node::Identifier(kind, _) => matches!(kind, Kind::BindingIdent),
        _ => false,
    }
}

/// Whether each of the declarators of a `using` is such.
pub fn are_named(with_init: bool, declarators: &[Node]) -> bool
    ensures { result ≡ are_named_by with_init declarators.now }
{
    declarators.iter().all(|node| is_named(with_init, node))
}

/// Whether the head of a `for` that is a declaration by `using` names identifiers alone, with no initialisers.
pub fn is_bare_using(node: &Node) -> bool
    ensures { result ≡ using_head_in (out-Node node.now) }
{
    match node {
        Node::Tree(kind, fields) => {
            let fields = fields.as_slice();
            match kind {
                Kind::UsingDecl if fields.len() == 3 => {
                    are_named(false, items(&fields[using_decl::DECLS]))
                }
                _ => true,
            }
        }
        _ => true,
    }
}

/// Whether a node is the name `async`.
pub fn is_async_name(node: &Node) -> bool
    ensures { result ≡ is_named_async node.now }
{
    match node {
        Node::Identifier(_, ident) => ident.get().sym.as_str() == "async",
        _ => false,
    }
}
