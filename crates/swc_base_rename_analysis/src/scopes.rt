//! The scopes that a renamer tells apart.
ghost use Rattle.std.specs.Prelude.{◌≡◌};
ghost use Rattle.swc_tree_scoping.specs.Places.{is_at};
ghost use Rattle.swc_base_rename_analysis.specs.Analysis.{body_field as body_field_of, body_kind, has_identifier, key_field as key_field_of, kind_of as kind_of_scope};
ghost use Rattle.swc_base_rename_analysis.specs.Walk.{kind_opened, name_outside as is_name_outside};

use swc_tree_node::fields::{
    class_expr, constructor, for_in_stmt, for_of_stmt, for_stmt, getter_prop, setter_prop,
    ts_module_decl,
};
use swc_tree_node::{Kind, Node};
use swc_tree_scoping::{Place, Scope, Standing};

/// What a scope takes of the names that are bound in it.
#[derive(Clone, Copy, Debug, PartialEq, Eq)]
pub enum ScopeKind {
    /// Lexical names and those of catch parameters; the others go further out.
    Block,
    /// All names: a program, a function, a named function expression, a class expression or a static block.
    Fn,
}

// What a scope of the language is to a renamer.
fn kind_of(scope: Scope) -> Option<ScopeKind>
    ensures { result ≡ kind_of_scope scope }
{
    match scope {
        Scope::Program
        | Scope::Function
        | Scope::FunctionName
        | Scope::ClassName
        | Scope::StaticBlock
        | Scope::Namespace => Some(ScopeKind::Fn),
        Scope::Block | Scope::For | Scope::Catch => Some(ScopeKind::Block),
        Scope::Switch | Scope::Types => None,
    }
}

// The same of a tree of that kind, which opens that scope of the language.
fn own_kind(kind: Kind, opened: Option<Scope>) -> Option<ScopeKind>
    ensures { result ≡ kind_opened kind opened }
{
    match kind {
        Kind::ClassExpr => Some(ScopeKind::Fn),
        Kind::FnDecl => None,
        _ => match opened {
            Some(scope) => kind_of(scope),
            None => None,
        },
    }
}

/// The scope that a tree of that kind opens, by the scope of the language that it does and by whether it is the body of a
/// `for` statement.
pub fn opened_kind(for_body: bool, kind: Kind, opened: Option<Scope>) -> Option<ScopeKind>
    ensures { result ≡ body_kind for_body (kind_opened kind opened) }
{
    match own_kind(kind, opened) {
        None if for_body => Some(ScopeKind::Block),
        scope => scope,
    }
}

fn body_field(kind: Kind) -> Option<usize>
    ensures { result ≡ body_field_of kind }
{
    match kind {
        Kind::ForStmt => Some(for_stmt::BODY),
        Kind::ForInStmt => Some(for_in_stmt::BODY),
        Kind::ForOfStmt => Some(for_of_stmt::BODY),
        _ => None,
    }
}

/// Whether a field holds the body of a `for` statement.
pub fn is_for_body(kind: Kind, index: usize) -> bool
    ensures { result ≡ is_at (body_field_of kind) index }
{
    body_field(kind) == Some(index)
}

/// The field of a key, which stands outside of the scope that the tree opens.
pub fn key_field(kind: Kind) -> Option<usize>
    ensures { result ≡ key_field_of kind }
{
    match kind {
        Kind::Constructor => Some(constructor::KEY),
        Kind::GetterProp => Some(getter_prop::KEY),
        Kind::SetterProp => Some(setter_prop::KEY),
        Kind::TsModuleDecl => Some(ts_module_decl::ID),
        _ => None,
    }
}

/// The field of the identifier that names a class that is the default export: it stands outside of the class's scope.
pub fn name_outside(place: Place, kind: Kind, fields: &[Node]) -> Option<usize>
    ensures { result ≡ is_name_outside place kind (has_identifier fields.now) }
{
    match (kind, place.standing, fields.get(class_expr::IDENT)) {
        (Kind::ClassExpr, Standing::DefaultExport, Some(Node::Identifier(..))) => {
            Some(class_expr::IDENT)
        }
        _ => None,
    }
}
