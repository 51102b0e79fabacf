//! The scope that a node opens.
ghost use Rattle.std.specs.Prelude.{◌≡◌, slice_get};
ghost use Rattle.swc_tree_scoping.specs.Places.{is_inside as is_in, is_there as stands_there, block_scope as of_block, name_scope as of_name, nests as makes_nested, opened_as, outer_field as outside, parameter_field as parameters, own_block as has_own_block, view_from as seen_from};

use crate::places::{Place, Scope, Standing, View};
use swc_tree_node::fields::{
    arrow_expr, catch_clause, constructor, function, getter_prop, setter_prop, switch_stmt,
    ts_enum_decl, ts_interface_decl, ts_module_decl, ts_type_alias_decl,
};
use swc_tree_node::{Kind, Node};

/// Whether something stands in a field.
pub fn is_there(fields: &[Node], index: usize) -> bool
    ensures { result ≡ stands_there (slice_get fields.now index) }
{
    match fields.get(index) {
        Some(Node::Absent) | None => false,
        Some(_) => true,
    }
}

/// Whether a function declaration there stands in a block of its own: as the branch of an `if` of sloppy code
/// (ECMA-262, B.3.3).
pub fn own_block(place: Place) -> bool
    ensures { result ≡ has_own_block place }
{
    place.standing == Standing::Branch && !place.strict
}

/// The scope that a tree of that kind opens in a place, by whether its first field holds something.
pub fn opened_by(place: Place, kind: Kind, has_name: bool) -> Option<Scope>
    ensures { result ≡ opened_as place kind has_name }
{
    match kind {
        Kind::Module | Kind::Script => Some(Scope::Program),
        Kind::Function
        | Kind::ArrowExpr
        | Kind::Constructor
        | Kind::GetterProp
        | Kind::SetterProp => Some(Scope::Function),
        Kind::FnExpr => name_scope(place.standing, has_name, Scope::FunctionName),
        Kind::ClassExpr => name_scope(place.standing, has_name, Scope::ClassName),
        Kind::BlockStmt => block_scope(place.standing),
        Kind::FnDecl => own_block(place).then_some(Scope::Block),
        Kind::ForStmt | Kind::ForInStmt | Kind::ForOfStmt => Some(Scope::For),
        Kind::SwitchStmt => Some(Scope::Switch),
        Kind::CatchClause => Some(Scope::Catch),
        Kind::StaticBlock => Some(Scope::StaticBlock),
        Kind::TsInterfaceDecl | Kind::TsTypeAliasDecl | Kind::TsEnumDecl => Some(Scope::Types),
        Kind::TsModuleDecl => Some(Scope::Namespace),
        _ => None,
    }
}

fn name_scope(standing: Standing, has_name: bool, scope: Scope) -> Option<Scope>
    ensures { result ≡ of_name standing has_name scope }
{
    match standing {
        Standing::DefaultExport => None,
        _ => has_name.then_some(scope),
    }
}

fn block_scope(standing: Standing) -> Option<Scope>
    ensures { result ≡ of_block standing }
{
    match standing {
        Standing::Body => None,
        _ => Some(Scope::Block),
    }
}

/// How much of the scope that a tree of that kind opens is seen from one of its fields.
pub fn view_from(kind: Kind, index: usize) -> View
    ensures { result ≡ seen_from kind index }
{
    if outer_field(kind) == Some(index) {
        View::Outside
    } else if parameter_field(kind) == Some(index) {
        View::Parameters
    } else {
        View::Whole
    }
}

// The field that stands outside of the scope that the tree opens.
fn outer_field(kind: Kind) -> Option<usize>
    ensures { result ≡ outside kind }
{
    match kind {
        Kind::Constructor => Some(constructor::KEY),
        Kind::GetterProp => Some(getter_prop::KEY),
        Kind::SetterProp => Some(setter_prop::KEY),
        Kind::SwitchStmt => Some(switch_stmt::DISCRIMINANT),
        Kind::TsInterfaceDecl => Some(ts_interface_decl::ID),
        Kind::TsTypeAliasDecl => Some(ts_type_alias_decl::ID),
        Kind::TsEnumDecl => Some(ts_enum_decl::ID),
        Kind::TsModuleDecl => Some(ts_module_decl::ID),
        _ => None,
    }
}

fn parameter_field(kind: Kind) -> Option<usize>
    ensures { result ≡ parameters kind }
{
    match kind {
        Kind::Function => Some(function::PARAMS),
        Kind::ArrowExpr => Some(arrow_expr::PARAMS),
        Kind::Constructor => Some(constructor::PARAMS),
        Kind::SetterProp => Some(setter_prop::PARAM),
        Kind::CatchClause => Some(catch_clause::PARAM),
        _ => None,
    }
}

/// Whether something of the scope is seen.
pub fn is_inside(view: View) -> bool
    ensures { result ≡ is_in view }
{
    view != View::Outside
}

/// Whether functions in a scope stand in a block, by whether they did round it.
pub fn nests(scope: Scope, nested: bool) -> bool
    ensures { result ≡ makes_nested scope nested }
{
    match scope {
        Scope::Block | Scope::Switch | Scope::Catch => true,
        Scope::For | Scope::FunctionName | Scope::ClassName => nested,
        Scope::Program | Scope::Function | Scope::StaticBlock | Scope::Types | Scope::Namespace =>
            false,
    }
}
