//! Which scope takes what is bound in it.
ghost use Rattle.std.specs.Prelude.{◌≡◌};
ghost use Rattle.swc_tree_scoping.specs.Scopes.{is_binding as binds, is_reference as refers, is_name_scope as in_name, is_variable_scope as takes_variables, takes as is_taken};

use crate::places::{Scope, Standing};

/// Whether a scope is a function's, a static block's, a namespace's or the program's: those that take what `var` declares.
pub fn is_variable_scope(scope: Scope) -> bool
    ensures { result ≡ takes_variables scope }
{
    matches!(
        scope,
        Scope::Program | Scope::Function | Scope::StaticBlock | Scope::Namespace
    )
}

fn is_name_scope(scope: Scope) -> bool
    ensures { result ≡ in_name scope }
{
    matches!(scope, Scope::FunctionName | Scope::ClassName)
}

/// Whether a scope takes what is bound so in it or below it.
pub fn takes(standing: Standing, scope: Scope) -> bool
    ensures { result ≡ is_taken standing scope }
{
    match standing {
        Standing::Variable | Standing::Function => is_variable_scope(scope),
        Standing::Lexical => !is_name_scope(scope),
        Standing::BlockFunction | Standing::SloppyFunction => {
            !is_name_scope(scope) && scope != Scope::For
        }
        Standing::Parameter => matches!(scope, Scope::Function | Scope::Program | Scope::Namespace),
        Standing::CatchParameter => matches!(
            scope,
            Scope::Catch | Scope::Program | Scope::Namespace
        ),
        Standing::Import => matches!(scope, Scope::Program | Scope::Namespace),
        Standing::FunctionName => matches!(
            scope,
            Scope::FunctionName | Scope::Program | Scope::Namespace
        ),
        Standing::ClassName => matches!(
            scope,
            Scope::ClassName | Scope::Program | Scope::Namespace
        ),
        _ => false,
    }
}

/// Whether an identifier that stands so binds its name.
pub fn is_binding(standing: Standing) -> bool
    ensures { result ≡ binds standing }
{
    matches!(
        standing,
        Standing::Variable
            | Standing::Lexical
            | Standing::Function
            | Standing::BlockFunction
            | Standing::SloppyFunction
            | Standing::Parameter
            | Standing::CatchParameter
            | Standing::Import
            | Standing::FunctionName
            | Standing::ClassName
    )
}

/// Whether an identifier that stands so is a reference.
pub fn is_reference(standing: Standing) -> bool
    ensures { result ≡ refers standing }
{
    matches!(standing, Standing::Reference | Standing::Body)
}
