//! What passes that look at scopes call the kinds of scopes, of identifiers and of declarations.
ghost use Rattle.std.specs.Prelude.{◌≡◌};
ghost use Rattle.swc_base_resolver.specs.DeclKinds.{declared_by};

use swc_tree::VarDeclKind;

/// What opens a scope.
#[derive(Clone, Copy, Debug, Default, PartialEq, Eq)]
pub enum ScopeKind {
    /// A block, or what is like one.
    Block,
    /// A function, or the program.
    #[default]
    Fn,
}

/// As what an identifier stands.
#[derive(Clone, Copy, Debug, PartialEq, Eq)]
pub enum IdentType {
    /// It binds a name.
    Binding,
    /// It refers to a name.
    Ref,
    /// It is the label of a statement or of a jump.
    Label,
}

/// How a name is declared.
#[derive(Clone, Copy, Debug, PartialEq, Eq)]
pub enum DeclKind {
    /// By `let`, `const`, `using` or a class.
    Lexical,
    /// By a parameter.
    Param,
    /// By `var`.
    Var,
    /// By a function.
    Function,
    /// By a type.
    Type_,
}

impl From<VarDeclKind> for DeclKind {
    ghost from_gives = { λ keyword kind. kind ≡ declared_by keyword };

    /// How the names of a declaration with that keyword are declared.
    fn from(keyword: VarDeclKind) -> DeclKind {
        match keyword {
            VarDeclKind::Var => DeclKind::Var,
            VarDeclKind::Let | VarDeclKind::Const => DeclKind::Lexical,
        }
    }
}
