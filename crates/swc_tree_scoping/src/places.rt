//! As what a node stands where it stands.

/// As what a node stands: how an identifier there is bound, or that it is a reference.
#[derive(Clone, Copy, Debug, PartialEq, Eq)]
pub enum Standing {
    /// As nothing that holds a name.
    Plain,
    /// As a label.
    Label,
    /// As the name under which another module exports what is imported, or exported again.
    Imported,
    /// As the name under which something is exported.
    Exported,
    /// As an expression or a target: an identifier is a reference.
    Reference,
    /// Names that `var` declares.
    Variable,
    /// Names of `let`, `const`, `using` and class declarations.
    Lexical,
    /// The name of a function at the top of a function, a static block or a program.
    Function,
    /// The name of a function in a block, a case list or a catch body that stays there.
    BlockFunction,
    /// The name of a plain function in a block, a case list or a catch body of sloppy code, which may be declared
    /// outside of it.
    SloppyFunction,
    /// Names of a function's parameters.
    Parameter,
    /// Names of a catch clause's parameter.
    CatchParameter,
    /// Names that an import binds.
    Import,
    /// The name of a function expression.
    FunctionName,
    /// The name of a class expression.
    ClassName,
    /// The body of a function, a catch clause or a static block; an identifier is a reference.
    Body,
    /// A branch of an `if`.
    Branch,
    /// A declaration that is the default export.
    DefaultExport,
    /// The name of an interface, an alias or a type parameter: that of a type alone.
    TypeName,
    /// A type by its name.
    TypeReference,
}

/// Where a node stands: as what, whether in strict code, and whether in a block, a case list or a catch body
/// within the nearest function, static block or program.
#[derive(Clone, Copy, Debug, PartialEq, Eq)]
pub struct Place {
    pub standing: Standing,
    pub strict: bool,
    pub nested: bool,
}

/// The kinds of scopes.
#[derive(Clone, Copy, Debug, PartialEq, Eq)]
pub enum Scope {
    Program,
    /// A function's parameters and body.
    Function,
    /// The name of a function expression.
    FunctionName,
    /// The name of a class expression.
    ClassName,
    Block,
    /// The head of a `for` statement, with its body.
    For,
    /// The cases of a `switch`.
    Switch,
    /// A catch clause's parameter and body.
    Catch,
    StaticBlock,
    /// An interface, an alias or an enum: its type parameters or its members.
    Types,
    /// The body of a namespace.
    Namespace,
}

/// How much of a scope is seen from a part of the node that opens it.
#[derive(Clone, Copy, Debug, PartialEq, Eq)]
pub enum View {
    Outside,
    /// The names of parameters alone.
    Parameters,
    Whole,
}
