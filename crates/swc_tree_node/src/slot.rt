//! What the table says of a field.
use crate::kind::{Class, WordClass};

/// What one node or leaf must be.
#[derive(Clone, Copy, Debug, PartialEq, Eq)]
pub enum Content {
    Span,
    Text,
    Flag,
    Word(WordClass),
    Node(Class),
}

/// What stands in a field.
#[derive(Clone, Copy, Debug, PartialEq, Eq)]
pub enum Slot {
    One(Content),
    /// One, or nothing.
    Optional(Content),
    List(Content),
    /// A list in which items may be left out.
    Holes(Content),
    /// A list, or nothing.
    OptionalList(Content),
    /// Two texts.
    Pair,
    /// A list of pairs of texts, or nothing.
    Pairs,
}

/// What an identifier is that stands in a field, or in what stands there.
#[derive(Clone, Copy, Debug, PartialEq, Eq)]
pub enum Role {
    /// No name that a scope declares.
    Plain,
    /// What it is in the whole node: in parts of a pattern and items of a list.
    Inherited,
    /// An identifier reference (ECMA-262, IdentifierReference).
    Reference,
    /// A name that is bound as the keyword beside it says: by `var` in the function, else in the block.
    Declared,
    /// The name of a function declaration.
    Function,
    /// The name of a class declaration.
    Class,
    /// The name of a function or class expression, which is bound in it alone.
    OwnName,
    /// A name that a parameter binds.
    Parameter,
    /// A name that a catch parameter binds.
    Catch,
    /// A name that an import binds.
    Import,
    /// A name that `let` or `const` binds.
    Lexical,
    /// The block here is the body of a function, and no scope of its own; an expression here may be an
    /// identifier reference.
    FunctionBody,
    /// A label.
    Label,
    /// The name under which another module exports what is imported.
    Imported,
    /// The name under which something is exported.
    Exported,
    /// The name that an interface, an alias or a type parameter declares.
    TypeName,
    /// A type by its name.
    TypeReference,
    /// The local side of an export list: a reference, or an imported name where the list has a source.
    ExportLocal,
}

/// A field of a kind: its key in JSON, what stands in it, and what an identifier is there.
#[derive(Clone, Copy, Debug)]
pub struct Field {
    pub key: &'static str,
    pub slot: Slot,
    pub role: Role,
}
