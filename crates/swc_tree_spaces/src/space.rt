//! The two name spaces.

/// A name space: names mean values, or types.
#[derive(Clone, Copy, Debug, PartialEq, Eq)]
pub enum Space {
    /// Variables, functions, classes, imports, enums and namespaces.
    Values,
    /// Interfaces, aliases and type parameters; and classes, imports, enums and namespaces once more.
    Types,
}
