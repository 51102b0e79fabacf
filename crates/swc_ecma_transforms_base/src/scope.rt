//! The kinds of scopes, of identifiers and of declarations.
pub use swc_base_resolver::scope::{DeclKind, IdentType, ScopeKind};
