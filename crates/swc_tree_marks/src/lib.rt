//! Marks, syntax contexts, spans and identifiers: what tells one name of a program from another.
#![tactic(auto)]

mod context;
mod error;
mod globals;
mod ident;
mod mark;
mod marks;
mod span;

pub use context::SyntaxContext;
pub use error::{MarkError, NoMemory, PassError};
pub use globals::Globals;
pub use ident::{Atom, Id, Ident, JsWord};
pub use mark::Mark;
pub use span::{BytePos, DUMMY_SP, Span};

// Libraries below that crates above name through this one.
pub use swc_tree_items;
