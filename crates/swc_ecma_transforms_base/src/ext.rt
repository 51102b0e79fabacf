//! Looking into expressions.
pub use swc_tree::{AsOptExpr, ExprRefExt};
