//! Small calls on one level of the tree: names that a pattern binds, directives, and expressions seen
//! through what holds them.
#![tactic(auto)]

mod expr;
mod ids;
mod stmts;

pub use expr::{AsOptExpr, ExprRefExt};
pub use ids::find_pat_ids;
pub use stmts::{StmtLike, is_use_strict, prepend_stmts};
