//! The passes that take parentheses off a program and set those that are due: `paren_remover` and `fixer`.
#![tactic(auto)]

mod build;
mod fixing;
mod fixing_pass;
mod laws;
mod remover;
mod remover_pass;

pub use build::fixer;
pub use fixing::Fixer;
pub use laws::answers_keep_promises;
pub use remover::{ParenRemover, paren_remover};
pub use swc_tree_comments::{Comments, NoComments};
