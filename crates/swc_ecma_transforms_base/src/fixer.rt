//! Parentheses: those that are due are set, or all are taken off.
pub use swc_base_fixer::{Fixer, ParenRemover, fixer, paren_remover};
