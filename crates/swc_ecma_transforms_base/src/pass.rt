//! Passes over programs.
pub use swc_tree::{JsPass, Noop, noop};
