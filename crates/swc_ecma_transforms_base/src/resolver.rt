//! Which scope each name means.
pub use swc_base_resolver::{Resolver, marks_ok, resolver};
