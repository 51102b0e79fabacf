//! Texts that tell names apart by themselves.
pub use swc_base_rename::{Config, Hygiene, HygieneRenamer, hygiene, hygiene_with_config, rename};
