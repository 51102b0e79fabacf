//! The names that the language and its hosts define.
pub use swc_base_tables_settings::is_native;
