//! The features of the versions of the language.
pub use swc_base_tables_settings::{FeatureFlag, enable_available_feature_from_es_version};
