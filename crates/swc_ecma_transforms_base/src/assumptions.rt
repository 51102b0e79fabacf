//! What a program may assume of the code that it runs on.
pub use swc_base_tables_settings::{Assumptions, AssumptionsError};
