//! The helpers that lowered programs call, and how they come into a program.
pub use swc_base_tables::{
    Helper, HelperBodies, HelperData, Helpers, InjectHelpers, helper, helper_expr, inject_helpers,
};
