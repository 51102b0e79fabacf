//! What a lowering of programs goes by: which features a version of the language has, what may be assumed of a program, and
//! which names each program is given.
#![tactic(auto)]

mod assumptions;
mod error;
mod features;
mod flag;
mod native;

pub use assumptions::Assumptions;
pub use error::AssumptionsError;
pub use features::enable_available_feature_from_es_version;
pub use flag::FeatureFlag;
pub use native::is_native;
