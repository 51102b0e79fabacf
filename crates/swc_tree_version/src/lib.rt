//! The versions of the language.
#![tactic(auto)]

mod version;

pub use version::EsVersion;
