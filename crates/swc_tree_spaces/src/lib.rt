//! The two name spaces, of values and of types: what a name means where declarations of types stand.
//!
//! `specs/Spaces.antt` says what a resolver may answer of such a tree.
#![tactic(auto)]

mod space;

pub use space::Space;
