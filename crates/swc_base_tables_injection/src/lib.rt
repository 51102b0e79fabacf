//! Helpers that a program brings in: imports, `var`s with `require`, or the helpers' bodies themselves.
//!
//! `specs/Brought.antt` says what goes in, `specs/Members.antt` what becomes of helper identifiers in a script that
//! requires them, `specs/Injected.antt` the whole, and `specs/Alone.antt` what bodies that go in are.
#![tactic(auto)]

mod alone;
mod body;
mod brought;
mod inside;
mod members;
mod outside;

pub use inside::inject_bodies;
pub use outside::bring_in;
