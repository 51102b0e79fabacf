//! What the productions of ECMA-262 ask of nodes side by side, decided: how many there are, and which may stand together.
#![tactic(auto)]

mod classes;
mod items;
mod leaves;
mod parts;
mod shape;

pub use shape::{Misshapen, is_shaped};
