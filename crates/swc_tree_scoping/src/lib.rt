//! Scopes, and what an identifier means: the definitions on which the passes rest.
//!
//! They stand in `specs/`: `Places` says where nodes stand and as what, `BoundNames` what a pattern or a declaration
//! binds, `Scopes` which scopes stand round a place and which one takes what is bound there, `Declares` what each
//! scope declares and which one a reference means, `Resolved` what a resolver may answer.
#![tactic(auto)]

mod below;
mod bound;
mod directives;
mod opened;
mod places;
mod taking;

pub use below::{
    Fields, PROGRAM_PLACE, PlacesBelow, places_of_fields, places_of_items, role_of_field,
};
pub use bound::{add_bound_ids, add_bound_in_items, add_declared_ids};
pub use places::{Place, Scope, Standing, View};
pub use taking::{is_binding, is_reference, is_variable_scope, takes};
