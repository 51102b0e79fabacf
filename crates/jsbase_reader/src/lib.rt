//! Reading syntax trees from JSON.
//!
//! What a value is read as stands in `jsbase_form`. The value is only read: what the tree keeps, names
//! and other texts, is copied out of it once.
#![tactic(auto)]

mod envelope;
mod error;
mod gathered;
mod leaves;
mod nodes;
mod streamed;
mod versions;

pub use envelope::{Envelope, read_bytes, read_envelope};
pub use error::ReadError;
pub use nodes::read;
pub use versions::{Versions, read_versions};
