//! JavaScript texts read as modules and scripts: `read_text` of crate text_source, over the typed tree.
#![tactic(auto)]

mod read;

pub use read::{read_module, read_script};
pub use text_source::{Expected, Language, Located, MOST_BYTES, Place, TextFault, locate};
