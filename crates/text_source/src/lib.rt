//! JavaScript texts read into trees that say what the texts say, as is proved of each that is answered.
#![tactic(auto)]

mod located;
mod read;
mod sound;

pub use located::{Located, locate};
pub use read::{MOST_BYTES, are_spans_of, is_text_of, read_text};
pub use text_parser::{Expected, Goal, Language, TextFault};
pub use text_places::{Place, line_and_column};
