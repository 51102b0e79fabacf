//! JavaScript in, JavaScript out: what the passes make of a text, below all laws.
//!
//! `specs/Written.antt` says what: `IsRewritten`.
#![tactic(auto)]

mod apart;
mod cover;
mod judge;
mod places;
mod rewrite;
mod write;

pub use cover::{CoverGap, cover_text};
pub use judge::{NamedText, Rules, TextDifference, judge_texts};
pub use mucwathi_order::{Command, Goal, JudgeFault, Memory, Order, RunFault, Settings, Style};
pub use rewrite::{rewrite_text, rewrite_with_comments};
pub use swc_base_alpha::Why;
pub use swc_base_covers::Cause;
pub use write::{RewrittenText, edit, print};

// Libraries below that crates above name through this one.
pub use mucwathi_order;
