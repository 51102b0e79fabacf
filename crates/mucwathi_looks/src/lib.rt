//! What is told of a text beside its rewriting.
//!
//! Its free names, the marks of its names and its tree (`names`, `marked`, `trees`); the names that a command gives anew (`changes`); texts with
//! marks behind their names, read and written (`given`, `resolved`, `write`); source maps (`mapping`); the page on which each variable has a
//! colour (`show`); and faults and differences, with lines and columns (`reports`).
#![tactic(auto)]

mod behind;
mod changes;
mod contexts;
mod excerpt;
mod given;
mod mapping;
mod marked;
mod names;
mod places;
mod reports;
mod resolved;
mod sentences;
mod show;
mod signs;
mod spots;
mod table;
mod told;
mod trees;
mod variables;
mod write;

pub use changes::list_changes;
pub use given::{Marked, give_marked, give_text};
pub use mapping::source_map;
pub use marked::mark_text;
pub use names::free_names;
pub use reports::{Named, tell_cover, tell_difference, tell_fault, tell_judge_fault, tell_no_tree};
pub use resolved::resolve_marked;
pub use sentences::{status_of, status_of_judging};
pub use show::show_text;
pub use signs::{any_is_marked, signs_at};
pub use trees::tree_of_text;
pub use write::{print_given, rewrite_marked};
