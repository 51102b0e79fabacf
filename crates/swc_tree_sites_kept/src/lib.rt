//! What of a program's names stays where it is stripped, written out or gets pairs.
//!
//! `tame_laws` is on modules that can be written down, `scripts_laws` on scripts without plain functions in blocks of sloppy code, `errors_laws`
//! on early errors of names, `exports_laws` on what a module exports and declares. Each law is the contract of a function that does nothing,
//! so that it is proved.
#![tactic(auto)]

mod errors_laws;
mod exports_laws;
mod scripts_laws;
mod tame_laws;

pub use errors_laws::{
    answer_declares, answer_redeclares_none, declared_stays, new_texts_redeclare_none,
    no_redeclaration_stays, readings_keep_scopes,
};
pub use exports_laws::{export_lists_are_listed, stripped_exports_the_same, written_out_exports};
pub use scripts_laws::{fixed_scripts_lose_no_name, plain_scripts_are_left};
pub use tame_laws::{
    writable_modules_are_tame, writable_normal_form_is_left, writable_scripts_are_tame,
};

// Libraries below that crates above name through this one.
pub use swc_tree_sites_written;
