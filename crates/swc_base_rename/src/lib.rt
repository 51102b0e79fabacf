//! Renaming as passes: the names of a program are given anew, as a map says
//! and as a renamer has them, and hygiene, after which texts alone tell names apart.
//!
//! `specs/Visits.antt`, `specs/Renamers.antt` and `specs/Hygiene.antt` say what the passes make of a program; what becomes of a
//! tree is said in `swc_base_rename_substitution` and `swc_base_rename_program`.
#![tactic(auto)]

mod hygiene_passes;
mod hygiene_renamer;
mod hygienic;
mod lawful;
mod pass;
mod renaming;
mod settling;

pub use hygiene_passes::{hygiene, hygiene_with_config};
pub use hygiene_renamer::HygieneRenamer;
pub use hygienic::Hygiene;
pub use lawful::Renamer;
pub use pass::{RenameWith, remap, rename, rename_with_config};
pub use renaming::{RenamePass, renamer};
pub use settling::{settle_module_with, settle_script_with};
pub use swc_base_rename_naming::numbered;
pub use swc_base_rename_substitution::{Config, Names, substitute};
