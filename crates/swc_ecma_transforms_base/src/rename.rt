//! Names given anew.
pub use swc_base_rename::{
    Config, RenamePass, RenameWith, Renamer, remap, rename, rename_with_config, renamer,
};
