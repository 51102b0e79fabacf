//! What the renaming passes go by.
use swc_tree_marks::Mark;

/// What the renaming passes go by.
#[derive(Clone, Copy, Debug, Default)]
pub struct Config {
    /// Whether classes keep their names, for code that reads a class's `name`.
    pub keep_class_names: bool,
    /// Has no effect.
    pub safari_10: bool,
    /// The mark of the names that the program declares.
    pub top_level_mark: Mark,
    /// Whether names are given anew where a direct `eval` could read them.
    pub ignore_eval: bool,
}
