//! The settings of a renamer.
/// The settings of a renamer.
#[derive(Clone, Copy, Debug, PartialEq, Eq)]
pub struct Mode {
    /// Whether scopes beside one another may share texts.
    pub mangles: bool,
    /// Whether the counter starts again at each id of a scope, where scopes may not share texts.
    pub resets: bool,
}
