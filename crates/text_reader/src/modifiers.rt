//! What stands before the key of a method.
use swc_tree_node::Word;

/// What stands before the key of a method.
#[derive(Clone, Copy)]
pub struct Modifiers {
    pub kind: Word,
    pub is_async: bool,
    pub is_generator: bool,
}

impl Modifiers {
    /// Whether nothing stands there.
    pub fn is_plain(self) -> bool {
        self.kind == Word::Method && !self.is_async && !self.is_generator
    }
}
