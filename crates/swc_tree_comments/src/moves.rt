//! Requests to move comments.
use swc_tree_marks::BytePos;

/// A request to move comments from one position to another.
#[derive(Clone, Copy, Debug, PartialEq, Eq)]
pub enum Move {
    Leading(BytePos, BytePos),
    Trailing(BytePos, BytePos),
}
