//! Comments of a text.
use std::alloc::AllocError;
use swc_tree_marks::{BytePos, Span};

/// A comment of a text, and the tokens that it stands between. Positions are in bytes, from 1.
#[derive(Clone, Copy, Debug, PartialEq, Eq)]
pub struct Comment {
    pub span: Span,
    /// The end of the token before it, 0 where there is none.
    pub trails: BytePos,
    /// The beginning of the token behind it, or the end of the text.
    pub leads: BytePos,
}

/// Why the comments of a text are not told.
#[derive(Clone, Copy, Debug, PartialEq, Eq)]
pub enum CommentsFault {
    NoMemory,
    /// The text has 2^32 bytes or more, less one.
    TooLong,
    /// The text is not that of the tree.
    OtherText,
}

impl From<AllocError> for CommentsFault {
    ghost use Rattle.std.specs.Prelude.{◌≡◌};
    ghost use Rattle.text_comments.specs.declared.comment.CommentsFault.TheVariants.{NoMemory};

    ghost from_gives = { λ _ fault. fault ≡ NoMemory };

    fn from(_: AllocError) -> CommentsFault {
        CommentsFault::NoMemory
    }
}
