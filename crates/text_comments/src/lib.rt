//! The comments of a text, with the tokens that they stand at.
#![tactic(auto)]

mod comment;
mod find;
mod line;

pub use comment::{Comment, CommentsFault};
pub use find::{Source, add_before_token, add_before_tokens, find_comments, is_comment};
pub use line::{ends_line, goes_to_line_end, has_line_end, is_one_comment};

// Libraries below that crates above name through this one.
pub use text_walk;
