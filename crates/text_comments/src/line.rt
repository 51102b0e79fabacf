//! Comments, and the lines that end in them or behind them.
ghost use Rattle.std.specs.Prelude.{◌≡◌};
ghost use Rattle.text_comments.specs.Lines as spec;

use crate::find::is_comment;
use text_characters::begins_line_end;
use text_lexer::{Comments, Skip, skip_piece};

/// Whether a text is one comment, which may begin a line.
pub fn is_one_comment(comments: Comments, text: &[u8]) -> bool
    ensures { result ≡ spec.is_one_comment comments text.now }
{
    match skip_piece(comments, true, text) {
        Skip::Past(_, rest) => rest.is_empty() && is_comment(text),
        Skip::Stop => false,
        Skip::Unclosed => false,
    }
}

/// Whether a comment goes to the end of its line.
pub fn goes_to_line_end(comment: &[u8]) -> bool
    ensures { result ≡ spec.goes_to_line_end comment.now }
{
    comment.starts_with(b"//") || comment.starts_with(b"<!--") || comment.starts_with(b"-->")
}

/// Whether a line ends in a text.
#[tactic(auto, using(crate::proofs::Lines::has_line_end_drop, crate::proofs::Lines::has_line_end_none, std::proofs::lemmas::Grind::common_steps))]
pub fn has_line_end(text: &[u8]) -> bool
    ensures { result ≡ spec.has_line_end text.now }
{
    'bytes: for at in 0..text.len() {
        if begins_line_end(&text[at..]) {
            return true;
        }
    }
    false
}

/// Whether a line ends in a comment, or has to end behind it.
pub fn ends_line(comment: &[u8]) -> bool
    ensures { result ≡ spec.ends_line comment.now }
{
    goes_to_line_end(comment) || has_line_end(comment)
}
