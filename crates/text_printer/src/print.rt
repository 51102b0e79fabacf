//! The text of a tree.
ghost use Rattle.std.specs.Prelude.{false, map, IfOk, IsTrue};
ghost use Rattle.text_follow.specs.Follows.{Follows};
ghost use Rattle.text_pieces.specs.Pieces.{pieces as pieces_of};
ghost use Rattle.text_pieces.specs.Tokens.{piece_view};

use crate::lay_out::{Layout, text_of_pieces};
use std::alloc::{AllocError, Global};
use swc_tree_node::Node;
use text_comments::text_walk::pieces;
use text_follow::follows;
use text_lexer::Comments;
use text_pieces::Piece;

/// Why a tree is not written.
#[derive(Clone, Copy, Debug, PartialEq, Eq)]
pub enum PrintFault {
    NoMemory,
    /// A text in the tree is no token of its kind, or a node has no text: a type, a template with too few texts.
    NotSpelled,
}

impl From<AllocError> for PrintFault {
    ghost use Rattle.std.specs.Prelude.{◌≡◌};
    ghost use Rattle.text_printer.specs.declared.print.PrintFault.TheVariants.{NoMemory};

    ghost from_gives = { λ _ fault. fault ≡ NoMemory };

    fn from(_: AllocError) -> PrintFault {
        PrintFault::NoMemory
    }
}

fn follows_strictly(comments: Comments, text: &[u8], pieces: &[Piece<'_>]) -> bool
    ensures { IsTrue result → Follows comments false (map piece_view pieces.now) text.now }
{
    follows(comments, false, text, pieces)
}

/// A text that is written with the tokens of a tree, in UTF-8. What is laid out is held against the tree before it is given.
///
/// # Errors
///
/// `NotSpelled` where the tree has no text, `NoMemory` where memory is refused.
pub fn print_text(
    alloc: Global,
    comments: Comments,
    layout: Layout,
    tree: &Node,
) -> Result<Vec<u8>, PrintFault>
    ensures { IfOk result (λ out. Follows comments false (pieces_of tree.now) out.items) }
{
    let found = pieces(alloc, tree)?;
    let out = text_of_pieces(alloc, layout, &found)?;
    if follows_strictly(comments, &out, &found) {
        Ok(out)
    } else {
        Err(PrintFault::NotSpelled)
    }
}
