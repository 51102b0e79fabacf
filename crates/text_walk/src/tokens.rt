//! A tree's tokens as a list, and a text held against them.
ghost use Rattle.std.specs.Prelude.{◌≡◌, IfOk, IsTrue, map};
ghost use Rattle.text_follow.specs.Follows.{Follows};
ghost use Rattle.text_follow.specs.Stands.{Stands};
ghost use Rattle.text_pieces.specs.Frames.{without_frames};
ghost use Rattle.text_pieces.specs.Pieces as spec;
ghost use Rattle.text_pieces.specs.Pieces.{written_with};
ghost use Rattle.text_pieces.specs.Tokens.{piece_view};
ghost use Rattle.text_walk.specs.Sinks.{IsReadOut};

use crate::sink::Sink;
use crate::walk::add;
use std::alloc::{AllocError, Global};
use swc_tree_node::Node;
use text_follow::Reader;
use text_lexer::Comments;
use text_pieces::Piece;

fn list_of(alloc: Global, framed: bool, tree: &Node) -> Result<Vec<Piece<'_>>, AllocError>
    ensures { IfOk result (λ list. map piece_view list.items ≡ written_with framed tree.now) }
{
    let mut found = Sink::List(Vec::new(alloc));
    match add(framed, tree, &mut found) {
        Ok(()) => match found {
            Sink::List(list) => Ok(list),
            Sink::Text(_) => Err(AllocError),
        },
        Err(_) => Err(AllocError),
    }
}

/// The tokens that a tree is written with.
///
/// # Errors
///
/// Where memory is refused.
pub fn pieces(alloc: Global, tree: &Node) -> Result<Vec<Piece<'_>>, AllocError>
    ensures { IfOk result (λ found. map piece_view found.items ≡ spec.pieces tree.now) }
{
    list_of(alloc, false, tree)
}

/// The same, with each node in the frame of its span.
///
/// # Errors
///
/// Where memory is refused.
#[tactic(auto, using(crate::proofs::Frameless::frameless))]
pub fn framed_pieces(alloc: Global, tree: &Node) -> Result<Vec<Piece<'_>>, AllocError>
    ensures frames { IfOk result (λ found. map piece_view found.items ≡ spec.framed_pieces tree.now) }
    ensures tokens { IfOk result (λ found. without_frames (map piece_view found.items) ≡ spec.pieces tree.now) }
{
    list_of(alloc, true, tree)
}

fn is_over(found: &Sink<'_>) -> bool
    ensures { IsTrue result → IsReadOut found.now }
{
    match found {
        Sink::List(_) => false,
        Sink::Text(reader) => reader.is_over(),
    }
}

fn stands<'a>(comments: Comments, soft: bool, text: &'a [u8], tree: &'a Node) -> bool
    ensures { IsTrue result → Stands comments soft (spec.framed_pieces tree.now) text.now }
{
    let mut found = Sink::Text(Reader::new(comments, soft, text));
    match add(true, tree, &mut found) {
        Ok(()) => is_over(&found),
        Err(_) => false,
    }
}

/// Whether a text is written with a tree's tokens, one after another, and each node stands where its span says; `soft`: where what a
/// tree doesn't tell may be there or not.
///
/// It takes no memory; the time is in step with the text and the tree, and the recursion is as deep as the tree.
#[tactic(auto, using(crate::proofs::Frameless::tree_follows))]
pub fn tree_stands(comments: Comments, soft: bool, text: &[u8], tree: &Node) -> bool
    ensures frames { IsTrue result → Stands comments soft (spec.framed_pieces tree.now) text.now }
    ensures tokens { IsTrue result → Follows comments soft (spec.pieces tree.now) text.now }
{
    stands(comments, soft, text, tree)
}
