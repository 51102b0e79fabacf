//! A text edited.
ghost use Rattle.std.specs.Prelude.{◌≡◌, true, map, IfOk, IsTrue};
ghost use Rattle.std.specs.Cmp.Lexicographic.{pointwise};
ghost use Rattle.text_edit.specs.Alike.{alike};
ghost use Rattle.text_edit.specs.Edits.{IsEdited, IsRenamed};
ghost use Rattle.text_follow.specs.Follows.{Follows};
ghost use Rattle.text_pieces.specs.Pieces.{pieces as pieces_of};
ghost use Rattle.text_pieces.specs.Tokens.{piece_view};

use crate::alike::are_same;
use crate::fault::EditFault;
use crate::walk::apply;
use std::alloc::Global;
use swc_tree_node::Node;
use text_follow::follows;
use text_lexer::Comments;
use text_pieces::Piece;
use text_walk::pieces;

fn is_text_of(comments: Comments, text: &[u8], pieces: &[Piece<'_>]) -> bool
    ensures { IsTrue result → Follows comments true (map piece_view pieces.now) text.now }
{
    follows(comments, true, text, pieces)
}

/// The text with what changes from the old pieces to the new.
#[tactic(auto, using(crate::proofs::Pieces::differ))]
fn edit_pieces<'p, 'a>(
    alloc: Global,
    comments: Comments,
    text: &[u8],
    before: &'p [Piece<'a>],
    after: &'p [Piece<'a>],
) -> Result<Vec<u8>, EditFault>
    ensures same { map piece_view before.now ≡ map piece_view after.now → IfOk result (λ out. out.items ≡ text.now) }
    ensures edited { IfOk result (λ out. IsEdited comments (map piece_view before.now) (map piece_view after.now) text.now out.items) }
{
    if are_same(before, after) {
        let mut out = Vec::new(alloc);
        out.extend_from_slice(text)?;
        return Ok(out);
    }
    apply(alloc, comments, text, before, after)
}

/// The text of some pieces, edited to be that of a tree. What stands between two pieces that both have stays as it is: blanks and comments
/// too; where they differ in names alone, so do the texts. What is written is held against the tree before it is given.
///
/// # Errors
///
/// `OtherText` where the text is not that of the pieces before, `NotTheText` where the answer were not that of the tree after, `NoMemory`
/// where memory is refused.
#[tactic(auto, using(crate::proofs::Names::renamed))]
pub fn edit_text_from<'a>(
    alloc: Global,
    comments: Comments,
    text: &[u8],
    before: &[Piece<'a>],
    after: &'a Node,
) -> Result<Vec<u8>, EditFault>
    ensures follows { IfOk result (λ out. Follows comments true (pieces_of after.now) out.items) }
    ensures same { map piece_view before.now ≡ pieces_of after.now → IfOk result (λ out. out.items ≡ text.now) }
    ensures names { pointwise alike (map piece_view before.now) (pieces_of after.now) ≡ true → IfOk result (λ out. IsRenamed comments (map piece_view before.now) (pieces_of after.now) text.now out.items) }
    ensures edited { IfOk result (λ out. IsEdited comments (map piece_view before.now) (pieces_of after.now) text.now out.items) }
{
    let new = pieces(alloc, after)?;
    let out = edit_pieces(alloc, comments, text, before, &new)?;
    if is_text_of(comments, &out, &new) {
        Ok(out)
    } else {
        Err(EditFault::NotTheText)
    }
}

/// The text of a tree, edited to be that of another tree: `edit_text_from` its pieces.
///
/// # Errors
///
/// Those of `edit_text_from`.
pub fn edit_text<'a>(
    alloc: Global,
    comments: Comments,
    text: &[u8],
    before: &'a Node,
    after: &'a Node,
) -> Result<Vec<u8>, EditFault>
    ensures follows { IfOk result (λ out. Follows comments true (pieces_of after.now) out.items) }
    ensures same { pieces_of before.now ≡ pieces_of after.now → IfOk result (λ out. out.items ≡ text.now) }
    ensures names { pointwise alike (pieces_of before.now) (pieces_of after.now) ≡ true → IfOk result (λ out. IsRenamed comments (pieces_of before.now) (pieces_of after.now) text.now out.items) }
    ensures edited { IfOk result (λ out. IsEdited comments (pieces_of before.now) (pieces_of after.now) text.now out.items) }
{
    let found = pieces(alloc, before)?;
    let old = found.as_slice();
    edit_text_from(alloc, comments, text, old, after)
}
