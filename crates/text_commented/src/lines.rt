//! Where lines may end among the pieces of a tree.
ghost use Rattle.std.specs.Prelude.{◌≡◌, map};
ghost use Rattle.text_commented.specs.Places as spec;
ghost use Rattle.text_pieces.specs.Tokens.{piece_view};

use text_pieces::Piece;

/// Whether a piece is written with a token.
pub(crate) fn is_token(piece: Piece<'_>) -> bool
    ensures { result ≡ spec.is_token (piece_view piece.entry) }
{
    match piece {
        Piece::MayComma
        | Piece::MayFrom
        | Piece::MayBraces
        | Piece::Here
        | Piece::Closes(_)
        | Piece::Gap(_)
        | Piece::Frame(_) => false,
        _ => true,
    }
}

fn is_here(piece: Piece<'_>) -> bool
    ensures { result ≡ spec.is_here (piece_view piece.entry) }
{
    match piece {
        Piece::Here => true,
        _ => false,
    }
}

/// Whether a line may end before the first token of some pieces.
#[tactic(auto, using(crate::proofs::Ends::may_end_drop, crate::proofs::Ends::may_end_none, std::proofs::lemmas::Grind::common_steps))]
pub(crate) fn may_end_line(pieces: &[Piece<'_>]) -> bool
    ensures { result ≡ spec.may_end_line (map piece_view pieces.now) }
{
    'pieces: for i in 0..pieces.len() {
        if is_here(pieces[i]) {
            return false;
        }
        if is_token(pieces[i]) {
            return true;
        }
    }
    true
}

/// Whether a line may end between the tokens round the place behind a piece; `line` says whether one may before it.
pub(crate) fn line_behind(line: bool, piece: Piece<'_>, rest: &[Piece<'_>]) -> bool
    ensures { result ≡ spec.line_behind line (piece_view piece.entry) (map piece_view rest.now) }
{
    if is_token(piece) {
        may_end_line(rest)
    } else {
        line
    }
}
