//! The punctuators that words of nodes are.
ghost use Rattle.std.specs.Prelude.{◌≡◌};
ghost use Rattle.text_pieces.specs.Signs.{sign_of};

use swc_tree_node::Word;
use text_lexer::Mark;

/// The punctuator that a word of a node is, if it is one.
pub fn sign_of(word: Word) -> Option<Mark>
    ensures { result ≡ sign_of word }
{
    match word {
        Word::Minus => Some(Mark::Minus),
        Word::Plus => Some(Mark::Plus),
        Word::Bang => Some(Mark::Bang),
        Word::Tilde => Some(Mark::Tilde),
        Word::PlusPlus => Some(Mark::PlusPlus),
        Word::MinusMinus => Some(Mark::MinusMinus),
        Word::EqEq => Some(Mark::EqEq),
        Word::NotEq => Some(Mark::NotEq),
        Word::EqEqEq => Some(Mark::EqEqEq),
        Word::NotEqEq => Some(Mark::NotEqEq),
        Word::Lt => Some(Mark::Lt),
        Word::LtEq => Some(Mark::LtEq),
        Word::Gt => Some(Mark::Gt),
        Word::GtEq => Some(Mark::GtEq),
        Word::LShift => Some(Mark::LShift),
        Word::RShift => Some(Mark::RShift),
        Word::ZeroFillRShift => Some(Mark::ZeroFillRShift),
        Word::Mul => Some(Mark::Mul),
        Word::Div => Some(Mark::Slash),
        Word::NullishCoalescing => Some(Mark::Nullish),
        Word::Mod => Some(Mark::Mod),
        Word::BitOr => Some(Mark::BitOr),
        Word::BitXor => Some(Mark::BitXor),
        Word::BitAnd => Some(Mark::BitAnd),
        Word::LogicalOr => Some(Mark::LogicalOr),
        Word::LogicalAnd => Some(Mark::LogicalAnd),
        Word::Exp => Some(Mark::Exp),
        Word::Assign => Some(Mark::Assign),
        Word::AddAssign => Some(Mark::AddAssign),
        Word::SubAssign => Some(Mark::SubAssign),
        Word::MulAssign => Some(Mark::MulAssign),
        Word::DivAssign => Some(Mark::DivAssign),
        Word::ModAssign => Some(Mark::ModAssign),
        Word::LShiftAssign => Some(Mark::LShiftAssign),
        Word::RShiftAssign => Some(Mark::RShiftAssign),
        Word::ZeroFillRShiftAssign => Some(Mark::ZeroFillRShiftAssign),
        Word::BitOrAssign => Some(Mark::BitOrAssign),
        Word::BitXorAssign => Some(Mark::BitXorAssign),
        Word::BitAndAssign => Some(Mark::BitAndAssign),
        Word::ExpAssign => Some(Mark::ExpAssign),
        Word::AndAssign => Some(Mark::AndAssign),
        Word::OrAssign => Some(Mark::OrAssign),
        Word::NullishAssign => Some(Mark::NullishAssign),
        _ => None,
    }
}
