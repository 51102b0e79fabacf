//! Operators (ECMA-262, 13.4 to 13.15).
use crate::keywords::Keyword;
use swc_tree_node::Word;
use text_lexer::Mark;

/// An operator of two sides: how tightly it binds, and how tightly what stands on its right binds at least.
#[derive(Clone, Copy)]
pub struct Operator {
    pub word: Word,
    pub level: u8,
    pub right: u8,
}

/// How tightly an operator of two sides binds at least.
pub const LOOSEST: u8 = 4;
/// How tightly a comparison binds, and with it `in`.
pub const COMPARISON: u8 = 10;

const BIT_OR: u8 = 6;

fn leftward(word: Word, level: u8) -> Option<Operator> {
    Some(Operator {
        word,
        level,
        right: level.saturating_add(1),
    })
}

/// The operator of two sides that a punctuator is.
pub fn binary_mark(mark: Mark) -> Option<Operator> {
    match mark {
        Mark::Nullish => Some(Operator {
            word: Word::NullishCoalescing,
            level: LOOSEST,
            right: BIT_OR,
        }),
        Mark::LogicalOr => leftward(Word::LogicalOr, LOOSEST),
        Mark::LogicalAnd => leftward(Word::LogicalAnd, 5),
        Mark::BitOr => leftward(Word::BitOr, BIT_OR),
        Mark::BitXor => leftward(Word::BitXor, 7),
        Mark::BitAnd => leftward(Word::BitAnd, 8),
        Mark::EqEq => leftward(Word::EqEq, 9),
        Mark::NotEq => leftward(Word::NotEq, 9),
        Mark::EqEqEq => leftward(Word::EqEqEq, 9),
        Mark::NotEqEq => leftward(Word::NotEqEq, 9),
        Mark::Lt => leftward(Word::Lt, COMPARISON),
        Mark::LtEq => leftward(Word::LtEq, COMPARISON),
        Mark::Gt => leftward(Word::Gt, COMPARISON),
        Mark::GtEq => leftward(Word::GtEq, COMPARISON),
        Mark::LShift => leftward(Word::LShift, 11),
        Mark::RShift => leftward(Word::RShift, 11),
        Mark::ZeroFillRShift => leftward(Word::ZeroFillRShift, 11),
        Mark::Plus => leftward(Word::Plus, 12),
        Mark::Minus => leftward(Word::Minus, 12),
        Mark::Mul => leftward(Word::Mul, 13),
        Mark::Slash => leftward(Word::Div, 13),
        Mark::Mod => leftward(Word::Mod, 13),
        Mark::Exp => Some(Operator {
            word: Word::Exp,
            level: 14,
            right: 14,
        }),
        _ => None,
    }
}

/// The operator of two sides that a word is.
pub fn binary_keyword(keyword: Keyword) -> Option<Operator> {
    match keyword {
        Keyword::In => leftward(Word::In, COMPARISON),
        Keyword::InstanceOf => leftward(Word::InstanceOf, COMPARISON),
        _ => None,
    }
}

/// The operator of assignment that a punctuator is.
pub fn assignment(mark: Mark) -> Option<Word> {
    match mark {
        Mark::Assign => Some(Word::Assign),
        Mark::AddAssign => Some(Word::AddAssign),
        Mark::SubAssign => Some(Word::SubAssign),
        Mark::MulAssign => Some(Word::MulAssign),
        Mark::DivAssign => Some(Word::DivAssign),
        Mark::ModAssign => Some(Word::ModAssign),
        Mark::LShiftAssign => Some(Word::LShiftAssign),
        Mark::RShiftAssign => Some(Word::RShiftAssign),
        Mark::ZeroFillRShiftAssign => Some(Word::ZeroFillRShiftAssign),
        Mark::BitOrAssign => Some(Word::BitOrAssign),
        Mark::BitXorAssign => Some(Word::BitXorAssign),
        Mark::BitAndAssign => Some(Word::BitAndAssign),
        Mark::ExpAssign => Some(Word::ExpAssign),
        Mark::AndAssign => Some(Word::AndAssign),
        Mark::OrAssign => Some(Word::OrAssign),
        Mark::NullishAssign => Some(Word::NullishAssign),
        _ => None,
    }
}

/// What stands before an operand.
#[derive(Clone, Copy)]
pub enum Prefix {
    Operator(Word),
    Update(Word),
    Await,
}

/// The operator before an operand that a punctuator is.
pub fn prefix_mark(mark: Mark) -> Option<Prefix> {
    match mark {
        Mark::Minus => Some(Prefix::Operator(Word::Minus)),
        Mark::Plus => Some(Prefix::Operator(Word::Plus)),
        Mark::Bang => Some(Prefix::Operator(Word::Bang)),
        Mark::Tilde => Some(Prefix::Operator(Word::Tilde)),
        Mark::PlusPlus => Some(Prefix::Update(Word::PlusPlus)),
        Mark::MinusMinus => Some(Prefix::Update(Word::MinusMinus)),
        _ => None,
    }
}

/// The operator before an operand that a word is.
pub fn prefix_keyword(keyword: Keyword) -> Option<Prefix> {
    match keyword {
        Keyword::TypeOf => Some(Prefix::Operator(Word::TypeOf)),
        Keyword::Void => Some(Prefix::Operator(Word::Void)),
        Keyword::Delete => Some(Prefix::Operator(Word::Delete)),
        Keyword::Await => Some(Prefix::Await),
        _ => None,
    }
}
