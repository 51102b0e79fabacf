//! Where a semicolon may be left to the reader (ECMA-262, 12.10.1).
ghost use Rattle.std.specs.Prelude.{◌≡◌};
ghost use Rattle.text_follow.specs.Endings as spec;
ghost use Rattle.text_lexer.specs.Tokens.{token_view};
ghost use Rattle.text_pieces.specs.Tokens.{piece_view};

use text_lexer::{Mark, Token};
use text_pieces::{Ending, Piece};

fn mark_goes_on(mark: Mark) -> bool
    ensures { result ≡ spec.mark_goes_on mark }
{
    match mark {
        Mark::LeftBrace | Mark::Bang | Mark::Tilde | Mark::PlusPlus | Mark::MinusMinus => false,
        _ => true,
    }
}

fn mark_goes_on_postfix(mark: Mark) -> bool
    ensures { result ≡ spec.mark_goes_on_postfix mark }
{
    match mark {
        Mark::LeftParen | Mark::LeftBracket => false,
        _ => mark_goes_on(mark),
    }
}

fn is_semicolon(token: Token<'_>) -> bool
    ensures { result ≡ spec.is_semicolon (token_view token.entry) }
{
    match token {
        Token::Mark(Mark::Semicolon) => true,
        _ => false,
    }
}

fn is_left_paren(token: Token<'_>) -> bool
    ensures { result ≡ spec.is_left_paren (token_view token.entry) }
{
    match token {
        Token::Mark(Mark::LeftParen) => true,
        _ => false,
    }
}

fn is_star(token: Token<'_>) -> bool
    ensures { result ≡ spec.is_star (token_view token.entry) }
{
    match token {
        Token::Mark(Mark::Mul) => true,
        _ => false,
    }
}

fn is_word(word: &str, token: Token<'_>) -> bool
    ensures { result ≡ spec.is_word word.now (token_view token.entry) }
{
    match token {
        Token::Name(name) => name == word.as_bytes(),
        _ => false,
    }
}

fn is_operator_name(name: &[u8]) -> bool
    ensures { result ≡ spec.is_operator_name name.now }
{
    name == b"in".as_slice() || name == b"instanceof".as_slice()
}

fn goes_on_open(token: Token<'_>) -> bool
    ensures { result ≡ spec.goes_on_open (token_view token.entry) }
{
    match token {
        Token::Mark(mark) => mark_goes_on(mark),
        Token::Name(name) => is_operator_name(name),
        Token::Template(_, _) => true,
        _ => false,
    }
}

fn goes_on_postfix(token: Token<'_>) -> bool
    ensures { result ≡ spec.goes_on_postfix (token_view token.entry) }
{
    match token {
        Token::Mark(mark) => mark_goes_on_postfix(mark),
        Token::Name(name) => is_operator_name(name),
        _ => false,
    }
}

fn begins_declared(token: Token<'_>) -> bool
    ensures { result ≡ spec.begins_declared (token_view token.entry) }
{
    match token {
        Token::Name(_) | Token::EscapedName(_) | Token::Mark(Mark::LeftBrace) => true,
        _ => false,
    }
}

/// Whether what ends thus goes on with the token, though a line has ended.
pub(crate) fn goes_on(ending: Ending, token: Token<'_>) -> bool
    ensures { result ≡ spec.goes_on ending (token_view token.entry) }
{
    match ending {
        Ending::Open => goes_on_open(token),
        Ending::Postfix => goes_on_postfix(token),
        Ending::Closed | Ending::Loop => is_semicolon(token),
        Ending::From => is_semicolon(token) || is_word("with", token),
        Ending::Exports => is_semicolon(token) || is_word("from", token),
        Ending::Field => is_semicolon(token) || is_left_paren(token),
        Ending::Accessor => !is_star(token),
        Ending::Let => begins_declared(token) || goes_on_open(token),
        Ending::Any => true,
    }
}

/// Whether no line has to end behind it.
pub(crate) fn is_loop(ending: Ending) -> bool
    ensures { result ≡ spec.is_loop ending }
{
    match ending {
        Ending::Loop => true,
        _ => false,
    }
}

/// How what is written ends behind a piece.
pub fn ending_behind(ending: Ending, piece: Piece<'_>) -> Ending
    ensures { result ≡ spec.ending_behind ending (piece_view piece.entry) }
{
    match piece {
        Piece::Closes(closed) => closed,
        Piece::Here
        | Piece::Gap(_)
        | Piece::Frame(_)
        | Piece::MayComma
        | Piece::MayFrom
        | Piece::MayBraces
        | Piece::End => ending,
        _ => Ending::Open,
    }
}
