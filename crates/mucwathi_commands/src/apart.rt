//! Pieces of a tree with texts apart from it, so that it may be given away.
ghost use Rattle.std.specs.Prelude.{◌≡◌, ◌++◌, ◌∷◌, [], map, IfOk, IfSome, IsTrue, OnOk};
ghost use Rattle.std.specs.Option.{option_copied};
ghost use Rattle.text_pieces.specs.Tokens.{piece_view};

use std::alloc::{AllocError, Global};
use text_pieces::Piece;

fn add_if(text: Option<&str>, texts: &mut String) -> Result<(), AllocError> {
    match text {
        Some(text) => texts.push_str(text),
        None => Ok(()),
    }
}

// Puts the texts of a piece behind others.
fn add(piece: Piece<'_>, texts: &mut String) -> Result<(), AllocError> {
    match piece {
        Piece::Word(text)
        | Piece::Name(text)
        | Piece::Private(text)
        | Piece::Number(text)
        | Piece::BigInt(text)
        | Piece::Hashbang(text)
        | Piece::Parameter(text) => texts.push_str(text),
        Piece::Quoted(value, raw) => {
            texts.push_str(value)?;
            add_if(raw, texts)
        }
        Piece::Template(_, value, raw) => {
            add_if(value, texts)?;
            texts.push_str(raw)
        }
        Piece::Regex(one, other) | Piece::Attribute(one, other) => {
            texts.push_str(one)?;
            texts.push_str(other)
        }
        _ => Ok(()),
    }
}

/// The texts of pieces, one behind another.
pub(crate) fn texts_of(alloc: Global, pieces: &[Piece<'_>]) -> Result<String, AllocError> {
    let mut texts = String::new(alloc);
    for piece in pieces {
        add(*piece, &mut texts)?;
    }
    Ok(texts)
}

fn same(one: &str, other: &str) -> bool
    ensures { IsTrue result → one.now ≡ other.now }
{
    one.as_bytes() == other.as_bytes()
}

// The first of some texts, if it is this one, and those behind it.
fn cut<'t>(texts: &'t str, wanted: &str) -> Option<(&'t str, &'t str)>
    ensures { IfSome result (λ made. made.0.now ≡ wanted.now) }
{
    let (text, others) = texts.split_at_checked(wanted.len())?;
    if same(text, wanted) {
        Some((text, others))
    } else {
        None
    }
}

fn cut_if<'t>(texts: &'t str, wanted: Option<&str>) -> Option<(Option<&'t str>, &'t str)>
    ensures { IfSome result (λ made. option_copied made.0 ≡ option_copied wanted.entry) }
{
    match wanted {
        None => Some((None, texts)),
        Some(wanted) => {
            let (text, others) = cut(texts, wanted)?;
            Some((Some(text), others))
        }
    }
}

// A piece by the first of some texts, and those behind them: nothing where they are others.
fn again<'t>(texts: &'t str, piece: Piece<'_>) -> Option<(Piece<'t>, &'t str)>
    ensures { IfSome result (λ made. piece_view made.0 ≡ piece_view piece.entry) }
{
    match piece {
        Piece::Word(text) => {
            let (text, others) = cut(texts, text)?;
            Some((Piece::Word(text), others))
        }
        Piece::Name(text) => {
            let (text, others) = cut(texts, text)?;
            Some((Piece::Name(text), others))
        }
        Piece::Parameter(text) => {
            let (text, others) = cut(texts, text)?;
            Some((Piece::Parameter(text), others))
        }
        Piece::Mark(mark) => Some((Piece::Mark(mark), texts)),
        Piece::Gap(gap) => Some((Piece::Gap(gap), texts)),
        Piece::Closes(ending) => Some((Piece::Closes(ending), texts)),
        Piece::End => Some((Piece::End, texts)),
        Piece::Here => Some((Piece::Here, texts)),
        Piece::MayComma => Some((Piece::MayComma, texts)),
        Piece::MayFrom => Some((Piece::MayFrom, texts)),
        Piece::MayBraces => Some((Piece::MayBraces, texts)),
        Piece::Never => Some((Piece::Never, texts)),
        other => literal_again(texts, other),
    }
}

fn literal_again<'t>(texts: &'t str, piece: Piece<'_>) -> Option<(Piece<'t>, &'t str)>
    ensures { IfSome result (λ made. piece_view made.0 ≡ piece_view piece.entry) }
{
    match piece {
        Piece::Private(text) => {
            let (text, others) = cut(texts, text)?;
            Some((Piece::Private(text), others))
        }
        Piece::Number(text) => {
            let (text, others) = cut(texts, text)?;
            Some((Piece::Number(text), others))
        }
        Piece::BigInt(text) => {
            let (text, others) = cut(texts, text)?;
            Some((Piece::BigInt(text), others))
        }
        Piece::Hashbang(text) => {
            let (text, others) = cut(texts, text)?;
            Some((Piece::Hashbang(text), others))
        }
        other => pair_again(texts, other),
    }
}

fn pair_again<'t>(texts: &'t str, piece: Piece<'_>) -> Option<(Piece<'t>, &'t str)>
    ensures { IfSome result (λ made. piece_view made.0 ≡ piece_view piece.entry) }
{
    match piece {
        Piece::Quoted(value, raw) => {
            let (value, behind) = cut(texts, value)?;
            let (raw, others) = cut_if(behind, raw)?;
            Some((Piece::Quoted(value, raw), others))
        }
        Piece::Template(part, value, raw) => {
            let (value, behind) = cut_if(texts, value)?;
            let (raw, others) = cut(behind, raw)?;
            Some((Piece::Template(part, value, raw), others))
        }
        Piece::Regex(pattern, flags) => {
            let (pattern, behind) = cut(texts, pattern)?;
            let (flags, others) = cut(behind, flags)?;
            Some((Piece::Regex(pattern, flags), others))
        }
        Piece::Attribute(key, value) => {
            let (key, behind) = cut(texts, key)?;
            let (value, others) = cut(behind, value)?;
            Some((Piece::Attribute(key, value), others))
        }
        _ => None,
    }
}

fn push<'t>(list: &mut Vec<Piece<'t>>, piece: Piece<'t>) -> Result<(), AllocError>
    ensures { OnOk result (map piece_view list.new.items ≡ map piece_view list.old.items ++ piece_view piece.entry ∷ []) }
{
    list.push(piece)?;
    Ok(())
}

fn all_again<'t>(
    alloc: Global,
    texts: &'t str,
    pieces: &[Piece<'_>],
) -> Result<Option<Vec<Piece<'t>>>, AllocError>
    ensures { IfOk result (λ made. IfSome made (λ list. map piece_view list.items ≡ map piece_view pieces.now)) }
{
    let mut list = Vec::with_capacity(alloc, pieces.len())?;
    let mut rest = texts;
    'pieces: for i in 0..pieces.len() {
        let Some((piece, others)) = again(rest, pieces[i]) else {
            return Ok(None);
        };
        push(&mut list, piece)?;
        rest = others;
    }
    Ok(Some(list))
}

/// The same pieces by their texts, which `texts_of` answers for them; nothing where the texts are others.
pub(crate) fn pieces_again<'t>(
    alloc: Global,
    texts: &'t str,
    pieces: Vec<Piece<'_>>,
) -> Result<Option<Vec<Piece<'t>>>, AllocError>
    ensures { IfOk result (λ made. IfSome made (λ list. map piece_view list.items ≡ map piece_view pieces.entry.items)) }
{
    let found = pieces.as_slice();
    all_again(alloc, texts, found)
}
