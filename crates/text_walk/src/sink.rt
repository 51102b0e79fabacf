//! Where the tokens of a tree go, one after another.
#![tactic(auto, using(crate::proofs::Sinks::stays))]

ghost use Rattle.std.specs.Prelude.{◌≡◌, ◌++◌, ◌∷◌, [], true, map, OnOk, if◌then◌else◌};
ghost use Rattle.text_pieces.specs.Tokens.{begins, frame, name, piece_view, punctuator, stops, word};
ghost use Rattle.text_walk.specs.Sinks.{Gains};

use text_follow::Reader;
use text_lexer::Mark;
use text_pieces::{Frame, Piece};

/// Why no more tokens are taken.
#[derive(Clone, Copy)]
pub(crate) enum Refusal {
    NoMemory,
    /// The text goes on otherwise.
    OtherText,
}

/// Takes a tree's tokens in their order.
#[derive(Drop)]
pub(crate) enum Sink<'a> {
    /// Keeps them.
    List(Vec<Piece<'a>>),
    /// Holds a text against them.
    Text(Reader<'a>),
}

fn keep<'a>(list: &mut Vec<Piece<'a>>, piece: Piece<'a>) -> Result<(), Refusal>
    ensures { OnOk result (map piece_view list.new.items ≡ map piece_view list.old.items ++ piece_view piece.entry ∷ []) }
{
    match list.push(piece) {
        Ok(()) => Ok(()),
        Err(_) => Err(Refusal::NoMemory),
    }
}

// Goes on where the text does.
#[inline]
fn held(goes_on: bool) -> Result<(), Refusal>
    ensures { OnOk result (goes_on ≡ true) }
{
    if goes_on {
        Ok(())
    } else {
        Err(Refusal::OtherText)
    }
}

/// Takes one more.
pub(crate) fn push<'a>(found: &mut Sink<'a>, piece: Piece<'a>) -> Result<(), Refusal>
    ensures { OnOk result (Gains found.old (piece_view piece.entry ∷ []) found.new) }
{
    match found {
        Sink::List(list) => keep(list, piece),
        Sink::Text(reader) => held(reader.read_on(piece)),
    }
}

/// Takes a punctuator.
#[inline]
pub(crate) fn push_mark(found: &mut Sink<'_>, mark: Mark) -> Result<(), Refusal>
    ensures { OnOk result (Gains found.old (punctuator mark ∷ []) found.new) }
{
    match found {
        Sink::List(list) => keep(list, Piece::Mark(mark)),
        Sink::Text(reader) => held(reader.read_mark(mark)),
    }
}

/// Takes a word of the grammar.
#[inline]
pub(crate) fn push_word<'a>(found: &mut Sink<'a>, text: &'a str) -> Result<(), Refusal>
    ensures { OnOk result (Gains found.old (word text.now ∷ []) found.new) }
{
    match found {
        Sink::List(list) => keep(list, Piece::Word(text)),
        Sink::Text(reader) => held(reader.read_word(text)),
    }
}

/// Takes a name.
#[inline]
pub(crate) fn push_name<'a>(found: &mut Sink<'a>, text: &'a str) -> Result<(), Refusal>
    ensures { OnOk result (Gains found.old (name text.now ∷ []) found.new) }
{
    match found {
        Sink::List(list) => keep(list, Piece::Name(text)),
        Sink::Text(reader) => held(reader.read_name(text)),
    }
}

/// Takes where a node begins.
#[inline]
pub(crate) fn begin(found: &mut Sink<'_>, at: usize) -> Result<(), Refusal>
    ensures { OnOk result (Gains found.old (frame (begins at) ∷ []) found.new) }
{
    match found {
        Sink::List(list) => keep(list, Piece::Frame(Frame::Begins(at))),
        Sink::Text(reader) => held(reader.begins_at(at)),
    }
}

/// Takes where a node stops.
#[inline]
pub(crate) fn stop(found: &mut Sink<'_>, at: usize) -> Result<(), Refusal>
    ensures { OnOk result (Gains found.old (frame (stops at) ∷ []) found.new) }
{
    match found {
        Sink::List(list) => keep(list, Piece::Frame(Frame::Stops(at))),
        Sink::Text(reader) => held(reader.stops_at(at)),
    }
}

/// Takes one more if it is wanted.
pub(crate) fn push_if<'a>(
    found: &mut Sink<'a>,
    wanted: bool,
    piece: Piece<'a>,
) -> Result<(), Refusal>
    ensures { OnOk result (Gains found.old (if wanted then piece_view piece.entry ∷ [] else []) found.new) }
{
    if wanted { push(found, piece) } else { Ok(()) }
}

/// Takes two more.
pub(crate) fn push_two<'a>(
    found: &mut Sink<'a>,
    one: Piece<'a>,
    two: Piece<'a>,
) -> Result<(), Refusal>
    ensures { OnOk result (Gains found.old (piece_view one.entry ∷ piece_view two.entry ∷ []) found.new) }
{
    push(found, one)?;
    push(found, two)
}

/// Takes three more.
pub(crate) fn push_three<'a>(
    found: &mut Sink<'a>,
    one: Piece<'a>,
    two: Piece<'a>,
    three: Piece<'a>,
) -> Result<(), Refusal>
    ensures { OnOk result (Gains found.old (piece_view one.entry ∷ piece_view two.entry ∷ piece_view three.entry ∷ []) found.new) }
{
    push(found, one)?;
    push(found, two)?;
    push(found, three)
}
