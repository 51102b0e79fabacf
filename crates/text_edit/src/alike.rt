//! Pieces of two trees held against each other.
ghost use Rattle.std.specs.Prelude.{◌≡◌, ◌<◌, [], ◌∷◌, length, map, MatchOption};
ghost use Rattle.std.specs.Cmp.Lexicographic.{pointwise};
ghost use Rattle.std.specs.Option.{option_copied};
ghost use Rattle.text_edit.specs.Alike as spec;
ghost use Rattle.text_pieces.specs.Tokens.{piece_view};

use text_lexer::{Mark, TemplatePart, spelling};
use text_pieces::{Gap, Piece};

fn same_text(one: &str, other: &str) -> bool
    ensures { result ≡ spec.same_text one.now other.now }
{
    one.as_bytes() == other.as_bytes()
}

fn same_mark(one: Mark, other: Mark) -> bool
    ensures { result ≡ spec.same_mark one other }
{
    spelling(one) == spelling(other)
}

fn same_raw(one: Option<&str>, other: Option<&str>) -> bool
    ensures { result ≡ spec.same_raw (option_copied one.entry) (option_copied other.entry) }
{
    match one {
        Some(one) => match other {
            Some(other) => same_text(one, other),
            None => false,
        },
        None => match other {
            Some(_) => false,
            None => true,
        },
    }
}

fn same_part(one: TemplatePart, other: TemplatePart) -> bool
    ensures { result ≡ spec.same_part one other }
{
    match one {
        TemplatePart::Whole => matches!(other, TemplatePart::Whole),
        TemplatePart::Head => matches!(other, TemplatePart::Head),
        TemplatePart::Middle => matches!(other, TemplatePart::Middle),
        TemplatePart::Tail => matches!(other, TemplatePart::Tail),
    }
}

fn same_gap(one: Gap, other: Gap) -> bool
    ensures { result ≡ spec.same_gap one other }
{
    match one {
        Gap::Line => matches!(other, Gap::Line),
        Gap::In => matches!(other, Gap::In),
        Gap::Out => matches!(other, Gap::Out),
    }
}

/// Whether two pieces are the same but for what they name.
pub(crate) fn is_alike(one: Piece<'_>, other: Piece<'_>) -> bool
    ensures { result ≡ spec.alike (piece_view one.entry) (piece_view other.entry) }
{
    match one {
        Piece::Name(_) => matches!(other, Piece::Name(_)),
        Piece::Parameter(_) => matches!(other, Piece::Parameter(_)),
        Piece::MayComma => matches!(other, Piece::MayComma),
        Piece::MayFrom => matches!(other, Piece::MayFrom),
        Piece::MayBraces => matches!(other, Piece::MayBraces),
        Piece::Here => matches!(other, Piece::Here),
        Piece::Closes(_) => matches!(other, Piece::Closes(_)),
        Piece::End => matches!(other, Piece::End),
        Piece::Gap(one) => match other {
            Piece::Gap(other) => same_gap(one, other),
            _ => false,
        },
        Piece::Frame(_) => matches!(other, Piece::Frame(_)),
        Piece::Never => matches!(other, Piece::Never),
        Piece::Word(_)
        | Piece::Private(_)
        | Piece::Mark(_)
        | Piece::Number(_)
        | Piece::BigInt(_)
        | Piece::Quoted(_, _)
        | Piece::Template(_, _, _)
        | Piece::Regex(_, _)
        | Piece::Hashbang(_)
        | Piece::Attribute(_, _) => is_same_token(one, other),
    }
}

fn is_same_token(one: Piece<'_>, other: Piece<'_>) -> bool
    ensures { result ≡ spec.same_token (piece_view one.entry) (piece_view other.entry) }
{
    match one {
        Piece::Word(one) => match other {
            Piece::Word(other) => same_text(one, other),
            _ => false,
        },
        Piece::Private(one) => match other {
            Piece::Private(other) => same_text(one, other),
            _ => false,
        },
        Piece::Mark(one) => match other {
            Piece::Mark(other) => same_mark(one, other),
            _ => false,
        },
        Piece::Number(one) => match other {
            Piece::Number(other) => same_text(one, other),
            _ => false,
        },
        Piece::BigInt(one) => match other {
            Piece::BigInt(other) => same_text(one, other),
            _ => false,
        },
        Piece::Hashbang(one) => match other {
            Piece::Hashbang(other) => same_text(one, other),
            _ => false,
        },
        Piece::Name(_)
        | Piece::Quoted(_, _)
        | Piece::Template(_, _, _)
        | Piece::Regex(_, _)
        | Piece::Attribute(_, _)
        | Piece::MayComma
        | Piece::MayFrom
        | Piece::MayBraces
        | Piece::Parameter(_)
        | Piece::Here
        | Piece::Closes(_)
        | Piece::End
        | Piece::Gap(_)
        | Piece::Frame(_)
        | Piece::Never => is_same_literal(one, other),
    }
}

fn is_same_literal(one: Piece<'_>, other: Piece<'_>) -> bool
    ensures { result ≡ spec.same_literal (piece_view one.entry) (piece_view other.entry) }
{
    match one {
        Piece::Quoted(one, raw) => match other {
            Piece::Quoted(other, wanted) => same_text(one, other) && same_raw(raw, wanted),
            _ => false,
        },
        Piece::Template(part, _, one) => match other {
            Piece::Template(wanted, _, other) => same_part(part, wanted) && same_text(one, other),
            _ => false,
        },
        Piece::Regex(one, flags) => match other {
            Piece::Regex(other, wanted) => same_text(one, other) && same_text(flags, wanted),
            _ => false,
        },
        Piece::Attribute(one, value) => match other {
            Piece::Attribute(other, wanted) => same_text(one, other) && same_text(value, wanted),
            _ => false,
        },
        _ => false,
    }
}

/// The name that one piece has in the place of another's.
pub(crate) fn new_name<'a>(old: Piece<'_>, new: Piece<'a>) -> Option<&'a str>
    ensures { option_copied result ≡ spec.new_name (piece_view old.entry) (piece_view new.entry) }
{
    match old {
        Piece::Name(old) => match new {
            Piece::Name(new) => if same_text(old, new) { None } else { Some(new) },
            _ => None,
        },
        Piece::Parameter(old) => match new {
            Piece::Parameter(new) => if same_text(old, new) { None } else { Some(new) },
            _ => None,
        },
        _ => None,
    }
}

/// Whether two pieces are the same.
fn is_same(one: Piece<'_>, other: Piece<'_>) -> bool
    ensures { result ≡ spec.is_same (piece_view one.entry) (piece_view other.entry) }
{
    match new_name(one, other) {
        Some(_) => false,
        None => is_alike(one, other),
    }
}

/// Whether two lists of pieces are the same.
#[tactic(auto, using(crate::proofs::Pieces::same_more, crate::proofs::Pieces::same_end, crate::proofs::Pieces::not_as_long, std::proofs::lemmas::Grind::common_steps))]
pub(crate) fn are_same(before: &[Piece<'_>], after: &[Piece<'_>]) -> bool
    ensures { result ≡ pointwise spec.is_same (map piece_view before.now) (map piece_view after.now) }
{
    if before.len() != after.len() {
        return false;
    }
    'pieces: for i in 0..before.len() {
        if !is_same(before[i], after[i]) {
            return false;
        }
    }
    true
}

/// The first piece, and those behind it.
#[tactic(auto, using(crate::proofs::Pieces::first_and_rest, crate::proofs::Pieces::no_pieces))]
pub(crate) fn split_first<'p, 'a>(pieces: &'p [Piece<'a>]) -> Option<(Piece<'a>, &'p [Piece<'a>])>
    ensures { MatchOption result (map piece_view pieces.now ≡ []) (λ parts. map piece_view pieces.now ≡ piece_view parts.0 ∷ map piece_view parts.1.now) }
{
    if pieces.is_empty() {
        None
    } else {
        Some((pieces[0], &pieces[1..]))
    }
}

/// Whether two lists, which both have a piece, begin with pieces that are alike.
#[tactic(auto, using(crate::proofs::Pieces::begin_first))]
pub(crate) fn start_alike(before: &[Piece<'_>], after: &[Piece<'_>]) -> bool
    requires before { 0 < length before.now }
    requires after { 0 < length after.now }
    ensures { result ≡ spec.begin_alike 1 (map piece_view before.now) (map piece_view after.now) }
{
    is_alike(before[0], after[0])
}

/// Whether two lists begin with so many pieces that are alike, or with fewer and end.
#[tactic(auto, using(crate::proofs::Pieces::begin_more, crate::proofs::Pieces::begin_ended, crate::proofs::Pieces::old_ended, crate::proofs::Pieces::new_ended))]
pub(crate) fn begin_alike(count: usize, before: &[Piece<'_>], after: &[Piece<'_>]) -> bool
    ensures { result ≡ spec.begin_alike count (map piece_view before.now) (map piece_view after.now) }
{
    if count == 0 {
        return true;
    }
    match split_first(before) {
        None => match split_first(after) {
            None => true,
            Some(_) => false,
        },
        Some((one, rest)) => match split_first(after) {
            None => false,
            Some((other, others)) => {
                is_alike(one, other) && begin_alike(count - 1, rest, others)
            }
        },
    }
}
