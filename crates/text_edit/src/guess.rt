//! What has changed where two lists of pieces part. Nothing is promised of a guess: it says which of the old text stays by what.
use crate::alike::{begin_alike, is_alike};
use text_lexer::Mark;
use text_pieces::{Gap, Piece};

/// How far a change is looked for.
const FAR: usize = 24;
/// How far one is looked for that takes away and puts in.
const NEAR: usize = 8;

/// How many pieces are taken away and put in.
#[derive(Clone, Copy)]
pub(crate) struct Change {
    pub(crate) removed: usize,
    pub(crate) inserted: usize,
}

impl Change {
    /// Nothing changes.
    pub(crate) fn none() -> Change {
        Change {
            removed: 0,
            inserted: 0,
        }
    }
}

fn is_paren(piece: Piece<'_>) -> bool {
    matches!(piece, Piece::Mark(Mark::LeftParen | Mark::RightParen))
}

fn parens(pieces: &[Piece<'_>]) -> usize {
    for i in 0..pieces.len() {
        if !is_paren(pieces[i]) {
            return i;
        }
    }
    pieces.len()
}

fn meet(before: &[Piece<'_>], removed: usize, after: &[Piece<'_>], inserted: usize) -> bool {
    removed < before.len() && inserted < after.len() && is_alike(before[removed], after[inserted])
}

/// Whether the lists go on alike behind a change, three pieces of them (`well`) or one.
fn meets(well: bool, before: &[Piece<'_>], after: &[Piece<'_>], change: Change) -> bool {
    let (removed, inserted) = (change.removed, change.inserted);
    let count = if well { 3 } else { 1 };
    removed < before.len()
        && inserted < after.len()
        && begin_alike(count, &before[removed..], &after[inserted..])
}

/// The fewest parentheses behind which both lists go on alike, three pieces of them if they can (`well`).
fn found_parens(well: bool, before: &[Piece<'_>], after: &[Piece<'_>]) -> Option<Change> {
    let (old, new) = (parens(before), parens(after));
    let most = if old < new { new } else { old };
    for count in 0..most {
        let far = count + 1;
        let change = Change {
            removed: far,
            inserted: 0,
        };
        if far <= old && meets(well, before, after, change) {
            return Some(change);
        }
        let change = Change {
            removed: 0,
            inserted: far,
        };
        if far <= new && meets(well, before, after, change) {
            return Some(change);
        }
    }
    None
}

/// Whether no line may end before the next of these tokens.
pub(crate) fn comes_here(pieces: &[Piece<'_>]) -> bool {
    for piece in pieces {
        match piece {
            Piece::Here => return true,
            Piece::Closes(_) | Piece::Gap(_) | Piece::Frame(_) | Piece::MayComma => {}
            _ => return false,
        }
    }
    false
}

fn is_word(piece: Piece<'_>, word: &str) -> bool {
    match piece {
        Piece::Word(text) => text == word,
        _ => false,
    }
}

fn begins_export_list(pieces: &[Piece<'_>]) -> bool {
    pieces.len() > 2
        && matches!(pieces[0], Piece::Gap(Gap::Line))
        && is_word(pieces[1], "export")
        && matches!(pieces[2], Piece::Mark(Mark::LeftBrace))
}

/// How many pieces the statement has that a list begins with.
fn statement_length(pieces: &[Piece<'_>]) -> usize {
    for i in 0..pieces.len() {
        if matches!(pieces[i], Piece::End) {
            return i + 1;
        }
    }
    pieces.len()
}

/// Whether an export list begins that the old text has not.
pub(crate) fn lists_exports(before: &[Piece<'_>], after: &[Piece<'_>]) -> bool {
    begins_export_list(after) && !begins_export_list(before)
}

fn found_near(before: &[Piece<'_>], after: &[Piece<'_>]) -> Change {
    for sum in 2..NEAR {
        for removed in 1..sum {
            let inserted = sum - removed;
            if meet(before, removed, after, inserted) {
                return Change { removed, inserted };
            }
        }
    }
    Change {
        removed: 1,
        inserted: 1,
    }
}

fn found(before: &[Piece<'_>], after: &[Piece<'_>]) -> Change {
    for far in 1..FAR {
        if meet(before, 0, after, far) {
            return Change {
                removed: 0,
                inserted: far,
            };
        }
        if meet(before, far, after, 0) {
            return Change {
                removed: far,
                inserted: 0,
            };
        }
    }
    found_near(before, after)
}

/// What has changed where two lists part.
pub(crate) fn find_change(before: &[Piece<'_>], after: &[Piece<'_>]) -> Change {
    if before.is_empty() {
        return Change {
            removed: 0,
            inserted: after.len(),
        };
    }
    if lists_exports(before, after) {
        return Change {
            removed: 0,
            inserted: statement_length(after),
        };
    }
    if let Some(change) = found_parens(true, before, after) {
        return change;
    }
    if let Some(change) = found_parens(false, before, after) {
        return change;
    }
    found(before, after)
}
