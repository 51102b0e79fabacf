//! What stands next in two lists of pieces.
ghost use Rattle.std.specs.Prelude.{◌<◌, ◌+◌, IsTrue, length, map};
ghost use Rattle.text_edit.specs.Edits.{Allowed};
ghost use Rattle.text_edit.specs.declared.align.Step.TheVariants.{Both};
ghost use Rattle.text_pieces.specs.Tokens.{piece_view};

use crate::alike::{begin_alike, is_alike, start_alike};
use crate::guess::{Change, find_change, lists_exports};
use text_pieces::Piece;

/// What stands next in two lists of pieces.
#[derive(Clone, Copy, PartialEq, Eq)]
pub(crate) enum Step {
    /// A piece that both have, but for its name.
    Both,
    /// One that the new list alone has.
    Insert,
    /// One that the old list alone has.
    Remove,
}

/// The change that two lists begin with, if one is not under way.
fn change_at(due: Change, before: &[Piece<'_>], after: &[Piece<'_>]) -> Change {
    if due.removed > 0 || due.inserted > 0 {
        return due;
    }
    let parts = before.is_empty() || after.is_empty() || !is_alike(before[0], after[0]);
    if parts || lists_exports(before, after) {
        find_change(before, after)
    } else {
        due
    }
}

// The next step where no change is under way: most often both lists have a piece, and one look tells it.
#[tactic(auto, using(crate::proofs::Pieces::begin_one, crate::proofs::Pieces::parted, std::proofs::lemmas::Grind::common_steps))]
fn settled_step(before: &[Piece<'_>], after: &[Piece<'_>]) -> Step
    requires before { 0 < length before.now }
    requires after { 0 < length after.now }
    ensures { Allowed result (map piece_view before.now) (map piece_view after.now) }
{
    if begin_alike(1, before, after) {
        Step::Both
    } else {
        Step::Insert
    }
}

// Whether two lists, which both have a piece, go on alike.
#[tactic(auto, using(crate::proofs::Pieces::begin_one, crate::proofs::Pieces::parted, std::proofs::lemmas::Grind::common_steps))]
fn both_go_on(before: &[Piece<'_>], after: &[Piece<'_>]) -> bool
    requires before { 0 < length before.now }
    requires after { 0 < length after.now }
    ensures { IsTrue result → Allowed Both (map piece_view before.now) (map piece_view after.now) }
{
    if start_alike(before, after) {
        !lists_exports(before, after)
    } else {
        false
    }
}

/// Whether two lists go on alike, and no change is under way or begins there: so it is nearly everywhere, and one look tells it.
fn go_on_alike(due: Change, before: &[Piece<'_>], after: &[Piece<'_>]) -> bool
    ensures { IsTrue result → Allowed Both (map piece_view before.now) (map piece_view after.now) }
{
    if due.removed > 0 || due.inserted > 0 {
        return false;
    }
    if before.is_empty() {
        return false;
    }
    if after.is_empty() {
        return false;
    }
    both_go_on(before, after)
}

/// The next step where a change is due. Something is put in or taken away only where the next three pieces are not alike.
#[tactic(auto, using(crate::proofs::Pieces::parts_from_none, crate::proofs::Pieces::parts_from_some, crate::proofs::Pieces::begin_one, crate::proofs::Pieces::parted, std::proofs::lemmas::Grind::common_steps))]
fn step_at(due: Change, before: &[Piece<'_>], after: &[Piece<'_>]) -> Step
    requires { 0 < length before.now + length after.now }
    ensures { Allowed result (map piece_view before.now) (map piece_view after.now) }
{
    if before.is_empty() {
        return Step::Insert;
    }
    if after.is_empty() {
        return Step::Remove;
    }
    if due.removed == 0 && due.inserted == 0 {
        return settled_step(before, after);
    }
    if begin_alike(3, before, after) {
        return Step::Both;
    }
    if due.removed > 0 {
        Step::Remove
    } else if due.inserted > 0 || !begin_alike(1, before, after) {
        Step::Insert
    } else {
        Step::Both
    }
}

/// The change that two lists begin with, and the next step.
pub(crate) fn next_step(due: Change, before: &[Piece<'_>], after: &[Piece<'_>]) -> (Change, Step)
    requires { 0 < length before.now + length after.now }
    ensures { Allowed result.1 (map piece_view before.now) (map piece_view after.now) }
{
    if go_on_alike(due, before, after) {
        return (due, Step::Both);
    }
    let change = change_at(due, before, after);
    let step = step_at(change, before, after);
    (change, step)
}

/// What is left of a change behind a step.
pub(crate) fn due_behind(due: Change, step: Step) -> Change {
    match step {
        Step::Both => Change::none(),
        Step::Insert => Change {
            removed: due.removed,
            inserted: due.inserted.saturating_sub(1),
        },
        Step::Remove => Change {
            removed: due.removed.saturating_sub(1),
            inserted: due.inserted,
        },
    }
}
