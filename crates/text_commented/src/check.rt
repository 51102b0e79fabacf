//! A text held against pieces with comments among them.
ghost use Rattle.std.specs.Prelude.{◌≡◌, ℕ, ◌-◌, ◌^◌, ◌<◌, Bool, List, [], ◌∷◌, ◌++◌, Some, length, map, IfOk, IsTrue, OnOk};
ghost use Rattle.text_comments.specs.Comments.{before_token, before_tokens};
ghost use Rattle.text_commented.specs.Commented.{IsSet, Meets, due_behind, remark, token, written};
ghost use Rattle.text_commented.specs.Steps.{GoesOn, Steps, merged, placed_view};
ghost use Rattle.text_commented.specs.declared.remark.Remark.{Remark};
ghost use Rattle.text_lexer.specs.Blanks.{blank};
ghost use Rattle.text_lexer.specs.declared.blank.Comments.{Comments};
ghost use Rattle.text_pieces.specs.Tokens.{piece_view};

use crate::choose::text_of;
use crate::fault::SetFault;
use crate::remark::{Placed, Remark, remark_at};
use std::alloc::{AllocError, Global};
use text_comments::{Comment, Source, add_before_token, add_before_tokens};
use text_follow::{ending_behind, fresh_behind, goal_of, take};
use text_lexer::{Comments, Goal, skip_blank};
use text_pieces::{Ending, Piece};

// Where a text is read on, and which comments are due before the next token.
#[derive(Drop)]
struct Walk<'t, 'r> {
    rest: &'t [u8],
    // Nothing stands before.
    fresh: bool,
    // How what stands before ends.
    ending: Ending,
    due: Vec<&'r [u8]>,
}

fn same(one: &[u8], other: &[u8]) -> bool
    ensures { IsTrue result → one.now ≡ other.now }
{
    one == other
}

fn is_written(whole: &[u8], comment: Comment, due: &[u8]) -> bool
    ensures { IsTrue result → written whole.now comment ≡ due.now }
{
    same(text_of(whole, comment), due)
}

// Whether the comments of a text are those that are due.
fn are_written(whole: &[u8], found: &[Comment], due: &[&[u8]]) -> bool
    ensures { IsTrue result → map (written whole.now) found.now ≡ map (λ d. d.now) due.now }
{
    if found.len() != due.len() {
        return false;
    }
    'comments: for i in 0..found.len() {
        if !is_written(whole, found[i], due[i]) {
            return false;
        }
    }
    true
}

// The comments before the next token.
fn comments_before(
    alloc: Global,
    source: Source<'_>,
    fresh: bool,
    text: &[u8],
) -> Result<Vec<Comment>, AllocError>
    requires { length source.whole.now < 2 ^ 32 - 1 }
    ensures { IfOk result (λ found. found.items ≡ before_token source.entry.comments source.entry.whole.now fresh text.now) }
{
    let mut found = Vec::new(alloc);
    add_before_token(source, fresh, text, &mut found)?;
    Ok(found)
}

// The comments before the tokens of a piece.
fn comments_between(
    alloc: Global,
    source: Source<'_>,
    goal: Goal,
    fresh: bool,
    text: &[u8],
    rest: &[u8],
) -> Result<Vec<Comment>, AllocError>
    requires { length source.whole.now < 2 ^ 32 - 1 }
    ensures { IfOk result (λ found. found.items ≡ before_tokens (length text.now) source.entry.comments goal source.entry.whole.now fresh text.now rest.now) }
{
    let mut found = Vec::new(alloc);
    add_before_tokens(source, goal, fresh, text, rest, &mut found)?;
    Ok(found)
}

fn is_at_end(comments: Comments, fresh: bool, text: &[u8]) -> bool
    ensures { IsTrue result → (ended : Bool) × (blank comments fresh text.now ≡ Some (ended, [])) }
{
    match skip_blank(comments, fresh, text) {
        Some((_, end)) => end.is_empty(),
        None => false,
    }
}

fn add_due<'r>(due: &mut Vec<&'r [u8]>, text: &'r [u8]) -> Result<(), AllocError>
    ensures { OnOk result (due.new.items ≡ due.old.items ++ text.entry ∷ []) }
{
    due.push(text)?;
    Ok(())
}

impl<'t, 'r> Walk<'t, 'r> {
    // Whether the comments before a piece are those that are due, where it is written with a token.
    fn meets(
        &self,
        alloc: Global,
        source: Source<'_>,
        piece: Piece<'_>,
        rest: &[u8],
    ) -> Result<bool, AllocError>
        requires { length source.whole.now < 2 ^ 32 - 1 }
        ensures { IfOk result (λ so. IsTrue so → Meets source.entry.comments source.entry.whole.now self.now.fresh (piece_view piece.entry) self.now.rest.now rest.now (map (λ d. d.now) self.now.due.items)) }
    {
        if rest.len() >= self.rest.len() {
            return Ok(true);
        }
        let goal = goal_of(piece);
        let found = comments_between(alloc, source, goal, self.fresh, self.rest, rest)?;
        Ok(are_written(source.whole, &found, &self.due))
    }

    // Behind a piece that takes so much of the text, none of the comments before it is due any more.
    fn settle(&mut self, rest: &[u8])
        ensures due { map (λ d. d.now) self.new.due.items ≡ due_behind self.old.rest.now rest.now (map (λ d. d.now) self.old.due.items) }
        ensures rest { self.new.rest ≡ self.old.rest }
        ensures fresh { self.new.fresh ≡ self.old.fresh }
        ensures ending { self.new.ending ≡ self.old.ending }
    {
        if rest.len() < self.rest.len() {
            self.due.clear();
        }
    }

    // Goes behind a piece, if the text goes on with it and has just the comments before it that are due.
    fn pass(&mut self, alloc: Global, source: Source<'_>, piece: Piece<'_>) -> Result<(), SetFault>
        requires { length source.whole.now < 2 ^ 32 - 1 }
        ensures { OnOk result ((rs : List Remark) → Steps source.entry.comments source.entry.whole.now rs (token (piece_view piece.entry) ∷ []) self.old self.new) }
    {
        let (fresh, ending, text) = (self.fresh, self.ending, self.rest);
        let Some(rest) = take(source.comments, false, fresh, ending, text, piece) else {
            return Err(SetFault::NotSpelled);
        };
        let is_met = self.meets(alloc, source, piece, rest)?;
        if !is_met {
            return Err(SetFault::NotSet);
        }
        self.settle(rest);
        self.rest = rest;
        self.fresh = fresh_behind(fresh, piece);
        self.ending = ending_behind(ending, piece);
        Ok(())
    }

    // The same of some pieces, one after another.
    fn pass_all(
        &mut self,
        alloc: Global,
        source: Source<'_>,
        pieces: &[Piece<'_>],
    ) -> Result<(), SetFault>
        requires { length source.whole.now < 2 ^ 32 - 1 }
        ensures { OnOk result ((rs : List Remark) → Steps source.entry.comments source.entry.whole.now rs (map token (map piece_view pieces.now)) self.old self.new) }
    {
        'pieces: for i in 0..pieces.len() {
            self.pass(alloc, source, pieces[i])?;
        }
        Ok(())
    }

    // Takes a comment for one that is due.
    fn expect(&mut self, remarks: &[Remark<'r>], number: usize) -> Result<(), SetFault>
        ensures { OnOk result ((c : Comments) (whole : List ℕ) → Steps c whole remarks.now (remark number ∷ []) self.old self.new) }
    {
        let Some(remark) = remark_at(remarks, number) else {
            return Err(SetFault::NotSet);
        };
        add_due(&mut self.due, remark.text)?;
        Ok(())
    }

    // The text ends behind the comments that are due.
    fn end(&self, alloc: Global, source: Source<'_>) -> Result<(), SetFault>
        requires { length source.whole.now < 2 ^ 32 - 1 }
        ensures { OnOk result ((rs : List Remark) → GoesOn source.entry.comments source.entry.whole.now rs self.now []) }
    {
        if !is_at_end(source.comments, self.fresh, self.rest) {
            return Err(SetFault::NotSpelled);
        }
        let found = comments_before(alloc, source, self.fresh, self.rest)?;
        let are = are_written(source.whole, &found, &self.due);
        if !are {
            return Err(SetFault::NotSet);
        }
        Ok(())
    }
}

/// Holds a text against pieces with comments among them: it is written with these, and with no other comment.
pub(crate) fn hold(
    alloc: Global,
    source: Source<'_>,
    remarks: &[Remark<'_>],
    pieces: &[Piece<'_>],
    placed: &[Placed],
) -> Result<(), SetFault>
    requires { length source.whole.now < 2 ^ 32 - 1 }
    ensures { OnOk result (IsSet source.entry.comments remarks.now (merged 0 (map piece_view pieces.now) (map placed_view placed.now)) source.entry.whole.now) }
{
    let mut walk = Walk {
        rest: source.whole,
        fresh: true,
        ending: Ending::Closed,
        due: Vec::new(alloc),
    };
    let mut at = 0;
    'placed: for i in 0..placed.len() {
        let before = placed[i].before;
        if before < at || pieces.len() < before {
            return Err(SetFault::NotSet);
        }
        walk.pass_all(alloc, source, &pieces[at..before])?;
        walk.expect(remarks, placed[i].number)?;
        at = before;
    }
    walk.pass_all(alloc, source, &pieces[at..])?;
    walk.end(alloc, source)?;
    Ok(())
}
