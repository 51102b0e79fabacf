//! Comments that are not written.
ghost use Rattle.std.specs.Prelude.{◌≡◌, ◌++◌, ◌∷◌, [], List, map, slice_get, IfOk, IfSome, OnOk};
ghost use Rattle.std.specs.List.{All};
ghost use Rattle.text_commented.specs.Commented.{not_put};
ghost use Rattle.text_commented.specs.Places.{all_places, tight_places};
ghost use Rattle.text_commented.specs.Sites.{IsSites};
ghost use Rattle.text_commented.specs.Why.{IsTold, IsWhy};
ghost use Rattle.text_pieces.specs.Tokens as tokens;
ghost use Rattle.text_pieces.specs.Tokens.{piece_view};

use crate::fault::SetFault;
use crate::remark::{Remark, remark_at};
use crate::sites::{Sites, sites_of};
use std::alloc::{AllocError, Global};
use text_comments::{ends_line, is_one_comment};
use text_lexer::Comments;
use text_pieces::Piece;

/// Why a comment is left.
#[derive(Clone, Copy, Debug, PartialEq, Eq)]
pub enum Why {
    /// No node of the tree begins or stops where it stands.
    NoPlace,
    /// It ends a line, and none may end where it stands: behind `return`, before `=>` or `++`.
    NoLineEnd,
    /// It is not one comment.
    NoComment,
}

/// A comment that is left, by its number among those given.
#[derive(Clone, Copy, Debug, PartialEq, Eq)]
pub struct Left {
    pub number: usize,
    pub why: Why,
}

/// The numbers of those that are not used.
#[tactic(auto, using(crate::proofs::Steps::not_put_end, std::proofs::lemmas::Grind::common_steps))]
pub(crate) fn numbers_left(alloc: Global, used: &[bool]) -> Result<Vec<usize>, AllocError>
    ensures { IfOk result (λ numbers. numbers.items ≡ not_put 0 used.now) }
{
    let mut numbers = Vec::new(alloc);
    'used: for number in 0..used.len() {
        if used[number] {
            continue;
        }
        numbers.push(number)?;
    }
    Ok(numbers)
}

// Why a comment is left, if it has to be.
fn why_of(comments: Comments, remark: Remark<'_>, all: &Sites, tight: &Sites) -> Option<Why>
    ensures { IfSome result (λ why. (ps : List tokens.Piece) → IsSites all.now (all_places ps) → IsSites tight.now (tight_places ps) → IsWhy comments ps remark.entry why) }
{
    let is_one = is_one_comment(comments, remark.text);
    if !is_one {
        return Some(Why::NoComment);
    }
    let is_placed = all.has(remark.at);
    if !is_placed {
        return Some(Why::NoPlace);
    }
    let ends = ends_line(remark.text);
    if !ends {
        return None;
    }
    let is_tight = tight.has(remark.at);
    if !is_tight {
        return None;
    }
    Some(Why::NoLineEnd)
}

fn why_at(
    comments: Comments,
    remarks: &[Remark<'_>],
    number: usize,
    all: &Sites,
    tight: &Sites,
) -> Option<Why>
    ensures { IfSome result (λ why. (ps : List tokens.Piece) → IsSites all.now (all_places ps) → IsSites tight.now (tight_places ps) → IsTold comments ps (slice_get remarks.now number) why) }
{
    let Some(remark) = remark_at(remarks, number) else {
        return None;
    };
    why_of(comments, remark, all, tight)
}

fn push(left: &mut Vec<Left>, each: Left) -> Result<(), AllocError>
    ensures { OnOk result (left.new.items ≡ left.old.items ++ each ∷ []) }
{
    left.push(each)?;
    Ok(())
}

// Those that are left, each with why it is.
fn left_by(
    alloc: Global,
    comments: Comments,
    remarks: &[Remark<'_>],
    numbers: &[usize],
    all: &Sites,
    tight: &Sites,
) -> Result<Vec<Left>, SetFault>
    ensures each { IfOk result (λ left. map (λ l. l.number) left.items ≡ numbers.now) }
    ensures told { IfOk result (λ left. (ps : List tokens.Piece) → IsSites all.now (all_places ps) → IsSites tight.now (tight_places ps) → All (λ l. IsTold comments ps (slice_get remarks.now l.number) l.why) left.items) }
{
    let mut left = Vec::new(alloc);
    'numbers: for i in 0..numbers.len() {
        let number = numbers[i];
        let Some(why) = why_at(comments, remarks, number, all, tight) else {
            return Err(SetFault::NotSet);
        };
        push(&mut left, Left { number, why })?;
    }
    Ok(left)
}

/// Those that are left of what is written among the pieces of a tree, each with why it is.
#[tactic(auto, using(crate::proofs::Steps::none_left, std::proofs::lemmas::Grind::common_steps))]
pub(crate) fn left_of(
    alloc: Global,
    comments: Comments,
    remarks: &[Remark<'_>],
    numbers: &[usize],
    pieces: &[Piece<'_>],
) -> Result<Vec<Left>, SetFault>
    ensures each { IfOk result (λ left. map (λ l. l.number) left.items ≡ numbers.now) }
    ensures told { IfOk result (λ left. All (λ l. IsTold comments (map piece_view pieces.now) (slice_get remarks.now l.number) l.why) left.items) }
{
    let count = numbers.len();
    if count == 0 {
        return Ok(Vec::new(alloc));
    }
    let sites = sites_of(alloc, pieces)?;
    let left = left_by(alloc, comments, remarks, numbers, &sites.all, &sites.tight)?;
    Ok(left)
}
