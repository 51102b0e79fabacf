//! The text of a tree, with comments.
ghost use Rattle.std.specs.Prelude.{List, [], false, length, map, replicate, IfOk, OnOk};
ghost use Rattle.text_commented.specs.Chosen.{AreChosen};
ghost use Rattle.text_commented.specs.Commented.{AreLast, IsCommented, IsSet, IsWrittenWith, KeepsOrder, PutsAmong};
ghost use Rattle.text_commented.specs.Steps.{merged, placed_view};
ghost use Rattle.text_commented.specs.declared.remark.Remark.{Remark};
ghost use Rattle.text_follow.specs.Follows.{Follows};
ghost use Rattle.text_pieces.specs.Frames.{without_frames};
ghost use Rattle.text_pieces.specs.Pieces.{framed_pieces as framed_of};
ghost use Rattle.text_pieces.specs.Tokens.{piece_view};

use crate::check::hold;
use crate::choose::remarks_among;
use crate::fault::SetFault;
use crate::fit::{Given, Put, order_of, put_among};
use crate::frames::{Places, key_of};
use crate::last::are_last;
use crate::left::{Left, left_of, numbers_left};
use crate::order::keeps_order;
use crate::remark::{Placed, Remark};
use std::alloc::{AllocError, Global};
use swc_tree_node::Node;
use text_comments::{Comment, Source};
use text_lexer::Comments;
use text_pieces::Piece;
use text_printer::{Layout, Writer};
use text_walk::framed_pieces;

/// A text that is written, and the comments that are not in it.
#[derive(Drop)]
pub struct Printed {
    pub text: Vec<u8>,
    pub left: Vec<Left>,
}

fn write_pieces(writer: &mut Writer<'_>, pieces: &[Piece<'_>]) {
    for piece in pieces {
        writer.piece(*piece);
    }
}

// Pieces, and comments among them, laid out. What trails a parameter without parentheses stands in those that are written round it.
fn text_of(
    alloc: Global,
    layout: Layout,
    remarks: &[Remark<'_>],
    pieces: &[Piece<'_>],
    placed: &[Placed],
) -> Result<Vec<u8>, AllocError> {
    let mut writer = Writer::new(alloc, layout);
    let mut at = 0;
    for each in placed {
        write_pieces(&mut writer, pieces.get(at..each.before).unwrap_or(&[]));
        at = each.before;
        match remarks.get(each.number) {
            Some(remark) => {
                if each.inside {
                    writer.hold(remark.text);
                } else {
                    writer.comment(remark.text);
                }
            }
            None => (),
        }
    }
    write_pieces(&mut writer, pieces.get(at..).unwrap_or(&[]));
    writer.finish()
}

// Whether a text has the pieces, and comments among them.
fn check(
    alloc: Global,
    comments: Comments,
    remarks: &[Remark<'_>],
    pieces: &[Piece<'_>],
    placed: &[Placed],
    text: &[u8],
) -> Result<(), SetFault>
    ensures follows { OnOk result (Follows comments false (without_frames (map piece_view pieces.now)) text.now) }
    ensures order { OnOk result (KeepsOrder remarks.now [] (merged 0 (map piece_view pieces.now) (map placed_view placed.now))) }
    ensures last { OnOk result (AreLast remarks.now (merged 0 (map piece_view pieces.now) (map placed_view placed.now))) }
    ensures set { OnOk result (IsSet comments remarks.now (merged 0 (map piece_view pieces.now) (map placed_view placed.now)) text.now) }
{
    if text.len() >= u32::MAX as usize {
        return Err(SetFault::TooLong);
    }
    let source = Source {
        comments,
        whole: text,
    };
    hold(alloc, source, remarks, pieces, placed)?;
    let in_order = keeps_order(alloc, remarks, pieces, placed)?;
    if !in_order {
        return Err(SetFault::NotSet);
    }
    let in_last = are_last(alloc, remarks, pieces, placed)?;
    if !in_last {
        return Err(SetFault::NotSet);
    }
    Ok(())
}

// The text of pieces, with comments that are put among them.
fn text_with(
    alloc: Global,
    comments: Comments,
    layout: Layout,
    remarks: &[Remark<'_>],
    pieces: &[Piece<'_>],
    placed: &[Placed],
) -> Result<Vec<u8>, SetFault>
    ensures follows { IfOk result (λ text. Follows comments false (without_frames (map piece_view pieces.now)) text.items) }
    ensures order { IfOk result (λ text. KeepsOrder remarks.now [] (merged 0 (map piece_view pieces.now) (map placed_view placed.now))) }
    ensures last { IfOk result (λ text. AreLast remarks.now (merged 0 (map piece_view pieces.now) (map placed_view placed.now))) }
    ensures set { IfOk result (λ text. IsSet comments remarks.now (merged 0 (map piece_view pieces.now) (map placed_view placed.now)) text.items) }
{
    let text = text_of(alloc, layout, remarks, pieces, placed)?;
    let bytes = text.as_slice();
    check(alloc, comments, remarks, pieces, placed, bytes)?;
    Ok(text)
}

// Where the comments stand, held against the frames of a tree.
fn places_of(
    alloc: Global,
    remarks: &[Remark<'_>],
    pieces: &[Piece<'_>],
) -> Result<Places, AllocError> {
    let mut keys = Vec::new(alloc);
    for remark in remarks {
        keys.push(key_of(remark.at))?;
    }
    Places::among(alloc, keys, pieces)
}

// Comments put among pieces.
fn put_of(
    alloc: Global,
    comments: Comments,
    remarks: &[Remark<'_>],
    pieces: &[Piece<'_>],
) -> Result<Put, AllocError>
    ensures { IfOk result (λ put. PutsAmong remarks.now (replicate (length remarks.now) false) (map piece_view pieces.now) (merged 0 (map piece_view pieces.now) (map placed_view put.placed.items)) put.used.items) }
{
    let places = places_of(alloc, remarks, pieces)?;
    let order = order_of(alloc, remarks)?;
    let given = Given {
        comments,
        remarks,
        order: &order,
    };
    let put = put_among(alloc, given, places, pieces)?;
    Ok(put)
}

// The text of pieces with comments among them, and those that are left.
fn print_among(
    alloc: Global,
    comments: Comments,
    layout: Layout,
    remarks: &[Remark<'_>],
    pieces: &[Piece<'_>],
) -> Result<Printed, SetFault>
    ensures { IfOk result (λ out. IsWrittenWith comments (without_frames (map piece_view pieces.now)) (map piece_view pieces.now) remarks.now out.text.items out.left.items) }
{
    let put = put_of(alloc, comments, remarks, pieces)?;
    let placed = put.placed.as_slice();
    let text = text_with(alloc, comments, layout, remarks, pieces, placed)?;
    let used = put.used.as_slice();
    let numbers = numbers_left(alloc, used)?;
    let each = numbers.as_slice();
    let left = left_of(alloc, comments, remarks, each, pieces)?;
    Ok(Printed { text, left })
}

/// A text that is written with the tokens of a tree, in UTF-8, and with comments: each is written once, before the first node that begins
/// where it leads, or behind the last that stops where it trails. Those that can't be written are answered, each with why.
///
/// # Errors
///
/// `NotSpelled` where the tree has no text, `TooLong` where positions have not room, `NoMemory` where memory is refused; `NotSet`, which
/// is our fault, where a comment is not where it has to be.
pub fn print_text_with_comments(
    alloc: Global,
    comments: Comments,
    layout: Layout,
    tree: &Node,
    remarks: &[Remark<'_>],
) -> Result<Printed, SetFault>
    ensures { IfOk result (λ out. IsCommented comments tree.now remarks.now out.text.items out.left.items) }
{
    let found = framed_pieces(alloc, tree)?;
    let pieces = found.as_slice();
    let printed = print_among(alloc, comments, layout, remarks, pieces)?;
    Ok(printed)
}

/// `print_text_with_comments` of what `remarks_of` answers, in less time than both take: the comments that are left are told by their
/// numbers among those of the text.
///
/// # Errors
///
/// Those of `print_text_with_comments`.
pub fn print_text_with_those_of(
    alloc: Global,
    comments: Comments,
    layout: Layout,
    tree: &Node,
    text: &[u8],
    found: &[Comment],
) -> Result<Printed, SetFault>
    ensures { IfOk result (λ out. (rs : List Remark) × AreChosen text.now (framed_of tree.now) found.now rs × IsCommented comments tree.now rs out.text.items out.left.items) }
{
    let list = framed_pieces(alloc, tree)?;
    let pieces = list.as_slice();
    let chosen = remarks_among(alloc, text, pieces, found)?;
    let remarks = chosen.as_slice();
    let printed = print_among(alloc, comments, layout, remarks, pieces)?;
    Ok(printed)
}
