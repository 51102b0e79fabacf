//! Trees written as texts.
ghost use Rattle.std.specs.Prelude.{◌≡◌, ◌++◌, ◌∷◌, [], false, map, IfOk, IfErr, IfSome, OnOk};
ghost use Rattle.swc_tree_node.specs.declared.node.Node.{Node};
ghost use Rattle.text_comments.specs.Comments.{HasComments};
ghost use Rattle.text_follow.specs.Follows.{Follows};
ghost use Rattle.text_pieces.specs.Pieces.{pieces as pieces_of};
ghost use Rattle.text_pieces.specs.Tokens.{piece_view};
ghost use Rattle.mucwathi_order.specs.Lower.text_source.specs.Texts as texts;
ghost use Rattle.mucwathi_commands.specs.Comments as spec;
ghost use Rattle.mucwathi_commands.specs.Comments.{AreWrittenAgain};
ghost use Rattle.mucwathi_commands.specs.Faults.{IsWriteFault};
ghost use Rattle.mucwathi_commands.specs.Written.{IsKept};

use mucwathi_order::{Goal, RunFault};
use std::alloc::{AllocError, Global};
use swc_tree_marks::PassError;
use swc_tree_node::Node;
use text_commented::{Left, SetFault, print_text_with_those_of};
use text_comments::{Comment, CommentsFault, find_comments};
use text_edit::{EditFault, edit_text, edit_text_from};
use text_lexer::Comments;
use text_pieces::Piece;
use text_printer::{Layout, PrintFault, print_text};

/// What is written for a text, and how many bytes are before each comment of the text that is not in it.
#[derive(Debug, Drop)]
pub struct RewrittenText {
    pub out: Vec<u8>,
    pub lost: Vec<usize>,
}

fn comments_of(goal: Goal) -> Comments
    ensures { result ≡ texts.comments_of goal }
{
    match goal {
        Goal::Module => Comments::Module,
        Goal::Script => Comments::Script,
    }
}

/// The text of an answer, anew.
///
/// # Errors
///
/// `NotWritten` where it has no text; `Refused` where memory is.
pub fn print(alloc: Global, goal: Goal, layout: Layout, answer: &Node) -> Result<Vec<u8>, RunFault>
    ensures written { IfOk result (λ out. Follows (texts.comments_of goal) false (pieces_of answer.now) out.items) }
    ensures fault { IfErr result IsWriteFault }
{
    match print_text(alloc, comments_of(goal), layout, answer) {
        Ok(text) => Ok(text),
        Err(PrintFault::NoMemory) => Err(RunFault::Refused(PassError::NoMemory)),
        Err(PrintFault::NotSpelled) => Err(RunFault::NotWritten),
    }
}

/// The comments of a source's text: none where they are not found, which never happens.
///
/// # Errors
///
/// Where memory is refused.
pub(crate) fn comments_in(
    alloc: Global,
    goal: Goal,
    text: &[u8],
    source: &Node,
) -> Result<Option<Vec<Comment>>, AllocError>
    ensures { IfOk result (λ found. IfSome found (λ comments. HasComments (texts.comments_of goal) (pieces_of source.now) text.now comments.items)) }
{
    match find_comments(alloc, comments_of(goal), text, source) {
        Ok(found) => Ok(Some(found)),
        Err(CommentsFault::NoMemory) => Err(AllocError),
        Err(CommentsFault::TooLong | CommentsFault::OtherText) => Ok(None),
    }
}

// How many bytes are before a comment that is left.
fn bytes_before(comments: &[Comment], left: Left) -> usize
    ensures { result ≡ spec.bytes_before_left comments.now left }
{
    match comments.get(left.number) {
        Some(comment) => comment.span.lo.saturating_sub(1) as usize,
        None => 0,
    }
}

fn add(lost: &mut Vec<usize>, at: usize) -> Result<(), AllocError>
    ensures { OnOk result (lost.new.items ≡ lost.old.items ++ at ∷ []) }
{
    lost.push(at)?;
    Ok(())
}

// The same of each.
fn lost_among(alloc: Global, comments: &[Comment], left: &[Left]) -> Result<Vec<usize>, AllocError>
    ensures { IfOk result (λ lost. lost.items ≡ map (spec.bytes_before_left comments.now) left.now) }
{
    let mut lost = Vec::new(alloc);
    for each in left {
        add(&mut lost, bytes_before(comments, *each))?;
    }
    Ok(lost)
}

// The text of an answer, anew, with comments of its source's text.
fn print_set(
    alloc: Global,
    goal: Goal,
    text: &[u8],
    comments: &[Comment],
    answer: &Node,
) -> Result<RewrittenText, SetFault>
    ensures written { IfOk result (λ made. Follows (texts.comments_of goal) false (pieces_of answer.now) made.out.items) }
    ensures again { (source : Node) → HasComments (texts.comments_of goal) (pieces_of source) text.now comments.now → IfOk result (λ made. AreWrittenAgain (texts.comments_of goal) source answer.now text.now made.out.items made.lost.items) }
{
    let kind = comments_of(goal);
    let printed = print_text_with_those_of(alloc, kind, Layout::Lines, answer, text, comments)?;
    let left = printed.left.as_slice();
    let lost = lost_among(alloc, comments, left)?;
    Ok(RewrittenText {
        out: printed.text,
        lost,
    })
}

/// The text of an answer, anew, with the comments of its source's text, but those that can stand nowhere.
///
/// # Errors
///
/// `NotWritten` where it has no text; `Refused` where memory is.
pub(crate) fn print_with(
    alloc: Global,
    goal: Goal,
    text: &[u8],
    comments: &Option<Vec<Comment>>,
    answer: &Node,
) -> Result<RewrittenText, RunFault>
    ensures written { IfOk result (λ made. Follows (texts.comments_of goal) false (pieces_of answer.now) made.out.items) }
    ensures again { (source : Node) → IfSome comments.now (λ ks. HasComments (texts.comments_of goal) (pieces_of source) text.now ks.items) → IfOk result (λ made. AreWrittenAgain (texts.comments_of goal) source answer.now text.now made.out.items made.lost.items) }
    ensures fault { IfErr result IsWriteFault }
{
    let Some(comments) = comments else {
        return Err(RunFault::NotWritten);
    };
    let found = comments.as_slice();
    match print_set(alloc, goal, text, found, answer) {
        Ok(made) => Ok(made),
        Err(SetFault::NoMemory) => Err(RunFault::Refused(PassError::NoMemory)),
        Err(SetFault::NotSpelled | SetFault::NotSet | SetFault::TooLong) => {
            Err(RunFault::NotWritten)
        }
    }
}

/// The text of an answer in few bytes, without comments.
///
/// # Errors
///
/// `NotWritten` where it has no text; `Refused` where memory is.
pub(crate) fn print_compact(
    alloc: Global,
    goal: Goal,
    answer: &Node,
) -> Result<RewrittenText, RunFault>
    ensures written { IfOk result (λ made. Follows (texts.comments_of goal) false (pieces_of answer.now) made.out.items) }
    ensures none { IfOk result (λ made. made.lost.items ≡ []) }
    ensures fault { IfErr result IsWriteFault }
{
    match print(alloc, goal, Layout::Compact, answer) {
        Ok(out) => Ok(RewrittenText {
            out,
            lost: Vec::new(alloc),
        }),
        Err(fault) => Err(fault),
    }
}

/// The text of an answer, with the layout and the comments of its source's.
///
/// # Errors
///
/// `NotKept` where these can't be kept; `Refused` where memory is.
pub fn edit(
    alloc: Global,
    goal: Goal,
    text: &[u8],
    source: &Node,
    answer: &Node,
) -> Result<Vec<u8>, RunFault>
    ensures kept { IfOk result (λ out. IsKept (texts.comments_of goal) source.now answer.now text.now out.items) }
    ensures fault { IfErr result IsWriteFault }
{
    match edit_text(alloc, comments_of(goal), text, source, answer) {
        Ok(out) => Ok(out),
        Err(EditFault::NoMemory) => Err(RunFault::Refused(PassError::NoMemory)),
        Err(EditFault::OtherText | EditFault::NotTheText) => Err(RunFault::NotKept),
    }
}

fn edit_from(
    alloc: Global,
    goal: Goal,
    text: &[u8],
    before: &[Piece<'_>],
    answer: &Node,
) -> Result<Vec<u8>, RunFault>
    ensures kept { (source : Node) → map piece_view before.now ≡ pieces_of source → IfOk result (λ out. IsKept (texts.comments_of goal) source answer.now text.now out.items) }
    ensures fault { IfErr result IsWriteFault }
{
    match edit_text_from(alloc, comments_of(goal), text, before, answer) {
        Ok(out) => Ok(out),
        Err(EditFault::NoMemory) => Err(RunFault::Refused(PassError::NoMemory)),
        Err(EditFault::OtherText | EditFault::NotTheText) => Err(RunFault::NotKept),
    }
}

/// The same where the pieces of the source's text are at hand; where they are not, the layout is not kept.
///
/// # Errors
///
/// Those of `edit`.
pub(crate) fn edit_by(
    alloc: Global,
    goal: Goal,
    text: &[u8],
    before: &Option<Vec<Piece<'_>>>,
    answer: &Node,
) -> Result<Vec<u8>, RunFault>
    ensures kept { (source : Node) → IfSome before.now (λ old. map piece_view old.items ≡ pieces_of source) → IfOk result (λ out. IsKept (texts.comments_of goal) source answer.now text.now out.items) }
    ensures fault { IfErr result IsWriteFault }
{
    match before {
        Some(old) => edit_from(alloc, goal, text, old.as_slice(), answer),
        None => Err(RunFault::NotKept),
    }
}
