//! From text to text.
ghost use Rattle.std.specs.Prelude.{◌≡◌, Some, None, map, IfSome, MatchResult};
ghost use Rattle.text_comments.specs.Comments.{HasComments};
ghost use Rattle.text_pieces.specs.Pieces.{pieces};
ghost use Rattle.text_pieces.specs.Tokens.{piece_view};
ghost use Rattle.text_printer.specs.declared.lay_out.Layout.TheVariants as layouts;
ghost use Rattle.mucwathi_order.specs.Lower.text_source.specs.Texts.{comments_of};
ghost use Rattle.mucwathi_order.specs.Styles.{layout_of};
ghost use Rattle.mucwathi_commands.specs.Comments.{IsRewrittenWith};
ghost use Rattle.mucwathi_commands.specs.Faults.{IsRunFault};
ghost use Rattle.mucwathi_commands.specs.Written.{IsReadAs, IsRewritten};

use crate::apart::{pieces_again, texts_of};
use crate::write::{RewrittenText, comments_in, edit_by, print_compact, print_with};
use mucwathi_order::text_source::read_text;
use mucwathi_order::{Memory, Order, RunFault};
use mucwathi_passes::make;
use std::alloc::Global;
use std::mem::forget;
use swc_tree_marks::PassError;
use swc_tree_node::Node;
use text_comments::Comment;
use text_pieces::Piece;
use text_printer::Layout;
use text_walk::pieces as pieces_in;

// A tree is needed no more.
fn let_go(memory: Memory, tree: Node) {
    match memory {
        Memory::GivenBack => drop(tree),
        Memory::Left => forget(tree),
    }
}

// What a command makes of a program, written anew with comments of its text.
fn rewrite_with(
    alloc: Global,
    order: &Order,
    text: &[u8],
    comments: &Option<Vec<Comment>>,
    source: Node,
) -> Result<RewrittenText, RunFault>
    requires read { IsReadAs order.now.goal source text.now }
    requires anew { layout_of order.now.style ≡ Some layouts.Lines }
    requires found { IfSome comments.now (λ ks. HasComments (comments_of order.now.goal) (pieces source) text.now ks.items) }
    ensures { MatchResult result (λ made. IsRewrittenWith order.now text.now made.out.items made.lost.items) (IsRunFault order.now text.now) }
{
    match make(alloc, order.command, &order.settings, source) {
        Ok(answer) => {
            let written = print_with(alloc, order.goal, text, comments, &answer);
            let_go(order.memory, answer);
            written
        }
        Err(error) => Err(RunFault::Refused(error)),
    }
}

// The same with those that are found.
fn rewrite_in_lines(
    alloc: Global,
    order: &Order,
    text: &[u8],
    source: Node,
) -> Result<RewrittenText, RunFault>
    requires read { IsReadAs order.now.goal source text.now }
    requires anew { layout_of order.now.style ≡ Some layouts.Lines }
    ensures { MatchResult result (λ made. IsRewrittenWith order.now text.now made.out.items made.lost.items) (IsRunFault order.now text.now) }
{
    match comments_in(alloc, order.goal, text, &source) {
        Ok(comments) => rewrite_with(alloc, order, text, &comments, source),
        Err(_) => Err(RunFault::Refused(PassError::NoMemory)),
    }
}

// What a command makes of a program, in few bytes.
fn rewrite_compact(
    alloc: Global,
    order: &Order,
    text: &[u8],
    source: Node,
) -> Result<RewrittenText, RunFault>
    requires read { IsReadAs order.now.goal source text.now }
    requires anew { layout_of order.now.style ≡ Some layouts.Compact }
    ensures { MatchResult result (λ made. IsRewrittenWith order.now text.now made.out.items made.lost.items) (IsRunFault order.now text.now) }
{
    match make(alloc, order.command, &order.settings, source) {
        Ok(answer) => {
            let written = print_compact(alloc, order.goal, &answer);
            let_go(order.memory, answer);
            written
        }
        Err(error) => Err(RunFault::Refused(error)),
    }
}

// What a command makes of a program, written anew.
fn rewrite_anew(
    alloc: Global,
    order: &Order,
    layout: Layout,
    text: &[u8],
    source: Node,
) -> Result<RewrittenText, RunFault>
    requires read { IsReadAs order.now.goal source text.now }
    requires anew { layout_of order.now.style ≡ Some layout }
    ensures { MatchResult result (λ made. IsRewrittenWith order.now text.now made.out.items made.lost.items) (IsRunFault order.now text.now) }
{
    match layout {
        Layout::Lines => rewrite_in_lines(alloc, order, text, source),
        Layout::Compact => rewrite_compact(alloc, order, text, source),
    }
}

// What a command makes of a program, with the layout and the comments of its text, which has these pieces.
fn rewrite_from(
    alloc: Global,
    order: &Order,
    text: &[u8],
    before: &Option<Vec<Piece<'_>>>,
    source: Node,
) -> Result<Vec<u8>, RunFault>
    requires read { IsReadAs order.now.goal source text.now }
    requires pieces { IfSome before.now (λ old. map piece_view old.items ≡ pieces source) }
    requires kept { layout_of order.now.style ≡ None }
    ensures { MatchResult result (λ out. IsRewritten order.now text.now out.items) (IsRunFault order.now text.now) }
{
    match make(alloc, order.command, &order.settings, source) {
        Ok(answer) => {
            let written = edit_by(alloc, order.goal, text, before, &answer);
            let_go(order.memory, answer);
            written
        }
        Err(error) => Err(RunFault::Refused(error)),
    }
}

// What a command makes of a program, with the layout and the comments of its text.
fn rewrite_kept(
    alloc: Global,
    order: &Order,
    text: &[u8],
    source: Node,
) -> Result<Vec<u8>, RunFault>
    requires read { IsReadAs order.now.goal source text.now }
    requires kept { layout_of order.now.style ≡ None }
    ensures { MatchResult result (λ out. IsRewritten order.now text.now out.items) (IsRunFault order.now text.now) }
{
    let Ok(found) = pieces_in(alloc, &source) else {
        return Err(RunFault::Refused(PassError::NoMemory));
    };
    let Ok(texts) = texts_of(alloc, &found) else {
        return Err(RunFault::Refused(PassError::NoMemory));
    };
    let Ok(before) = pieces_again(alloc, texts.as_str(), found) else {
        return Err(RunFault::Refused(PassError::NoMemory));
    };
    rewrite_from(alloc, order, text, &before, source)
}

// The same, and that no comment is lost.
fn rewrite_in_place(
    alloc: Global,
    order: &Order,
    text: &[u8],
    source: Node,
) -> Result<RewrittenText, RunFault>
    requires read { IsReadAs order.now.goal source text.now }
    requires kept { layout_of order.now.style ≡ None }
    ensures { MatchResult result (λ made. IsRewrittenWith order.now text.now made.out.items made.lost.items) (IsRunFault order.now text.now) }
{
    match rewrite_kept(alloc, order, text, source) {
        Ok(out) => Ok(RewrittenText {
            out,
            lost: Vec::new(alloc),
        }),
        Err(fault) => Err(fault),
    }
}

// What a command makes of a program.
fn rewrite_source(
    alloc: Global,
    order: &Order,
    text: &[u8],
    source: Node,
) -> Result<RewrittenText, RunFault>
    requires read { IsReadAs order.now.goal source text.now }
    ensures { MatchResult result (λ made. IsRewrittenWith order.now text.now made.out.items made.lost.items) (IsRunFault order.now text.now) }
{
    match order.style.layout() {
        Some(layout) => rewrite_anew(alloc, order, layout, text, source),
        None => rewrite_in_place(alloc, order, text, source),
    }
}

/// What a command makes of a text, and which comments of it are lost: where it is written anew, those that can stand at no node of the
/// answer, or would end a line where none may end. A compact text has none, and of that nothing is told.
///
/// # Errors
///
/// Those of `rewrite_text`.
pub fn rewrite_with_comments(
    alloc: Global,
    order: &Order,
    text: &[u8],
) -> Result<RewrittenText, RunFault>
    ensures { MatchResult result (λ made. IsRewrittenWith order.now text.now made.out.items made.lost.items) (IsRunFault order.now text.now) }
{
    match read_text(alloc, order.goal, order.depth, text) {
        Ok(source) => rewrite_source(alloc, order, text, source),
        Err(fault) => Err(RunFault::of_text(fault)),
    }
}

/// What a command makes of a text.
///
/// What was read is the text of a program that the grammar derives, and what is written is the text of what the command makes of it. What the laws promise of
/// that says `rewrite_text` of `mucwathi_engine`.
///
/// Time and memory grow in step with the text; the recursion is as deep as its tree, `depth` at most.
///
/// # Errors
///
/// `Text` where the text is not read, with what was expected and where. `Refused` where the command is refused, with its cause, or memory is.
/// `NotWritten` where the answer has no text, which no text that was read has led to; `NotKept` where its layout can't be kept.
pub fn rewrite_text(alloc: Global, order: &Order, text: &[u8]) -> Result<Vec<u8>, RunFault>
    ensures { MatchResult result (λ out. IsRewritten order.now text.now out.items) (IsRunFault order.now text.now) }
{
    match rewrite_with_comments(alloc, order, text) {
        Ok(made) => Ok(made.out),
        Err(fault) => Err(fault),
    }
}
