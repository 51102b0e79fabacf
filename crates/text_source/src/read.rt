//! Texts read, and held against what was read.
ghost use Rattle.std.specs.Prelude.{◌≡◌, ◌<◌, ◌≤◌, length, map, true, Err, IfErr, IfOk, IsTrue, IsUtf8};
ghost use Rattle.std.specs.Str.Lossy.{utf8_valid_len};
ghost use Rattle.swc_tree_node.specs.declared.node.Node.{out-Node};
ghost use Rattle.swc_tree_node.specs.declared.slot.Slot.TheVariants as slot;
ghost use Rattle.swc_tree_node.specs.Fits.{Fits};
ghost use Rattle.swc_tree_scoping.specs.WellScoped.{IsClean};
ghost use Rattle.text_checks.specs.Checked.{IsWellFormed};
ghost use Rattle.text_follow.specs.Follows.{Follows};
ghost use Rattle.text_follow.specs.Stands.{Stands};
ghost use Rattle.text_pieces.specs.Frames.{first_span as span_of_first};
ghost use Rattle.text_pieces.specs.Pieces.{framed_pieces, pieces as tokens_of};
ghost use Rattle.text_pieces.specs.Tokens.{piece_view};
ghost use Rattle.text_checks.specs.Pinned.{IsPinned};
ghost use Rattle.text_reader.specs.declared.fault.TextFault.TheVariants as fault;
ghost use Rattle.text_source.specs.Texts as spec;
ghost use Rattle.text_source.specs.Texts.{IsTextOf, IsWhole, SpansAreOf, Tells, most_bytes};
ghost use Rattle.text_spans.specs.Leaves.{LeavesStand};

use crate::sound::is_formed;
use std::alloc::{AllocError, Global};
use std::str;
use swc_tree_node::{Class, Content, Node, Slot};
use text_checks::fits;
use text_follow::follows;
use text_lexer::Comments;
use text_parser::{Goal, TextFault, parse};
use text_pieces::Piece;
use text_walk::{first_span, pieces, tree_stands};

/// As many bytes as a text may have: the places in a tree go up to 2 ^ 32 - 1, and begin with 1.
pub const MOST_BYTES: usize = 4_294_967_293;

fn class_of(goal: Goal) -> Class
    ensures { result ≡ spec.class_of goal }
{
    match goal {
        Goal::Module => Class::Module,
        Goal::Script => Class::Script,
    }
}

fn comments_of(goal: Goal) -> Comments
    ensures { result ≡ spec.comments_of goal }
{
    match goal {
        Goal::Module => Comments::Module,
        Goal::Script => Comments::Script,
    }
}

fn slot_of(goal: Goal) -> Slot
    ensures { result ≡ spec.slot_of goal }
{
    Slot::One(Content::Node(class_of(goal)))
}

fn stands(goal: Goal, tree: &Node) -> bool
    ensures { IsTrue result → Fits tree.now (spec.slot_of goal) }
{
    fits(tree, slot_of(goal))
}

fn is_written(goal: Goal, text: &[u8], pieces: &[Piece<'_>]) -> bool
    ensures { IsTrue result → Follows (spec.comments_of goal) true (map piece_view pieces.now) text.now }
{
    follows(comments_of(goal), true, text, pieces)
}

// Whether a text in UTF-8 is that of a tree that fits.
fn has_tokens(alloc: Global, goal: Goal, tree: &Node, text: &[u8]) -> Result<bool, AllocError>
    requires utf8 { IsUtf8 text.now }
    requires fits { Fits tree.now (spec.slot_of goal) }
    ensures { IfOk result (λ yes. IsTrue yes → IsTextOf goal tree.now text.now) }
{
    let found = pieces(alloc, tree)?;
    if is_written(goal, text, &found) {
        Ok(true)
    } else {
        Ok(false)
    }
}

// The same of a text that is in UTF-8.
fn says(alloc: Global, goal: Goal, tree: &Node, text: &[u8]) -> Result<bool, AllocError>
    requires { IsUtf8 text.now }
    ensures { IfOk result (λ yes. IsTrue yes → IsTextOf goal tree.now text.now) }
{
    if stands(goal, tree) {
        has_tokens(alloc, goal, tree, text)
    } else {
        Ok(false)
    }
}

/// Whether a text is that of a tree: a yes says that it is. All that the text may have and the tree doesn't tell may be there or
/// not: blanks, comments, semicolons by ECMA-262, 12.10, commas behind last items, parentheses round the one plain parameter
/// of an arrow function.
///
/// The time is in step with the text and the tree; the recursion is as deep as the tree.
///
/// # Errors
///
/// Where memory is refused.
pub fn is_text_of(alloc: Global, goal: Goal, tree: &Node, text: &[u8]) -> Result<bool, AllocError>
    ensures { IfOk result (λ yes. IsTrue yes → IsTextOf goal tree.now text.now) }
{
    match str::from_utf8(text) {
        Ok(_) => says(alloc, goal, tree, text),
        Err(_) => Ok(false),
    }
}

// Whether the span of a program is the whole text.
fn is_whole(tree: &Node, text: &[u8]) -> bool
    ensures { IsTrue result → IsWhole text.now (span_of_first (out-Node tree.now)) }
{
    match first_span(tree) {
        Some(span) => span.lo == 1 && (0 < span.hi && span.hi as usize - 1 == text.len()),
        None => false,
    }
}

// Whether it has the tree's tokens, and each node stands where its span says.
fn has_tokens_in_frames(goal: Goal, tree: &Node, text: &[u8]) -> bool
    ensures frames { IsTrue result → Stands (spec.comments_of goal) true (framed_pieces tree.now) text.now }
    ensures tokens { IsTrue result → Follows (spec.comments_of goal) true (tokens_of tree.now) text.now }
{
    tree_stands(comments_of(goal), true, text, tree)
}

/// Whether the spans of a tree, which is read as a module or a script, are those of a text: a yes says that they are.
///
/// It takes no memory; the time is in step with the text and the tree, and the recursion is as deep as the tree.
pub fn are_spans_of(goal: Goal, tree: &Node, text: &[u8]) -> bool
    ensures { IsTrue result → SpansAreOf goal tree.now text.now }
{
    is_whole(tree, text) && has_tokens_in_frames(goal, tree, text)
}

// A place that the parser tells, as one of the text.
fn within(at: usize, text: &[u8]) -> usize
    ensures { result ≤ length text.now }
{
    at.min(text.len())
}

// What the parser says of a text in UTF-8. That its places are the text's is not taken on trust.
fn of_parser(said: TextFault, text: &[u8]) -> TextFault
    requires { IsUtf8 text.now }
    ensures { Tells text.now result }
{
    match said {
        TextFault::NoMemory => TextFault::NoMemory,
        TextFault::Unexpected { at, expected } => TextFault::Unexpected {
            at: within(at, text),
            expected,
        },
        TextFault::Unterminated { at } => TextFault::Unterminated {
            at: within(at, text),
        },
        TextFault::BadEscape { at } => TextFault::BadEscape {
            at: within(at, text),
        },
        TextFault::BadNumber { at } => TextFault::BadNumber {
            at: within(at, text),
        },
        TextFault::BadRegex { at } => TextFault::BadRegex {
            at: within(at, text),
        },
        TextFault::HalfSurrogate { at } => TextFault::HalfSurrogate {
            at: within(at, text),
        },
        TextFault::EscapedDirective { at } => TextFault::EscapedDirective {
            at: within(at, text),
        },
        TextFault::NotRead { at, language } => TextFault::NotRead {
            at: within(at, text),
            language,
        },
        TextFault::TooDeep { at } => TextFault::TooDeep {
            at: within(at, text),
        },
        TextFault::NotUtf8 { .. } => TextFault::NotTheText,
        TextFault::TooLong => TextFault::NotTheText,
        TextFault::NotTheText => TextFault::NotTheText,
    }
}

// Whether a text in UTF-8 is that of a tree that fits, whose nodes stand where their spans say.
fn has_nodes(goal: Goal, tree: &Node, text: &[u8]) -> bool
    requires utf8 { IsUtf8 text.now }
    requires fits { Fits tree.now (spec.slot_of goal) }
    ensures tree { IsTrue result → IsTextOf goal tree.now text.now }
    ensures spans { IsTrue result → SpansAreOf goal tree.now text.now }
{
    is_whole(tree, text) && has_tokens_in_frames(goal, tree, text)
}

// What was read, if it is a program, and what the text says.
#[tactic(auto, using(crate::proofs::Formed::fits_of))]
fn held(goal: Goal, tree: Node, text: &[u8]) -> Result<Node, TextFault>
    requires { IsUtf8 text.now }
    ensures tree { IfOk result (λ read. IsTextOf goal read text.now) }
    ensures formed { IfOk result (IsWellFormed (spec.slot_of goal)) }
    ensures pinned { IfOk result IsPinned }
    ensures leaves { IfOk result (LeavesStand text.now) }
    ensures clean { IfOk result IsClean }
    ensures spans { IfOk result (λ tree. SpansAreOf goal tree text.now) }
    ensures refusal { IfErr result (Tells text.now) }
{
    if !is_formed(slot_of(goal), &tree, text) {
        return Err(TextFault::NotTheText);
    }
    if !has_nodes(goal, &tree, text) {
        return Err(TextFault::NotTheText);
    }
    Ok(tree)
}

fn read_utf8(alloc: Global, goal: Goal, depth: u32, text: &[u8]) -> Result<Node, TextFault>
    requires { IsUtf8 text.now }
    ensures tree { IfOk result (λ read. IsTextOf goal read text.now) }
    ensures formed { IfOk result (IsWellFormed (spec.slot_of goal)) }
    ensures pinned { IfOk result IsPinned }
    ensures leaves { IfOk result (LeavesStand text.now) }
    ensures clean { IfOk result IsClean }
    ensures spans { IfOk result (λ tree. SpansAreOf goal tree text.now) }
    ensures refusal { IfErr result (Tells text.now) }
{
    match parse(alloc, goal, depth, text) {
        Ok(tree) => held(goal, tree, text),
        Err(said) => Err(of_parser(said, text)),
    }
}

/// The tree of a text, as a module or as a script. Spans are bytes of the text, from 1.
///
/// `depth` says how many productions may be open at once, where parentheses in one another take ten each, and how many nodes
/// may stand one in another. A program's stack of 8 MB bears 4,000.
///
/// What is answered is what the text says: its tokens are those of the tree, one after another, and nothing else stands there
/// but blanks, comments, and what no tree tells; and the grammar derives the tree as it stands, which is pinned where the grammar leaves
/// a choice. Each node's span goes from its first token to its last, and names, keys, numbers and strings are spelled so there. No
/// identifier has a context. Nodes lie in memory before those below them, but for small ones, as is best for passes.
///
/// # Errors
///
/// A text of more than [`MOST_BYTES`] bytes is `TooLong`, and another that is no UTF-8 is `NotUtf8`, where it stops to be; no
/// text else is. `NotTheText` is a fault of the reader, not of the text. Each place is one of the text. That a text is refused says
/// nothing about it, so far as it is proved.
pub fn read_text(alloc: Global, goal: Goal, depth: u32, text: &[u8]) -> Result<Node, TextFault>
    ensures tree { IfOk result (λ tree. IsTextOf goal tree text.now) }
    ensures formed { IfOk result (IsWellFormed (spec.slot_of goal)) }
    ensures pinned { IfOk result IsPinned }
    ensures leaves { IfOk result (LeavesStand text.now) }
    ensures clean { IfOk result IsClean }
    ensures spans { IfOk result (λ tree. SpansAreOf goal tree text.now) }
    ensures refusal { IfErr result (Tells text.now) }
    ensures too_long { most_bytes < length text.now → result ≡ Err fault.TooLong }
    ensures no_utf8 { length text.now ≤ most_bytes → (IsUtf8 text.now → ⊥) → result ≡ Err (fault.NotUtf8 (utf8_valid_len text.now)) }
{
    if text.len() > MOST_BYTES {
        return Err(TextFault::TooLong);
    }
    match str::from_utf8(text) {
        Ok(_) => read_utf8(alloc, goal, depth, text),
        Err(error) => Err(TextFault::NotUtf8 {
            at: error.valid_up_to(),
        }),
    }
}
