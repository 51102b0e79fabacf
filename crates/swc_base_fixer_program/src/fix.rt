//! Setting the parentheses of a program anew.
ghost use Rattle.std.specs.Prelude.{◌≡◌, ◌↔◌, ◌⊎◌, false, reverse, IfOk, IfErr, IsErrAnd};
ghost use Rattle.swc_tree_marks.specs.declared.error.PassError.TheVariants as pass;
ghost use Rattle.swc_tree_grammar.specs.Fixed.{fixed, recorded};
ghost use Rattle.swc_tree_grammar.specs.Targets.{all_bare as bare};
ghost use Rattle.swc_base_fixer_unparen.specs.Moves.{Moved, MovedIn, UnmovedIn};
ghost use Rattle.swc_base_fixer_program.specs.Answers.{answer_to, moves_for};

use crate::moves::not_set_again;
use std::alloc::Global;
use swc_base_fixer_due::{Record, set_due_pairs};
use swc_base_fixer_unparen::{add_blocks, all_bare, move_pairs, pairs_of, strip};
use swc_tree_comments::Comments;
use swc_tree_grammar::Pair;
use swc_tree_marks::{NoMemory, PassError};
use swc_tree_node::Node;

// The stripped tree with its blocks and due pairs, each where one of the given pairs stood round that content; these
// come from the last in the source to the first.
fn set_anew(alloc: Global, pairs: &[Pair], node: Node) -> Result<Node, NoMemory>
    ensures { IfOk result (λ t. t ≡ fixed (recorded (reverse pairs.now)) node) }
{
    let places = Record::new(alloc, pairs)?;
    let node = strip(alloc, node)?;
    let node = add_blocks(alloc, node)?;
    let node = set_due_pairs(alloc, &places, node)?;
    Ok(node)
}

// The same with the tree's own pairs.
fn fix(alloc: Global, node: Node) -> Result<Node, NoMemory>
    ensures { IfOk result (λ t. t ≡ answer_to node) }
{
    let pairs = pairs_of(alloc, &node)?;
    let node = set_anew(alloc, pairs.as_slice(), node)?;
    Ok(node)
}

// The same, after which the comments of each pair that is not set again are moved to its content.
fn fix_with<C: Comments>(alloc: Global, comments: &mut C, node: Node) -> Result<Node, NoMemory>
    ensures answer { IfOk result (λ t. t ≡ answer_to node) }
    ensures moved { Moved C.moved comments.old (moves_for node) comments.new result }
{
    let pairs = pairs_of(alloc, &node)?;
    let node = set_anew(alloc, pairs.as_slice(), node)?;
    let left = not_set_again(alloc, pairs.as_slice(), &node)?;
    move_pairs(comments, left.as_slice())?;
    Ok(node)
}

// The pass on a tree without comments.
fn fix_parens_alone(alloc: Global, node: Node) -> Result<Node, PassError>
    ensures answer { IfOk result (λ t. t ≡ answer_to node) }
    ensures not_assignable { IsErrAnd result (λ e. e ≡ pass.NotAssignable) ↔ (bare node ≡ false) }
    ensures no_memory { IfErr result (λ e. (e ≡ pass.NotAssignable) ⊎ (e ≡ pass.NoMemory)) }
{
    if !all_bare(&node) {
        return Err(PassError::NotAssignable);
    }
    let node = fix(alloc, node)?;
    Ok(node)
}

/// The pass on a tree with comments.
pub fn fix_parens_with<C: Comments>(
    alloc: Global,
    comments: &mut C,
    node: Node,
) -> Result<Node, PassError>
    ensures answer { IfOk result (λ t. t ≡ answer_to node) }
    ensures not_assignable { IsErrAnd result (λ e. e ≡ pass.NotAssignable) ↔ (bare node ≡ false) }
    ensures no_memory { IfErr result (λ e. (e ≡ pass.NotAssignable) ⊎ (e ≡ pass.NoMemory)) }
    ensures moved { Moved C.moved comments.old (moves_for node) comments.new result }
    ensures unmoved { IsErrAnd result (λ e. e ≡ pass.NotAssignable) → comments.new ≡ comments.old }
{
    if !all_bare(&node) {
        return Err(PassError::NotAssignable);
    }
    let node = fix_with(alloc, comments, node)?;
    Ok(node)
}

/// Takes every pair of parentheses off a tree, with what is idle in sequences and classes; puts a block round each
/// first branch of an `if` that ends in an `if` without `else`; and sets the pairs that are due: those without which
/// the grammar would not take the tree (ECMA-262, 13 to 16), and some for the reader.
///
/// What fits its place in the table still does, which `swc_base_fixer_laws` proves of the definitions.
///
/// A pair that is set where the tree had one round the same content, by its span, stands where that one stood. The
/// comments of each other pair that the tree had move to its content, once the tree is done and from the last pair
/// of the source to the first.
///
/// # Errors
///
/// `NotAssignable` where a parenthesised assignment target, pairs and sequences of one item taken off, is no
/// identifier, member or property of `super`; it is looked for first and takes no memory, and no comment has moved
/// then. `NoMemory` where memory or a move is refused; the first moves of the list may then have been made.
///
/// # Cost
///
/// Time in step with the size of the tree, but for items of sequences under `void` in a sequence, which move once more
/// for each such `void` round them: where pairs stood is looked up by a hash whose keys come from all of them. The nodes
/// stay where they are in memory.
pub fn fix_parens<C: Comments>(
    alloc: Global,
    comments: Option<&mut C>,
    node: Node,
) -> Result<Node, PassError>
    ensures answer { IfOk result (λ t. t ≡ answer_to node) }
    ensures not_assignable { IsErrAnd result (λ e. e ≡ pass.NotAssignable) ↔ (bare node ≡ false) }
    ensures no_memory { IfErr result (λ e. (e ≡ pass.NotAssignable) ⊎ (e ≡ pass.NoMemory)) }
    ensures moved { MovedIn C.moved comments.entry (moves_for node) comments.exit result }
    ensures unmoved { IsErrAnd result (λ e. e ≡ pass.NotAssignable) → UnmovedIn comments.entry comments.exit }
{
    match comments {
        None => fix_parens_alone(alloc, node),
        Some(comments) => fix_parens_with(alloc, comments, node),
    }
}
