//! Taking parentheses off a tree, with or without comments.
ghost use Rattle.std.specs.Prelude.{◌≡◌, ◌↔◌, ◌⊎◌, false, IfOk, IfErr, IsErrAnd, IsTrue};
ghost use Rattle.swc_tree_marks.specs.declared.error.PassError.TheVariants as pass;
ghost use Rattle.swc_tree_node.specs.declared.slot.Slot.{Slot};
ghost use Rattle.swc_tree_node.specs.Fits.{Fits};
ghost use Rattle.swc_tree_grammar.specs.Places.{is_open};
ghost use Rattle.swc_tree_grammar.specs.Blocks.{with_blocks};
ghost use Rattle.swc_tree_grammar.specs.Pairs.{moves};
ghost use Rattle.swc_tree_grammar.specs.Stripped.{is_pairless, stripped};
ghost use Rattle.swc_tree_grammar.specs.Targets.{all_bare as bare};
ghost use Rattle.swc_base_fixer_unparen.specs.Moves.{Moved, MovedIn, UnmovedIn};

use crate::blocks::add_blocks;
use crate::comments::move_pairs;
use crate::pairs::pairs_of;
use crate::stripping::strip;
use crate::targets::all_bare;
use std::alloc::Global;
use swc_tree_comments::Comments;
use swc_tree_marks::{NoMemory, PassError};
use swc_tree_node::Node;

// The stripped tree with its blocks.
fn unparen(alloc: Global, node: Node) -> Result<Node, NoMemory>
    ensures { IfOk result (λ t. t ≡ with_blocks (stripped node)) }
{
    let node = strip(alloc, node)?;
    let node = add_blocks(alloc, node)?;
    Ok(node)
}

// The same, after which the comments of each pair are moved to its content.
fn unparen_with<C: Comments>(alloc: Global, comments: &mut C, node: Node) -> Result<Node, NoMemory>
    ensures answer { IfOk result (λ t. t ≡ with_blocks (stripped node)) }
    ensures moved { Moved C.moved comments.old (moves node) comments.new result }
{
    let pairs = pairs_of(alloc, &node)?;
    let node = unparen(alloc, node)?;
    move_pairs(comments, pairs.as_slice())?;
    Ok(node)
}

// The pass on a tree without comments.
fn remove_parens_alone(alloc: Global, node: Node) -> Result<Node, PassError>
    ensures answer { IfOk result (λ t. t ≡ with_blocks (stripped node)) }
    ensures fits { (s : Slot) → IsTrue (is_open s) → Fits node s → IfOk result (λ t. Fits t s) }
    ensures pairless { (s : Slot) → Fits node s → IfOk result (λ t. IsTrue (is_pairless t)) }
    ensures not_assignable { IsErrAnd result (λ e. e ≡ pass.NotAssignable) ↔ (bare node ≡ false) }
    ensures no_memory { IfErr result (λ e. (e ≡ pass.NotAssignable) ⊎ (e ≡ pass.NoMemory)) }
{
    if !all_bare(&node) {
        return Err(PassError::NotAssignable);
    }
    let node = unparen(alloc, node)?;
    Ok(node)
}

/// The pass on a tree with comments.
pub fn remove_parens_with<C: Comments>(
    alloc: Global,
    comments: &mut C,
    node: Node,
) -> Result<Node, PassError>
    ensures answer { IfOk result (λ t. t ≡ with_blocks (stripped node)) }
    ensures fits { (s : Slot) → IsTrue (is_open s) → Fits node s → IfOk result (λ t. Fits t s) }
    ensures pairless { (s : Slot) → Fits node s → IfOk result (λ t. IsTrue (is_pairless t)) }
    ensures not_assignable { IsErrAnd result (λ e. e ≡ pass.NotAssignable) ↔ (bare node ≡ false) }
    ensures no_memory { IfErr result (λ e. (e ≡ pass.NotAssignable) ⊎ (e ≡ pass.NoMemory)) }
    ensures moved { Moved C.moved comments.old (moves node) comments.new result }
    ensures unmoved { IsErrAnd result (λ e. e ≡ pass.NotAssignable) → comments.new ≡ comments.old }
{
    if !all_bare(&node) {
        return Err(PassError::NotAssignable);
    }
    let node = unparen_with(alloc, comments, node)?;
    Ok(node)
}

/// Takes every pair of parentheses off a tree, and with them what is idle in sequences and classes; puts
/// a block round each first branch of an `if` that ends in an `if` without `else`.
///
/// The comments of each pair move to its content, once the tree is done and from the last pair of the
/// source to the first.
///
/// # Errors
///
/// `NotAssignable` where a parenthesised assignment target, pairs and sequences of one item taken off, is
/// no identifier, member or property of `super`; it is looked for first and takes no memory, and no comment has
/// moved then. `NoMemory` where memory or a move is refused; the first moves of the list may then have been made.
///
/// # Cost
///
/// Time in step with the size of the tree, but for items of sequences under `void` in a sequence, which move
/// once more for each such `void` round them. The nodes stay where they are in memory.
pub fn remove_parens<C: Comments>(
    alloc: Global,
    comments: Option<&mut C>,
    node: Node,
) -> Result<Node, PassError>
    ensures answer { IfOk result (λ t. t ≡ with_blocks (stripped node)) }
    ensures fits { (s : Slot) → IsTrue (is_open s) → Fits node s → IfOk result (λ t. Fits t s) }
    ensures pairless { (s : Slot) → Fits node s → IfOk result (λ t. IsTrue (is_pairless t)) }
    ensures not_assignable { IsErrAnd result (λ e. e ≡ pass.NotAssignable) ↔ (bare node ≡ false) }
    ensures no_memory { IfErr result (λ e. (e ≡ pass.NotAssignable) ⊎ (e ≡ pass.NoMemory)) }
    ensures moved { MovedIn C.moved comments.entry (moves node) comments.exit result }
    ensures unmoved { IsErrAnd result (λ e. e ≡ pass.NotAssignable) → UnmovedIn comments.entry comments.exit }
{
    match comments {
        None => remove_parens_alone(alloc, node),
        Some(comments) => remove_parens_with(alloc, comments, node),
    }
}
