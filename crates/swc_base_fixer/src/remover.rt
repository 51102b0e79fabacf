//! What takes parentheses off, and how it is made.
ghost use Rattle.std.specs.Prelude.{◌≡◌, ◌↔◌, false, IfOk, IfErr, OnOk, OnErr, IsErrAnd, IsTrue};
ghost use Rattle.swc_tree_marks.specs.declared.error.PassError.TheVariants as pass;
ghost use Rattle.swc_tree_node.specs.declared.slot.Slot.{Slot};
ghost use Rattle.swc_tree_node.specs.Fits.{Fits};
ghost use Rattle.swc_tree_grammar.specs.Places.{is_open};
ghost use Rattle.swc_tree_grammar.specs.Blocks.{with_blocks};
ghost use Rattle.swc_tree_grammar.specs.Pairs.{moves};
ghost use Rattle.swc_tree_grammar.specs.Stripped.{is_pairless, stripped};
ghost use Rattle.swc_tree_grammar.specs.Targets.{all_bare};
ghost use Rattle.swc_base_fixer_unparen.specs.Moves.{LeadTo, LeadPartlyTo};
ghost use Rattle.swc_base_fixer.specs.Lent.{Behind};
ghost use Rattle.swc_base_fixer.specs.Unparened.{IsRefusal};

use std::alloc::Global;
use swc_base_fixer_unparen::{remove_parens, remove_parens_with};
use swc_tree_comments::{Comments, NoComments};
use swc_tree_marks::PassError;
use swc_tree_node::Node;

/// The pass that takes every pair of parentheses off a program, and moves the comments of each to its content.
#[derive(Drop)]
pub struct ParenRemover<'a, C> {
    comments: Option<&'a mut C>,
}

/// The pass that takes parentheses off; it moves those comments along, if there are any.
pub fn paren_remover<'a, C: Comments>(comments: Option<&'a mut C>) -> ParenRemover<'a, C>
    ensures { result.comments ≡ comments.entry }
{
    ParenRemover { comments }
}

impl<'a, C: Comments> ParenRemover<'a, C> {
    /// Gives back the comments that the pass was lent, if there are any. By it a caller's proof learns what became of
    /// them: a reference in an `Option` is followed where it is taken out by name, as in
    /// `match pass.into_comments() { Some(_kept) => result, None => result }`, and not where a pass is let go whole.
    pub fn into_comments(self) -> Option<&'a mut C>
        ensures { result ≡ self.entry.comments }
    {
        let ParenRemover { comments } = self;
        comments
    }

    // Takes parentheses off the items of a program, as `remove_parens` does.
    pub(crate) fn strip(&mut self, alloc: Global, node: Node) -> Result<Node, PassError>
        ensures answer { IfOk result (λ t. t ≡ with_blocks (stripped node)) }
        ensures pairless { (s : Slot) → Fits node s → IfOk result (λ t. IsTrue (is_pairless t)) }
        ensures fits { (s : Slot) → IsTrue (is_open s) → Fits node s → IfOk result (λ t. Fits t s) }
        ensures refusal { IfErr result IsRefusal }
        ensures not_assignable { IsErrAnd result (λ e. e ≡ pass.NotAssignable) ↔ (all_bare node ≡ false) }
        ensures moved { OnOk result (Behind (λ c d. LeadTo C.moved c (moves node) d) self.old.comments self.new.comments) }
        ensures partly { OnErr result (Behind (λ c d. LeadPartlyTo C.moved c (moves node) d) self.old.comments self.new.comments) }
        ensures unmoved { IsErrAnd result (λ e. e ≡ pass.NotAssignable) → Behind (λ c d. d ≡ c) self.old.comments self.new.comments }
    {
        match &mut self.comments {
            None => remove_parens(alloc, None::<&mut NoComments>, node),
            Some(comments) => remove_parens_with(alloc, &mut **comments, node),
        }
    }
}
