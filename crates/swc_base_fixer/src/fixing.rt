//! What sets parentheses anew, and how it is made.
ghost use Rattle.std.specs.Prelude.{◌≡◌, ◌↔◌, false, IfOk, IfErr, OnOk, OnErr, IsErrAnd, IsTrue};
ghost use Rattle.swc_tree_marks.specs.declared.error.PassError.TheVariants as pass;
ghost use Rattle.swc_tree_node.specs.declared.slot.Slot.{Slot};
ghost use Rattle.swc_tree_node.specs.Fits.{Fits};
ghost use Rattle.swc_tree_grammar.specs.Places.{is_open};
ghost use Rattle.swc_tree_grammar.specs.Targets.{all_bare};
ghost use Rattle.swc_base_fixer_unparen.specs.Moves.{LeadTo, LeadPartlyTo};
ghost use Rattle.swc_base_fixer_program.specs.Answers.{answer_to, moves_for};
ghost use Rattle.swc_base_fixer.specs.Lent.{Behind};
ghost use Rattle.swc_base_fixer.specs.Unparened.{IsRefusal};

use std::alloc::Global;
use swc_base_fixer_program::{fix_parens, fix_parens_with};
use swc_tree_comments::{Comments, NoComments};
use swc_tree_marks::PassError;
use swc_tree_node::Node;

/// The pass that sets the parentheses of a program anew: those that are due, and no other. The comments of each pair
/// that is not set again move to its content.
#[derive(Drop)]
pub struct Fixer<'a, C> {
    comments: Option<&'a mut C>,
}

impl<'a, C: Comments> Fixer<'a, C> {
    // The fixer that moves those comments along.
    pub(crate) fn with_comments(comments: Option<&'a mut C>) -> Fixer<'a, C>
        ensures { result.comments ≡ comments.entry }
    {
        Fixer { comments }
    }

    /// Gives back the comments that the pass was lent, if there are any, as `ParenRemover::into_comments` does.
    pub fn into_comments(self) -> Option<&'a mut C>
        ensures { result ≡ self.entry.comments }
    {
        let Fixer { comments } = self;
        comments
    }

    // Sets the parentheses of the items of a program anew, as `fix_parens` does.
    pub(crate) fn fix(&mut self, alloc: Global, node: Node) -> Result<Node, PassError>
        ensures answer { IfOk result (λ t. t ≡ answer_to node) }
        ensures fits { (s : Slot) → IsTrue (is_open s) → Fits node s → IfOk result (λ t. Fits t s) }
        ensures refusal { IfErr result IsRefusal }
        ensures not_assignable { IsErrAnd result (λ e. e ≡ pass.NotAssignable) ↔ (all_bare node ≡ false) }
        ensures moved { OnOk result (Behind (λ c d. LeadTo C.moved c (moves_for node) d) self.old.comments self.new.comments) }
        ensures partly { OnErr result (Behind (λ c d. LeadPartlyTo C.moved c (moves_for node) d) self.old.comments self.new.comments) }
        ensures unmoved { IsErrAnd result (λ e. e ≡ pass.NotAssignable) → Behind (λ c d. d ≡ c) self.old.comments self.new.comments }
    {
        match &mut self.comments {
            None => fix_parens(alloc, None::<&mut NoComments>, node),
            Some(comments) => fix_parens_with(alloc, &mut **comments, node),
        }
    }
}
