//! How the pass that sets parentheses is made.
ghost use Rattle.std.specs.Prelude.{◌≡◌};

use crate::fixing::Fixer;
use swc_tree_comments::Comments;

/// The pass that sets parentheses anew; it moves those comments along, if there are any.
pub fn fixer<'a, C: Comments>(comments: Option<&'a mut C>) -> Fixer<'a, C>
    ensures { result.comments ≡ comments.entry }
{
    Fixer::with_comments(comments)
}
