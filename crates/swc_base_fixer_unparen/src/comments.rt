//! The comments of pairs that are taken off.
ghost use Rattle.std.specs.Prelude.{◌≡◌};
ghost use Rattle.std.specs.List.{flat_map};
ghost use Rattle.swc_tree_grammar.specs.Pairs.{moves_of};
ghost use Rattle.swc_base_fixer_unparen.specs.Moves.{Moved};

use swc_tree_comments::Comments;
use swc_tree_grammar::Pair;
use swc_tree_marks::NoMemory;

// Moves the comments of a pair to its content.
fn move_pair<C: Comments>(comments: &mut C, pair: Pair) -> Result<(), NoMemory>
    ensures { Moved C.moved comments.old (moves_of pair) comments.new result }
{
    comments.move_leading(pair.whole.lo, pair.content.lo)?;
    comments.move_trailing(pair.whole.hi, pair.content.hi)?;
    Ok(())
}

/// Moves the comments of each pair to its content.
pub fn move_pairs<C: Comments>(comments: &mut C, pairs: &[Pair]) -> Result<(), NoMemory>
    ensures { Moved C.moved comments.old (flat_map moves_of pairs.now) comments.new result }
{
    for pair in pairs {
        move_pair(comments, *pair)?;
    }
    Ok(())
}
