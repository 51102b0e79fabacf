//! The pairs of parentheses that a program had and its answer has not.
ghost use Rattle.std.specs.Prelude.{◌≡◌, IfOk, not};
ghost use Rattle.std.specs.List.{filter};
ghost use Rattle.swc_tree_grammar.specs.Fixed.{is_set_in};

use std::alloc::{AllocError, Global};
use swc_base_fixer_due::Record;
use swc_base_fixer_unparen::pairs_of;
use swc_tree_grammar::Pair;
use swc_tree_items::Items;
use swc_tree_node::Node;

/// Those of the pairs whose content has no pair in the answer.
pub fn not_set_again(
    alloc: Global,
    pairs: &[Pair],
    answer: &Node,
) -> Result<Items<Pair>, AllocError>
    ensures { IfOk result (λ r. r ≡ filter (λ p. not (is_set_in answer.now p)) pairs.now) }
{
    let set = pairs_of(alloc, answer)?;
    let set = Record::new(alloc, set.as_slice())?;
    let mut left = Items::new(alloc);
    for pair in pairs {
        if !set.has(pair.content) {
            left.push(*pair)?;
        }
    }
    Ok(left)
}
