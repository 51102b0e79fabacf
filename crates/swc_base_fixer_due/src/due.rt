//! The three steps by which due pairs are set, one after the other.
ghost use Rattle.std.specs.Prelude.{◌≡◌, IfOk};
ghost use Rattle.swc_tree_grammar.specs.Due.{with_due_pairs};
ghost use Rattle.swc_base_fixer_due.specs.Record.{place_in};

use crate::heads::pair_in_heads;
use crate::levels::pair_by_level;
use crate::record::Record;
use crate::starts::pair_at_starts;
use std::alloc::{AllocError, Global};
use swc_tree_node::Node;

/// The tree with its due pairs: of parentheses round each expression that is not what its place asks for, or that the
/// reader's table names there (ECMA-262, 13.2 to 13.16); round a bare `in` and a bare `async` in heads of `for` (14.7);
/// and where a statement, a default export or the body of an arrow may not begin as it does (14.5, 15.3, 16.2.3).
///
/// The tree is to have no pair yet, and its blocks. Each pair stands where the record says.
///
/// # Errors
///
/// Where memory for a pair is refused.
///
/// # Cost
///
/// Time in step with the size of the tree, besides one look at the record for each pair. Nodes stay where they are in
/// memory; only pairs take memory. The depth of the machine's stack is that of the tree.
pub fn set_due_pairs(alloc: Global, recorded: &Record, node: Node) -> Result<Node, AllocError>
    ensures { IfOk result (λ t. t ≡ with_due_pairs (place_in recorded.now) node) }
{
    let node = pair_by_level(alloc, recorded, false, node)?;
    let node = pair_in_heads(alloc, recorded, true, node)?;
    pair_at_starts(alloc, recorded, node)
}
