//! Whether a program can be written down.
ghost use Rattle.std.specs.Prelude.{◌≡◌};
ghost use Rattle.swc_tree_node.specs.declared.slot.Slot.{Slot};
ghost use Rattle.swc_tree_node.specs.Fits.{Fits};
ghost use Rattle.swc_tree_grammar.specs.Writable.{is_writable as can_be_written};

use swc_base_writable_rules::keeps_rules;
use swc_tree_node::Node;

/// Whether a program can be written down as JavaScript, once parentheses are set where they are due.
///
/// The time is in step with the size of the program.
pub fn is_writable(program: &Node) -> bool
    ensures { (s : Slot) → Fits program.now s → result ≡ can_be_written program.now }
{
    keeps_rules(program)
}
