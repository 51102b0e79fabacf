//! Whether a program keeps all rules.
ghost use Rattle.std.specs.Prelude.{◌≡◌, IsTrue};
ghost use Rattle.swc_tree_node.specs.declared.slot.Slot.{Slot};
ghost use Rattle.swc_tree_node.specs.Fits.{Fits};
ghost use Rattle.swc_tree_grammar.specs.Grammar.{FitsGrammar};
ghost use Rattle.swc_tree_grammar.specs.Writable.{Writable};
ghost use Rattle.text_checks.specs.Words.{Worded};
ghost use Rattle.text_checks.specs.Asked.{of_program as whole};

use crate::asked::Asked;
use crate::walk::is_as_asked;
use crate::{Ask, Words};
use swc_base_writable_rules::Round;
use swc_tree_node::Node;
use text_derives::Context;

// What is asked of a whole program.
fn of_program() -> Asked
    ensures { result ≡ whole }
{
    let round = Round {
        strict: false,
        assigned: false,
    };
    let context = Context {
        with_in: true,
        strict: false,
    };
    let neither = Words {
        yields: false,
        awaits: false,
    };
    Asked {
        writing: swc_base_writable_rules::Look {
            met: true,
            goes_on: true,
            round,
            in_head: false,
        },
        grammar: text_derives::Look {
            met: true,
            goes_on: true,
            context,
            in_chain: false,
        },
        words: Ask {
            asks: true,
            words: neither,
        },
    }
}

/// Whether a program keeps all rules: a yes says that the grammar derives it as it stands, that each `yield` and `await` in it is what it
/// has to be, and, if it fits its place, that it can be written down. A no says nothing.
///
/// It takes no memory, and looks at each node once: a tree is larger than a processor's caches, so that each walk fetches it anew.
pub fn keeps_all_rules(tree: &Node) -> bool
    ensures derived { IsTrue result → FitsGrammar tree.now }
    ensures worded { IsTrue result → Worded tree.now }
    ensures writable { IsTrue result → (s : Slot) → Fits tree.now s → Writable tree.now }
{
    is_as_asked(tree, of_program())
}
