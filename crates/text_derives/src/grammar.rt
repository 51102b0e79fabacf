//! Goes through a tree by the rules.
ghost use Rattle.std.specs.Prelude.{◌≡◌, ◌↔◌, false, IsTrue};
ghost use Rattle.swc_tree_grammar.specs.Grammar.{FitsGrammar};
ghost use Rattle.text_derives.specs.Asks.{ask_at};
ghost use Rattle.text_derives.specs.Contexts.{whole};
ghost use Rattle.text_derives.specs.Judged.{all_meet, derived};

use crate::ask::{Ask, Row, look_at};
use crate::context::Context;
use crate::rule::rule_of;
use swc_tree_node::Node;

// Whether a node is derived in a context; the flag says that it is the base of an optional chain.
#[cycle(derived)]
fn is_derived(node: &Node, context: Context, in_chain: bool) -> bool
    ensures { result ≡ derived node.now in_chain context }
{
    match node {
        Node::List(items) => {
            let row = Row::Each(Ask::Derived(context));
            !in_chain && are_as_asked(row, items.as_slice(), context)
        }
        Node::Tree(kind, fields) => {
            let fields = fields.as_slice();
            let rule = rule_of(in_chain, *kind, fields, context);
            rule.holds && are_as_asked(rule.row, fields, context)
        }
        _ => !in_chain,
    }
}

// Whether each of several nodes is what is asked of it.
#[cycle(derived)]
fn are_as_asked(row: Row, nodes: &[Node], context: Context) -> bool
    ensures { result ≡ all_meet (ask_at row) nodes.now }
{
    for i in 0..nodes.len() {
        let node = &nodes[i];
        let look = look_at(row.at(i), context, node);
        if !look.met {
            return false;
        }
        if look.goes_on && !is_derived(node, look.context, look.in_chain) {
            return false;
        }
    }
    true
}

// Whether a program is derived by the rules.
fn is_derived_program(program: &Node) -> bool
    ensures { result ≡ derived program.now false whole }
{
    let context = Context {
        with_in: true,
        strict: false,
    };
    is_derived(program, context, false)
}

/// Whether the grammar derives a program, as it stands.
///
/// It takes no memory; the time is in step with the size of the program.
pub fn derives(program: &Node) -> bool
    ensures { IsTrue result ↔ FitsGrammar program.now }
{
    is_derived_program(program)
}
