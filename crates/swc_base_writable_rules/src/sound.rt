//! Goes through a tree by the rules.
ghost use Rattle.std.specs.Prelude.{◌≡◌, false};
ghost use Rattle.swc_base_writable_rules.specs.Asks.{ask_at};
ghost use Rattle.swc_base_writable_rules.specs.Judged.{all_meet, sounds};
ghost use Rattle.swc_base_writable_rules.specs.Rounds.{sloppy};

use crate::ask::{Ask, Row, look_at};
use crate::names::is_sound_name;
use crate::round::Round;
use crate::rule::rule_of;
use swc_tree_node::Node;

// Whether a node is sound in a round; the flag says that it is the declaration in the head of a `for` in or of.
#[cycle(sound)]
fn is_sound(node: &Node, round: Round, in_head: bool) -> bool
    ensures { result ≡ sounds node.now in_head round }
{
    match node {
        Node::Identifier(kind, ident) => {
            !in_head && is_sound_name(*kind, ident.get().sym.as_str(), round)
        }
        Node::List(items) => {
            let row = Row::Each(Ask::Part(round));
            !in_head && are_as_asked(row, items.as_slice(), round)
        }
        Node::Tree(kind, fields) => {
            let fields = fields.as_slice();
            let rule = rule_of(in_head, *kind, fields, round);
            rule.holds && are_as_asked(rule.row, fields, round)
        }
        _ => !in_head,
    }
}

// Whether each of several nodes is what is asked of it.
#[cycle(sound)]
fn are_as_asked(row: Row, nodes: &[Node], round: Round) -> bool
    ensures { result ≡ all_meet (ask_at row) nodes.now }
{
    for i in 0..nodes.len() {
        let node = &nodes[i];
        let look = look_at(row.at(i), round, node);
        if !look.met {
            return false;
        }
        if look.goes_on && !is_sound(node, look.round, look.in_head) {
            return false;
        }
    }
    true
}

/// Whether a program keeps all rules.
///
/// The time is in step with the size of the program.
pub fn keeps_rules(program: &Node) -> bool
    ensures { result ≡ sounds program.now false sloppy }
{
    let round = Round {
        strict: false,
        assigned: false,
    };
    is_sound(program, round, false)
}
