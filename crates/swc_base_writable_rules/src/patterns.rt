//! Patterns and targets: what is bound or assigned to (ECMA-262, 13.15.1, 13.15.5, 14.3.3).
ghost use Rattle.std.specs.Prelude.{◌≡◌};
ghost use Rattle.swc_tree_node.specs.declared.node.Node.{out-Node};
ghost use Rattle.swc_tree_grammar.specs.Kinds.{has_kind, is_paren as is_pair_kind, is_private_name, is_rest as is_rest_kind};
ghost use Rattle.swc_tree_grammar.specs.Levels.{is_absent as is_nothing, word_of as word_in};
ghost use Rattle.swc_tree_grammar.specs.Shapes.{items_of};
ghost use Rattle.swc_tree_grammar.specs.Writable.{default_in, element, elements as elements_of, is_element as is_element_of, is_pattern_target, is_plain_pattern_in, left_side, pattern, pattern_of as pattern_in, property_in};
ghost use Rattle.swc_base_writable_rules.specs.Rounds.{round_of};

use crate::round::Round;
use swc_base_fixer_unparen::is_target;
use swc_tree_node::fields::param;
use swc_tree_node::{Kind, Node, Word};

/// Whether nothing stands there.
pub fn is_absent(node: &Node) -> bool
    ensures { result ≡ is_nothing node.now }
{
    matches!(node, Node::Absent)
}

/// The word that a node is, if it is one.
pub fn word_of(node: &Node) -> Option<Word>
    ensures { result ≡ word_in node.now }
{
    match node {
        Node::Word(word) => Some(*word),
        _ => None,
    }
}

/// The items of a list; no other node has any.
pub fn items(node: &Node) -> &[Node]
    ensures { result.now ≡ items_of node.now }
{
    match node {
        Node::List(items) => items.as_slice(),
        _ => &[],
    }
}

/// Whether a node is a private name.
pub fn is_private(node: &Node) -> bool
    ensures { result ≡ has_kind is_private_name node.now }
{
    match node {
        Node::Tree(kind, _) => matches!(kind, Kind::PrivateName),
        _ => false,
    }
}

fn is_pair(node: &Node) -> bool
    ensures { result ≡ has_kind is_pair_kind node.now }
{
    match node {
        Node::Tree(kind, _) => matches!(kind, Kind::ParenExpr),
        _ => false,
    }
}

// Whether a node is a pattern that takes a value apart.
fn takes_apart(node: &Node) -> bool
    ensures { result ≡ has_kind is_pattern_target node.now }
{
    match node {
        Node::Tree(kind, _) => matches!(kind, Kind::ArrayPat | Kind::ObjectPat),
        _ => false,
    }
}

/// Whether a node is a pattern that takes the rest.
pub fn is_rest(node: &Node) -> bool
    ensures { result ≡ has_kind is_rest_kind node.now }
{
    match node {
        Node::Tree(kind, _) => matches!(kind, Kind::RestPat),
        _ => false,
    }
}

fn is_plain_pattern(node: &Node) -> bool
    ensures { result ≡ is_plain_pattern_in (out-Node node.now) }
{
    match node {
        Node::Identifier(kind, _) => matches!(kind, Kind::BindingIdent),
        Node::Tree(kind, _) => matches!(kind, Kind::ArrayPat | Kind::ObjectPat),
        _ => false,
    }
}

/// Whether a node is a name or a pattern, or, where values are assigned, a member or a property of `super`.
pub fn is_pattern(node: &Node, round: Round) -> bool
    ensures { result ≡ pattern node.now (round_of round) }
{
    is_plain_pattern(node) || round.assigned && is_target(node)
}

fn has_default(node: &Node) -> bool
    ensures { result ≡ default_in (out-Node node.now) }
{
    match node {
        Node::Tree(kind, fields) => matches!(kind, Kind::AssignPat) && fields.len() == 3,
        _ => false,
    }
}

/// Whether a node is a pattern, with a default or without.
pub fn is_part(node: &Node, round: Round) -> bool
    ensures { result ≡ element node.now (round_of round) }
{
    has_default(node) || is_pattern(node, round)
}

fn is_property(node: &Node) -> bool
    ensures { result ≡ property_in (out-Node node.now) }
{
    match node {
        Node::Tree(kind, _) => matches!(kind, Kind::KeyValuePatProp | Kind::AssignPatProp),
        _ => false,
    }
}

/// The pattern that a parameter is; any other node is itself.
pub fn pattern_of(node: &Node) -> &Node
    ensures { result.now ≡ pattern_in node.now }
{
    match node {
        Node::Tree(kind, fields) => {
            let fields = fields.as_slice();
            match kind {
                Kind::Param if fields.len() == 2 => &fields[param::PAT],
                _ => node,
            }
        }
        _ => node,
    }
}

fn is_element(node: &Node, round: Round) -> bool
    ensures { result ≡ is_element_of (round_of round) node.now }
{
    is_absent(node) || (is_property(node) || is_part(pattern_of(node), round))
}

/// Whether nodes are elements of a pattern or parameters, of which only the last may be a rest.
pub fn are_elements(round: Round, nodes: &[Node]) -> bool
    ensures { result ≡ elements_of (round_of round) nodes.now }
{
    for i in 0..nodes.len() {
        let node = &nodes[i];
        if !is_element(node, round) {
            return i + 1 == nodes.len() && is_rest(pattern_of(node));
        }
    }
    true
}

/// Whether a node may stand left of an operator that assigns.
pub fn is_left_side(op: Option<Word>, node: &Node) -> bool
    ensures { result ≡ left_side op node.now }
{
    (!takes_apart(node) || matches!(op, Some(Word::Assign))) && (!is_pair(node) || is_target(node))
}
