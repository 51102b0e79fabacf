//! Goes through a tree by the three kinds of rules at once.
ghost use Rattle.std.specs.Prelude.{◌≡◌, IsTrue, true};
ghost use Rattle.std.specs.List.{list_all};
ghost use Rattle.swc_tree_node.specs.declared.node.Node.{List as Many, Tree, out-Node};
ghost use Rattle.swc_base_writable_rules.specs.Asks.{ask_at as sound_at};
ghost use Rattle.swc_base_writable_rules.specs.declared.ask.Ask.TheVariants as SoundAsk;
ghost use Rattle.text_derives.specs.Asks.{ask_at as derived_at};
ghost use Rattle.text_derives.specs.declared.ask.Ask.TheVariants as DerivedAsk;
ghost use Rattle.text_checks.specs.Words.{is_name};
ghost use Rattle.text_checks.specs.Asked.{AreKept, Holds, IsAsAsked, IsFound, IsMet, leaf_derives, leaf_sounds, name_sounds};
ghost use Rattle.text_checks.specs.Bare as spec;

use crate::asked::{Asked, Rules};
use crate::{asked_words, grammar, writing};
use swc_base_writable_rules::Round;
use swc_tree_node::{Kind, Node};
use text_derives::Context;

// Whether a leaf is as asked that is no identifier.
fn is_leaf_as_asked(asked: Asked) -> bool
    ensures { IsTrue result → Holds asked leaf_sounds leaf_derives (λ words. true) }
{
    writing::is_leaf(asked.writing) && grammar::is_leaf(asked.grammar)
}

fn is_name_as_asked(kind: Kind, text: &str, asked: Asked) -> bool
    ensures { IsTrue result → Holds asked (name_sounds kind text.now) leaf_derives (is_name text.now) }
{
    writing::is_name(asked.writing, kind, text)
        && (grammar::is_leaf(asked.grammar) && asked_words::is_name_as_asked(asked.words, text))
}

// Whether a node is one of which more may be asked.
fn is_found(asked: Asked) -> bool
    ensures { IsTrue result → IsFound asked }
{
    asked.writing.met && asked.grammar.met
}

// Whether what is asked of a node itself holds.
fn hold(rules: &Rules<'_>) -> bool
    ensures writing { IsTrue result → rules.now.writing.now.holds ≡ true }
    ensures grammar { IsTrue result → rules.now.grammar.now.holds ≡ true }
    ensures words { IsTrue result → rules.now.words.now.holds ≡ true }
{
    rules.writing.holds && (rules.grammar.holds && rules.words.holds)
}

// What is asked of the child of a number.
#[inline]
fn asked_at(rules: &Rules<'_>, index: usize, node: &Node) -> Asked
    ensures { IsAsAsked result node.now → IsMet rules.now index node.now }
{
    let round = Round {
        strict: false,
        assigned: false,
    };
    let context = Context {
        with_in: true,
        strict: false,
    };
    Asked {
        writing: swc_base_writable_rules::look_at(rules.writing.row.at(index), round, node),
        grammar: text_derives::look_at(rules.grammar.row.at(index), context, node),
        words: crate::ask_at(*rules.words, index),
    }
}

// Whether a node has no nodes below it and is no identifier.
fn is_leaf(node: &Node) -> bool
    ensures { result ≡ spec.is_leaf (out-Node node.now) }
{
    match node {
        Node::Absent | Node::Flag(_) | Node::Word(_) | Node::Text(_) | Node::Span(_) => true,
        Node::Identifier(..) | Node::List(_) | Node::Tree(..) => false,
    }
}

fn are_leaves(nodes: &[Node]) -> bool
    ensures { result ≡ list_all (λ t. spec.is_leaf (out-Node t)) nodes.now }
{
    nodes.iter().all(|node| is_leaf(node))
}

// Whether trees of a kind are one token: of these no rule asks anything.
fn is_bare(kind: Kind) -> bool
    ensures { result ≡ spec.is_bare kind }
{
    matches!(
        kind,
        Kind::IdentName
            | Kind::PrivateName
            | Kind::Str
            | Kind::Bool
            | Kind::Null
            | Kind::Number
            | Kind::BigInt
            | Kind::Regex
            | Kind::TplElement
            | Kind::ThisExpr
            | Kind::Super
            | Kind::EmptyStmt
    )
}

// Whether a tree is one token, so that it is as asked without a look at rules.
fn is_token(kind: Kind, fields: &[Node], asked: Asked) -> bool
    requires { IsFound asked }
    ensures { IsTrue result → IsAsAsked asked (Tree kind fields.now) }
{
    if asked.writing.in_head || asked.grammar.in_chain {
        return false;
    }
    is_bare(kind) && are_leaves(fields)
}

fn asks_no_sound(rules: &Rules<'_>, index: usize) -> bool
    ensures { IsTrue result → sound_at rules.now.writing.now.row index ≡ SoundAsk.Nothing }
{
    matches!(
        rules.writing.row.at(index),
        swc_base_writable_rules::Ask::Nothing
    )
}

fn asks_no_derivation(rules: &Rules<'_>, index: usize) -> bool
    ensures { IsTrue result → derived_at rules.now.grammar.now.row index ≡ DerivedAsk.Nothing }
{
    matches!(rules.grammar.row.at(index), text_derives::Ask::Nothing)
}

// Whether the child of a number is a leaf of which nothing is asked, as most leaves are.
fn is_idle(rules: &Rules<'_>, index: usize, node: &Node) -> bool
    ensures { IsTrue result → IsMet rules.now index node.now }
{
    if !is_leaf(node) {
        return false;
    }
    if !asks_no_sound(rules, index) {
        return false;
    }
    asks_no_derivation(rules, index)
}

/// Whether a node is as asked.
#[cycle(walk)]
pub fn is_as_asked(node: &Node, asked: Asked) -> bool
    ensures { IsTrue result → IsAsAsked asked node.now }
{
    if !is_found(asked) {
        return false;
    }
    match node {
        Node::Identifier(kind, ident) => is_name_as_asked(*kind, ident.get().sym.as_str(), asked),
        Node::List(items) => {
            let items = items.as_slice();
            is_list_as_asked(items, asked)
        }
        Node::Tree(kind, fields) => {
            let fields = fields.as_slice();
            is_tree_as_asked(*kind, fields, asked)
        }
        _ => is_leaf_as_asked(asked),
    }
}

// Whether a list is.
#[cycle(walk)]
#[inline(never)]
fn is_list_as_asked(items: &[Node], asked: Asked) -> bool
    requires { IsFound asked }
    ensures { IsTrue result → IsAsAsked asked (Many items.now) }
{
    let writing = writing::rule_of_list(asked.writing);
    let grammar = grammar::rule_of_list(asked.grammar);
    let words = asked_words::rule_of_list(asked.words);
    let rules = Rules {
        writing: &writing,
        grammar: &grammar,
        words: &words,
    };
    are_kept(&rules, items)
}

// Whether a tree is.
#[cycle(walk)]
#[inline(never)]
fn is_tree_as_asked(kind: Kind, fields: &[Node], asked: Asked) -> bool
    requires { IsFound asked }
    ensures { IsTrue result → IsAsAsked asked (Tree kind fields.now) }
{
    if is_token(kind, fields, asked) {
        return true;
    }
    let writing = writing::rule_of_tree(asked.writing, kind, fields);
    let grammar = grammar::rule_of_tree(asked.grammar, kind, fields);
    let words = asked_words::rule_of_tree(asked.words, kind, fields);
    let rules = Rules {
        writing: &writing,
        grammar: &grammar,
        words: &words,
    };
    are_kept(&rules, fields)
}

// Whether the child of a number is as rules ask.
#[cycle(walk)]
fn is_met(rules: &Rules<'_>, index: usize, node: &Node) -> bool
    ensures { IsTrue result → IsMet rules.now index node.now }
{
    if is_idle(rules, index, node) {
        return true;
    }
    is_as_asked(node, asked_at(rules, index, node))
}

// Whether rules hold, and each of several nodes is as they ask.
#[cycle(walk)]
fn are_kept(rules: &Rules<'_>, nodes: &[Node]) -> bool
    ensures { IsTrue result → AreKept rules.now nodes.now }
{
    if !hold(rules) {
        return false;
    }
    for i in 0..nodes.len() {
        if !is_met(rules, i, &nodes[i]) {
            return false;
        }
    }
    true
}
