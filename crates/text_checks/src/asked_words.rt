//! Words that may be operators, as they are asked beside other rules.
ghost use Rattle.std.specs.Prelude.{◌≡◌, List, true};
ghost use Rattle.swc_tree_node.specs.declared.node.Node.{List as Many, Tree};
ghost use Rattle.text_checks.specs.Words.{fits, is_name as is_no_operator, meets, rule};
ghost use Rattle.text_checks.specs.Asked.{is_worded};

use crate::{Ask, Rule, is_name, rule_of, throughout};
use swc_tree_node::{Kind, Node};

/// Whether an identifier is as asked.
pub fn is_name_as_asked(ask: Ask, text: &str) -> bool
    ensures { result ≡ meets ask (is_no_operator text.now) }
{
    !ask.asks || is_name(text, ask.words)
}

// Of a node of which nothing is asked.
fn unasked(ask: Ask) -> Rule
    ensures { result ≡ rule true ask ask }
{
    Rule {
        holds: true,
        second: ask,
        others: ask,
    }
}

/// What is asked of a list, and of its items.
pub fn rule_of_list(ask: Ask) -> Rule
    ensures { (ts : List Node) → is_worded result ts ≡ true → meets ask (fits (Many ts)) ≡ true }
{
    if ask.asks {
        throughout(ask.words)
    } else {
        unasked(ask)
    }
}

/// What is asked of a tree, and of its fields.
pub fn rule_of_tree(ask: Ask, kind: Kind, fields: &[Node]) -> Rule
    ensures { is_worded result fields.now ≡ true → meets ask (fits (Tree kind fields.now)) ≡ true }
{
    if ask.asks {
        rule_of(kind, fields, ask.words)
    } else {
        unasked(ask)
    }
}
