//! What the grammar derives, as it is asked beside other rules.
ghost use Rattle.std.specs.Prelude.{◌≡◌, List, true};
ghost use Rattle.swc_tree_node.specs.declared.node.Node.{List as Many, Tree};
ghost use Rattle.text_derives.specs.Asks.{seen};
ghost use Rattle.text_derives.specs.Judged.{derived};
ghost use Rattle.text_checks.specs.Asked.{is_derived as is_kept, leaf_derives, nothing_derived as nothing};

use swc_tree_node::{Kind, Node};
use text_derives::{Ask, Look, Row, Rule, rule_of};

/// Whether a leaf is as asked.
pub fn is_leaf(look: Look) -> bool
    ensures { result ≡ seen look leaf_derives }
{
    look.met && (!look.goes_on || !look.in_chain)
}

// Of a node of which nothing is asked.
fn unasked() -> Rule
    ensures { result ≡ nothing }
{
    Rule {
        holds: true,
        row: Row::Nothing,
    }
}

/// What is asked of a list, and of its items.
pub fn rule_of_list(look: Look) -> Rule
    ensures { look.met ≡ true → (ts : List Node) → is_kept result ts ≡ true → seen look (derived (Many ts)) ≡ true }
{
    if look.goes_on {
        Rule {
            holds: !look.in_chain,
            row: Row::Each(Ask::Derived(look.context)),
        }
    } else {
        unasked()
    }
}

/// What is asked of a tree, and of its fields.
pub fn rule_of_tree(look: Look, kind: Kind, fields: &[Node]) -> Rule
    ensures { look.met ≡ true → is_kept result fields.now ≡ true → seen look (derived (Tree kind fields.now)) ≡ true }
{
    if look.goes_on {
        rule_of(look.in_chain, kind, fields, look.context)
    } else {
        unasked()
    }
}
