//! What can be written down, as it is asked beside other rules.
ghost use Rattle.std.specs.Prelude.{◌≡◌, List, true};
ghost use Rattle.swc_tree_node.specs.declared.node.Node.{List as Many, Tree};
ghost use Rattle.swc_base_writable_rules.specs.Asks.{seen};
ghost use Rattle.swc_base_writable_rules.specs.Judged.{sounds};
ghost use Rattle.text_checks.specs.Asked.{is_sound as is_kept, leaf_sounds, name_sounds, nothing_sound as nothing};

use swc_base_writable_rules::{Ask, Look, Row, Rule, is_sound_name, rule_of};
use swc_tree_node::{Kind, Node};

/// Whether a leaf is as asked that is no identifier.
pub fn is_leaf(look: Look) -> bool
    ensures { result ≡ seen look leaf_sounds }
{
    look.met && (!look.goes_on || !look.in_head)
}

/// Whether an identifier is as asked.
pub fn is_name(look: Look, kind: Kind, text: &str) -> bool
    ensures { result ≡ seen look (name_sounds kind text.now) }
{
    look.met && (!look.goes_on || (!look.in_head && is_sound_name(kind, text, look.round)))
}

// Of a node of which nothing is asked.
fn unasked() -> Rule
    ensures { result ≡ nothing }
{
    Rule {
        holds: true,
        row: Row::Nothing,
    }
}

/// What is asked of a list, and of its items.
pub fn rule_of_list(look: Look) -> Rule
    ensures { look.met ≡ true → (ts : List Node) → is_kept result ts ≡ true → seen look (sounds (Many ts)) ≡ true }
{
    if look.goes_on {
        Rule {
            holds: !look.in_head,
            row: Row::Each(Ask::Part(look.round)),
        }
    } else {
        unasked()
    }
}

/// What is asked of a tree, and of its fields.
pub fn rule_of_tree(look: Look, kind: Kind, fields: &[Node]) -> Rule
    ensures { look.met ≡ true → is_kept result fields.now ≡ true → seen look (sounds (Tree kind fields.now)) ≡ true }
{
    if look.goes_on {
        rule_of(look.in_head, kind, fields, look.round)
    } else {
        unasked()
    }
}
