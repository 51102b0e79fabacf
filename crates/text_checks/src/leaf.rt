//! Leaves: names, literals and texts of templates (ECMA-262, 12).
ghost use Rattle.std.specs.Prelude.{◌≡◌};
ghost use Rattle.swc_tree_node.specs.declared.node.Node.{out-Node};
ghost use Rattle.swc_tree_node.specs.declared.node.Node.TheOpen.{Node-F};
ghost use Rattle.swc_tree_node.specs.Parts.{text_of};
ghost use Rattle.swc_tree_grammar.specs.Levels.{is_absent as is_nothing};
ghost use Rattle.text_checks.specs.Spelled as spec;
ghost use Rattle.text_words.specs.Words as words;

use swc_tree_node::fields::{
    big_int, ident_name, module_, number, private_name, regex, script, str, tpl_element,
};
use swc_tree_node::{Kind, Node};
use text_words::{
    is_big_integer, is_hashbang, is_name, is_number, is_regex, is_string, is_template,
};

/// Whether nothing stands there.
pub fn is_absent(node: &Node) -> bool
    ensures { result ≡ is_nothing node.now }
{
    matches!(node, Node::Absent)
}

fn is_no_name(node: &Node) -> bool
    ensures { result ≡ spec.fails words.is_name (text_of node.now) }
{
    match node.as_text() {
        Some(text) => !is_name(text),
        None => true,
    }
}

fn is_no_number(node: &Node) -> bool
    ensures { result ≡ spec.fails words.is_number (text_of node.now) }
{
    match node.as_text() {
        Some(text) => !is_number(text.as_bytes()),
        None => true,
    }
}

fn is_no_big_integer(node: &Node) -> bool
    ensures { result ≡ spec.fails words.is_big_integer (text_of node.now) }
{
    match node.as_text() {
        Some(text) => !is_big_integer(text.as_bytes()),
        None => true,
    }
}

fn is_bad_hashbang(node: &Node) -> bool
    ensures { result ≡ spec.fails_there words.is_hashbang node.now }
{
    if is_absent(node) {
        return false;
    }
    match node.as_text() {
        Some(text) => !is_hashbang(text.as_bytes()),
        None => true,
    }
}

// Whether it is said how a string is written, and that is no string of its value.
fn is_bad_raw(value: &str, raw: &Node) -> bool
    ensures { result ≡ spec.fails_there (words.is_string value.now) raw.now }
{
    if is_absent(raw) {
        return false;
    }
    match raw.as_text() {
        Some(text) => !is_string(value.as_bytes(), text.as_bytes()),
        None => true,
    }
}

fn is_bad_string(value: &Node, raw: &Node) -> bool
    ensures { result ≡ spec.is_bad_string value.now raw.now }
{
    match value.as_text() {
        Some(value) => is_bad_raw(value, raw),
        None => true,
    }
}

fn are_bad_flags(pattern: &str, flags: &Node) -> bool
    ensures { result ≡ spec.fails (words.is_regex pattern.now) (text_of flags.now) }
{
    match flags.as_text() {
        Some(flags) => !is_regex(pattern.as_bytes(), flags.as_bytes()),
        None => true,
    }
}

fn is_bad_regex(pattern: &Node, flags: &Node) -> bool
    ensures { result ≡ spec.is_bad_regex pattern.now flags.now }
{
    match pattern.as_text() {
        Some(pattern) => are_bad_flags(pattern, flags),
        None => true,
    }
}

fn is_bad_template(cooked: &Node, raw: &Node) -> bool
    ensures { result ≡ spec.is_bad_template cooked.now raw.now }
{
    let value = cooked.as_text();
    match raw.as_text() {
        Some(raw) => !is_template(value, raw.as_bytes()),
        None => true,
    }
}

// Whether a tree is a leaf that is no token of its kind, or is written otherwise than it says.
fn is_bad_tree(kind: Kind, fields: &[Node]) -> bool
    ensures { result ≡ spec.is_bad_leaf (Node-F.Tree kind fields.now) }
{
    match kind {
        Kind::IdentName if fields.len() == 2 => is_no_name(&fields[ident_name::SYM]),
        Kind::PrivateName if fields.len() == 2 => is_no_name(&fields[private_name::NAME]),
        Kind::Number if fields.len() == 2 => is_no_number(&fields[number::TEXT]),
        Kind::BigInt if fields.len() == 2 => is_no_big_integer(&fields[big_int::TEXT]),
        Kind::Str if fields.len() == 3 => is_bad_string(&fields[str::VALUE], &fields[str::RAW]),
        Kind::Regex if fields.len() == 3 => {
            is_bad_regex(&fields[regex::EXP], &fields[regex::FLAGS])
        }
        Kind::TplElement if fields.len() == 4 => {
            is_bad_template(&fields[tpl_element::COOKED], &fields[tpl_element::RAW])
        }
        Kind::Module if fields.len() == 3 => is_bad_hashbang(&fields[module_::SHEBANG]),
        Kind::Script if fields.len() == 3 => is_bad_hashbang(&fields[script::SHEBANG]),
        _ => false,
    }
}

/// Whether a node is a leaf that is no token of its kind, or is written otherwise than it says.
pub fn is_bad_leaf(node: &Node) -> bool
    ensures { result ≡ spec.is_bad_leaf (out-Node node.now) }
{
    match node {
        Node::Identifier(_, ident) => !is_name(ident.get().sym.as_str()),
        Node::Tree(kind, fields) => is_bad_tree(*kind, fields.as_slice()),
        _ => false,
    }
}
