//! Classes and their members (ECMA-262, 15.7).
ghost use Rattle.std.specs.Prelude.{◌≡◌, Some, codes, false, length, slice_get};
ghost use Rattle.swc_tree_node.specs.declared.kind.Kind.TheVariants as kind;
ghost use Rattle.swc_tree_node.specs.declared.node.Node.{out-Node};
ghost use Rattle.swc_tree_node.specs.declared.node.Node.TheOpen.{Node-F};
ghost use Rattle.swc_tree_scoping.specs.Places.{flag_of, is_plain_function as is_plain};
ghost use Rattle.swc_tree_grammar.specs.Shapes.{items_of};
ghost use Rattle.swc_tree_grammar.specs.Writable.{constructor_key_in, is_getter as is_getter_word, is_setter as is_setter_word, is_text};
ghost use Rattle.text_grammar.specs.Shaped as spec;

use crate::items::is_misshapen_item;
use crate::leaves::{is_set, items, word_of};
use swc_tree_node::fields::{class, class_method, function, ident_name, private_method, str};
use swc_tree_node::{Kind, Node, Word};

fn is_constructor(node: &Node) -> bool
    ensures { result ≡ spec.is_constructor node.now }
{
    match node {
        Node::Tree(kind, _) => matches!(kind, Kind::Constructor),
        _ => false,
    }
}

// Whether no member is a second constructor.
fn has_no_second(members: &[Node]) -> bool
    ensures { result ≡ spec.no_second spec.is_constructor false members.now }
{
    let mut found = false;
    for member in members {
        if !is_constructor(member) {
            continue;
        }
        if found {
            return false;
        }
        found = true;
    }
    true
}

// Whether at most one of some members is a constructor.
fn has_one_constructor(body: &Node) -> bool
    ensures { result ≡ spec.at_most_one spec.is_constructor (items_of body.now) }
{
    has_no_second(items(body))
}

fn flag(fields: &[Node], index: usize) -> bool
    ensures { result ≡ flag_of (slice_get fields.now index) }
{
    match fields.get(index) {
        Some(Node::Flag(flag)) => *flag,
        _ => false,
    }
}

// Whether a function is neither async nor a generator.
fn is_plain_function(node: &Node) -> bool
    ensures { result ≡ is_plain (Some node.now) }
{
    match node {
        Node::Tree(kind, fields) => {
            let fields = fields.as_slice();
            match kind {
                Kind::Function => {
                    !flag(fields, function::IS_GENERATOR) && !flag(fields, function::IS_ASYNC)
                }
                _ => false,
            }
        }
        _ => false,
    }
}

fn is_getter(word: Option<Word>) -> bool
    ensures { result ≡ is_getter_word word }
{
    matches!(word, Some(Word::Getter))
}

fn is_setter(word: Option<Word>) -> bool
    ensures { result ≡ is_setter_word word }
{
    matches!(word, Some(Word::Setter))
}

fn is_odd_accessor(function: &Node, keyword: &Node) -> bool
    ensures { result ≡ spec.is_odd_accessor function.now keyword.now }
{
    let word = word_of(keyword);
    (is_getter(word) || is_setter(word)) && !is_plain_function(function)
}

// Whether a node is the text `constructor`.
fn says_constructor(node: &Node) -> bool
    ensures { result ≡ is_text (codes "constructor") node.now }
{
    match node {
        Node::Text(text) => text.as_str() == "constructor",
        _ => false,
    }
}

// Whether a key is `constructor`.
fn is_constructor_key(node: &Node) -> bool
    ensures { result ≡ constructor_key_in (out-Node node.now) }
{
    match node {
        Node::Tree(kind, fields) => {
            let fields = fields.as_slice();
            match kind {
                Kind::IdentName if fields.len() == 2 => says_constructor(&fields[ident_name::SYM]),
                Kind::Str if fields.len() == 3 => says_constructor(&fields[str::VALUE]),
                _ => false,
            }
        }
        _ => false,
    }
}

// Whether a method that is not static has the constructor's name.
fn is_odd_method(key: &Node, is_static: &Node) -> bool
    ensures { result ≡ spec.is_odd_method key.now is_static.now }
{
    is_constructor_key(key) && !is_set(is_static)
}

// Whether a method of these fields is none.
fn is_misshapen_method(fields: &[Node]) -> bool
    requires { length fields.now ≡ 5 }
    ensures { result ≡ spec.is_misshapen_member (Node-F.Tree kind.ClassMethod fields.now) }
{
    is_odd_accessor(&fields[class_method::FUNCTION], &fields[class_method::KIND])
        || is_odd_method(&fields[class_method::KEY], &fields[class_method::IS_STATIC])
}

/// Whether a class, or a member of one, has lengths that no production has, or what `is_misshapen_item` says.
pub fn is_misshapen_member(kind: Kind, fields: &[Node]) -> bool
    ensures { result ≡ spec.is_misshapen_member (Node-F.Tree kind fields.now) }
{
    match kind {
        Kind::Class if fields.len() == 3 => !has_one_constructor(&fields[class::BODY]),
        Kind::ClassMethod if fields.len() == 5 => is_misshapen_method(fields),
        Kind::PrivateMethod if fields.len() == 5 => {
            is_odd_accessor(
                &fields[private_method::FUNCTION],
                &fields[private_method::KIND],
            )
        }
        kind => is_misshapen_item(kind, fields),
    }
}
