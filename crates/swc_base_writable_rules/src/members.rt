//! Members of classes, parts of optional chains, and specifiers of exports.
ghost use Rattle.std.specs.Prelude.{◌≡◌, codes};
ghost use Rattle.swc_tree_node.specs.declared.node.Node.{out-Node};
ghost use Rattle.swc_tree_grammar.specs.Writable.{accessor, constructor_key_in, is_getter as is_getter_word, is_name_kind_in, is_setter as is_setter_word, is_text, local_specifier_in, one_without_rest as is_one_without_rest, parameters_in};
ghost use Rattle.swc_base_writable_rules.specs.Rules.{goes_on_in, is_chain_inside};

use crate::patterns::{is_rest, items, pattern_of, word_of};
use swc_tree_node::fields::{
    export_named_specifier, function, ident_name, member_expr, opt_call, paren_expr, str,
};
use swc_tree_node::{Kind, Node, Word};

fn parameters(node: &Node) -> &[Node]
    ensures { result.now ≡ parameters_in (out-Node node.now) }
{
    match node {
        Node::Tree(kind, fields) => {
            let fields = fields.as_slice();
            match kind {
                Kind::Function if fields.len() == 5 => items(&fields[function::PARAMS]),
                _ => &[],
            }
        }
        _ => &[],
    }
}

fn one_without_rest(nodes: &[Node]) -> bool
    ensures { result ≡ is_one_without_rest nodes.now }
{
    nodes.len() == 1 && !is_rest(pattern_of(&nodes[0]))
}

fn is_getter(word: Option<Word>) -> bool
    ensures { result ≡ is_getter_word word }
{
    matches!(word, Some(Word::Getter))
}

fn is_setter(word: Option<Word>) -> bool
    ensures { result ≡ is_setter_word word }
{
    matches!(word, Some(Word::Setter))
}

/// Whether a method has the parameters that its keyword asks for: a getter none, a setter one, which is no rest.
pub fn is_accessor(function: &Node, keyword: &Node) -> bool
    ensures { result ≡ accessor function.now keyword.now }
{
    let word = word_of(keyword);
    let parameters = parameters(function);
    (!is_getter(word) || parameters.len() == 0)
        && (!is_setter(word) || one_without_rest(parameters))
}

// Whether a node is the text `constructor`.
fn says_constructor(node: &Node) -> bool
    ensures { result ≡ is_text (codes "constructor") node.now }
{
    match node {
        Node::Text(text) => text.as_str() == "constructor",
        _ => false,
    }
}

/// Whether a key is `constructor`.
pub fn is_constructor_key(node: &Node) -> bool
    ensures { result ≡ constructor_key_in (out-Node node.now) }
{
    match node {
        Node::Tree(kind, fields) => {
            let fields = fields.as_slice();
            match kind {
                Kind::IdentName if fields.len() == 2 => says_constructor(&fields[ident_name::SYM]),
                Kind::Str if fields.len() == 3 => says_constructor(&fields[str::VALUE]),
                _ => false,
            }
        }
        _ => false,
    }
}

/// Whether a node is an identifier.
pub fn is_name(node: &Node) -> bool
    ensures { result ≡ is_name_kind_in (out-Node node.now) }
{
    matches!(node, Node::Identifier(_, _))
}

/// Whether a specifier of an export list names something of the program.
pub fn is_local(node: &Node) -> bool
    ensures { result ≡ local_specifier_in (out-Node node.now) }
{
    match node {
        Node::Tree(kind, fields) => {
            let fields = fields.as_slice();
            match kind {
                Kind::ExportNamedSpecifier if fields.len() == 3 => {
                    is_name(&fields[export_named_specifier::ORIG])
                }
                _ => false,
            }
        }
        _ => false,
    }
}

// Whether an expression, pairs of parentheses taken off, is an optional chain.
fn is_chain(node: &Node) -> bool
    ensures { result ≡ is_chain_inside node.now }
{
    match node {
        Node::Tree(kind, fields) => {
            let fields = fields.as_slice();
            match kind {
                Kind::ParenExpr if fields.len() == 2 => is_chain(&fields[paren_expr::EXPR]),
                kind => matches!(kind, Kind::OptChainExpr),
            }
        }
        _ => false,
    }
}

/// Whether a part of an optional chain goes on from one.
pub fn goes_on(node: &Node) -> bool
    ensures { result ≡ goes_on_in (out-Node node.now) }
{
    match node {
        Node::Tree(kind, fields) => {
            let fields = fields.as_slice();
            match kind {
                Kind::MemberExpr if fields.len() == 3 => is_chain(&fields[member_expr::OBJ]),
                Kind::OptCall if fields.len() == 3 => is_chain(&fields[opt_call::CALLEE]),
                _ => false,
            }
        }
        _ => false,
    }
}
