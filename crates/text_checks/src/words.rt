//! Where `yield` and `await` are operators, and where names (ECMA-262, 13.1.1 and 15.5 to 15.9).
ghost use Rattle.std.specs.Prelude.{◌≡◌};
ghost use Rattle.swc_tree_node.specs.declared.node.Node.TheOpen.{Node-F};
ghost use Rattle.text_checks.specs.Words as spec;

use crate::leaves::is_set;
use swc_tree_node::fields::{arrow_expr, function};
use swc_tree_node::{Kind, Node};

/// Which of both words are operators.
#[derive(Clone, Copy)]
pub struct Words {
    pub yields: bool,
    pub awaits: bool,
}

/// Whether anything is asked of what stands in a field, and which words are operators there.
#[derive(Clone, Copy)]
pub struct Ask {
    pub asks: bool,
    pub words: Words,
}

/// What is asked of a node: whether it may stand there, and what of its second field and of all others.
#[derive(Clone, Copy)]
pub struct Rule {
    pub holds: bool,
    pub second: Ask,
    pub others: Ask,
}

fn operators(yields: bool, awaits: bool) -> Words
    ensures { result ≡ spec.operators yields awaits }
{
    Words { yields, awaits }
}

/// Whether a name is no operator.
pub fn is_name(text: &str, words: Words) -> bool
    ensures { result ≡ spec.is_name text.now words }
{
    !(words.yields && text == "yield") && !(words.awaits && text == "await")
}

fn neither() -> Words
    ensures { result ≡ spec.neither }
{
    operators(false, false)
}

fn asked(words: Words) -> Ask
    ensures { result ≡ spec.asked words }
{
    Ask { asks: true, words }
}

fn nothing() -> Ask
    ensures { result ≡ spec.nothing }
{
    Ask {
        asks: false,
        words: neither(),
    }
}

fn ruled(holds: bool, second: Ask, others: Ask) -> Rule
    ensures { result ≡ spec.rule holds second others }
{
    Rule {
        holds,
        second,
        others,
    }
}

/// The same words in all fields.
pub fn throughout(words: Words) -> Rule
    ensures { result ≡ spec.throughout words }
{
    ruled(true, asked(words), asked(words))
}

// A key, which belongs to what stands round it, and what stands behind.
fn behind_key(words: Words, inside: Words) -> Rule
    ensures { result ≡ spec.behind_key words inside }
{
    ruled(true, asked(words), asked(inside))
}

// Of a function, a generator or an async one.
fn of_function(is_generator: &Node, is_async: &Node) -> Rule
    ensures { result ≡ spec.of_function is_generator.now is_async.now }
{
    throughout(operators(is_set(is_generator), is_set(is_async)))
}

fn of_arrow(words: Words, is_async: &Node) -> Rule
    ensures { result ≡ spec.of_arrow words is_async.now }
{
    behind_key(words, operators(false, is_set(is_async)))
}

// Of functions, and of what has the body of one.
fn function_rule(kind: Kind, fields: &[Node], words: Words) -> Rule
    ensures { result ≡ spec.function_rule words (Node-F.Tree kind fields.now) }
{
    match kind {
        Kind::Function if fields.len() == 5 => {
            of_function(&fields[function::IS_GENERATOR], &fields[function::IS_ASYNC])
        }
        Kind::ArrowExpr if fields.len() == 4 => of_arrow(words, &fields[arrow_expr::IS_ASYNC]),
        Kind::Constructor | Kind::SetterProp | Kind::ClassProp | Kind::PrivateProp
            if fields.len() == 4 => behind_key(words, neither()),
        Kind::GetterProp if fields.len() == 3 => behind_key(words, neither()),
        Kind::StaticBlock if fields.len() == 2 => throughout(neither()),
        _ => throughout(words),
    }
}

// Of an operator, which may stand there or not.
fn operator(holds: bool, words: Words) -> Rule
    ensures { result ≡ spec.operator holds words }
{
    ruled(holds, asked(words), asked(words))
}

// Of a function with its name, of which nothing is asked here.
fn behind_name(words: Words) -> Rule
    ensures { result ≡ spec.behind_name words }
{
    ruled(true, asked(words), nothing())
}

// Of what names what is imported or exported.
fn unasked() -> Rule
    ensures { result ≡ spec.unasked }
{
    ruled(true, nothing(), nothing())
}

/// What is asked of a tree where these words are operators.
pub fn rule_of(kind: Kind, fields: &[Node], words: Words) -> Rule
    ensures { result ≡ spec.rule_of words (Node-F.Tree kind fields.now) }
{
    match kind {
        Kind::YieldExpr if fields.len() == 3 => operator(words.yields, words),
        Kind::AwaitExpr if fields.len() == 2 => operator(words.awaits, words),
        Kind::FnDecl | Kind::FnExpr if fields.len() == 2 => behind_name(words),
        Kind::Module if fields.len() == 3 => throughout(operators(false, true)),
        Kind::ImportDecl | Kind::NamedExport => unasked(),
        kind => function_rule(kind, fields, words),
    }
}

/// What is asked of the field of a number.
pub fn ask_at(rule: Rule, index: usize) -> Ask
    ensures { result ≡ spec.ask_at rule index }
{
    if index == 1 { rule.second } else { rule.others }
}

/// Whether each `yield` and `await` in a tree is what it has to be, where some of them are operators.
#[cycle(words)]
pub fn fits(node: &Node, words: Words) -> bool
    ensures { result ≡ spec.fits node.now words }
{
    match node {
        Node::Identifier(_, ident) => is_name(ident.get().sym.as_str(), words),
        Node::List(items) => {
            let rule = throughout(words);
            all_fit(rule, items.as_slice())
        }
        Node::Tree(kind, fields) => {
            let fields = fields.as_slice();
            let rule = rule_of(*kind, fields, words);
            rule.holds && all_fit(rule, fields)
        }
        _ => true,
    }
}

// Whether each of several nodes meets what is asked of it.
#[cycle(words)]
fn all_fit(rule: Rule, nodes: &[Node]) -> bool
    ensures { result ≡ spec.all_meet (spec.ask_at rule) nodes.now }
{
    for i in 0..nodes.len() {
        let node = &nodes[i];
        let ask = ask_at(rule, i);
        if ask.asks && !fits(node, ask.words) {
            return false;
        }
    }
    true
}

/// The words of a program: none of them is an operator.
pub fn is_worded(tree: &Node) -> bool
    ensures { result ≡ spec.fits tree.now spec.neither }
{
    fits(tree, neither())
}
