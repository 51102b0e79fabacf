//! Programs that nest deeper than JSON does, and that declare many ids of one text.
use std::alloc::Global;
use std::collections::BTreeSet;
use swc_base_rename_program::hygiene_program;
use swc_base_rename_substitution::Config;
use swc_tree_items::{Boxed, Items, Text};
use swc_tree_marks::{DUMMY_SP, Globals, Id, Ident, Mark, SyntaxContext};
use swc_tree_node::{Kind, Node, Word};

fn list(alloc: Global, nodes: Vec<Node>) -> Node {
    Node::List(Items::from_vec(nodes))
}

fn tree<const N: usize>(kind: Kind, alloc: Global, fields: [Node; N]) -> Option<Node> {
    let fields = Vec::from_array(alloc, fields).ok()?;
    Some(Node::Tree(kind, Items::from_vec(fields)))
}

// An identifier whose context is a mark.
fn identifier(alloc: Global, kind: Kind, text: String, mark: u32) -> Option<Node> {
    let mut ctxt = SyntaxContext::empty(alloc);
    ctxt.apply_mark(Mark::from_u32(mark)).ok()?;
    let ident = Ident {
        span: DUMMY_SP,
        ctxt,
        sym: Text::from_string(alloc, text).ok()?,
    };
    Some(Node::Identifier(kind, Boxed::new(alloc, ident).ok()?))
}

/// The id of such a name.
pub fn id_of(alloc: Global, number: u32, mark: u32) -> Option<Id> {
    let mut ctxt = SyntaxContext::empty(alloc);
    ctxt.apply_mark(Mark::from_u32(mark)).ok()?;
    Some((
        Text::from_string(alloc, format!(in alloc; "a{number}x").ok()?).ok()?,
        ctxt,
    ))
}

fn name(alloc: Global, kind: Kind, number: u32, mark: u32) -> Option<Node> {
    identifier(alloc, kind, format!(in alloc; "a{number}x").ok()?, mark)
}

/// `var a0x, a1x, ..` of these numbers and marks.
pub fn variables(alloc: Global, names: &[(u32, u32)]) -> Option<Node> {
    let mut declarators = Vec::new(alloc);
    for (number, mark) in names {
        let name = name(alloc, Kind::BindingIdent, *number, *mark)?;
        let fields = [Node::Span(DUMMY_SP), name, Node::Absent];
        declarators
            .push(tree(Kind::VarDeclarator, alloc, fields)?)
            .ok()?;
    }
    let fields = [
        Node::Span(DUMMY_SP),
        Node::Word(Word::Var),
        list(alloc, declarators),
    ];
    tree(Kind::VarDecl, alloc, fields)
}

/// A statement that refers to a name.
pub fn reference(alloc: Global, number: u32, mark: u32) -> Option<Node> {
    let name = name(alloc, Kind::Ident, number, mark)?;
    tree(Kind::ExprStmt, alloc, [Node::Span(DUMMY_SP), name])
}

// A function whose body is these statements.
fn function(alloc: Global, mark: u32, statements: Vec<Node>) -> Option<Node> {
    let name = identifier(alloc, Kind::Ident, format!(in alloc; "f").ok()?, mark)?;
    let body = tree(
        Kind::BlockStmt,
        alloc,
        [Node::Span(DUMMY_SP), list(alloc, statements)],
    )?;
    let fields = [
        Node::Span(DUMMY_SP),
        list(alloc, Vec::new(alloc)),
        body,
        Node::Flag(false),
        Node::Flag(false),
    ];
    let function = tree(Kind::Function, alloc, fields)?;
    tree(Kind::FnDecl, alloc, [name, function])
}

fn script(alloc: Global, statement: Node) -> Option<Node> {
    let mut statements = Vec::new(alloc);
    statements.push(statement).ok()?;
    let fields = [Node::Span(DUMMY_SP), list(alloc, statements), Node::Absent];
    tree(Kind::Script, alloc, fields)
}

// Whether all contexts below are empty; the texts are gathered.
#[cycle(reads)]
fn reads<'a>(node: &'a Node, texts: &mut BTreeSet<&'a str>) -> Option<bool> {
    match node {
        Node::Identifier(_, ident) => {
            let ident = ident.get();
            texts.insert(ident.sym.as_str()).ok()?;
            Some(ident.ctxt.marks().is_empty())
        }
        Node::List(nodes) | Node::Tree(_, nodes) => reads_all(nodes.as_slice(), texts),
        _ => Some(true),
    }
}

#[cycle(reads)]
fn reads_all<'a>(nodes: &'a [Node], texts: &mut BTreeSet<&'a str>) -> Option<bool> {
    for node in nodes {
        if !reads(node, texts)? {
            return Some(false);
        }
    }
    Some(true)
}

// Whether hygiene tells apart this many ids.
fn tells_apart(alloc: Global, program: Node, count: usize) -> Option<bool> {
    let globals = Globals::new(alloc);
    let program = hygiene_program(alloc, &Config::default(), &globals, program).ok()?;
    let mut texts = BTreeSet::new(alloc);
    Some(reads(&program, &mut texts)? && texts.len() == count)
}

// Functions in one another, each of which declares as many names of the same texts; the innermost refers to all.
fn nested(alloc: Global, depth: u32, each: u32) -> Option<Node> {
    let mut statements = Vec::new(alloc);
    for mark in 0..depth {
        for number in 0..each {
            statements.push(reference(alloc, number, mark)?).ok()?;
        }
    }
    for level in 0..depth {
        let mark = depth - level - 1;
        let mut names = Vec::new(alloc);
        for number in 0..each {
            names.push((number, mark)).ok()?;
        }
        statements.push(variables(alloc, names.as_slice())?).ok()?;
        let function = function(alloc, mark, statements)?;
        statements = Vec::new(alloc);
        statements.push(function).ok()?;
    }
    script(alloc, statements.pop()?)
}

// Variables of one text, all in one scope.
fn alike(alloc: Global, count: u32) -> Option<Node> {
    let mut names = Vec::new(alloc);
    for mark in 0..count {
        names.push((0, mark)).ok()?;
    }
    script(alloc, variables(alloc, names.as_slice())?)
}

/// Whether what the words name is as it must be; nothing where memory is refused, or the words name nothing.
pub fn holds(alloc: Global, words: &str) -> Option<bool> {
    match words {
        "names of 127 nested functions are told apart" => {
            tells_apart(alloc, nested(alloc, 127, 79)?, 127 * 79 + 1)
        }
        "names of one text are told apart" => tells_apart(alloc, alike(alloc, 2500)?, 2500),
        _ => None,
    }
}
