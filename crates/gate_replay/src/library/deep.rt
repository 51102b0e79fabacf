//! Programs that are deeper than JSON may nest, through each pass but those that hold a map of names.
use crate::library::injection::pass_of;
use std::alloc::Global;
use std::fmt::Write;
use swc_base_rename::HygieneRenamer;
use swc_ecma_transforms_base::fixer::{fixer, paren_remover};
use swc_ecma_transforms_base::hygiene::hygiene;
use swc_ecma_transforms_base::rename::{Config, renamer};
use swc_ecma_transforms_base::resolver::{marks_ok, resolver};
use swc_ecma_transforms_base::{chain_module, chain_script, finish_module, finish_script};
use swc_tree::{
    BlockStmt, DUMMY_SP, ExprStmt, Globals, Ident, JsPass, Mark, Module, NoComments, Opened,
    ParenExpr, Script, SyntaxContext, Text, Tree, Trees, UnaryExpr, UnaryOp, class,
};
use swc_tree_node::{Kind, Node};

// How many blocks lie in one another, and how many operators, each in a pair.
const DEPTH: u32 = 200;

// `!(!( .. a .. ))`
fn expression(alloc: Global) -> Option<Tree<class::Expr>> {
    let name = Ident {
        span: DUMMY_SP,
        ctxt: SyntaxContext::empty(alloc),
        sym: Text::new(alloc, "a").ok()?,
    };
    let mut expr = Tree::<class::Expr>::from_identifier(alloc, Kind::Ident, name).ok()?;
    for _ in 0..DEPTH {
        let pair = ParenExpr {
            span: DUMMY_SP,
            expr,
        };
        let operation = UnaryExpr {
            span: DUMMY_SP,
            op: UnaryOp::Bang,
            arg: pair.close(alloc).ok()?.widen::<class::Expr>(),
        };
        expr = operation.close(alloc).ok()?.widen::<class::Expr>();
    }
    Some(expr)
}

// `!(!( .. a .. ));`
fn innermost(alloc: Global) -> Option<Tree<class::Stmt>> {
    let statement = ExprStmt {
        span: DUMMY_SP,
        expr: expression(alloc)?,
    };
    Some(statement.close(alloc).ok()?.widen::<class::Stmt>())
}

// A block with a statement in it.
fn put_in_block(alloc: Global, stmt: Tree<class::Stmt>) -> Option<Tree<class::Stmt>> {
    let mut stmts = Trees::new(alloc);
    stmts.push(stmt).ok()?;
    let block = BlockStmt {
        span: DUMMY_SP,
        stmts,
    };
    Some(block.close(alloc).ok()?.widen::<class::Stmt>())
}

// `{ { .. !(!( .. a .. )); .. } }`
fn statement(alloc: Global) -> Option<Tree<class::Stmt>> {
    let mut stmt = innermost(alloc)?;
    for _ in 0..DEPTH {
        stmt = put_in_block(alloc, stmt)?;
    }
    Some(stmt)
}

fn module(alloc: Global) -> Option<Module> {
    let mut body = Trees::new(alloc);
    body.push(statement(alloc)?.widen::<class::ModuleItem>())
        .ok()?;
    Some(Module {
        span: DUMMY_SP,
        body,
        shebang: None,
    })
}

fn script(alloc: Global) -> Option<Script> {
    let mut body = Trees::new(alloc);
    body.push(statement(alloc)?).ok()?;
    Some(Script {
        span: DUMMY_SP,
        body,
        shebang: None,
    })
}

// How many nodes and lists lie in one another in a node, itself among them; a leaf is none.
#[cycle(depth)]
fn depth(node: &Node) -> usize {
    match node {
        Node::List(nodes) | Node::Tree(_, nodes) => greatest_depth(nodes.as_slice()).saturating_add(
            1,
        ),
        _ => 0,
    }
}

#[cycle(depth)]
fn greatest_depth(nodes: &[Node]) -> usize {
    let mut most = 0;
    for node in nodes {
        most = most.max(depth(node));
    }
    most
}

// The table of the marks that the resolver goes by.
fn globals(alloc: Global) -> Option<Globals> {
    Globals::from_table(alloc, &[(1, 0), (2, 0)]).ok()
}

// How deep a pass leaves a module.
fn visited_module<P: JsPass>(alloc: Global, pass: &mut P) -> Option<usize> {
    let mut module = module(alloc)?;
    let mut globals = globals(alloc)?;
    pass.visit_mut_module(alloc, &mut globals, &mut module)
        .ok()?;
    Some(greatest_depth(module.body.as_slice()))
}

// How deep it leaves a script.
fn visited_script<P: JsPass>(alloc: Global, pass: &mut P) -> Option<usize> {
    let mut script = script(alloc)?;
    let mut globals = globals(alloc)?;
    pass.visit_mut_script(alloc, &mut globals, &mut script)
        .ok()?;
    Some(greatest_depth(script.body.as_slice()))
}

// How deep a pass leaves a module and then a script.
fn visited<P: JsPass + Drop>(alloc: Global, mut pass: P) -> Option<(usize, usize)> {
    let module = visited_module(alloc, &mut pass)?;
    Some((module, visited_script(alloc, &mut pass)?))
}

fn finished_module(alloc: Global, globals: &mut Globals) -> Option<usize> {
    let mut module = module(alloc)?;
    let (config, comments) = (Config::default(), None::<&mut NoComments>);
    finish_module(alloc, globals, config, comments, &mut module).ok()?;
    Some(greatest_depth(module.body.as_slice()))
}

fn finished_script(alloc: Global, globals: &mut Globals) -> Option<usize> {
    let mut script = script(alloc)?;
    let (config, comments) = (Config::default(), None::<&mut NoComments>);
    finish_script(alloc, globals, config, comments, &mut script).ok()?;
    Some(greatest_depth(script.body.as_slice()))
}

fn finished(alloc: Global) -> Option<(usize, usize)> {
    let mut globals = globals(alloc)?;
    let module = finished_module(alloc, &mut globals)?;
    Some((module, finished_script(alloc, &mut globals)?))
}

fn chained_module(alloc: Global, globals: &mut Globals) -> Option<usize> {
    let mut module = module(alloc)?;
    let (unresolved, top) = (Mark::from_u32(1), Mark::from_u32(2));
    let (config, comments) = (Config::default(), None::<&mut NoComments>);
    chain_module(
        alloc,
        globals,
        unresolved,
        top,
        config,
        comments,
        &mut module,
    )
    .ok()?;
    Some(greatest_depth(module.body.as_slice()))
}

fn chained_script(alloc: Global, globals: &mut Globals) -> Option<usize> {
    let mut script = script(alloc)?;
    let (unresolved, top) = (Mark::from_u32(1), Mark::from_u32(2));
    let (config, comments) = (Config::default(), None::<&mut NoComments>);
    chain_script(
        alloc,
        globals,
        unresolved,
        top,
        config,
        comments,
        &mut script,
    )
    .ok()?;
    Some(greatest_depth(script.body.as_slice()))
}

fn chained(alloc: Global) -> Option<(usize, usize)> {
    let mut globals = globals(alloc)?;
    let module = chained_module(alloc, &mut globals)?;
    Some((module, chained_script(alloc, &mut globals)?))
}

fn resolved(alloc: Global) -> Option<(usize, usize)> {
    let (unresolved, top) = (Mark::from_u32(1), Mark::from_u32(2));
    if !marks_ok(&globals(alloc)?, unresolved, top) {
        return None;
    }
    visited(alloc, resolver(unresolved, top))
}

// How deep what a word names leaves a module and a script.
fn left_by(alloc: Global, word: &str) -> Option<(usize, usize)> {
    match word {
        "resolver" => resolved(alloc),
        "renamer" => visited(alloc, renamer(Config::default(), HygieneRenamer)),
        "hygiene" => visited(alloc, hygiene()),
        "paren_remover" => visited(alloc, paren_remover(None::<&mut NoComments>)),
        "fixer" => visited(alloc, fixer(None::<&mut NoComments>)),
        "inject_helpers" => visited(alloc, pass_of(alloc, Mark::from_u32(1), true, "")?),
        "finish" => finished(alloc),
        "chain" => chained(alloc),
        _ => None,
    }
}

/// How deep a pass leaves a deep module and a deep script, if a row names it.
pub fn answer(alloc: Global, words: &str) -> Option<String> {
    let (module, script) = left_by(alloc, words.strip_prefix("deep ")?)?;
    format!(in alloc; "{module} {script}").ok()
}
