//! Programs (ECMA-262, 16).
use crate::modules::parse_items;
use crate::statements::parse_run;
use crate::steps::Run;
use std::alloc::Global;
use swc_tree_node::{Kind, Node};
use text_reader::{Expected, Parser, TextFault, span_of};

/// What a text is read as (ECMA-262, 16.1 and 16.2).
#[derive(Clone, Copy, Debug, PartialEq, Eq)]
pub enum Goal {
    Module,
    Script,
}

/// The program that a text is. `depth` says how many productions may be open at once, where parentheses in one another take
/// ten each, and how high the tree may be: how many nodes may stand one in another.
///
/// # Errors
///
/// Where it is none, where it nests too deeply, and where memory is refused.
pub fn parse(alloc: Global, goal: Goal, depth: u32, text: &[u8]) -> Result<Node, TextFault> {
    if u32::try_from(text.len()).unwrap_or(u32::MAX) >= u32::MAX - 1 {
        return Err(TextFault::TooLong);
    }
    let mut parser = Parser::new(alloc, text, goal == Goal::Module, depth);
    parse_program(&mut parser, goal, depth);
    match (parser.fault(), parser.nodes.pop()) {
        (Some(fault), _) => Err(fault),
        (None, Some(program)) => Ok(program),
        (None, None) => Err(TextFault::TooLong),
    }
}

fn parse_program(p: &mut Parser<'_>, goal: Goal, depth: u32) {
    let shebang = p.take_hashbang();
    p.begin(shebang.is_some());
    p.push(Node::Span(span_of(0, p.len())));
    if goal == Goal::Module {
        parse_items(p, depth);
    } else {
        parse_run(p, depth, Run::Script);
    }
    if !p.is_end() {
        return p.unexpected(Expected::End);
    }
    match shebang {
        Some(line) => {
            p.push_text(line);
        }
        None => p.push_absent(),
    }
    match goal {
        Goal::Module => p.close(Kind::Module, 0),
        Goal::Script => p.close(Kind::Script, 0),
    }
}
