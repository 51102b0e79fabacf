//! The grammar of the syntax tree: the definitions on which the fixer and its passes rest.
//!
//! They stand in `specs/`:
//!
//! - `Shapes` names the shapes of nodes, `Kinds` tests of what kind a node is.
//! - `Stripped` says what is left of a tree without parentheses and idle expressions, `Blocks` which branches get
//!   a block, `Targets` which assignment targets may stand bare, `Places` where parentheses may go; `Spans` which field says
//!   where a node stands.
//! - `Pairs` says which comments move where parentheses are taken off.
//! - `Levels`, `Demands`, `Starts` and `Forms` say how tightly an expression binds, what a place asks of it, what it
//!   begins with, and which statement may stand where; `Grammar` says which trees ECMA-262 derives, `Writable` which
//!   it would derive with parentheses where they are due.
//! - `Normal` and `Same` say what a program is but for how it is written and what its names are.
//! - `Due` says which pairs a stripped tree gets, `Readers` which of them are for a reader, `Needed` which can't go.
//! - `Fixed` says where pairs that are set again stand and which comments move then, `Spanless` when trees are the
//!   same but for spans.
#![tactic(auto)]

mod pairs;
mod span;

pub use pairs::Pair;
pub use span::span_of;
