//! A pair of parentheses that is set.
ghost use Rattle.std.specs.Prelude.{◌≡◌, IfOk, OnOk};
ghost use Rattle.swc_tree_grammar.specs.Due.{pair as paired, pair_if as paired_if};
ghost use Rattle.swc_base_fixer_due.specs.Record.{place_in};

use crate::record::Record;
use std::alloc::{AllocError, Global};
use std::mem;
use swc_tree_grammar::span_of;
use swc_tree_items::Items;
use swc_tree_node::{Kind, Node};

/// The expression in a pair of parentheses. It is kept out of the walks, which thus have little to do where none is due.
#[inline(never)]
pub fn pair(alloc: Global, recorded: &Record, expr: Node) -> Result<Node, AllocError>
    ensures { IfOk result (λ t. t ≡ paired (place_in recorded.now) expr) }
{
    let span = recorded.place(span_of(&expr));
    let mut fields = Items::with_capacity(alloc, 2)?;
    fields.push(Node::Span(span))?;
    fields.push(expr)?;
    Ok(Node::Tree(Kind::ParenExpr, fields))
}

/// The expression, in a pair where one is due.
pub fn pair_if(
    alloc: Global,
    recorded: &Record,
    is_due: bool,
    expr: Node,
) -> Result<Node, AllocError>
    ensures { IfOk result (λ t. t ≡ paired_if is_due (place_in recorded.now) expr) }
{
    if is_due {
        pair(alloc, recorded, expr)
    } else {
        Ok(expr)
    }
}

// Puts the expression into a pair, in place. It is kept out of the walks, too.
#[inline(never)]
fn pair_in_place(alloc: Global, recorded: &Record, expr: &mut Node) -> Result<(), AllocError>
    ensures { OnOk result (expr.new ≡ paired (place_in recorded.now) expr.old) }
{
    let bare = mem::replace(expr, Node::Absent);
    *expr = pair(alloc, recorded, bare)?;
    Ok(())
}

/// Puts the expression into a pair where one is due, and leaves it where it is elsewhere.
#[inline]
pub fn pair_where(
    alloc: Global,
    recorded: &Record,
    is_due: bool,
    expr: &mut Node,
) -> Result<(), AllocError>
    ensures { OnOk result (expr.new ≡ paired_if is_due (place_in recorded.now) expr.old) }
{
    if is_due {
        pair_in_place(alloc, recorded, expr)?;
    }
    Ok(())
}
