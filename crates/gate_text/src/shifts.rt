//! Rows of spans: none that is off by a byte is taken for a node's.
use crate::read::told;
use crate::words::Asked;
use std::alloc::Global;
use std::fmt::Write;
use swc_tree_items::Items;
use swc_tree_marks::Span;
use swc_tree_node::Node;
use text_source::{Goal, TextFault, are_spans_of, read_text};

// As many spans as are looked for, at most.
const MOST: usize = 10_000;

// Which end of a span is moved, and where to.
#[derive(Clone, Copy)]
enum Shift {
    LaterStart,
    EarlierStart,
    LaterEnd,
    EarlierEnd,
}

const SHIFTS: [Shift; 4] = [
    Shift::LaterStart,
    Shift::EarlierStart,
    Shift::LaterEnd,
    Shift::EarlierEnd,
];

fn shifted(span: Span, shift: Shift) -> Span {
    let Span { lo, hi } = span;
    match shift {
        Shift::LaterStart => Span {
            lo: lo.saturating_add(1),
            hi,
        },
        Shift::EarlierStart => Span {
            lo: lo.saturating_sub(1),
            hi,
        },
        Shift::LaterEnd => Span {
            lo,
            hi: hi.saturating_add(1),
        },
        Shift::EarlierEnd => Span {
            lo,
            hi: hi.saturating_sub(1),
        },
    }
}

// Moves an end of a span before which so many others stand in a tree. How many are still to be passed, if it has fewer.
#[cycle(shift_at)]
fn shift_at(node: &mut Node, left: usize, shift: Shift) -> Option<usize> {
    if let Node::Span(span) = node {
        if left == 0 {
            *span = shifted(*span, shift);
        }
        return left.checked_sub(1);
    }
    if let Some(ident) = node.ident_mut() {
        let ident = ident.get_mut();
        if left == 0 {
            ident.span = shifted(ident.span, shift);
        }
        return left.checked_sub(1);
    }
    match node.children_mut() {
        Some(children) => shift_below(children, left, shift),
        None => Some(left),
    }
}

#[cycle(shift_at)]
fn shift_below(children: &mut Items<Node>, left: usize, shift: Shift) -> Option<usize> {
    let mut left = left;
    for i in 0..children.len() {
        left = shift_at(children.item_mut(i), left, shift)?;
    }
    Some(left)
}

// What comes of the shift of a span.
#[derive(Clone, Copy)]
enum Found {
    // The tree has no such span.
    Past,
    // It is taken for a node's, though it is another.
    Taken,
    Refused,
    Fault(TextFault),
}

fn shifted_in(goal: Goal, text: &[u8], mut tree: Node, number: usize, shift: Shift) -> Found {
    if shift_at(&mut tree, number, shift).is_some() {
        Found::Past
    } else if are_spans_of(goal, &tree, text) {
        Found::Taken
    } else {
        Found::Refused
    }
}

fn shift_of(alloc: Global, asked: Asked, text: &[u8], number: usize, shift: Shift) -> Found {
    match read_text(alloc, asked.goal, asked.depth, text) {
        Ok(tree) => shifted_in(asked.goal, text, tree, number, shift),
        Err(fault) => Found::Fault(fault),
    }
}

/// How many spans a text's tree has, if none that is off by a byte is taken for a node's.
pub(crate) fn shifts(alloc: Global, asked: Asked, text: &[u8]) -> Option<String> {
    for number in 0..MOST {
        for shift in SHIFTS {
            match shift_of(alloc, asked, text, number, shift) {
                Found::Refused => (),
                Found::Past => return format!(in alloc; "{number} spans").ok(),
                Found::Taken => {
                    return format!(in alloc; "span {number} may be another").ok();
                }
                Found::Fault(fault) => return told(alloc, text, fault),
            }
        }
    }
    format!(in alloc; "more than {MOST} spans").ok()
}
