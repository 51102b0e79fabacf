//! Whether short texts go to ids by how often they are used.
use crate::large::{id_of, reference, variables};
use std::alloc::Global;
use std::collections::HashSet;
use swc_base_rename_by_use::{TextsByUse, texts_by_use};
use swc_base_rename_naming::NewTexts;
use swc_tree_marks::PassError;
use swc_tree_node::Node;

// Whether the id of a number and the mark 1 has a text at a counter, which goes one up.
fn gives(
    alloc: Global,
    texts: &TextsByUse,
    number: u32,
    from: usize,
    wanted: &str,
) -> Option<bool> {
    let mut n = from;
    let text = texts
        .new_text(alloc, &id_of(alloc, number, 1)?, &mut n)
        .ok()?;
    Some(text.as_str() == wanted && n == from + 1)
}

// `var a0x, a1x; a1x; a1x; a2x;`, where `a2x` is free.
fn statements(alloc: Global) -> Option<Vec<Node>> {
    let mut statements = Vec::new(alloc);
    statements.push(variables(alloc, &[(0, 1), (1, 1)])?).ok()?;
    for (number, mark) in [(1, 1), (1, 1), (2, 2)] {
        statements.push(reference(alloc, number, mark)?).ok()?;
    }
    Some(statements)
}

// Ids by number, counters, and their texts.
const GIVEN: [(u32, usize, &str); 7] = [
    (1, 0, "a"),
    (1, 1, "b"),
    (0, 0, "x"),
    (0, 1, "a"),
    (0, 23, "w"),
    (0, 24, "y"),
    (2, 0, "a"),
];

fn are_given(alloc: Global, texts: &TextsByUse) -> Option<bool> {
    for (number, from, wanted) in GIVEN {
        if !gives(alloc, texts, number, from, wanted)? {
            return Some(false);
        }
    }
    Some(true)
}

// Whether there is no text at the greatest counter, which stays.
fn is_spent(alloc: Global, texts: &TextsByUse) -> Option<bool> {
    let mut last = usize::MAX;
    let spent = texts
        .new_text(alloc, &id_of(alloc, 1, 1)?, &mut last)
        .err()?;
    Some(spent == PassError::CounterSpent && last == usize::MAX)
}

// In these statements the texts are written in `a` and `x` first.
fn by_use(alloc: Global) -> Option<bool> {
    let statements = statements(alloc)?;
    let texts = texts_by_use(alloc, &HashSet::new(alloc), statements.as_slice()).ok()?;
    Some(are_given(alloc, &texts)? && is_spent(alloc, &texts)?)
}

/// Whether what the words name is as it must be; nothing where memory is refused, or the words name nothing.
pub fn holds(alloc: Global, words: &str) -> Option<bool> {
    match words {
        "short texts go by use" => by_use(alloc),
        _ => None,
    }
}
