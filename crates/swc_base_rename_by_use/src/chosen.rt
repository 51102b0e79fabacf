//! The texts of ids by how often they are used.

use crate::alphabet::{Alphabet, place_of_text};
use crate::by_use::TextsByUse;
use crate::characters::characters_of;
use crate::counter_at;
use crate::known::Known;
use crate::read::{Program, read_analysis, read_items};
use crate::slots::{Slots, give_slots};
use std::alloc::Global;
use std::collections::{BTreeMap, BTreeSet, HashSet};
use swc_base_rename_analysis::Analysis;
use swc_tree_marks::{Id, NoMemory};
use swc_tree_node::fields::{module_, script};
use swc_tree_node::{Kind, Node};

// How many short texts no id gets, at most.
const WITHHELD: usize = 64;

// Whether no name that changes may be an id's text: it keeps it, or nothing binds it.
fn leaves_text(known: &Known<'_>) -> bool {
    known.keeps || (known.stands_outside && !known.is_bound)
}

// The places of the texts that ids of a program keep.
fn left_places(
    alloc: Global,
    preserved: &HashSet<Id>,
    ids: &[Known<'_>],
) -> Result<BTreeSet<u128>, NoMemory> {
    let mut left = BTreeSet::new(alloc);
    for known in ids {
        if leaves_text(known)
            && let Some(place) = place_of_text(known.text.as_str())
        {
            left.insert(place)?;
        }
    }
    for id in preserved {
        if let Some(place) = place_of_text(id.0.as_str()) {
            left.insert(place)?;
        }
    }
    Ok(left)
}

// The counter of the first text, from a number on, that is not left; the number goes past it.
fn next_counter(alphabet: &Alphabet, left: &BTreeSet<u128>, number: &mut usize) -> Option<usize> {
    for _ in 0..left.len().saturating_add(WITHHELD) {
        let place = alphabet.place(*number);
        *number = number.saturating_add(1);
        if left.contains(&place) {
            continue;
        }
        if let Some(counter) = counter_at(place) {
            return Some(counter);
        }
    }
    None
}

// The slots, those first that are used most.
fn by_use(alloc: Global, slots: &Slots) -> Result<Vec<(usize, usize)>, NoMemory> {
    let mut order = Vec::new(alloc);
    for slot in 0..slots.uses.len() {
        order.push((usize::MAX - slots.uses[slot], slot))?;
    }
    order.sort()?;
    Ok(order)
}

// The counters of the slots' texts.
fn counters(
    alloc: Global,
    slots: &Slots,
    alphabet: &Alphabet,
    left: &BTreeSet<u128>,
) -> Result<BTreeMap<usize, usize>, NoMemory> {
    let mut counters = BTreeMap::new(alloc);
    let mut number = 0;
    for entry in by_use(alloc, slots)?.as_slice() {
        if let Some(counter) = next_counter(alphabet, left, &mut number) {
            counters.insert(entry.1, counter)?;
        }
    }
    Ok(counters)
}

// The counters of ids by those of their slots.
fn own(
    alloc: Global,
    ids: &[Known<'_>],
    counters: &BTreeMap<usize, usize>,
) -> Result<TextsByUse, NoMemory> {
    let mut own = BTreeMap::new(alloc);
    for known in ids {
        if let Some(slot) = known.slot
            && let Some(counter) = counters.get(&slot)
        {
            own.insert(known.id()?, *counter)?;
        }
    }
    Ok(TextsByUse { own })
}

// The texts of a program that was read, which has these statements at its top.
fn texts_of(
    alloc: Global,
    preserved: &HashSet<Id>,
    program: &mut Program<'_>,
    items: &[Node],
) -> Result<TextsByUse, NoMemory> {
    let slots = give_slots(alloc, program)?;
    let ids = program.ids.as_slice();
    let met = characters_of(alloc, items, ids)?;
    let alphabet = Alphabet::new(alloc, &met)?;
    let left = left_places(alloc, preserved, ids)?;
    let counters = counters(alloc, &slots, &alphabet, &left)?;
    own(alloc, ids, &counters)
}

/// The texts of the ids of a program with these statements at its top, where these are preserved: those that are used most get the shortest that they
/// can share, written in the characters that are met most in what stays.
///
/// # Errors
///
/// `NoMemory` where memory is refused.
///
/// # Cost
///
/// Time in step with the size of the program, but for logarithms of the numbers of ids and names, and for the scopes that stand round a name.
pub fn texts_by_use(
    alloc: Global,
    preserved: &HashSet<Id>,
    items: &[Node],
) -> Result<TextsByUse, NoMemory> {
    let mut program = read_items(alloc, preserved, items)?;
    texts_of(alloc, preserved, &mut program, items)
}

/// The same of a program's tree, by what was read off it. In another tree no id has a text of its own.
///
/// # Errors
///
/// `NoMemory` where memory is refused.
pub fn texts_of_program(
    alloc: Global,
    preserved: &HashSet<Id>,
    analysis: &Analysis,
    tree: &Node,
) -> Result<TextsByUse, NoMemory> {
    let body = match tree {
        Node::Tree(Kind::Module, fields) => fields.get(module_::BODY),
        Node::Tree(Kind::Script, fields) => fields.get(script::BODY),
        _ => None,
    };
    let Some(Node::List(items)) = body else {
        return Ok(TextsByUse::new(alloc));
    };
    let mut program = read_analysis(alloc, preserved, analysis)?;
    texts_of(alloc, preserved, &mut program, items.as_slice())
}
