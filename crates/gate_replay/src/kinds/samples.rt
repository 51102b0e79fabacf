//! JSON of each kind of node, made by the table.
use crate::kinds::faults::{Fault, parts_of};
use std::alloc::AllocError;
use swc_tree_node::{Class, Content, Field, Kind, Slot, kinds_of, name_of, spelling_of, words_of};

// No kind leads through the first kinds of its fields to more nodes in one another than this.
const DEPTH: u32 = 20;

const PAIR: &str = "[\"a\",\"b\"]";

fn add(text: &mut String, pieces: &[&str]) -> Result<(), AllocError> {
    for piece in pieces {
        text.push_str(piece)?;
    }
    Ok(())
}

// What stands in one place, but for a node.
fn leaf(content: Content) -> &'static str {
    match content {
        Content::Span => "[3,5]",
        Content::Text => "\"a\"",
        Content::Flag => "true",
        Content::Word(_) | Content::Node(_) => "null",
    }
}

fn add_leaf(text: &mut String, content: Content) -> Result<(), AllocError> {
    if let Content::Word(words) = content {
        if let Some(word) = words_of(words).first() {
            return add(text, &["\"", spelling_of(*word), "\""]);
        }
    }
    add(text, &[leaf(content)])
}

// What a node begins with.
fn add_head(text: &mut String, kind: Kind) -> Result<(), AllocError> {
    add(text, &["{\"type\":\"", name_of(kind), "\""])
}

fn first_of(class: Class) -> Option<Kind> {
    kinds_of(class).first().copied()
}

// The kind of the node that has to stand in a slot, if one has to.
fn needed(slot: Slot) -> Option<Kind> {
    match slot {
        Slot::One(Content::Node(class)) => first_of(class),
        _ => None,
    }
}

// What stands in a slot in which nothing stands that may be left out, but for a node.
fn add_least_leaf(text: &mut String, slot: Slot) -> Result<(), AllocError> {
    match slot {
        Slot::One(content) => add_leaf(text, content),
        Slot::List(_) | Slot::Holes(_) => add(text, &["[]"]),
        Slot::Pair => add(text, &[PAIR]),
        Slot::Optional(_) | Slot::OptionalList(_) | Slot::Pairs => add(text, &["null"]),
    }
}

// A node of the kind in which nothing stands that may be left out; nothing, where that is deeper than `depth`.
fn least(text: &mut String, kind: Kind, depth: u32) -> Result<(), AllocError> {
    let Some(below) = depth.checked_sub(1) else {
        return add(text, &["null"]);
    };
    add_head(text, kind)?;
    for field in parts_of(kind) {
        add(text, &[",\"", field.key, "\":"])?;
        match needed(field.slot) {
            Some(first) => least(text, first, below)?,
            None => add_least_leaf(text, field.slot)?,
        }
    }
    add(text, &["}"])
}

fn add_one(text: &mut String, content: Content) -> Result<(), AllocError> {
    if let Content::Node(class) = content {
        if let Some(first) = first_of(class) {
            return least(text, first, DEPTH);
        }
    }
    add_leaf(text, content)
}

fn add_two(text: &mut String, content: Content) -> Result<(), AllocError> {
    add(text, &["["])?;
    add_one(text, content)?;
    add(text, &[","])?;
    add_one(text, content)?;
    add(text, &["]"])
}

// A value of a slot in which nothing is left out but one item of a list that may have gaps.
fn add_slot(text: &mut String, slot: Slot) -> Result<(), AllocError> {
    match slot {
        Slot::One(content) | Slot::Optional(content) => add_one(text, content),
        Slot::List(content) | Slot::OptionalList(content) => add_two(text, content),
        Slot::Holes(content) => {
            add(text, &["[null,"])?;
            add_one(text, content)?;
            add(text, &["]"])
        }
        Slot::Pair => add(text, &[PAIR]),
        Slot::Pairs => add(text, &["[", PAIR, "]"]),
    }
}

// The value of a part. No mark is known.
fn add_value(text: &mut String, part: &Field) -> Result<(), AllocError> {
    if part.key == "ctxt" {
        return add(text, &["[]"]);
    }
    add_slot(text, part.slot)
}

fn add_part(text: &mut String, part: &Field, fault: Option<Fault>) -> Result<(), AllocError> {
    match fault {
        Some(Fault::Missing) => Ok(()),
        Some(Fault::WrongType) => add(text, &[",\"", part.key, "\":0.5"]),
        Some(Fault::ExtraLevel) => {
            add(text, &[",\"", part.key, "\":["])?;
            add_value(text, part)?;
            add(text, &["]"])
        }
        None => {
            add(text, &[",\"", part.key, "\":"])?;
            add_value(text, part)
        }
    }
}

/// Adds a node of the kind, in which the part of a key has a fault.
pub fn add_node(
    text: &mut String,
    kind: Kind,
    key: &str,
    fault: Option<Fault>,
) -> Result<(), AllocError> {
    add_head(text, kind)?;
    for part in parts_of(kind) {
        let fault = if part.key == key { fault } else { None };
        add_part(text, part, fault)?;
    }
    add(text, &["}"])
}
