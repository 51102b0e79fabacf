//! Goes over the table of the tree: a node of each kind is read from JSON and written back, and each field of each
//! kind is spoilt in three ways, of which each must be a fault at its place.
mod faults;
mod samples;

use faults::{Fault, parts_of, place};
use jsbase_reader::{ReadError, read};
use jsbase_writer::write;
use json::Scratch;
use samples::add_node;
use std::alloc::Global;
use std::fmt::Write;
use swc_tree_marks::Globals;
use swc_tree_node::{Class, Content, Field, Kind, Slot, fields_of, kinds_of, name_of};

// More than there are kinds.
const MANY: usize = 200;

const FAULTS: [Fault; 3] = [Fault::WrongType, Fault::Missing, Fault::ExtraLevel];

// A kind, and a class that takes it.
#[derive(Clone, Copy)]
struct Placed {
    kind: Kind,
    class: Class,
}

// What was gone over, and which kinds and fields differ.
#[derive(Drop)]
struct Tally {
    kinds: u32,
    faults: u32,
    differ: u32,
    differing: String,
}

fn class_in(slot: Slot) -> Option<Class> {
    match slot {
        Slot::One(Content::Node(class))
        | Slot::Optional(Content::Node(class))
        | Slot::List(Content::Node(class))
        | Slot::Holes(Content::Node(class))
        | Slot::OptionalList(Content::Node(class)) => Some(class),
        _ => None,
    }
}

fn is_placed(placed: &[Placed], kind: Kind) -> bool {
    for known in placed {
        if known.kind == kind {
            return true;
        }
    }
    false
}

fn add_class(placed: &mut Vec<Placed>, class: Class) -> Option<()> {
    for kind in kinds_of(class) {
        if !is_placed(placed.as_slice(), *kind) {
            placed.push(Placed { kind: *kind, class }).ok()?;
        }
    }
    Some(())
}

fn add_fields(placed: &mut Vec<Placed>, kind: Kind) -> Option<()> {
    for field in fields_of(kind) {
        if let Some(class) = class_in(field.slot) {
            add_class(placed, class)?;
        }
    }
    Some(())
}

// Adds every kind that a program may hold.
fn add_all(placed: &mut Vec<Placed>) -> Option<()> {
    add_class(placed, Class::Module)?;
    add_class(placed, Class::Script)?;
    for i in 0..MANY {
        if let Some(next) = placed.get(i).copied() {
            add_fields(placed, next.kind)?;
        }
    }
    Some(())
}

// The JSON that a text is written as once it was read as a node of the class, or the place of its first fault.
fn read_and_written(alloc: Global, class: Class, text: &str) -> Option<String> {
    let globals = Globals::new(alloc);
    let mut scratch = Scratch::new(alloc);
    let value = json::Value::parse(alloc, text, &mut scratch).ok()?;
    match read(alloc, &globals, &value, Slot::One(Content::Node(class))) {
        Ok(node) => write(alloc, &node).ok(),
        Err(ReadError::Fault(path)) => path.to_text(alloc).ok(),
        Err(ReadError::NoMemory) => None,
    }
}

fn is_kept(alloc: Global, placed: Placed) -> Option<bool> {
    let mut text = String::new(alloc);
    add_node(&mut text, placed.kind, "", None).ok()?;
    let written = read_and_written(alloc, placed.class, text.as_str())?;
    let sorted = serde_json::Value::from_str(alloc, text.as_str())
        .ok()?
        .to_string(alloc)
        .ok()?;
    Some(written.as_str() == sorted.as_str())
}

fn is_at(found: &str, key: &str, inner: &str) -> bool {
    match found.strip_prefix("$.") {
        Some(rest) => rest.strip_prefix(key) == Some(inner),
        None => false,
    }
}

// What is found where the part of a key has a fault.
fn found(alloc: Global, placed: Placed, key: &str, fault: Fault) -> Option<String> {
    let mut text = String::new(alloc);
    add_node(&mut text, placed.kind, key, Some(fault)).ok()?;
    read_and_written(alloc, placed.class, text.as_str())
}

impl Tally {
    fn note(&mut self, kind: Kind, what: &str) -> Option<()> {
        self.differ = self.differ.saturating_add(1);
        self.differing.push_str(" ").ok()?;
        self.differing.push_str(name_of(kind)).ok()?;
        self.differing.push_str(what).ok()
    }

    fn add_fault(
        &mut self,
        alloc: Global,
        placed: Placed,
        part: &Field,
        fault: Fault,
    ) -> Option<()> {
        let Some(inner) = place(part.slot, fault) else {
            return Some(());
        };
        self.faults = self.faults.saturating_add(1);
        if is_at(
            found(alloc, placed, part.key, fault)?.as_str(),
            part.key,
            inner,
        ) {
            return Some(());
        }
        self.note(placed.kind, part.key)
    }

    fn add_part(&mut self, alloc: Global, placed: Placed, part: &Field) -> Option<()> {
        for fault in FAULTS {
            self.add_fault(alloc, placed, part, fault)?;
        }
        Some(())
    }

    fn add_kind(&mut self, alloc: Global, placed: Placed) -> Option<()> {
        self.kinds = self.kinds.saturating_add(1);
        if !is_kept(alloc, placed)? {
            self.note(placed.kind, "")?;
        }
        for part in parts_of(placed.kind) {
            self.add_part(alloc, placed, part)?;
        }
        Some(())
    }

    fn add_kinds(&mut self, alloc: Global, placed: &[Placed]) -> Option<()> {
        for each in placed {
            self.add_kind(alloc, *each)?;
        }
        Some(())
    }
}

/// Says how many kinds and faults there are, and which differ.
pub fn answer(alloc: Global) -> Option<String> {
    let mut placed = Vec::new(alloc);
    add_all(&mut placed)?;
    let mut tally = Tally {
        kinds: 0,
        faults: 0,
        differ: 0,
        differing: String::new(alloc),
    };
    tally.add_kinds(alloc, placed.as_slice())?;
    let (kinds, faults, differ) = (tally.kinds, tally.faults, tally.differ);
    let differing = tally.differing.as_str();
    format!(in alloc;
        "{kinds} kinds written as they were read, {faults} faults found, {differ} differ{differing}"
    ).ok()
}
