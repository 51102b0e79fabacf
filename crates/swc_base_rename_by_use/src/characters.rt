//! How often the characters of short texts are met in the names and texts of a program that stay. Keywords are left out: they change nothing.

use crate::known::Known;
use std::alloc::Global;
use swc_tree_marks::NoMemory;
use swc_tree_node::Node;

// The characters of short texts by their places.
const CHARACTERS: &str = "abcdefghijklmnopqrstuvwxyzABCDEFGHIJKLMNOPQRSTUVWXYZ$_0123456789";

/// The place of a character of short texts: `a` to `z`, `A` to `Z`, `$`, `_`, and then the digits.
pub fn place_of_character(character: u8) -> Option<usize> {
    match character {
        b'a'..=b'z' => Some((character - b'a') as usize),
        b'A'..=b'Z' => Some((character - b'A') as usize + 26),
        b'$' => Some(52),
        b'_' => Some(53),
        b'0'..=b'9' => Some((character - b'0') as usize + 54),
        _ => None,
    }
}

/// How often each character is met, by its place.
#[derive(Drop)]
pub struct Characters {
    pub counts: Vec<usize>,
}

// How often each byte is met.
#[derive(Drop)]
struct Bytes {
    counts: Vec<usize>,
}

impl Bytes {
    // A text is met.
    fn add(&mut self, text: &str) {
        for byte in text.as_bytes() {
            if let Some(count) = self.counts.get_mut(*byte as usize) {
                *count = count.saturating_add(1);
            }
        }
    }

    // A text was met that many times, and does not stay.
    fn take(&mut self, text: &str, times: usize) {
        for byte in text.as_bytes() {
            if let Some(count) = self.counts.get_mut(*byte as usize) {
                *count = count.saturating_sub(times);
            }
        }
    }

    #[cycle(meet)]
    fn meet(&mut self, node: &Node) {
        match node {
            Node::Identifier(_, ident) => self.add(ident.get().sym.as_str()),
            Node::Text(text) => self.add(text.as_str()),
            Node::List(nodes) | Node::Tree(_, nodes) => self.meet_all(nodes.as_slice()),
            _ => {}
        }
    }

    #[cycle(meet)]
    fn meet_all(&mut self, nodes: &[Node]) {
        for node in nodes {
            self.meet(node);
        }
    }

    // The counts of the characters of short texts.
    fn by_place(&self, alloc: Global) -> Result<Characters, NoMemory> {
        let mut counts = Vec::new(alloc);
        for character in CHARACTERS.as_bytes() {
            let count = match self.counts.get(*character as usize) {
                Some(count) => *count,
                None => 0,
            };
            counts.push(count)?;
        }
        Ok(Characters { counts })
    }
}

/// How often each character is met in the names and texts of a program with these statements, but for the ids that have slots.
///
/// # Errors
///
/// `NoMemory` where memory is refused.
pub fn characters_of(
    alloc: Global,
    items: &[Node],
    ids: &[Known<'_>],
) -> Result<Characters, NoMemory> {
    let counts = vec![in alloc; 0; 256]?;
    let mut met = Bytes { counts };
    met.meet_all(items);
    for known in ids {
        if known.slot.is_some() {
            met.take(known.text.as_str(), known.uses);
        }
    }
    met.by_place(alloc)
}
