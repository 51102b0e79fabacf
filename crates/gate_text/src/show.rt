//! Trees for people: a node in parentheses behind its kind, a list in brackets, `-` where nothing stands, `yes` and `no` for flags, a
//! word as it is spelled, a text in quotes, and a span as where it begins and ends.
use std::alloc::Global;
use std::fmt::Write;
use swc_tree_marks::{Ident, Span};
use swc_tree_node::{Kind, Node, name_of, spelling_of};

/// Whether spans are shown; else `.` stands for each.
#[derive(Clone, Copy, PartialEq, Eq)]
pub(crate) enum Spans {
    Shown,
    Left,
}

// What is shown, one thing behind another. Where memory is refused it lacks what had no room, and there is none in the end.
#[derive(Drop)]
struct Shows {
    spans: Spans,
    out: String,
    refused: bool,
}

/// A tree as a line.
pub(crate) fn shown(alloc: Global, spans: Spans, tree: &Node) -> Option<String> {
    let mut shows = Shows {
        spans,
        out: String::new(alloc),
        refused: false,
    };
    show(&mut shows, tree);
    let Shows { out, refused, .. } = shows;
    if refused { None } else { Some(out) }
}

impl Shows {
    fn add(&mut self, text: &str) {
        if self.out.push_str(text).is_err() {
            self.refused = true;
        }
    }

    fn add_span(&mut self, span: Span) {
        if self.spans == Spans::Left {
            return self.add(".");
        }
        let (lo, hi) = (span.lo, span.hi);
        if write!(self.out, "{lo}:{hi}").is_err() {
            self.refused = true;
        }
    }

    fn add_character(&mut self, character: char) {
        let code = character as u32;
        let is_escaped = code < 32 || code > 126 || code == 34 || code == 92;
        let is_refused = if is_escaped {
            write!(self.out, "\\u{{{code:x}}}").is_err()
        } else {
            self.out.push(character).is_err()
        };
        self.refused = self.refused || is_refused;
    }

    // A text in quotes, with escapes for quotes, backslashes and what is not ASCII.
    fn add_text(&mut self, text: &str) {
        self.add("\"");
        for character in text.chars() {
            self.add_character(character);
        }
        self.add("\"");
    }

    fn add_identifier(&mut self, kind: Kind, ident: &Ident) {
        self.add("(");
        self.add(name_of(kind));
        self.add(" ");
        self.add_span(ident.span);
        self.add(" ");
        self.add(ident.sym.as_str());
        self.add(")");
    }
}

#[cycle(show)]
fn show(shows: &mut Shows, node: &Node) {
    match node {
        Node::Absent => shows.add("-"),
        Node::Flag(flag) => shows.add(if *flag { "yes" } else { "no" }),
        Node::Word(word) => shows.add(spelling_of(*word)),
        Node::Text(text) => shows.add_text(text.as_str()),
        Node::Span(span) => shows.add_span(*span),
        Node::Identifier(kind, ident) => shows.add_identifier(*kind, ident.get()),
        Node::List(items) => {
            shows.add("[");
            show_all(shows, items.as_slice(), false);
            shows.add("]");
        }
        Node::Tree(kind, fields) => {
            shows.add("(");
            shows.add(name_of(*kind));
            show_all(shows, fields.as_slice(), true);
            shows.add(")");
        }
    }
}

// Nodes with blanks between them, and before the first where something stands there.
#[cycle(show)]
fn show_all(shows: &mut Shows, nodes: &[Node], is_behind: bool) {
    for i in 0..nodes.len() {
        if is_behind || i > 0 {
            shows.add(" ");
        }
        show(shows, &nodes[i]);
    }
}
