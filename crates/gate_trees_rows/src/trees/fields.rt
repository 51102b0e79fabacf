//! What the fields of a node are, said in one line.
use std::alloc::Global;
use std::fmt::Write;
use swc_tree_node::{Node, name_of, spelling_of};

// Keys that are asked for.
const KEYS: [&str; 6] = ["span", "value", "raw", "op", "prefix", "arg"];

// Says what a part is, if it is a leaf or a node.
fn add_part(text: &mut String, part: &Node) -> Option<()> {
    if let Some(span) = part.as_span() {
        let (lo, hi) = (span.lo, span.hi);
        return write!(text, " {lo} to {hi}").ok();
    }
    if let Some(flag) = part.as_flag() {
        return write!(text, " {flag}").ok();
    }
    let said = match (part.as_text(), part.as_word(), part.kind()) {
        (Some(said), _, _) => said,
        (None, Some(word), _) => spelling_of(word),
        (None, None, Some(kind)) => name_of(kind),
        (None, None, None) => "nothing",
    };
    write!(text, " {said}").ok()
}

/// Says how many fields a node has, and what those are that are asked for.
pub fn text_of(alloc: Global, node: &Node) -> Option<String> {
    let count = node.children().len();
    let mut text = format!(in alloc; "{count} fields:").ok()?;
    for key in KEYS {
        if let Some(part) = node.field(key) {
            write!(text, " {key}").ok()?;
            add_part(&mut text, part)?;
        }
    }
    Some(text)
}
