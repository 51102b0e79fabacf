//! Rows of `print_text_with_comments` over what `read_text` answers.
use crate::edit::two_texts;
use crate::print::is_read_as;
use crate::read::{said, told};
use crate::words::{Asked, comments_of};
use std::alloc::Global;
use std::fmt::Write;
use swc_tree_node::Node;
use text_commented::{At, Left, Printed, Remark, print_text_with_comments, remarks_of};
use text_comments::find_comments;
use text_printer::Layout;
use text_source::read_text;

// What stands behind the text of a line: where a comment is, by hand, as `1: // a` or `:2 /* b */`.
fn remark_of(line: &str) -> Option<Remark<'_>> {
    let (place, text) = line.split_once(" ")?;
    let at = match place.strip_prefix(":") {
        Some(place) => At::Trails(place.parse().ok()?),
        None => At::Leads(place.strip_suffix(":")?.parse().ok()?),
    };
    Some(Remark {
        text: text.as_bytes(),
        at,
    })
}

fn add_left(alloc: Global, remarks: &[Remark<'_>], left: &Left, shown: &mut String) -> Option<()> {
    let remark = remarks.get(left.number)?;
    let text = String::from_utf8_lossy(alloc, remark.text).ok()?;
    let (why, text) = (left.why, text.as_str());
    write!(shown, "left: {why:?} {text}\n").ok()
}

fn show(alloc: Global, remarks: &[Remark<'_>], printed: &Printed) -> Option<String> {
    let mut shown = String::from_utf8_lossy(alloc, printed.text.as_slice()).ok()?;
    for left in printed.left.as_slice() {
        add_left(alloc, remarks, left, &mut shown)?;
    }
    Some(shown)
}

fn print(
    alloc: Global,
    asked: Asked,
    layout: Layout,
    tree: &Node,
    remarks: &[Remark<'_>],
) -> Option<String> {
    let goal = comments_of(asked.goal);
    match print_text_with_comments(alloc, goal, layout, tree, remarks) {
        Ok(printed) => {
            if is_read_as(alloc, asked, printed.text.as_slice(), tree) {
                show(alloc, remarks, &printed)
            } else {
                said(alloc, "what is printed is not read as the tree")
            }
        }
        Err(_) => None,
    }
}

// The text of a tree with a text's comments.
fn with_its_own(
    alloc: Global,
    asked: Asked,
    layout: Layout,
    text: &[u8],
    tree: &Node,
) -> Option<String> {
    let comments = find_comments(alloc, comments_of(asked.goal), text, tree).ok()?;
    let remarks = remarks_of(alloc, text, tree, comments.as_slice()).ok()?;
    print(alloc, asked, layout, tree, remarks.as_slice())
}

/// The text of a text's tree with its comments, or the text's fault.
pub(crate) fn commented(
    alloc: Global,
    asked: Asked,
    layout: Layout,
    text: &[u8],
) -> Option<String> {
    match read_text(alloc, asked.goal, asked.depth, text) {
        Ok(tree) => with_its_own(alloc, asked, layout, text, &tree),
        Err(fault) => told(alloc, text, fault),
    }
}

// The text of a tree with comments, each with its place in a line.
fn with_those_of(alloc: Global, asked: Asked, tree: &Node, lines: &str) -> Option<String> {
    let mut remarks = Vec::new(alloc);
    for line in lines.split("\n") {
        remarks.push(remark_of(line)?).ok()?;
    }
    print(alloc, asked, Layout::Lines, tree, remarks.as_slice())
}

/// The text of a text's tree with comments that stand in lines behind it, each with its place; or the text's fault.
pub(crate) fn set(alloc: Global, asked: Asked, text: &[u8]) -> Option<String> {
    let (first, second) = two_texts(text)?;
    let lines = String::from_utf8_lossy(alloc, second).ok()?;
    match read_text(alloc, asked.goal, asked.depth, first) {
        Ok(tree) => with_those_of(alloc, asked, &tree, lines.as_str()),
        Err(fault) => told(alloc, first, fault),
    }
}
