//! Reading two versions of a program, of which something is asked.
ghost use Rattle.std.specs.Prelude.{IfOk, codes};
ghost use Rattle.json.specs.Value.{value_view};
ghost use Rattle.jsbase_form.specs.Known.{MarksKnown};
ghost use Rattle.jsbase_form.specs.Reads.{at, key};
ghost use Rattle.jsbase_form.specs.Trees.{value_of};
ghost use Rattle.swc_tree_node.specs.Fits.{Fits};
ghost use Rattle.jsbase_reader.specs.Answers.{Gives};
ghost use Rattle.jsbase_reader.specs.Parts.{members_in};
ghost use Rattle.jsbase_reader.specs.Versions.{asked_in, no_marks, spelling_at, tree_in, versions_of, versions_in, versions_in_text};

use crate::envelope::{option_in, parse, read_marks, table_in};
use crate::error::{ReadError, fault, under};
use crate::gathered::read_streamed;
use crate::leaves::read_flag;
use crate::nodes::{member, read};
use jsbase_form::Step;
use json::{Scratch, Value};
use std::alloc::Global;
use swc_tree_marks::Globals;
use swc_tree_node::{Class, Content, Node, Slot};

/// Two versions of a program, and what is asked of them.
#[derive(Debug, Drop)]
pub struct Versions {
    /// Whether names that the program's own scope declares are to keep their texts.
    pub keep_top: bool,
    /// Whether literals of one value that are spelled otherwise are to differ.
    pub spelling: bool,
    pub before: Node,
    pub after: Node,
}

// A flag, or true where there is none.
fn read_spelling(alloc: Global, value: &Value<'_>) -> Result<bool, ReadError>
    ensures { Gives result (spelling_at (value_view value.now)) }
{
    if value.is_null() {
        Ok(true)
    } else {
        read_flag(alloc, value)
    }
}

// Whether spellings count.
fn spelling_in(alloc: Global, object: &Value<'_>) -> Result<bool, ReadError>
    ensures { Gives result (at (key (codes "spelling")) (spelling_at (value_of (codes "spelling") (members_in (value_view object.now))))) }
{
    match member(object, "spelling") {
        Some(value) => under(Step::Key("spelling"), read_spelling(alloc, value)),
        None => Ok(true),
    }
}

// What is asked of the two versions: whether names of the program's own scope keep their texts, and whether spellings count. The marks
// are read before, and let go.
pub(crate) fn read_asked(alloc: Global, object: &Value<'_>) -> Result<(bool, bool), ReadError>
    ensures { Gives result (asked_in (members_in (value_view object.now))) }
{
    let globals = table_in(alloc, object)?;
    let _marks = read_marks(alloc, &globals, object)?;
    let keep_top = option_in(alloc, object, "keepTop")?;
    let spelling = spelling_in(alloc, object)?;
    Ok((keep_top, spelling))
}

// The tree that a key holds.
fn read_tree(
    alloc: Global,
    globals: &Globals,
    class: Class,
    object: &Value<'_>,
    name: &'static str,
) -> Result<Node, ReadError>
    ensures { Gives result (tree_in globals.now class name.now (members_in (value_view object.now))) }
{
    let slot = Slot::One(Content::Node(class));
    match member(object, name) {
        Some(tree) => under(Step::Key(name), read(alloc, globals, tree, slot)),
        None => under(Step::Key(name), fault(alloc)),
    }
}

// The versions among the members of an object. With no mark in the table, a context that has one is a fault.
fn read_members(alloc: Global, class: Class, object: &Value<'_>) -> Result<Versions, ReadError>
    ensures { Gives result (versions_of class (members_in (value_view object.now))) }
{
    let (keep_top, spelling) = read_asked(alloc, object)?;
    let no_marks = Globals::new(alloc);
    let before = read_tree(alloc, &no_marks, class, object, "before")?;
    let after = read_tree(alloc, &no_marks, class, object, "after")?;
    Ok(Versions {
        keep_top,
        spelling,
        before,
        after,
    })
}

fn read_object(alloc: Global, class: Class, value: &Value<'_>) -> Result<Versions, ReadError>
    ensures { Gives result (versions_in class (value_view value.now)) }
{
    match value {
        Value::Object(_) => read_members(alloc, class, value),
        Value::Null | Value::Bool(_) | Value::Number(_) | Value::String(_) | Value::Array(_) => {
            fault(alloc)
        }
    }
}

// The versions that a text has: statement by statement, or by way of its JSON value where one of the trees is at fault or another
// member: the value tells the path.
fn read_text(alloc: Global, class: Class, bytes: &[u8]) -> Result<Versions, ReadError>
    ensures { Gives result (versions_in_text class bytes.now) }
{
    let Ok(text) = str::from_utf8(bytes) else {
        return fault(alloc);
    };
    let mut scratch = Scratch::new(alloc);
    if let Some(versions) = read_streamed(alloc, class, text, &mut scratch)? {
        return Ok(versions);
    }
    let value = parse(alloc, bytes, &mut scratch)?;
    read_object(alloc, class, &value)
}

/// The two versions of a program that a text has, each a tree of a class in which no identifier has a context.
///
/// Its members are read in this order: `marks`, `unresolved`, `top`, `keepTop`, `spelling`, `before`, `after`; others are let go. A mark in a
/// context is a fault, whatever the table has.
///
/// # Errors
///
/// As `read_bytes`.
pub fn read_versions(alloc: Global, class: Class, bytes: &[u8]) -> Result<Versions, ReadError>
    ensures versions { Gives result (versions_in_text class bytes.now) }
    ensures before { IfOk result (λ v. Fits v.before (Slot.One (Content.Node class))) }
    ensures after { IfOk result (λ v. Fits v.after (Slot.One (Content.Node class))) }
    ensures clean_before { IfOk result (λ v. MarksKnown no_marks v.before) }
    ensures clean_after { IfOk result (λ v. MarksKnown no_marks v.after) }
{
    let versions = read_text(alloc, class, bytes)?;
    Ok(versions)
}
