//! Reading envelopes: a tree with its table of marks and its options.
ghost use Rattle.std.specs.Prelude.{IfOk, codes};
ghost use Rattle.json.specs.Value.{value_view, items_view};
ghost use Rattle.jsbase_form.specs.Leaves.{mark_at};
ghost use Rattle.jsbase_form.specs.Reads.{at, key};
ghost use Rattle.jsbase_form.specs.Tables.{pairs_of, pairs_at, table_at};
ghost use Rattle.jsbase_form.specs.Trees.{seen, value_of};
ghost use Rattle.jsbase_form.specs.Known.{MarksKnown};
ghost use Rattle.swc_tree_node.specs.Fits.{Fits};
ghost use Rattle.jsbase_reader.specs.Answers.{Gives, GivesView};
ghost use Rattle.jsbase_reader.specs.Parts.{members_in};
ghost use Rattle.jsbase_reader.specs.Envelopes.{option_at, said_at, marks_in, options_in, envelope_around, envelope_of, envelope_in, text_in, envelope_in_text};

use crate::error::{ReadError, fault, under};
use crate::leaves::{items_of, read_flag, read_mark, read_pair};
use crate::nodes::{member, read};
use crate::streamed::read_streamed;
use jsbase_form::Step;
use json::{Error, Reader, Scratch, Value};
use std::alloc::Global;
use swc_tree_items::Items;
use swc_tree_marks::{Globals, Mark, MarkError};
use swc_tree_node::{Class, Content, Node, Slot};

/// A tree with what a pass over it has to know.
#[derive(Debug, Drop)]
pub struct Envelope {
    pub globals: Globals,
    /// The mark of names that no scope declares.
    pub unresolved: Mark,
    /// The mark of the outermost scope.
    pub top: Mark,
    pub keep_class_names: bool,
    pub ignore_eval: bool,
    /// Whether names that the program's own scope declares are to keep their texts, where that is said.
    pub keep_top: Option<bool>,
    pub tree: Node,
}

fn read_rows(alloc: Global, values: &[Value<'_>]) -> Result<Items<(u32, u32)>, ReadError>
    ensures { Gives result (pairs_of 0 (items_view values.now)) }
{
    let mut rows = Items::with_capacity(alloc, values.len())?;
    for (i, value) in values.iter().enumerate() {
        let row = under(Step::Index(i), read_pair(alloc, value))?;
        rows.push(row)?;
    }
    Ok(rows)
}

#[tactic(auto, unfolding(jsbase_form::specs::Tables::pairs_at))]
fn read_pairs(alloc: Global, value: &Value<'_>) -> Result<Items<(u32, u32)>, ReadError>
    ensures { Gives result (pairs_at (value_view value.now)) }
{
    match items_of(value) {
        Some(values) => read_rows(alloc, values),
        None => fault(alloc),
    }
}

// The table of marks: all its pairs are read before the first of them is checked.
#[tactic(auto, using(crate::proofs::Tables::good_table, crate::proofs::Tables::bad_table), unfolding(jsbase_form::specs::Tables::table_at))]
fn read_globals(alloc: Global, value: &Value<'_>) -> Result<Globals, ReadError>
    ensures { Gives result (table_at (value_view value.now)) }
{
    let rows = read_pairs(alloc, value)?;
    match Globals::from_table(alloc, rows.as_slice()) {
        Ok(globals) => Ok(globals),
        Err(MarkError::BadTable(index)) => under(Step::Index(index), fault(alloc)),
        Err(MarkError::NoMemory | MarkError::MarksSpent) => Err(ReadError::NoMemory),
    }
}

// A flag, or false where there is none.
fn read_option(alloc: Global, value: &Value<'_>) -> Result<bool, ReadError>
    ensures { Gives result (option_at (value_view value.now)) }
{
    if value.is_null() {
        Ok(false)
    } else {
        read_flag(alloc, value)
    }
}

// A flag, if there is one.
fn read_said(alloc: Global, value: &Value<'_>) -> Result<Option<bool>, ReadError>
    ensures { Gives result (said_at (value_view value.now)) }
{
    if value.is_null() {
        return Ok(None);
    }
    let flag = read_flag(alloc, value)?;
    Ok(Some(flag))
}

// The table of marks of an envelope.
#[tactic(auto, unfolding(jsbase_form::specs::Tables::table_at, jsbase_form::specs::Tables::pairs_at))]
pub(crate) fn table_in(alloc: Global, object: &Value<'_>) -> Result<Globals, ReadError>
    ensures { Gives result (at (key (codes "marks")) (table_at (value_of (codes "marks") (members_in (value_view object.now))))) }
{
    match member(object, "marks") {
        Some(value) => under(Step::Key("marks"), read_globals(alloc, value)),
        None => under(Step::Key("marks"), fault(alloc)),
    }
}

// The mark that a key holds.
#[tactic(auto, unfolding(jsbase_form::specs::Leaves::mark_at, jsbase_form::specs::Leaves::number_at))]
fn mark_in(
    alloc: Global,
    globals: &Globals,
    object: &Value<'_>,
    name: &'static str,
) -> Result<Mark, ReadError>
    ensures { Gives result (at (key name.now) (mark_at globals.now (value_of name.now (members_in (value_view object.now))))) }
{
    match member(object, name) {
        Some(value) => under(Step::Key(name), read_mark(alloc, globals, value)),
        None => under(Step::Key(name), fault(alloc)),
    }
}

// The option that a key holds; where it holds none it is false.
pub(crate) fn option_in(
    alloc: Global,
    object: &Value<'_>,
    name: &'static str,
) -> Result<bool, ReadError>
    ensures { Gives result (at (key name.now) (option_at (value_of name.now (members_in (value_view object.now))))) }
{
    match member(object, name) {
        Some(value) => under(Step::Key(name), read_option(alloc, value)),
        None => Ok(false),
    }
}

// The option that a key holds, if it holds one.
fn said_in(alloc: Global, object: &Value<'_>, name: &'static str) -> Result<Option<bool>, ReadError>
    ensures { Gives result (at (key name.now) (said_at (value_of name.now (members_in (value_view object.now))))) }
{
    match member(object, name) {
        Some(value) => under(Step::Key(name), read_said(alloc, value)),
        None => Ok(None),
    }
}

// The mark of names that no scope declares, and that of the outermost scope.
pub(crate) fn read_marks(
    alloc: Global,
    globals: &Globals,
    object: &Value<'_>,
) -> Result<(Mark, Mark), ReadError>
    ensures { Gives result (marks_in globals.now (members_in (value_view object.now))) }
{
    let unresolved = mark_in(alloc, globals, object, "unresolved")?;
    let top = mark_in(alloc, globals, object, "top")?;
    Ok((unresolved, top))
}

// Whether classes keep their names, whether `eval` is ignored, and whether names of the program's own scope are to stay, if it is said.
pub(crate) fn read_options(
    alloc: Global,
    object: &Value<'_>,
) -> Result<(bool, bool, Option<bool>), ReadError>
    ensures { Gives result (options_in (members_in (value_view object.now))) }
{
    let keep_class_names = option_in(alloc, object, "keepClassNames")?;
    let ignore_eval = option_in(alloc, object, "ignoreEval")?;
    let keep_top = said_in(alloc, object, "keepTop")?;
    Ok((keep_class_names, ignore_eval, keep_top))
}

// The tree of an envelope.
fn read_tree(
    alloc: Global,
    globals: &Globals,
    class: Class,
    object: &Value<'_>,
) -> Result<Node, ReadError>
    ensures { Gives result (at (key (codes "tree")) (seen globals.now (value_of (codes "tree") (members_in (value_view object.now))) (Slot.One (Content.Node class)))) }
{
    let slot = Slot::One(Content::Node(class));
    match member(object, "tree") {
        Some(tree) => under(Step::Key("tree"), read(alloc, globals, tree, slot)),
        None => under(Step::Key("tree"), fault(alloc)),
    }
}

// The envelope of the members of an object.
#[tactic(auto, unfolding(crate::specs::Envelopes::envelope_of))]
pub(crate) fn read_members(
    alloc: Global,
    class: Class,
    object: &Value<'_>,
) -> Result<Envelope, ReadError>
    ensures { Gives result (envelope_of class (members_in (value_view object.now))) }
{
    let globals = table_in(alloc, object)?;
    let (unresolved, top) = read_marks(alloc, &globals, object)?;
    let (keep_class_names, ignore_eval, keep_top) = read_options(alloc, object)?;
    let tree = read_tree(alloc, &globals, class, object)?;
    Ok(Envelope {
        globals,
        unresolved,
        top,
        keep_class_names,
        ignore_eval,
        keep_top,
        tree,
    })
}

// The envelope round a tree, of its table of marks and of its other members.
pub(crate) fn read_around(
    alloc: Global,
    globals: Globals,
    others: &Value<'_>,
    tree: Node,
) -> Result<Envelope, ReadError>
    ensures { Gives result (envelope_around globals (members_in (value_view others.now)) tree) }
{
    let (unresolved, top) = read_marks(alloc, &globals, others)?;
    let (keep_class_names, ignore_eval, keep_top) = read_options(alloc, others)?;
    Ok(Envelope {
        globals,
        unresolved,
        top,
        keep_class_names,
        ignore_eval,
        keep_top,
        tree,
    })
}

fn read_object(alloc: Global, class: Class, value: &Value<'_>) -> Result<Envelope, ReadError>
    ensures { Gives result (envelope_in class (value_view value.now)) }
{
    match value {
        Value::Object(_) => read_members(alloc, class, value),
        Value::Null | Value::Bool(_) | Value::Number(_) | Value::String(_) | Value::Array(_) => {
            fault(alloc)
        }
    }
}

/// The envelope that a JSON value is, whose tree is of a class.
///
/// Its members are read in this order: `marks`, `unresolved`, `top`, `keepClassNames`, `ignoreEval`,
/// `keepTop`, `tree`. Others are let go.
///
/// # Errors
///
/// `Fault` with the path to the first fault; `NoMemory` where memory is refused.
pub fn read_envelope(alloc: Global, class: Class, value: &Value<'_>) -> Result<Envelope, ReadError>
    ensures envelope { Gives result (envelope_in class (value_view value.now)) }
    ensures fits { IfOk result (λ e. Fits e.tree (Slot.One (Content.Node class))) }
    ensures known { IfOk result (λ e. MarksKnown e.globals e.tree) }
{
    let envelope = read_object(alloc, class, value)?;
    Ok(envelope)
}

/// How deep arrays and objects may nest.
pub(crate) const MAX_DEPTH: usize = 127;

// The JSON value of a text.
pub(crate) fn parse<'a>(
    alloc: Global,
    bytes: &'a [u8],
    scratch: &'a mut Scratch,
) -> Result<Value<'a>, ReadError>
    ensures { GivesView result (text_in bytes.now) }
{
    let Ok(text) = str::from_utf8(bytes) else {
        return fault(alloc);
    };
    let mut reader = Reader::new(text, scratch)?;
    match Value::read(alloc, &mut reader, MAX_DEPTH) {
        Ok(value) => match reader.next() {
            Some(_) => fault(alloc),
            None => Ok(value),
        },
        Err(Error::OutOfMemory) => Err(ReadError::NoMemory),
        Err(Error::Invalid | Error::TooLong | Error::DuplicateKey) => fault(alloc),
    }
}

// The envelope of a text: statement by statement, or by way of its JSON value where a text is other than programs write it, or where
// the tree itself is at fault: the value tells the path.
fn read_text(alloc: Global, class: Class, bytes: &[u8]) -> Result<Envelope, ReadError>
    ensures { Gives result (envelope_in_text class bytes.now) }
{
    let Ok(text) = str::from_utf8(bytes) else {
        return fault(alloc);
    };
    let mut scratch = Scratch::new(alloc);
    if let Some(envelope) = read_streamed(alloc, class, text, &mut scratch)? {
        return Ok(envelope);
    }
    let value = parse(alloc, bytes, &mut scratch)?;
    read_object(alloc, class, &value)
}

/// The envelope that a text is, whose tree is of a class. What is no JSON is refused where that shows; only a text with a fault in
/// the tree itself is read twice, and the second reading finds the path.
///
/// # Errors
///
/// `Fault` with the path to the first fault, which is empty where the bytes are not UTF-8 or no JSON, or
/// nest deeper than 127 arrays and objects; `NoMemory` where memory is refused.
pub fn read_bytes(alloc: Global, class: Class, bytes: &[u8]) -> Result<Envelope, ReadError>
    ensures envelope { Gives result (envelope_in_text class bytes.now) }
    ensures fits { IfOk result (λ e. Fits e.tree (Slot.One (Content.Node class))) }
    ensures known { IfOk result (λ e. MarksKnown e.globals e.tree) }
{
    let envelope = read_text(alloc, class, bytes)?;
    Ok(envelope)
}
