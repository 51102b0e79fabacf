//! Reading an envelope statement by statement. The JSON value of each statement is let go before the next one is read, so that
//! no value of the whole text is ever made: it would be the largest thing in memory.
//!
//! This is for texts as programs write them: anything else, and a fault in the tree itself, is left to the reading of the whole value.
ghost use Rattle.std.specs.Prelude.{◌≡◌, ◌≢◌, ◌<◌, ◌∷◌, [], length, None, Err, Ok, Some, IfOk, IsErrOf, OnOk};
ghost use Rattle.std.specs.Bool.{MatchBool};
ghost use Rattle.std.specs.List.{list_any};
ghost use Rattle.std.specs.Str.{bytes_eq};
ghost use Rattle.json.specs.Json.{items, value as value_in};
ghost use Rattle.json.specs.Token.{begin_object as object_begins, begin_array as array_begins};
ghost use Rattle.json.specs.Value.{members_view, value_view};
ghost use Rattle.jsbase_form.specs.Reads.{Read};
ghost use Rattle.swc_tree_node.specs.declared.node.Node.{List as Many};
ghost use Rattle.jsbase_reader.specs.declared.streamed.Stop.TheVariants as stop;
ghost use Rattle.jsbase_reader.specs.Answers.{Gives, GivesIfRead};
ghost use Rattle.jsbase_reader.specs.Parts.{members_in};
ghost use Rattle.jsbase_reader.specs.Streamed.{AreItems, Ends, HasStatements, IsItem, IsMade, IsMember, IsProgram, IsWhole, LeadsIfAsked, NoMembers, envelope_in_document, envelope_in_tokens, joined as are_joined, table_among};

use crate::envelope::{Envelope, MAX_DEPTH, read_around, read_members, read_options, table_in};
use crate::error::{ReadError, fault};
use crate::leaves::{is_marked, read_mark};
use crate::nodes::{member, read, read_kind, read_member};
use json::{Error, Invalid, Reader, Scratch, Token, Value};
use std::alloc::{AllocError, AllocFailed, Global};
use swc_tree_items::Items;
use swc_tree_marks::Globals;
use swc_tree_node::{Class, Content, Kind, Node, Slot};

/// Why no envelope was read statement by statement.
#[derive(Clone, Copy, Debug, Drop)]
pub(crate) enum Stop {
    /// Memory was refused.
    NoMemory,
    /// The text is no JSON, or nests too deep.
    NoJson,
    /// The text is to be read by way of its whole value.
    Otherwise,
}

impl From<AllocError> for Stop {
    ghost use Rattle.jsbase_reader.specs.declared.streamed.Stop.TheVariants.{NoMemory};
    ghost use Rattle.std.specs.Prelude.{◌≡◌};

    ghost from_gives = { λ _ s. s ≡ NoMemory };

    fn from(_refused: AllocError) -> Stop {
        Stop::NoMemory
    }
}

impl<T: Drop> From<AllocFailed<T>> for Stop {
    ghost use Rattle.jsbase_reader.specs.declared.streamed.Stop.TheVariants.{NoMemory};
    ghost use Rattle.std.specs.Prelude.{◌≡◌};

    ghost from_gives = { λ _ s. s ≡ NoMemory };

    fn from(_refused: AllocFailed<T>) -> Stop {
        Stop::NoMemory
    }
}

impl From<Invalid> for Stop {
    ghost use Rattle.jsbase_reader.specs.declared.streamed.Stop.TheVariants.{NoJson};
    ghost use Rattle.std.specs.Prelude.{◌≡◌};

    ghost from_gives = { λ _ s. s ≡ NoJson };

    fn from(_invalid: Invalid) -> Stop {
        Stop::NoJson
    }
}

pub(crate) type Member<'a> = (&'a str, Value<'a>);

// How deep arrays and objects may nest in a member of the envelope, in one of the program, and in a statement.
pub(crate) const IN_ENVELOPE: usize = MAX_DEPTH - 1;

const IN_PROGRAM: usize = MAX_DEPTH - 2;

const IN_STATEMENTS: usize = MAX_DEPTH - 3;

pub(crate) fn object_begins(reader: &mut Reader<'_>) -> Result<(), Stop>
    ensures begins { OnOk result (reader.old ≡ object_begins ∷ reader.new) }
    ensures json { result ≢ Err stop.NoJson }
{
    match reader.next() {
        Some(Token::BeginObject) => Ok(()),
        _ => Err(Stop::Otherwise),
    }
}

fn array_begins(reader: &mut Reader<'_>) -> Result<(), Stop>
    ensures begins { OnOk result (reader.old ≡ array_begins ∷ reader.new) }
    ensures json { result ≢ Err stop.NoJson }
{
    match reader.next() {
        Some(Token::BeginArray) => Ok(()),
        _ => Err(Stop::Otherwise),
    }
}

// What was read, unless it is at fault: a fault is told by the reading of the whole value.
pub(crate) fn faultless<T: Drop>(read: Result<T, ReadError>) -> Result<T, Stop>
    ensures read { (r : Read T) → Gives read r → IfOk result (λ t. r ≡ Ok t) }
    ensures json { result ≢ Err stop.NoJson }
{
    match read {
        Ok(value) => Ok(value),
        Err(ReadError::NoMemory) => Err(Stop::NoMemory),
        Err(ReadError::Fault(_path)) => Err(Stop::Otherwise),
    }
}

// The value that is next. It stands apart from what is done with the value, so that the room that reading takes on the stack is
// given back before that.
#[inline(never)]
fn next_value<'a>(alloc: Global, reader: &mut Reader<'a>, depth: usize) -> Result<Value<'a>, Stop>
    ensures read { IfOk result (λ v. value_in depth reader.old ≡ Some (value_view v, reader.new)) }
    ensures shorter { OnOk result (length reader.new < length reader.old) }
    ensures json { IsErrOf result stop.NoJson → value_in depth reader.old ≡ None }
{
    match Value::read(alloc, reader, depth) {
        Ok(value) => Ok(value),
        Err(Error::OutOfMemory) => Err(Stop::NoMemory),
        Err(Error::Invalid | Error::TooLong | Error::DuplicateKey) => Err(Stop::NoJson),
    }
}

// A member of an object, behind those that were read before it.
pub(crate) fn read_value<'a>(
    alloc: Global,
    reader: &mut Reader<'a>,
    depth: usize,
    key: &'a str,
    members: &mut Vec<Member<'a>>,
) -> Result<(), Stop>
    ensures read { OnOk result (IsMember depth key.now reader.old reader.new members.old.items members.new.items) }
    ensures json { IsErrOf result stop.NoJson → value_in depth reader.old ≡ None }
{
    let value = next_value(alloc, reader, depth)?;
    members.push((key, value))?;
    Ok(())
}

// The members of an object before that of a key, or all that are left where no key is looked for, and whether that key is there: its
// value is next then.
fn members_until<'a>(
    alloc: Global,
    reader: &mut Reader<'a>,
    depth: usize,
    key: Option<&str>,
) -> Result<(Vec<Member<'a>>, bool), Stop>
    ensures read { IfOk result (λ read. MatchBool read.1 (LeadsIfAsked depth key.entry (members_view read.0.items) reader.old reader.new) (Ends depth (members_view read.0.items) reader.old reader.new)) }
    ensures json { IsErrOf result stop.NoJson → NoMembers depth reader.old }
{
    let mut before = Vec::new(alloc);
    while let Some(next) = reader.next_key()? {
        if key == Some(next) {
            return Ok((before, true));
        }
        read_value(alloc, reader, depth, next, &mut before)?;
    }
    Ok((before, false))
}

// The node of one item more of an array.
fn read_item(
    alloc: Global,
    globals: &Globals,
    reader: &mut Reader<'_>,
    depth: usize,
    slot: Slot,
    nodes: &mut Items<Node>,
) -> Result<(), Stop>
    ensures read { OnOk result (IsItem depth globals.now slot reader.old reader.new nodes.old nodes.new) }
    ensures json { IsErrOf result stop.NoJson → value_in depth reader.old ≡ None }
{
    let value = next_value(alloc, reader, depth)?;
    let node = faultless(read(alloc, globals, &value, slot))?;
    nodes.push(node)?;
    Ok(())
}

// The same nodes, in a list with no more room than they take.
fn exact(alloc: Global, nodes: Items<Node>) -> Result<Items<Node>, AllocError>
    ensures { IfOk result (λ list. list ≡ nodes) }
{
    let mut list = Items::with_capacity(alloc, nodes.len())?;
    list.append(nodes)?;
    Ok(list)
}

// The nodes of the items of an array.
fn read_items(
    alloc: Global,
    globals: &Globals,
    reader: &mut Reader<'_>,
    depth: usize,
    content: Content,
) -> Result<Items<Node>, Stop>
    ensures read { IfOk result (λ nodes. AreItems depth globals.now content reader.old reader.new nodes) }
    ensures json { IsErrOf result stop.NoJson → items (value_in depth) (length reader.old) reader.old ≡ None }
{
    let mut nodes = Items::new(alloc);
    while !reader.take_end_array() {
        read_item(
            alloc,
            globals,
            reader,
            depth,
            Slot::One(content),
            &mut nodes,
        )?;
    }
    let nodes = exact(alloc, nodes)?;
    Ok(nodes)
}

// Whether one of the members has a key.
fn has_key(members: &[Member<'_>], key: &str) -> bool
    ensures { result ≡ list_any (λ m. bytes_eq m.0.now key.now) members.now }
{
    members.iter().any(|member| member.0 == key)
}

// The members of an object but for one, as an object: those before it and those behind it.
fn joined<'a>(before: Value<'a>, behind: Vec<Member<'a>>) -> Result<Value<'a>, Stop>
    ensures all { IfOk result (λ v. members_in (value_view v) ≡ are_joined (members_in (value_view before.entry)) (members_view behind.entry.items)) }
    ensures json { result ≢ Err stop.NoJson }
{
    let mut behind = behind;
    match before {
        Value::Object(mut all) => {
            all.append(&mut behind)?;
            Ok(Value::Object(all))
        }
        Value::Array(_) | Value::Null | Value::Bool(_) | Value::Number(_) | Value::String(_) => {
            Err(Stop::Otherwise)
        }
    }
}

// What the statements of a program are.
fn statements_of(class: Class) -> Result<Content, Stop>
    ensures content { IfOk result (λ content. HasStatements class content) }
    ensures json { result ≢ Err stop.NoJson }
{
    match class {
        Class::Module => Ok(Content::Node(Class::ModuleItem)),
        Class::Script => Ok(Content::Node(Class::Stmt)),
        _ => Err(Stop::Otherwise),
    }
}

// The three fields of a program.
fn three(
    alloc: Global,
    span: Node,
    body: Items<Node>,
    shebang: Node,
) -> Result<Items<Node>, AllocError>
    ensures { IfOk result (λ fields. fields ≡ span ∷ Many body ∷ shebang ∷ []) }
{
    let mut fields = Items::with_capacity(alloc, 3)?;
    fields.push(span)?;
    fields.push(Node::List(body))?;
    fields.push(shebang)?;
    Ok(fields)
}

// A program of its statements and its other members.
fn program_of(
    alloc: Global,
    globals: &Globals,
    class: Class,
    others: &Value<'_>,
    body: Items<Node>,
) -> Result<Node, Stop>
    ensures made { IfOk result (λ tree. IsMade globals.now class (members_in (value_view others.now)) body tree) }
    ensures json { result ≢ Err stop.NoJson }
{
    let kind = faultless(read_kind(alloc, class, others))?;
    let span = Slot::One(Content::Span);
    let span = faultless(read_member(alloc, globals, others, "span", span))?;
    let shebang = Slot::Optional(Content::Text);
    let shebang = faultless(read_member(alloc, globals, others, "shebang", shebang))?;
    let fields = three(alloc, span, body, shebang)?;
    Ok(Node::Tree(kind, fields))
}

// Stops at a kind before the statements that is not of the class, before a statement is read.
fn check_kind(alloc: Global, class: Class, before: &Value<'_>) -> Result<(), Stop>
    ensures { result ≢ Err stop.NoJson }
{
    if member(before, "type").is_some() {
        let _kind = faultless(read_kind(alloc, class, before))?;
    }
    Ok(())
}

// The program of a class whose value is next.
pub(crate) fn read_program(
    alloc: Global,
    globals: &Globals,
    class: Class,
    reader: &mut Reader<'_>,
) -> Result<Node, Stop>
    ensures read { IfOk result (λ tree. IsProgram IN_ENVELOPE globals.now class reader.old reader.new tree) }
    ensures json { IsErrOf result stop.NoJson → value_in IN_ENVELOPE reader.old ≡ None }
{
    let statements = statements_of(class)?;
    object_begins(reader)?;
    let (before, has_body) = members_until(alloc, reader, IN_PROGRAM, Some("body"))?;
    if !has_body {
        return Err(Stop::Otherwise);
    }
    let before = Value::Object(before);
    check_kind(alloc, class, &before)?;
    array_begins(reader)?;
    let body = read_items(alloc, globals, reader, IN_STATEMENTS, statements)?;
    let (behind, _) = members_until(alloc, reader, IN_PROGRAM, None)?;
    if has_key(behind.as_slice(), "body") {
        return Err(Stop::Otherwise);
    }
    let others = joined(before, behind)?;
    let tree = program_of(alloc, globals, class, &others, body)?;
    Ok(tree)
}

// Stops at a mark before the tree that is at fault.
fn check_mark(
    alloc: Global,
    globals: &Globals,
    before: &Value<'_>,
    name: &'static str,
) -> Result<(), Stop>
    ensures { result ≢ Err stop.NoJson }
{
    if let Some(value) = member(before, name) {
        let _mark = faultless(read_mark(alloc, globals, value))?;
    }
    Ok(())
}

// Stops at a mark behind the tree that the table doesn't know.
fn check_behind(globals: &Globals, behind: Option<u32>) -> Result<(), Stop>
    ensures { result ≢ Err stop.NoJson }
{
    match behind {
        Some(number) if !is_marked(globals, number) => Err(Stop::Otherwise),
        _ => Ok(()),
    }
}

// The table of marks before the tree. What else stands there is judged too, and the mark that is seen behind the tree, so that none
// is at fault only once the tree was read.
fn read_table(alloc: Global, before: &Value<'_>, behind: Option<u32>) -> Result<Globals, Stop>
    ensures table { IfOk result (λ globals. table_among (members_in (value_view before.now)) ≡ Ok globals) }
    ensures json { result ≢ Err stop.NoJson }
{
    let globals = faultless(table_in(alloc, before))?;
    check_behind(&globals, behind)?;
    check_mark(alloc, &globals, before, "unresolved")?;
    check_mark(alloc, &globals, before, "top")?;
    let _options = faultless(read_options(alloc, before))?;
    Ok(globals)
}

// The envelope whose value is next, as the value gives it, with the mark that is seen behind its tree.
fn read_whole(
    alloc: Global,
    class: Class,
    reader: &mut Reader<'_>,
    behind: Option<u32>,
) -> Result<Result<Envelope, ReadError>, Stop>
    ensures read { IfOk result (IsWhole MAX_DEPTH class reader.old reader.new) }
    ensures json { IsErrOf result stop.NoJson → value_in MAX_DEPTH reader.old ≡ None }
{
    object_begins(reader)?;
    let (before, has_tree) = members_until(alloc, reader, IN_ENVELOPE, Some("tree"))?;
    let before = Value::Object(before);
    if !has_tree {
        return Ok(read_members(alloc, class, &before));
    }
    let globals = read_table(alloc, &before, behind)?;
    let tree = read_program(alloc, &globals, class, reader)?;
    let (behind, _) = members_until(alloc, reader, IN_ENVELOPE, None)?;
    if has_key(behind.as_slice(), "tree") || has_key(behind.as_slice(), "marks") {
        return Err(Stop::Otherwise);
    }
    let others = joined(before, behind)?;
    Ok(read_around(alloc, globals, &others, tree))
}

// The envelope that a whole text is, as its value gives it, with the mark that is seen behind its tree.
fn read_document(
    alloc: Global,
    class: Class,
    reader: &mut Reader<'_>,
    behind: Option<u32>,
) -> Result<Result<Envelope, ReadError>, Stop>
    ensures read { IfOk result (λ read. Gives read (envelope_in_tokens class reader.old)) }
    ensures json { IsErrOf result stop.NoJson → envelope_in_tokens class reader.old ≡ Err [] }
{
    let read = read_whole(alloc, class, reader, behind)?;
    match reader.next() {
        Some(_) => Err(Stop::NoJson),
        None => Ok(read),
    }
}

// Whether a text ends as an object does, but for blanks. Of one that doesn't, as where it was cut off, the reading of its whole value
// tells so with no node made.
pub(crate) fn ends_as_object(text: &str) -> bool {
    let mut from_the_end = text.as_bytes().iter().rev();
    let last = from_the_end.find(|byte| !matches!(**byte, b' ' | b'\t' | b'\n' | b'\r'));
    matches!(last, Some(b'}'))
}

// Whether an object is seen to end in the last sixteenth of a text and another to begin right behind it, which no JSON has but in a
// string: then something stands behind the envelope, and the reading of its whole value tells so with no node made.
pub(crate) fn goes_on(text: &str) -> bool {
    let mut has_ended = false;
    for byte in &text.as_bytes()[text.len() - text.len() / 16..] {
        match *byte {
            b'}' => has_ended = true,
            b'{' if has_ended => return true,
            b' ' | b'\t' | b'\n' | b'\r' => {}
            _ => has_ended = false,
        }
    }
    false
}

// How much of a text's end is looked at for the mark behind the tree.
const LAST_MEMBER: usize = 64;

// The number of the last member of an envelope as programs write it, in which that is the mark of names that no scope declares.
fn mark_behind(text: &str) -> Option<u32> {
    let end = text.get(text.len().saturating_sub(LAST_MEMBER)..)?;
    let members = end.trim_ascii_end().strip_suffix('}')?;
    let (_before, value) = members.rsplit_once("\"unresolved\"")?;
    let number = value.trim_ascii_start().strip_prefix(':')?;
    number.trim_ascii().parse().ok()
}

/// The envelope that a text is, whose tree is of a class, if the text is read statement by statement.
///
/// # Errors
///
/// As `read_bytes`.
pub fn read_streamed<'a>(
    alloc: Global,
    class: Class,
    text: &'a str,
    scratch: &'a mut Scratch,
) -> Result<Option<Envelope>, ReadError>
    ensures { GivesIfRead result (envelope_in_document class text.now) }
{
    if !ends_as_object(text) || goes_on(text) {
        return Ok(None);
    }
    let mut reader = Reader::new(text, scratch)?;
    match read_document(alloc, class, &mut reader, mark_behind(text)) {
        Ok(Ok(envelope)) => Ok(Some(envelope)),
        Ok(Err(error)) => Err(error),
        Err(Stop::NoMemory) => Err(ReadError::NoMemory),
        Err(Stop::NoJson) => fault(alloc),
        Err(Stop::Otherwise) => Ok(None),
    }
}
