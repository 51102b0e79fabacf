//! Reading two versions of a program statement by statement, in whichever order they stand: no JSON value of a whole tree is made.
ghost use Rattle.std.specs.Prelude.{◌≡◌, ◌≢◌, [], None, Some, Err, Ok, false, codes, IfOk, IsErrOf, OnOk};
ghost use Rattle.std.specs.Str.{bytes_eq};
ghost use Rattle.json.specs.Json.{value as value_in};
ghost use Rattle.swc_tree_marks.specs.Globals.{Table};
ghost use Rattle.swc_tree_node.specs.declared.kind.Class.{Class};
ghost use Rattle.jsbase_reader.specs.declared.streamed.Stop.TheVariants as stop;
ghost use Rattle.jsbase_reader.specs.Answers.{GivesIfRead};
ghost use Rattle.jsbase_reader.specs.Gathered.{AreGathered, HasVersions, IsGathered};
ghost use Rattle.jsbase_reader.specs.Streamed.{NoMembers};
ghost use Rattle.jsbase_reader.specs.Versions.{versions_in_document, versions_in_tokens};

use crate::envelope::MAX_DEPTH;
use crate::error::{ReadError, fault};
use crate::streamed::{
    IN_ENVELOPE, Member, Stop, ends_as_object, faultless, goes_on, object_begins, read_program,
    read_value,
};
use crate::versions::{Versions, read_asked};
use json::{Reader, Scratch, Value};
use std::alloc::Global;
use swc_tree_marks::Globals;
use swc_tree_node::{Class, Node};

/// What was read of an object so far: the trees of two members, and the others.
#[derive(Drop)]
pub(crate) struct Gathered<'a> {
    pub(crate) others: Vec<Member<'a>>,
    pub(crate) before: Option<Node>,
    pub(crate) after: Option<Node>,
}

// The first tree. Of a key that stands twice the last counts.
fn gather_before(
    alloc: Global,
    globals: &Globals,
    class: Class,
    reader: &mut Reader<'_>,
    gathered: &mut Gathered<'_>,
) -> Result<(), Stop>
    ensures read { OnOk result (IsGathered IN_ENVELOPE globals.now class (codes "before") reader.old reader.new gathered.old gathered.new) }
    ensures json { IsErrOf result stop.NoJson → value_in IN_ENVELOPE reader.old ≡ None }
{
    let tree = read_program(alloc, globals, class, reader)?;
    gathered.before = Some(tree);
    Ok(())
}

// The second tree.
fn gather_after(
    alloc: Global,
    globals: &Globals,
    class: Class,
    reader: &mut Reader<'_>,
    gathered: &mut Gathered<'_>,
) -> Result<(), Stop>
    ensures read { OnOk result (IsGathered IN_ENVELOPE globals.now class (codes "after") reader.old reader.new gathered.old gathered.new) }
    ensures json { IsErrOf result stop.NoJson → value_in IN_ENVELOPE reader.old ≡ None }
{
    let tree = read_program(alloc, globals, class, reader)?;
    gathered.after = Some(tree);
    Ok(())
}

// Another member.
fn gather_other<'a>(
    alloc: Global,
    reader: &mut Reader<'a>,
    key: &'a str,
    gathered: &mut Gathered<'a>,
) -> Result<(), Stop>
    requires before { bytes_eq key.now (codes "before") ≡ false }
    requires after { bytes_eq key.now (codes "after") ≡ false }
    ensures read { OnOk result ((table : Table) (class : Class) → IsGathered IN_ENVELOPE table class key.now reader.old reader.new gathered.old gathered.new) }
    ensures json { IsErrOf result stop.NoJson → value_in IN_ENVELOPE reader.old ≡ None }
{
    read_value(alloc, reader, IN_ENVELOPE, key, &mut gathered.others)?;
    Ok(())
}

// A member more: one of the trees, or another.
fn gather_member<'a>(
    alloc: Global,
    globals: &Globals,
    class: Class,
    reader: &mut Reader<'a>,
    key: &'a str,
    gathered: &mut Gathered<'a>,
) -> Result<(), Stop>
    ensures read { OnOk result (IsGathered IN_ENVELOPE globals.now class key.now reader.old reader.new gathered.old gathered.new) }
    ensures json { IsErrOf result stop.NoJson → value_in IN_ENVELOPE reader.old ≡ None }
{
    if key == "before" {
        return gather_before(alloc, globals, class, reader, gathered);
    }
    if key == "after" {
        return gather_after(alloc, globals, class, reader, gathered);
    }
    gather_other(alloc, reader, key, gathered)
}

// The members of an object.
fn gather<'a>(
    alloc: Global,
    globals: &Globals,
    class: Class,
    reader: &mut Reader<'a>,
) -> Result<Gathered<'a>, Stop>
    ensures read { IfOk result (AreGathered IN_ENVELOPE globals.now class reader.old reader.new) }
    ensures json { IsErrOf result stop.NoJson → NoMembers IN_ENVELOPE reader.old }
{
    let mut gathered = Gathered {
        others: Vec::new(alloc),
        before: None,
        after: None,
    };
    while let Some(key) = reader.next_key()? {
        gather_member(alloc, globals, class, reader, key, &mut gathered)?;
    }
    Ok(gathered)
}

// The tree, if there is one.
fn there(tree: Option<Node>) -> Result<Node, Stop>
    ensures is { IfOk result (λ t. tree ≡ Some t) }
    ensures json { result ≢ Err stop.NoJson }
{
    match tree {
        Some(tree) => Ok(tree),
        None => Err(Stop::Otherwise),
    }
}

// The versions of the value that is next.
fn read_whole(alloc: Global, class: Class, reader: &mut Reader<'_>) -> Result<Versions, Stop>
    ensures read { IfOk result (HasVersions MAX_DEPTH class reader.old reader.new) }
    ensures json { IsErrOf result stop.NoJson → value_in MAX_DEPTH reader.old ≡ None }
{
    object_begins(reader)?;
    let no_marks = Globals::new(alloc);
    let gathered = gather(alloc, &no_marks, class, reader)?;
    let Gathered {
        others,
        before,
        after,
    } = gathered;
    let others = Value::Object(others);
    let (keep_top, spelling) = faultless(read_asked(alloc, &others))?;
    let before = there(before)?;
    let after = there(after)?;
    Ok(Versions {
        keep_top,
        spelling,
        before,
        after,
    })
}

// The versions of a whole text.
fn read_document(alloc: Global, class: Class, reader: &mut Reader<'_>) -> Result<Versions, Stop>
    ensures read { IfOk result (λ versions. versions_in_tokens class reader.old ≡ Ok versions) }
    ensures json { IsErrOf result stop.NoJson → versions_in_tokens class reader.old ≡ Err [] }
{
    let versions = read_whole(alloc, class, reader)?;
    match reader.next() {
        Some(_) => Err(Stop::NoJson),
        None => Ok(versions),
    }
}

/// The versions that a text has, if it is read statement by statement.
///
/// # Errors
///
/// As `read_versions`.
pub(crate) fn read_streamed<'a>(
    alloc: Global,
    class: Class,
    text: &'a str,
    scratch: &'a mut Scratch,
) -> Result<Option<Versions>, ReadError>
    ensures { GivesIfRead result (versions_in_document class text.now) }
{
    if !ends_as_object(text) || goes_on(text) {
        return Ok(None);
    }
    let mut reader = Reader::new(text, scratch)?;
    match read_document(alloc, class, &mut reader) {
        Ok(versions) => Ok(Some(versions)),
        Err(Stop::NoMemory) => Err(ReadError::NoMemory),
        Err(Stop::NoJson) => fault(alloc),
        Err(Stop::Otherwise) => Ok(None),
    }
}
