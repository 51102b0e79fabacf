//! Lists of names and of comments, one a line.
ghost use Rattle.std.specs.Prelude.{◌≡◌, ◌++◌, IfOk, OnOk};
ghost use Rattle.mucwathi_lists.specs.Cursors.{IsIn};
ghost use Rattle.mucwathi_lists.specs.Listed.{change_line, changes_listed, lost_line, lost_listed, name_line, names_listed, place_text};

use crate::changes::Change;
use crate::cursor::Cursor;
use std::alloc::{AllocError, Global};

/// A name that nothing in the program declares.
#[derive(Debug, Drop)]
pub struct FreeName {
    pub text: String,
    /// How many bytes are before the first place where it stands.
    pub at: usize,
}

// Adds a place, as `2:7`.
fn add_place(
    alloc: Global,
    text: &[u8],
    at: usize,
    cursor: &mut Cursor,
    out: &mut Vec<u8>,
) -> Result<(), AllocError>
    requires { IsIn text.now cursor.old }
    ensures added { OnOk result (out.new.items ≡ out.old.items ++ place_text text.now at) }
    ensures kept { IsIn text.now cursor.new }
{
    let place = cursor.go(text, at);
    let (line, column) = (place.line, place.column);
    let numbers = format!(in alloc; "{line}:{column}")?;
    out.extend_from_slice(numbers.as_bytes())?;
    Ok(())
}

fn add_name(
    alloc: Global,
    text: &[u8],
    name: &FreeName,
    cursor: &mut Cursor,
    out: &mut Vec<u8>,
) -> Result<(), AllocError>
    requires { IsIn text.now cursor.old }
    ensures added { OnOk result (out.new.items ≡ out.old.items ++ name_line text.now name.now) }
    ensures kept { IsIn text.now cursor.new }
{
    add_place(alloc, text, name.at, cursor, out)?;
    out.push(b' ')?;
    out.extend_from_slice(name.text.as_bytes())?;
    out.push(b'\n')?;
    Ok(())
}

/// Free names, each in its line, in order: `line:column name`.
pub fn list_names(alloc: Global, text: &[u8], names: &[FreeName]) -> Result<Vec<u8>, AllocError>
    ensures { IfOk result (λ out. out.items ≡ names_listed text.now names.now) }
{
    let mut out = Vec::new(alloc);
    let mut cursor = Cursor::new(text);
    for name in names {
        add_name(alloc, text, name, &mut cursor, &mut out)?;
    }
    Ok(out)
}

fn add_change(
    alloc: Global,
    prefix: &str,
    text: &[u8],
    change: &Change,
    cursor: &mut Cursor,
    out: &mut Vec<u8>,
) -> Result<(), AllocError>
    requires { IsIn text.now cursor.old }
    ensures added { OnOk result (out.new.items ≡ out.old.items ++ change_line prefix.now text.now change.now) }
    ensures kept { IsIn text.now cursor.new }
{
    out.extend_from_slice(prefix.as_bytes())?;
    add_place(alloc, text, change.at, cursor, out)?;
    out.push(b' ')?;
    out.extend_from_slice(change.old.as_bytes())?;
    out.push(b' ')?;
    out.extend_from_slice(change.new.as_bytes())?;
    out.push(b'\n')?;
    Ok(())
}

/// Names that are given anew, each in its line, in order: `line:column old new`, behind what each line begins with.
pub fn list_renamed(
    alloc: Global,
    prefix: &str,
    text: &[u8],
    changes: &[Change],
) -> Result<Vec<u8>, AllocError>
    ensures { IfOk result (λ out. out.items ≡ changes_listed prefix.now text.now changes.now) }
{
    let mut out = Vec::new(alloc);
    let mut cursor = Cursor::new(text);
    for change in changes {
        add_change(alloc, prefix, text, change, &mut cursor, &mut out)?;
    }
    Ok(out)
}

fn add_lost(
    alloc: Global,
    name: &str,
    text: &[u8],
    at: usize,
    cursor: &mut Cursor,
    out: &mut Vec<u8>,
) -> Result<(), AllocError>
    requires { IsIn text.now cursor.old }
    ensures added { OnOk result (out.new.items ≡ out.old.items ++ lost_line name.now text.now at) }
    ensures kept { IsIn text.now cursor.new }
{
    out.extend_from_slice(name.as_bytes())?;
    out.push(b':')?;
    add_place(alloc, text, at, cursor, out)?;
    out.extend_from_slice(": this comment is not written".as_bytes())?;
    out.push(b'\n')?;
    Ok(())
}

/// Comments of a text that are not written, by how many bytes are before each: `name:line:column: this comment is not written`.
pub fn tell_lost(
    alloc: Global,
    name: &str,
    text: &[u8],
    lost: &[usize],
) -> Result<Vec<u8>, AllocError>
    ensures { IfOk result (λ out. out.items ≡ lost_listed name.now text.now lost.now) }
{
    let mut out = Vec::new(alloc);
    let mut cursor = Cursor::new(text);
    for at in lost {
        add_lost(alloc, name, text, *at, &mut cursor, &mut out)?;
    }
    Ok(out)
}
