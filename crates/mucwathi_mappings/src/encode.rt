//! A source map as JSON.
ghost use Rattle.std.specs.Prelude.{◌≡◌, ◌≤◌, ◌++◌, [], ◌∷◌, IfOk, OnOk, codes, map, unwrap_or};
ghost use Rattle.mucwathi_mappings.specs.Mappings.{AddsMappings, AddsName, AreMarked, Continues, GoesToLine, HasNumber, comma, entry_of};
ghost use Rattle.mucwathi_mappings.specs.Maps.{IsMapOf};
ghost use Rattle.mucwathi_mappings.specs.Names.{AreNumbered, text_of};
ghost use Rattle.mucwathi_mappings.specs.Quoted.{quoted, quoted_all};

use crate::digits::add_way;
use crate::names::Names;
use crate::nodes::{Mapped, by_place};
use crate::positions::{Mark, marks_of, position_at};
use crate::quoted::{add_text, add_texts};
use std::alloc::{AllocError, Global};
use std::collections::BTreeMap;

/// A source and what was written for it, with marks in both.
#[derive(Clone, Copy, Debug)]
pub(crate) struct Sides<'a> {
    pub read: &'a [u8],
    pub read_marks: &'a [Mark],
    pub written: &'a [u8],
    pub written_marks: &'a [Mark],
}

/// A position of what is written, that where it stood in the source, and the number of its old name, if it has another now.
#[derive(Clone, Copy, Debug)]
pub(crate) struct Entry {
    pub line: usize,
    pub column: usize,
    pub source_line: usize,
    pub source_column: usize,
    pub name: Option<usize>,
}

/// What the next entry is told against: the last in each, and whether an entry stands in the line.
#[derive(Clone, Copy, Debug)]
pub(crate) struct Told {
    pub line: usize,
    pub column: usize,
    pub source_line: usize,
    pub source_column: usize,
    pub name: usize,
    pub begun: bool,
}

const START: Told = Told {
    line: 0,
    column: 0,
    source_line: 0,
    source_column: 0,
    name: 0,
    begun: false,
};

// Goes to a line.
fn go_to_line(out: &mut Vec<u8>, told: Told, line: usize) -> Result<Told, AllocError>
    requires { told.line ≤ line }
    ensures { IfOk result (λ t. GoesToLine told out.old.items out.new.items t × (t.line ≡ line)) }
{
    let mut here = told;
    for at in told.line..line {
        out.push(b';')?;
        here = Told {
            line: at + 1,
            column: 0,
            begun: false,
            ..here
        };
    }
    Ok(here)
}

fn add_name(out: &mut Vec<u8>, last: usize, name: Option<usize>) -> Result<usize, AllocError>
    ensures { IfOk result (λ n. AddsName last name out.old.items out.new.items × (n ≡ unwrap_or name last)) }
{
    match name {
        Some(number) => {
            add_way(out, last, number)?;
            Ok(number)
        }
        None => Ok(last),
    }
}

fn add_comma(out: &mut Vec<u8>, begun: bool) -> Result<(), AllocError>
    ensures { OnOk result (out.new.items ≡ out.old.items ++ comma begun) }
{
    if begun {
        out.push(b',')?;
    }
    Ok(())
}

// Adds an entry of the line: its column, its source, the same as before (`A`), the position there, and its name, if it has one.
fn add_entry(out: &mut Vec<u8>, told: Told, entry: Entry) -> Result<Told, AllocError>
    requires { told.line ≡ entry.line }
    ensures { IfOk result (λ t. Continues told (entry ∷ []) out.old.items out.new.items t × (t.line ≡ entry.line)) }
{
    add_comma(out, told.begun)?;
    add_way(out, told.column, entry.column)?;
    out.push(b'A')?;
    add_way(out, told.source_line, entry.source_line)?;
    add_way(out, told.source_column, entry.source_column)?;
    let name = add_name(out, told.name, entry.name)?;
    Ok(Told {
        line: told.line,
        column: entry.column,
        source_line: entry.source_line,
        source_column: entry.source_column,
        name,
        begun: true,
    })
}

fn entry_at(sides: &Sides<'_>, place: usize, node: &Mapped<'_>, name: Option<usize>) -> Entry
    requires { AreMarked sides.now }
    ensures { result ≡ entry_of sides.now.read.now sides.now.written.now (place, node.now) name }
{
    let there = position_at(sides.written, sides.written_marks, place);
    let source = position_at(sides.read, sides.read_marks, node.read);
    Entry {
        line: there.line,
        column: there.column,
        source_line: source.line,
        source_column: source.column,
        name,
    }
}

// Adds an entry of this line or of one behind.
fn add_behind(out: &mut Vec<u8>, told: Told, entry: Entry) -> Result<Told, AllocError>
    requires { told.line ≤ entry.line }
    ensures { IfOk result (λ t. Continues told (entry ∷ []) out.old.items out.new.items t × (t.line ≡ entry.line)) }
{
    let here = go_to_line(out, told, entry.line)?;
    add_entry(out, here, entry)
}

// The number of an old name, where there is one.
fn number_of<'a>(old: Option<&'a str>, names: &mut Names<'a>) -> Result<Option<usize>, AllocError>
    requires { AreNumbered names.old }
    ensures { IfOk result (HasNumber names.old names.new old.entry) }
{
    match old {
        Some(old) => {
            let number = names.number(old)?;
            Ok(Some(number))
        }
        None => Ok(None),
    }
}

// Adds what is told of each place; the names are the old ones there.
fn add_mappings<'a>(
    alloc: Global,
    out: &mut Vec<u8>,
    sides: &Sides<'_>,
    places: &BTreeMap<usize, Mapped<'a>>,
) -> Result<Names<'a>, AllocError>
    requires { AreMarked sides.now }
    ensures { IfOk result (AddsMappings sides.now.read.now sides.now.written.now places.now out.old.items out.new.items) }
{
    let mut names = Names::new(alloc);
    let mut told = START;
    for (place, node) in places {
        let name = number_of(node.old, &mut names)?;
        let entry = entry_at(sides, *place, node, name);
        told = add_behind(out, told, entry)?;
    }
    Ok(names)
}

// The map with these names and mappings.
fn with_names(
    alloc: Global,
    name: &str,
    names: &[&str],
    mappings: &[u8],
) -> Result<Vec<u8>, AllocError>
    ensures { IfOk result (λ out. out.items ≡ codes "{\"version\":3,\"sources\":[" ++ quoted name.now ++ codes "],\"names\":[" ++ quoted_all (map text_of names.now) ++ codes "],\"mappings\":\"" ++ mappings.now ++ codes "\"}\n") }
{
    let mut out = Vec::new(alloc);
    out.extend_from_slice(b"{\"version\":3,\"sources\":[")?;
    add_text(&mut out, name)?;
    out.extend_from_slice(b"],\"names\":[")?;
    add_texts(&mut out, names)?;
    out.extend_from_slice(b"],\"mappings\":\"")?;
    out.extend_from_slice(mappings)?;
    out.extend_from_slice(b"\"}\n")?;
    Ok(out)
}

/// A source map (ECMA-426, version 3) of what was written for a source of that name: its nodes by where they are written, the last of those
/// at one place, and where they stood. The old names of these are told each once, in the order in which they first stand.
///
/// Time grows in step with the texts, but for the logarithm of how many nodes there are.
pub fn map_text(
    alloc: Global,
    name: &str,
    read: &[u8],
    written: &[u8],
    mapped: &[Mapped<'_>],
) -> Result<Vec<u8>, AllocError>
    ensures { IfOk result (λ out. IsMapOf name.now read.now written.now mapped.now out.items) }
{
    let read_marks = marks_of(alloc, read)?;
    let written_marks = marks_of(alloc, written)?;
    let sides = Sides {
        read,
        read_marks: read_marks.as_slice(),
        written,
        written_marks: written_marks.as_slice(),
    };
    let places = by_place(alloc, mapped)?;
    let mut mappings = Vec::new(alloc);
    let names = add_mappings(alloc, &mut mappings, &sides, &places)?;
    with_names(alloc, name, names.texts.as_slice(), mappings.as_slice())
}
