//! Texts read with their marks.
ghost use Rattle.std.specs.Prelude.{◌≡◌, ℕ, Contains, IfErr, IfOk, IsTrue, List, MatchResult};
ghost use Rattle.std.specs.List.{All};
ghost use Rattle.mucwathi_signs.specs.Cut.{AreWritten};
ghost use Rattle.mucwathi_signs.specs.Signed.{IsMarked};
ghost use Rattle.mucwathi_passes.specs.Passes.{own_table};
ghost use Rattle.mucwathi_commands.specs.Written.{IsReadAs};
ghost use Rattle.mucwathi_looks.specs.Refused.{IsUngiven, IsUnread};
ghost use Rattle.mucwathi_looks.specs.Given.{HasMarks, IsGiven, IsOwn, IsUnmarked, Rise, ends, marks_of, signed};

use crate::behind::{are_behind, ends_of, rise};
use crate::contexts::put_marks;
use crate::table::table_of;
use mucwathi_given::Envelope;
use mucwathi_order::{Goal, RunFault};
use mucwathi_passes::{own_marks, top, unresolved};
use mucwathi_signs::{Cut, Found, Sign, blank_signs, cut_signs, find_signs};
use std::alloc::{AllocError, Global};
use swc_tree_marks::{Globals, NoMemory, PassError};
use swc_tree_node::Node;
use text_source::{TextFault, read_text};

/// A program that was read with the marks of its names, and its text without them.
#[derive(Debug, Drop)]
pub struct Marked {
    pub text: Vec<u8>,
    pub program: Envelope,
}

fn envelope_of(globals: Globals, tree: Node) -> Envelope
    ensures tree { result.tree ≡ tree }
    ensures globals { result.globals ≡ globals }
    ensures own { IsOwn result }
{
    Envelope {
        globals,
        unresolved: unresolved(),
        top: top(),
        keep_class_names: false,
        ignore_eval: false,
        keep_top: None,
        tree,
    }
}

fn read(alloc: Global, goal: Goal, depth: u32, text: &[u8]) -> Result<Node, RunFault>
    ensures { MatchResult result (λ tree. IsReadAs goal tree text.now) (IsUnread text.now) }
{
    match read_text(alloc, goal, depth, text) {
        Ok(tree) => Ok(tree),
        Err(fault) => Err(RunFault::of_text(fault)),
    }
}

/// A program with the two marks that a text is resolved with, and none on a name.
///
/// # Errors
///
/// `Text` where the text is not read; `Refused` where memory is.
pub fn give_text(alloc: Global, goal: Goal, depth: u32, text: &[u8]) -> Result<Envelope, RunFault>
    ensures { MatchResult result (IsUnmarked goal text.now) (IsUnread text.now) }
{
    let tree = read(alloc, goal, depth, text)?;
    let globals = own_globals(alloc)?;
    Ok(envelope_of(globals, tree))
}

fn own_globals(alloc: Global) -> Result<Globals, AllocError>
    ensures { IfOk result (λ globals. globals ≡ own_table) }
{
    match own_marks(alloc) {
        Ok(globals) => Ok(globals),
        Err(NoMemory) => Err(AllocError),
    }
}

// Of what looks like signs that which stands behind identifiers.
fn behind_names(mut found: Vec<Found>, ends: &[usize]) -> Vec<Found>
    ensures { (text : List ℕ) → AreWritten text found.items → AreWritten text result.items }
{
    found.retain(|sign| ends.binary_search(&sign.from).is_ok());
    found
}

fn with_marks(signs: &[Sign], tree: Node) -> Result<Node, AllocError>
    ensures { Rise signs.now → IfOk result (λ made. made ≡ signed signs.now tree) }
{
    let mut marked = tree;
    put_marks(&mut marked, signs)?;
    Ok(marked)
}

// Reads a text with blanks in the place of signs, so that faults are where they are.
fn read_blank(
    alloc: Global,
    goal: Goal,
    depth: u32,
    text: &[u8],
    signs: &[Found],
) -> Result<Node, RunFault>
    requires { AreWritten text.now signs.now }
    ensures { IfErr result (IsUngiven text.now) }
{
    let blank = blank_signs(alloc, text, signs)?;
    read(alloc, goal, depth, blank.as_slice())
}

// What looks like signs and stands behind names.
fn signs_in(alloc: Global, goal: Goal, depth: u32, text: &[u8]) -> Result<Vec<Found>, RunFault>
    ensures { IfErr result (IsUngiven text.now) }
{
    let found = find_signs(alloc, text)?;
    let tree = read_blank(alloc, goal, depth, text, found.as_slice())?;
    let ends = ends_of(alloc, &tree)?;
    let count = found.len();
    let signs = behind_names(found, &ends);
    if signs.len() < count {
        let _tree = read_blank(alloc, goal, depth, text, signs.as_slice())?;
    }
    Ok(signs)
}

// The envelope of a tree, with the marks of signs on its names.
fn program_of(alloc: Global, signs: &[Sign], tree: Node) -> Result<Envelope, AllocError>
    ensures tree { Rise signs.now → IfOk result (λ made. made.tree ≡ signed signs.now tree) }
    ensures marks { IfOk result (λ made. HasMarks (marks_of signs.now) made.globals) }
    ensures own { IfOk result IsOwn }
{
    let globals = table_of(alloc, signs)?;
    let tree = with_marks(signs, tree)?;
    Ok(envelope_of(globals, tree))
}

// Whether signs rise, and each stands behind a name.
fn are_signs(alloc: Global, tree: &Node, signs: &[Sign]) -> Result<bool, AllocError>
    ensures rise { IfOk result (λ so. IsTrue so → Rise signs.now) }
    ensures behind { IfOk result (λ so. IsTrue so → All (λ s. Contains (ends tree.now) s.at) signs.now) }
{
    if !rise(signs) {
        return Ok(false);
    }
    let places = ends_of(alloc, tree)?;
    Ok(are_behind(&places, signs))
}

// The envelope of a tree whose signs rise, and stand behind names.
fn signed_program(alloc: Global, signs: &[Sign], tree: Node) -> Result<Envelope, RunFault>
    ensures rise { IfOk result (λ made. Rise signs.now) }
    ensures behind { IfOk result (λ made. All (λ s. Contains (ends tree) s.at) signs.now) }
    ensures tree { IfOk result (λ made. made.tree ≡ signed signs.now tree) }
    ensures marks { IfOk result (λ made. HasMarks (marks_of signs.now) made.globals) }
    ensures own { IfOk result IsOwn }
    ensures fault { (text : List ℕ) → IfErr result (IsUngiven text) }
{
    match are_signs(alloc, &tree, signs) {
        Ok(true) => match program_of(alloc, signs, tree) {
            Ok(program) => Ok(program),
            Err(_) => Err(RunFault::Refused(PassError::NoMemory)),
        },
        // They were cut out behind names, one after another.
        Ok(false) => Err(RunFault::Text(TextFault::NotTheText)),
        Err(_) => Err(RunFault::Refused(PassError::NoMemory)),
    }
}

// A program whose signs are cut out of its text, with their marks.
fn give_cut(
    alloc: Global,
    goal: Goal,
    depth: u32,
    text: &[u8],
    cut: Cut,
) -> Result<Marked, RunFault>
    requires { IsMarked 0 cut.signs.items cut.text.items text.now }
    ensures { MatchResult result (IsGiven goal text.now) (IsUngiven text.now) }
{
    let Cut { text: plain, signs } = cut;
    match read_text(alloc, goal, depth, plain.as_slice()) {
        Ok(tree) => {
            let program = signed_program(alloc, signs.as_slice(), tree)?;
            Ok(Marked {
                text: plain,
                program,
            })
        }
        Err(TextFault::NoMemory) => Err(RunFault::Refused(PassError::NoMemory)),
        // It was read with blanks.
        Err(_) => Err(RunFault::Text(TextFault::NotTheText)),
    }
}

/// A program, with the marks that stand behind its names: `let a#2; { let a#3; a#2.4; }`. Its table has these, and the two that a text is
/// resolved with.
///
/// With these marks written into it, the text that is left is what was given, and it is the text of a program, on whose names they are put.
/// What looks like marks in strings, comments and the like is none, and so are marks that are not written as numbers are: `a#02`.
///
/// # Errors
///
/// `Text` where the text is not read with blanks in the place of its marks; `Refused` where memory is.
pub fn give_marked(alloc: Global, goal: Goal, depth: u32, text: &[u8]) -> Result<Marked, RunFault>
    ensures { MatchResult result (IsGiven goal text.now) (IsUngiven text.now) }
{
    let found = signs_in(alloc, goal, depth, text)?;
    match cut_signs(alloc, text, found) {
        Ok(cut) => give_cut(alloc, goal, depth, text, cut),
        Err(_) => Err(RunFault::Refused(PassError::NoMemory)),
    }
}
