//! The texts that no name may be.
ghost use Rattle.std.specs.Prelude.{◌≡◌, ℕ, List, IfOk, OnOk, true, ◌||◌, if◌then◌else◌};
ghost use Rattle.std.specs.BTreeSet.{contains_text};
ghost use Rattle.std.specs.HashSet.{keys};
ghost use Rattle.std.specs.Str.{bytes_eq};
ghost use Rattle.swc_base_rename_program.specs.Left.{any_of_text, is_left_text, leaves_text as is_leaving_text};
ghost use Rattle.swc_base_rename_program.specs.Renamed.{top_context};

use std::alloc::Global;
use std::collections::{BTreeSet, HashSet};
use swc_base_rename_analysis::{Analysis, Entry};
use swc_tree_marks::{Id, Mark, NoMemory, SyntaxContext};

// Adds the text of an id.
fn add_text(alloc: Global, id: &Id, texts: &mut BTreeSet<String>) -> Result<(), NoMemory>
    ensures { OnOk result ((x : List ℕ) → contains_text texts.new x ≡ (contains_text texts.old x || bytes_eq id.now.0 x)) }
{
    let text = String::from_str(alloc, id.0.as_str())?;
    texts.insert(text)?;
    Ok(())
}

/// The texts of ids.
///
/// # Errors
///
/// `NoMemory` where memory is refused.
pub fn texts_of(alloc: Global, ids: &HashSet<Id>) -> Result<BTreeSet<String>, NoMemory>
    ensures { IfOk result (λ texts. (x : List ℕ) → contains_text texts x ≡ any_of_text (keys ids.now) x) }
{
    let mut texts = BTreeSet::new(alloc);
    for id in ids {
        add_text(alloc, id, &mut texts)?;
    }
    Ok(texts)
}

// Whether a context is just the top mark, or is empty where that is the root.
fn is_top_context(context: &SyntaxContext, top: Mark) -> bool
    ensures { result ≡ bytes_eq context.now (top_context top) }
{
    if top == Mark::root() {
        return context.marks().is_empty();
    }
    context.marks() == [top].as_slice()
}

// Whether an id's text is left where something reads names: it is bound with just the top mark, or its text is a loose id's.
fn leaves_text(top: Mark, analysis: &Analysis, entry: &Entry) -> bool
    ensures { result ≡ is_leaving_text top analysis.now entry.now }
{
    (entry.is_bound && is_top_context(&entry.id.1, top))
        || analysis.loose.contains(entry.id.0.as_str())
}

/// The texts that no name may be where something reads names: those of preserved ids, of loose ids, and of ids that are bound
/// with just the top mark.
///
/// # Errors
///
/// `NoMemory` where memory is refused.
pub fn left_texts(
    alloc: Global,
    preserved: &HashSet<Id>,
    top: Mark,
    analysis: &Analysis,
) -> Result<BTreeSet<String>, NoMemory>
    ensures { IfOk result (λ texts. (x : List ℕ) → contains_text texts x ≡ is_left_text top analysis.now preserved.now x) }
{
    let mut texts = texts_of(alloc, preserved)?;
    for entry in analysis.ids.as_slice() {
        if leaves_text(top, analysis, entry) {
            add_text(alloc, &entry.id, &mut texts)?;
        }
    }
    Ok(texts)
}
