//! Names that are given anew.
ghost use Rattle.std.specs.Prelude.{◌≡◌, ◌++◌, IfOk, OnOk, map};
ghost use Rattle.mucwathi_lists.specs.Changed.{HasTexts, all_changed, changed, seen, told};

use std::alloc::{AllocError, Global};
use std::collections::BTreeMap;

/// An identifier where it stands.
#[derive(Clone, Copy, Debug)]
pub struct Occurrence<'a> {
    /// Where its span begins: with 1 the first byte of a text, with 0 none.
    pub lo: u32,
    pub text: &'a str,
}

/// A name that is given anew.
#[derive(Debug, Drop)]
pub struct Change {
    /// How many bytes are before it.
    pub at: usize,
    pub old: String,
    pub new: String,
}

// The texts of identifiers by where they stand.
fn texts_by_place<'a>(
    alloc: Global,
    olds: &[Occurrence<'a>],
) -> Result<BTreeMap<u32, &'a str>, AllocError>
    ensures { IfOk result (HasTexts (map seen olds.now)) }
{
    let mut texts = BTreeMap::new(alloc);
    for old in olds {
        texts.insert(old.lo, old.text)?;
    }
    Ok(texts)
}

// Adds an identifier that had another text at its place.
fn add(
    alloc: Global,
    olds: &[Occurrence<'_>],
    texts: &BTreeMap<u32, &str>,
    name: Occurrence<'_>,
    changes: &mut Vec<Change>,
) -> Result<(), AllocError>
    requires { HasTexts (map seen olds.now) texts.now }
    ensures { OnOk result (map told changes.new.items ≡ map told changes.old.items ++ changed (map seen olds.now) (seen name.entry)) }
{
    let Some(old) = texts.get(&name.lo) else {
        return Ok(());
    };
    if *old != name.text {
        changes.push(Change {
            at: name.lo.saturating_sub(1) as usize,
            old: String::from_str(alloc, *old)?,
            new: String::from_str(alloc, name.text)?,
        })?;
    }
    Ok(())
}

/// The identifiers of a program that have another text than what stood at their places before, in order.
///
/// Time grows in step with how many these are, but for the logarithm of how many stood before.
pub fn changes_between(
    alloc: Global,
    olds: &[Occurrence<'_>],
    news: &[Occurrence<'_>],
) -> Result<Vec<Change>, AllocError>
    ensures { IfOk result (λ changes. map told changes.items ≡ all_changed (map seen olds.now) (map seen news.now)) }
{
    let texts = texts_by_place(alloc, olds)?;
    let mut changes = Vec::new(alloc);
    for name in news {
        add(alloc, olds, &texts, *name, &mut changes)?;
    }
    Ok(changes)
}
