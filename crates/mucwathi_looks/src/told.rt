//! What is told of each node that is written.
ghost use Rattle.std.specs.BTreeMap.{get};
ghost use Rattle.std.specs.Ordering.{nat_cmp};
ghost use Rattle.std.specs.Prelude.{◌≡◌, ◌-◌, ◌||◌, ◌++◌, IfOk, OnOk, length, map, nat_eq, option_map};
ghost use Rattle.std.specs.Str.{bytes_eq};
ghost use Rattle.mucwathi_mappings.specs.Names.{text_of};
ghost use Rattle.mucwathi_looks.specs.Spots.{HasNames, Notes, all_told, names_in, old_name as old_name_of, seen, told, told_of};

use crate::spots::Spot;
use mucwathi_mappings::Mapped;
use std::alloc::{AllocError, Global};
use std::collections::BTreeMap;

// Notes the name of an identifier by where it stands.
fn note<'a>(names: &mut BTreeMap<u32, &'a str>, spot: &Spot<'a>) -> Result<(), AllocError>
    ensures { OnOk result (Notes (seen spot.now) names.old names.new) }
{
    match spot.name {
        Some(name) => {
            names.insert(spot.lo, name)?;
            Ok(())
        }
        None => Ok(()),
    }
}

/// The names of identifiers by where they stand.
pub(crate) fn names_by_place<'a>(
    alloc: Global,
    spots: &[Spot<'a>],
) -> Result<BTreeMap<u32, &'a str>, AllocError>
    ensures { IfOk result (HasNames (map seen spots.now)) }
{
    let mut names = BTreeMap::new(alloc);
    for spot in spots {
        note(&mut names, spot)?;
    }
    Ok(names)
}

fn is_same(one: &str, other: &str) -> bool
    ensures { result ≡ bytes_eq one.now other.now }
{
    one == other
}

// The old name of what stood at a place, if the new one is another.
fn old_name<'a>(olds: &BTreeMap<u32, &'a str>, new: &Spot<'_>) -> Option<&'a str>
    ensures { option_map text_of result ≡ old_name_of (names_in olds.now) (seen new.now) }
{
    match new.name {
        None => None,
        Some(name) => match olds.get(&new.lo) {
            None => None,
            Some(old) => {
                if is_same(*old, name) {
                    None
                } else {
                    Some(*old)
                }
            }
        },
    }
}

// Whether one of two places is none.
fn is_nowhere(one: u32, other: u32) -> bool
    ensures { result ≡ (nat_eq one 0 || nat_eq other 0) }
{
    one == 0 || other == 0
}

// How many bytes are before what begins there.
fn bytes_before(lo: u32) -> usize
    ensures { result ≡ lo - 1 }
{
    lo.saturating_sub(1) as usize
}

// Adds a node of what is written, if it stands there, for one that stood in the source.
fn add_node<'a>(
    olds: &BTreeMap<u32, &'a str>,
    new: &Spot<'_>,
    written: &Spot<'_>,
    mapped: &mut Vec<Mapped<'a>>,
) -> Result<(), AllocError>
    ensures { OnOk result (map told mapped.new.items ≡ map told mapped.old.items ++ told_of (names_in olds.now) (seen new.now) (seen written.now)) }
{
    if is_nowhere(new.lo, written.lo) {
        return Ok(());
    }
    let read = bytes_before(new.lo);
    let out = bytes_before(written.lo);
    let old = old_name(olds, new);
    mapped.push(Mapped {
        read,
        written: out,
        old,
    })?;
    Ok(())
}

/// What is told of the nodes of an answer, and of what was written for it, one beside another.
pub(crate) fn mapped_of<'a>(
    alloc: Global,
    olds: &BTreeMap<u32, &'a str>,
    news: &[Spot<'_>],
    outs: &[Spot<'_>],
) -> Result<Vec<Mapped<'a>>, AllocError>
    requires { length news.now ≡ length outs.now }
    ensures { IfOk result (λ mapped. map told mapped.items ≡ all_told (names_in olds.now) (map seen news.now) (map seen outs.now)) }
{
    let mut mapped = Vec::new(alloc);
    for i in 0..news.len() {
        add_node(olds, &news[i], &outs[i], &mut mapped)?;
    }
    Ok(mapped)
}
