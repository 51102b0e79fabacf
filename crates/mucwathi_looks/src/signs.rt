//! Signs for the names of a tree.
ghost use Rattle.std.specs.Prelude.{◌≡◌, ◌++◌, IfOk, OnOk, map};
ghost use Rattle.std.specs.List.{list_any};
ghost use Rattle.swc_tree_walk.specs.Sites.{site_of};
ghost use Rattle.mucwathi_looks.specs.Signs.{AreSigns, has_marks, sign_between, signs_between, told};

use mucwathi_signs::Sign;
use std::alloc::{AllocError, Global};
use swc_tree_marks::Mark;
use swc_tree_walk::Site;

fn numbers(alloc: Global, marks: &[Mark]) -> Result<Vec<u32>, AllocError>
    ensures { IfOk result (λ numbers. numbers.items ≡ marks.now) }
{
    let mut numbers = Vec::new(alloc);
    for mark in marks {
        numbers.push(mark.as_u32())?;
    }
    Ok(numbers)
}

// Adds the sign of a name, if it has marks, where another stands.
fn add(
    alloc: Global,
    name: &Site<'_>,
    place: &Site<'_>,
    signs: &mut Vec<Sign>,
) -> Result<(), AllocError>
    ensures { OnOk result (map told signs.new.items ≡ map told signs.old.items ++ sign_between (site_of name.now) (site_of place.now)) }
{
    let marks = name.ident.ctxt.marks();
    if marks.is_empty() {
        return Ok(());
    }
    signs.push(Sign {
        at: place.ident.span.hi.saturating_sub(1) as usize,
        marks: numbers(alloc, marks)?,
    })?;
    Ok(())
}

// The same of all names, one after another.
fn all_signs(
    alloc: Global,
    names: &[Site<'_>],
    places: &[Site<'_>],
) -> Result<Vec<Sign>, AllocError>
    ensures { IfOk result (λ signs. map told signs.items ≡ signs_between (map site_of names.now) (map site_of places.now)) }
{
    let mut signs = Vec::new(alloc);
    for (name, place) in names.iter().zip(places) {
        add(alloc, name, place, &mut signs)?;
    }
    Ok(signs)
}

/// The signs of names, where others of the same number stand, in the order of the text.
pub fn signs_at(
    alloc: Global,
    names: &[Site<'_>],
    places: &[Site<'_>],
) -> Result<Vec<Sign>, AllocError>
    ensures { IfOk result (λ signs. AreSigns (signs_between (map site_of names.now) (map site_of places.now)) signs.items) }
{
    let mut signs = all_signs(alloc, names, places)?;
    signs.sort_by_key(|sign| sign.at)?;
    Ok(signs)
}

/// Whether some name has a mark.
pub fn any_is_marked(names: &[Site<'_>]) -> bool
    ensures { result ≡ list_any (λ n. has_marks (site_of n)) names.now }
{
    names.iter().any(|name| !name.ident.ctxt.marks().is_empty())
}
