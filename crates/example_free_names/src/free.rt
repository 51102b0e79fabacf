//! The free names of a program that was resolved.
ghost use Rattle.std.specs.Prelude.{◌≡◌, ◌↔◌, ℕ, List, Contains, IfOk, OnOk, map};
ghost use Rattle.std.specs.List.{list_any};
ghost use Rattle.std.specs.Str.{bytes_eq};
ghost use Rattle.swc_tree_walk.specs.Sites.{site_of};
ghost use Rattle.example_free_names.specs.Free.{IsFree, added, free_names as are_free, free_texts, once, is_free as is_free_site, noted, text_of};

use std::alloc::{AllocError, Global};
use swc_tree_marks::Mark;
use swc_tree_node::Node;
use swc_tree_walk::{Site, sites};

/// The free names of a program that was resolved: the texts of its references with the mark of names that nothing declares,
/// each once, in the order of the source.
pub fn free_names(alloc: Global, unresolved: Mark, program: &Node) -> Result<Vec<&str>, AllocError>
    ensures all { IfOk result (λ names. map text_of names.items ≡ are_free unresolved program.now) }
    ensures each { (x : List ℕ) → IfOk result (λ names. Contains (map text_of names.items) x ↔ IsFree unresolved program.now x) }
{
    let found = sites(alloc, program)?;
    names_among(alloc, unresolved, found.as_slice())
}

// The names of those identifiers that are free.
fn names_among<'a>(
    alloc: Global,
    unresolved: Mark,
    found: &[Site<'a>],
) -> Result<Vec<&'a str>, AllocError>
    ensures { IfOk result (λ names. map text_of names.items ≡ once (free_texts unresolved (map site_of found.now))) }
{
    let mut names = Vec::new(alloc);
    for site in found {
        note(unresolved, *site, &mut names)?;
    }
    Ok(names)
}

// Adds the name of an identifier, where it is free and is not there.
fn note<'a>(unresolved: Mark, site: Site<'a>, names: &mut Vec<&'a str>) -> Result<(), AllocError>
    ensures { OnOk result (map text_of names.new.items ≡ noted unresolved (map text_of names.old.items) (site_of site.entry)) }
{
    if is_free(unresolved, &site) {
        add(site.ident.sym.as_str(), names)?;
    }
    Ok(())
}

// Whether an identifier is a reference with the one mark of names that nothing declares.
fn is_free(unresolved: Mark, site: &Site<'_>) -> bool
    ensures { result ≡ is_free_site unresolved (site_of site.now) }
{
    match site.ident.ctxt.marks() {
        [mark] => site.is_reference() && *mark == unresolved,
        _ => false,
    }
}

fn add<'a>(name: &'a str, names: &mut Vec<&'a str>) -> Result<(), AllocError>
    ensures { OnOk result (map text_of names.new.items ≡ added name.now (map text_of names.old.items)) }
{
    if !holds(names.as_slice(), name) {
        names.push(name)?;
    }
    Ok(())
}

// Whether a name is among some.
fn holds(names: &[&str], name: &str) -> bool
    ensures { result ≡ list_any (bytes_eq name.now) (map text_of names.now) }
{
    for other in names {
        if name == *other {
            return true;
        }
    }
    false
}
