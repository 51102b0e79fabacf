//! What a renamer is to know of a tree.
ghost use Rattle.std.specs.Prelude.{◌≡◌, ◌↔◌, ℕ, List, IsTrue, IfOk, OnOk, true, length, map, ◌&&◌, ◌++◌, if◌then◌else◌};
ghost use Rattle.std.specs.List.{list_any};
ghost use Rattle.std.specs.Str.{bytes_eq};
ghost use Rattle.std.specs.BTreeSet.{contains_text};
ghost use Rattle.swc_base_rename_analysis.specs.Analysis.{takes as is_taken};
ghost use Rattle.swc_base_rename_analysis.specs.Numbers.{known_by, known_of};
ghost use Rattle.swc_base_rename_analysis.specs.Read.{IsRead, Occurs, PositionsRise, is_loose as is_id_loose, site_of, sites_by, taken_from, taker as is_taker};
ghost use Rattle.swc_base_rename_analysis.specs.Walk.{laid_of, laid_out, met_of};

use crate::between::one_between;
use crate::layout::{Layout, Name, Region};
use crate::numbers::{Entries, Entry, is_analysed};
use crate::scopes::ScopeKind;
use crate::walk::lay_out;
use std::alloc::{AllocError, Global};
use std::collections::BTreeSet;
use swc_tree_marks::NoMemory;
use swc_tree_node::Node;
use swc_tree_scoping::{Standing, is_binding};

/// A scope that declares an id, by the binding at a position. In order: by scopes, and in one scope by positions.
#[derive(Clone, Copy, Debug, PartialEq, Eq, PartialOrd, Ord)]
pub struct Site {
    pub scope: usize,
    pub position: usize,
    pub id: usize,
}

/// The scopes of a tree, its ids, who declares them where, and the texts of loose ids.
#[derive(Drop)]
pub struct Analysis {
    /// In the order in which they are entered.
    pub regions: Vec<Region>,
    /// By their numbers.
    pub ids: Vec<Entry>,
    /// In order.
    pub sites: Vec<Site>,
    /// The texts of ids with a context that stand outside of export lists and that nothing binds.
    pub loose: BTreeSet<String>,
}

impl Analysis {
    /// Whether an id occurs in a scope, both by their numbers. It costs the logarithm of how often it occurs.
    pub fn occurs(&self, scope: usize, id: usize) -> bool
        requires { PositionsRise self.now }
        ensures { IsTrue result ↔ Occurs self.now scope id }
    {
        match (self.regions.get(scope), self.ids.get(id)) {
            (Some(region), Some(entry)) => {
                one_between(entry.positions.as_slice(), region.start, region.end)
            }
            _ => false,
        }
    }
}

// Whether a scope takes what is bound so.
fn takes(kind: ScopeKind, standing: Standing) -> bool
    ensures { result ≡ is_taken kind standing }
{
    match (kind, standing) {
        (ScopeKind::Fn, _) => true,
        (ScopeKind::Block, Standing::Lexical | Standing::CatchParameter) => true,
        _ => false,
    }
}

// The first scope, at that one or round it, that takes what is bound so.
fn first_taking(regions: &[Region], standing: Standing, scope: Option<usize>) -> Option<usize>
    ensures { result ≡ taken_from regions.now standing scope }
{
    match scope {
        Some(scope) => match regions.get(scope) {
            Some(region) => {
                if takes(region.kind, standing) {
                    Some(scope)
                } else {
                    region.function
                }
            }
            None => None,
        },
        None => None,
    }
}

// The scope that declares the id of a name.
fn taker(regions: &[Region], name: &Name) -> Option<usize>
    ensures { result ≡ is_taker regions.now (met_of name.now) }
{
    if is_binding(name.standing) && is_analysed(&name.ident.sym) {
        first_taking(regions, name.standing, name.scope)
    } else {
        None
    }
}

// Adds the site of an id, if a scope declares it.
fn add_site(
    sites: &mut Vec<Site>,
    position: usize,
    id: usize,
    scope: Option<usize>,
) -> Result<(), AllocError>
    ensures { OnOk result (sites.new.items ≡ sites.old.items ++ site_of position id scope) }
{
    if let Some(scope) = scope {
        sites.push(Site {
            scope,
            position,
            id,
        })?;
    }
    Ok(())
}

// The ids of the names of a layout, and who declares them.
fn gather<'a>(alloc: Global, layout: &Layout<'a>) -> Result<(Vec<Entry>, Vec<Site>), NoMemory>
    ensures ids { IfOk result (λ all. map known_of all.0.items ≡ known_by (laid_of layout.now).names (length (laid_of layout.now).names)) }
    ensures sites { IfOk result (λ all. all.1.items ≡ sites_by (laid_of layout.now).regions (laid_of layout.now).names (length (laid_of layout.now).names)) }
{
    let mut ids = Entries::new(alloc);
    let mut sites = Vec::new(alloc);
    for position in 0..layout.names.len() {
        let name = &layout.names[position];
        let id = ids.meet(alloc, position, name)?;
        let scope = taker(layout.regions.as_slice(), name);
        add_site(&mut sites, position, id, scope)?;
    }
    Ok((ids.entries, sites))
}

// Whether an id with a context stands outside of export lists, and nothing binds it.
fn is_loose(entry: &Entry) -> bool
    ensures { result ≡ is_id_loose (known_of entry.now) }
{
    entry.stands_outside && !entry.is_bound && !entry.id.1.marks().is_empty()
}

// Adds the text of an id, if it is loose.
fn add_loose(alloc: Global, entry: &Entry, texts: &mut BTreeSet<String>) -> Result<(), NoMemory>
    ensures { OnOk result ((x : List ℕ) → contains_text texts.new x ≡ (if is_id_loose (known_of entry.now) && bytes_eq entry.now.id.0 x then true else contains_text texts.old x)) }
{
    if is_loose(entry) {
        let text = String::from_str(alloc, entry.id.0.as_str())?;
        texts.insert(text)?;
    }
    Ok(())
}

// The texts of loose ids.
fn loose_texts(alloc: Global, ids: &[Entry]) -> Result<BTreeSet<String>, NoMemory>
    ensures { IfOk result (λ texts. (x : List ℕ) → contains_text texts x ≡ list_any (λ e. is_id_loose e && bytes_eq e.id.0 x) (map known_of ids.now)) }
{
    let mut texts = BTreeSet::new(alloc);
    for entry in ids {
        add_loose(alloc, entry, &mut texts)?;
    }
    Ok(texts)
}

/// What a renamer is to know of a tree. It costs time in step with the size of the tree, but for the logarithms of how many
/// ids it has and how many names bind them.
///
/// # Errors
///
/// `NoMemory` where memory is refused.
pub fn analyse(alloc: Global, tree: &Node) -> Result<Analysis, NoMemory>
    ensures { IfOk result (λ analysis. IsRead (laid_out tree.now) analysis) }
{
    let layout = lay_out(alloc, tree)?;
    let (ids, mut sites) = gather(alloc, &layout)?;
    sites.sort()?;
    let loose = loose_texts(alloc, ids.as_slice())?;
    Ok(Analysis {
        regions: layout.regions,
        ids,
        sites,
        loose,
    })
}
