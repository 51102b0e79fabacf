//! What is read of a program: its ids, and the scopes that declare them.

use crate::ids::Ids;
use crate::known::Known;
use std::alloc::Global;
use std::collections::HashSet;
use swc_base_rename_analysis::{Analysis, Layout, Name, Region, ScopeKind, lay_out};
use swc_tree_marks::{Id, NoMemory};
use swc_tree_node::Node;
use swc_tree_scoping::{Standing, is_binding};

/// The scopes of a program, or of a statement at its top, and what occurs in them.
#[derive(Drop)]
pub struct Part {
    pub regions: Vec<Region>,
    /// The numbers of the ids, by the positions at which they occur.
    pub ids: Vec<usize>,
    /// The positions of the names that declare ids at the top of the program, in order.
    pub at_top: Vec<usize>,
    /// The names that declare ids in other scopes: by the scope's number and the position, in order.
    pub sites: Vec<(usize, usize)>,
}

/// The ids of a program by their numbers, and its parts.
#[derive(Drop)]
pub struct Program<'a> {
    pub ids: Vec<Known<'a>>,
    pub parts: Vec<Part>,
}

// The scope that declares an id: the program's, or one of the part's by its number.
#[derive(Clone, Copy)]
enum Declared {
    Nowhere,
    AtTop,
    In(usize),
}

// Whether a scope takes what is bound so.
fn takes(kind: ScopeKind, standing: Standing) -> bool {
    match kind {
        ScopeKind::Fn => true,
        ScopeKind::Block => matches!(standing, Standing::Lexical | Standing::CatchParameter),
    }
}

// Where the id of a name is declared by it.
fn declaring_scope(regions: &[Region], name: &Name<'_>) -> Declared {
    if !is_binding(name.standing) || name.ident.sym.as_str() == "arguments" {
        return Declared::Nowhere;
    }
    let Some(scope) = name.scope else {
        return Declared::AtTop;
    };
    match regions.get(scope) {
        Some(region) if takes(region.kind, name.standing) => Declared::In(scope),
        Some(region) => match region.function {
            Some(function) => Declared::In(function),
            None => Declared::AtTop,
        },
        None => Declared::Nowhere,
    }
}

// A statement at the top, as it is laid out.
fn part_of<'a>(alloc: Global, layout: Layout<'a>, ids: &mut Ids<'a>) -> Result<Part, NoMemory> {
    let mut numbers = Vec::new(alloc);
    let mut at_top = Vec::new(alloc);
    let mut sites = Vec::new(alloc);
    for position in 0..layout.names.len() {
        let name = &layout.names[position];
        numbers.push(ids.meet(name)?)?;
        match declaring_scope(layout.regions.as_slice(), name) {
            Declared::Nowhere => {}
            Declared::AtTop => at_top.push(position)?,
            Declared::In(scope) => sites.push((scope, position))?,
        }
    }
    sites.sort()?;
    Ok(Part {
        regions: layout.regions,
        ids: numbers,
        at_top,
        sites,
    })
}

/// Reads a program by the statements at its top, where these ids are preserved.
///
/// # Errors
///
/// `NoMemory` where memory is refused.
pub fn read_items<'a>(
    alloc: Global,
    preserved: &'a HashSet<Id>,
    items: &'a [Node],
) -> Result<Program<'a>, NoMemory> {
    let mut ids = Ids::new(alloc, preserved);
    let mut parts = Vec::new(alloc);
    for item in items {
        let layout = lay_out(alloc, item)?;
        parts.push(part_of(alloc, layout, &mut ids)?)?;
    }
    Ok(Program {
        ids: ids.known,
        parts,
    })
}

// How many positions a program has, whose scope is the first.
fn count_of(regions: &[Region]) -> usize {
    match regions.get(0) {
        Some(program) => program.end,
        None => 0,
    }
}

// The numbers of the ids by position; labels have none.
fn ids_by_position(alloc: Global, analysis: &Analysis) -> Result<Vec<usize>, NoMemory> {
    let mut ids = vec![in alloc; usize::MAX; count_of(analysis.regions.as_slice())]?;
    for number in 0..analysis.ids.len() {
        for position in analysis.ids[number].positions.as_slice() {
            if let Some(id) = ids.get_mut(*position) {
                *id = number;
            }
        }
    }
    Ok(ids)
}

// A program as one part, whose scope is the first.
fn whole(alloc: Global, analysis: &Analysis) -> Result<Part, NoMemory> {
    let mut at_top = Vec::new(alloc);
    let mut sites = Vec::new(alloc);
    for site in analysis.sites.as_slice() {
        if site.scope == 0 {
            at_top.push(site.position)?;
        } else {
            sites.push((site.scope, site.position))?;
        }
    }
    let mut regions = Vec::new(alloc);
    regions.extend_from_slice(analysis.regions.as_slice())?;
    Ok(Part {
        regions,
        ids: ids_by_position(alloc, analysis)?,
        at_top,
        sites,
    })
}

/// Reads a program by what a renamer knows of it, where these ids are preserved.
///
/// # Errors
///
/// `NoMemory` where memory is refused.
pub fn read_analysis<'a>(
    alloc: Global,
    preserved: &HashSet<Id>,
    analysis: &'a Analysis,
) -> Result<Program<'a>, NoMemory> {
    let mut ids = Vec::new(alloc);
    for entry in analysis.ids.as_slice() {
        ids.push(Known::of_entry(entry, preserved)?)?;
    }
    let mut parts = Vec::new(alloc);
    parts.push(whole(alloc, analysis)?)?;
    Ok(Program { ids, parts })
}
