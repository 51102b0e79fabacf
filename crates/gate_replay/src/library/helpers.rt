//! Rows of helpers: the input names one, and what is wanted are the names of those that a program then has.
use std::alloc::Global;
use std::fmt::Write;
use swc_base_tables_helpers::{Helper, Helpers};
use swc_tree_marks::{Globals, Mark};

/// The helper of a name.
pub fn named(name: &str) -> Option<Helper> {
    for helper in Helper::all() {
        if helper.name() == name {
            return Some(helper);
        }
    }
    None
}

/// The names of the helpers that a program has.
pub fn names(alloc: Global, helpers: &Helpers) -> Option<String> {
    let mut text = String::new(alloc);
    for helper in Helper::all() {
        if helpers.is_enabled(helper) {
            let gap = if text.is_empty() { "" } else { " " };
            write!(text, "{gap}{}", helper.name()).ok()?;
        }
    }
    Some(text)
}

fn with_helper(alloc: Global, external: bool, name: &str) -> Option<Helpers> {
    let helper = named(name)?;
    let mut globals = Globals::new(alloc);
    let mut helpers = Helpers::new(&mut globals, external).ok()?;
    helpers.enable(helper);
    Some(Helpers::from_data(helpers.data()))
}

// Helpers that are written out, and take those of a package.
fn extended(alloc: Global, name: &str) -> Option<Helpers> {
    let mut globals = Globals::new(alloc);
    let mut helpers = Helpers::new(&mut globals, false).ok()?;
    helpers.extend_from(&with_helper(alloc, true, name)?);
    Some(helpers)
}

// The mark made after the first, and that of helpers made after it.
fn marks(alloc: Global) -> Option<String> {
    let mut globals = Globals::from_table(alloc, &[(1, 0)]).ok()?;
    let second = Mark::new(&mut globals).ok()?.as_u32();
    let helpers = Helpers::new(&mut globals, true).ok()?;
    let (mark, external) = (helpers.mark().as_u32(), helpers.external());
    format!(in alloc; "{second} {mark} {external}").ok()
}

fn number(alloc: Global, name: &str) -> Option<String> {
    format!(in alloc; "{}", named(name)?.number()).ok()
}

/// What is answered to words about helpers.
pub fn answer(alloc: Global, words: &str, input: &str) -> Option<String> {
    match words {
        "helpers written out" => names(alloc, &with_helper(alloc, false, input)?),
        "helpers of a package" => names(alloc, &with_helper(alloc, true, input)?),
        "helpers taken over" => names(alloc, &extended(alloc, input)?),
        "helper mark" => marks(alloc),
        "helper number" => number(alloc, input),
        _ => None,
    }
}
