//! What lowering passes and the joining of files leave: names that are told apart by marks alone.
use crate::bindings::Bound;
use anyhow::Result;
use std::alloc::Global;
use std::collections::HashMap;
use swc_ecma_transforms_base::rename::{Config, remap};
use swc_tree::{Globals, Id, JsPass, Mark, Module, SyntaxContext};
use swc_tree_items::Text;

/// The names that a pass makes up, or that minified files share.
#[derive(Clone, Copy)]
pub enum Invented {
    /// One name in four is called `_this`, `_ref` or `_obj`.
    Helpers,
    /// Each name is one of eight letters.
    Letters,
}

impl Invented {
    // The text that the id of a number has, if it gets another.
    fn text(self, number: usize) -> Option<&'static str> {
        match self {
            Invented::Helpers => match number % 12 {
                0 => Some("_this"),
                4 => Some("_ref"),
                8 => Some("_obj"),
                _ => None,
            },
            Invented::Letters => match number % 8 {
                0 => Some("a"),
                1 => Some("b"),
                2 => Some("c"),
                3 => Some("e"),
                4 => Some("i"),
                5 => Some("n"),
                6 => Some("r"),
                _ => Some("t"),
            },
        }
    }
}

// The id of a text and a fresh mark.
fn fresh_id(alloc: Global, globals: &mut Globals, text: &str) -> Result<Id> {
    let mut context = SyntaxContext::empty(alloc);
    context.apply_mark(Mark::new(globals)?)?;
    Ok((Text::new(alloc, text)?, context))
}

// The ids that get another text, each with it and with a fresh mark of its own.
fn new_ids(
    alloc: Global,
    globals: &mut Globals,
    names: Invented,
    ids: Vec<Id>,
) -> Result<HashMap<Id, Id>> {
    let mut all = HashMap::new(alloc);
    for (number, id) in ids.into_iter().enumerate() {
        if let Some(text) = names.text(number) {
            all.insert(id, fresh_id(alloc, globals, text)?)?;
        }
    }
    Ok(all)
}

/// The module with such names in place of its own.
///
/// # Errors
///
/// Where memory is refused, or marks are spent.
pub fn lower(
    alloc: Global,
    globals: &mut Globals,
    names: Invented,
    module: Module,
) -> Result<Module> {
    let Bound { mut program, ids } = Bound::of(alloc, module)?;
    let ids = new_ids(alloc, globals, names, ids)?;
    remap(&ids, Config::default()).visit_mut_module(alloc, globals, &mut program)?;
    Ok(program)
}
