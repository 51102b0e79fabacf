//! The names to be given.
ghost use Rattle.std.specs.Prelude.{◌≡◌, IfOk, is_some};
ghost use Rattle.swc_base_rename_substitution.specs.Names.{new_id};

use std::alloc::Global;
use std::collections::{BTreeMap, HashMap};
use swc_tree_marks::{Id, JsWord, NoMemory, SyntaxContext};

/// The new names of ids.
#[derive(Clone, Copy)]
pub enum Names<'a> {
    /// New texts, each of which gets the empty context.
    Texts(&'a HashMap<Id, JsWord>),
    /// The same from a table that is in order: a look-up costs the logarithm of its length, whatever the ids.
    Ordered(&'a BTreeMap<Id, JsWord>),
    /// New texts with their contexts.
    Ids(&'a HashMap<Id, Id>),
}

// A copy of an id.
pub(crate) fn copy(id: &Id) -> Result<Id, NoMemory>
    ensures { IfOk result (λ copy. copy ≡ id.now) }
{
    Ok((id.0.clone()?, id.1.clone()?))
}

impl Names<'_> {
    // The new id, where the map has one of another text. Only then is memory asked for.
    //
    // # Errors
    //
    // `NoMemory` where memory is refused.
    pub(crate) fn new_id(&self, alloc: Global, id: &Id) -> Result<Option<Id>, NoMemory>
        ensures { IfOk result (λ new. new ≡ new_id self.now id.now) }
    {
        match self {
            Names::Texts(map) => match map.get(id) {
                Some(text) if *text != id.0 => Ok(Some((
                    text.clone()?,
                    SyntaxContext::empty(alloc),
                ))),
                _ => Ok(None),
            },
            Names::Ordered(map) => match map.get(id) {
                Some(text) if *text != id.0 => Ok(Some((
                    text.clone()?,
                    SyntaxContext::empty(alloc),
                ))),
                _ => Ok(None),
            },
            Names::Ids(map) => match map.get(id) {
                Some(new) if new.0 != id.0 => Ok(Some(copy(new)?)),
                _ => Ok(None),
            },
        }
    }

    // Whether the map has another text for an id.
    pub(crate) fn changes(&self, id: &Id) -> bool
        ensures { result ≡ is_some (new_id self.now id.now) }
    {
        match self {
            Names::Texts(map) => match map.get(id) {
                Some(text) => *text != id.0,
                None => false,
            },
            Names::Ordered(map) => match map.get(id) {
                Some(text) => *text != id.0,
                None => false,
            },
            Names::Ids(map) => match map.get(id) {
                Some(new) => new.0 != id.0,
                None => false,
            },
        }
    }
}
