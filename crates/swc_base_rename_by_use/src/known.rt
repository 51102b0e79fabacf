//! What is known of the ids of a program.

use std::alloc::Global;
use std::collections::HashSet;
use swc_base_rename_analysis::Entry;
use swc_tree_marks::{Id, JsWord, NoMemory, SyntaxContext};

/// What is known of an id.
#[derive(Drop)]
pub struct Known<'a> {
    pub text: &'a JsWord,
    pub context: &'a SyntaxContext,
    /// How often it occurs as a name.
    pub uses: usize,
    pub is_bound: bool,
    /// Whether it stands outside of export lists.
    pub stands_outside: bool,
    /// Whether it keeps its text.
    pub keeps: bool,
    /// The number of the text that it shares with others.
    pub slot: Option<usize>,
}

// Whether an id keeps its text.
fn keeps(
    text: &JsWord,
    context: &SyntaxContext,
    preserved: &HashSet<Id>,
) -> Result<bool, NoMemory> {
    if text.as_str() == "eval" {
        return Ok(true);
    }
    if preserved.is_empty() {
        return Ok(false);
    }
    let id = (text.clone()?, context.clone()?);
    Ok(preserved.contains(&id))
}

impl<'a> Known<'a> {
    /// An id that is not met yet, where these are preserved.
    ///
    /// # Errors
    ///
    /// `NoMemory` where memory is refused.
    pub fn new(
        text: &'a JsWord,
        context: &'a SyntaxContext,
        preserved: &HashSet<Id>,
    ) -> Result<Known<'a>, NoMemory> {
        Ok(Known {
            text,
            context,
            uses: 0,
            is_bound: false,
            stands_outside: false,
            keeps: keeps(text, context, preserved)?,
            slot: None,
        })
    }

    /// An id as it was read off a program.
    ///
    /// # Errors
    ///
    /// `NoMemory` where memory is refused.
    pub fn of_entry(entry: &'a Entry, preserved: &HashSet<Id>) -> Result<Known<'a>, NoMemory> {
        let mut known = Known::new(&entry.id.0, &entry.id.1, preserved)?;
        known.uses = entry.positions.len();
        known.is_bound = entry.is_bound;
        known.stands_outside = entry.stands_outside;
        Ok(known)
    }

    /// Whether it has no slot yet and does not keep its text.
    pub fn is_open(&self) -> bool {
        self.slot.is_none() && !self.keeps
    }

    /// A copy of the id.
    ///
    /// # Errors
    ///
    /// `NoMemory` where memory is refused.
    pub fn id(&self) -> Result<Id, NoMemory> {
        Ok((self.text.clone()?, self.context.clone()?))
    }
}
