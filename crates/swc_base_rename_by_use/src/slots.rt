//! Slots: ids that can share a text get one of the same number.
//!
//! An id gets the first slot that no id has which occurs in its scope or below. So ids of scopes beside one another share slots, and an id of a scope
//! may have that of one further out that does not occur there.

use crate::known::Known;
use crate::read::{Part, Program};
use std::alloc::Global;
use swc_tree_marks::NoMemory;

// A scope: the number of its part, and its own in it.
type ScopeNumber = (usize, usize);

/// For each slot how often its ids are used, and the last scope that was found to need it.
#[derive(Drop)]
pub struct Slots {
    pub uses: Vec<usize>,
    needed: Vec<Option<ScopeNumber>>,
}

impl Slots {
    fn new(alloc: Global) -> Slots {
        Slots {
            uses: Vec::new(alloc),
            needed: Vec::new(alloc),
        }
    }

    // A scope needs a slot.
    fn need(&mut self, slot: usize, scope: Option<ScopeNumber>) {
        if let Some(needed) = self.needed.get_mut(slot) {
            *needed = scope;
        }
    }

    // The first slot, from one on, that a scope does not need; a new one where it needs all.
    fn first_free(&mut self, from: usize, scope: Option<ScopeNumber>) -> Result<usize, NoMemory> {
        for slot in from..self.needed.len() {
            if self.needed[slot] != scope {
                return Ok(slot);
            }
        }
        let slot = self.needed.len();
        self.needed.push(scope)?;
        self.uses.push(0)?;
        Ok(slot)
    }

    // Gives an id that is to have a slot the first one, from one on, that its scope does not need. Answers where the search for the next begins.
    fn give(
        &mut self,
        known: &mut Known<'_>,
        from: usize,
        scope: Option<ScopeNumber>,
    ) -> Result<usize, NoMemory> {
        if !known.is_open() {
            return Ok(from);
        }
        let slot = self.first_free(from, scope)?;
        self.need(slot, scope);
        known.slot = Some(slot);
        if let Some(uses) = self.uses.get_mut(slot) {
            *uses = uses.saturating_add(known.uses);
        }
        Ok(slot)
    }
}

// The id that occurs at a position.
fn id_at<'k, 'a>(
    ids: &'k mut [Known<'a>],
    part: &Part,
    position: usize,
) -> Option<&'k mut Known<'a>> {
    ids.get_mut(*part.ids.get(position)?)
}

impl Slots {
    // The ids that are declared at the top of a program.
    fn give_at_top(&mut self, ids: &mut [Known<'_>], parts: &[Part]) -> Result<(), NoMemory> {
        let mut from = 0;
        for part in parts {
            for position in part.at_top.as_slice() {
                if let Some(known) = id_at(ids, part, *position) {
                    from = self.give(known, from, None)?;
                }
            }
        }
        Ok(())
    }

    // A scope of a part needs the slots of the ids that occur in it.
    fn need_all(&mut self, ids: &[Known<'_>], part: &Part, scope: ScopeNumber) {
        let Some(region) = part.regions.get(scope.1) else {
            return;
        };
        for position in region.start..region.end {
            if let Some(number) = part.ids.get(position)
                && let Some(known) = ids.get(*number)
                && let Some(slot) = known.slot
            {
                self.need(slot, Some(scope));
            }
        }
    }

    // The ids that are declared in other scopes of a part, which has that number.
    fn give_in(
        &mut self,
        ids: &mut [Known<'_>],
        number: usize,
        part: &Part,
    ) -> Result<(), NoMemory> {
        let mut open = None;
        let mut from = 0;
        for site in part.sites.as_slice() {
            let (scope, position) = *site;
            if open != Some(scope) {
                open = Some(scope);
                from = 0;
                self.need_all(&*ids, part, (number, scope));
            }
            if let Some(known) = id_at(ids, part, position) {
                from = self.give(known, from, Some((number, scope)))?;
            }
        }
        Ok(())
    }
}

/// Gives slots to the ids that a program declares and that do not keep their texts.
///
/// # Errors
///
/// `NoMemory` where memory is refused.
///
/// # Cost
///
/// Time in step with the number of names, for each scope round them that declares any.
pub fn give_slots(alloc: Global, program: &mut Program<'_>) -> Result<Slots, NoMemory> {
    let mut slots = Slots::new(alloc);
    let ids = program.ids.as_mut_slice();
    slots.give_at_top(ids, program.parts.as_slice())?;
    for number in 0..program.parts.len() {
        slots.give_in(ids, number, &program.parts[number])?;
    }
    Ok(slots)
}
