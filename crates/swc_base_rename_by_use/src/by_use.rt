//! Texts for ids, of which each has one of its own.
ghost use Rattle.std.specs.Prelude.{◌≡◌};
ghost use Rattle.swc_base_rename_substitution.specs.Names.{Id as Id'};
ghost use Rattle.swc_base_rename_by_use.specs.ByUse.{moved as is_moved, own as is_own, text_by_use};
ghost use Rattle.swc_base_rename_by_use.specs.ByUseLaws.{differ-by_use};

use crate::short_text;
use std::alloc::Global;
use std::collections::BTreeMap;
use swc_base_rename_naming::NewTexts;
use swc_tree_marks::{Id, JsWord, PassError};

/// Gives each id first the short text of the counter that is put down for it, and then the other short texts in order.
#[derive(Drop)]
pub struct TextsByUse {
    pub(crate) own: BTreeMap<Id, usize>,
}

// Which counter comes at a counter, where that one comes first and the others keep their order.
fn moved(first: usize, n: usize) -> usize
    ensures { result ≡ is_moved first n }
{
    if n == 0 {
        first
    } else if n <= first {
        n - 1
    } else {
        n
    }
}

impl TextsByUse {
    /// No id has a text of its own: each gets all short texts in order.
    pub fn new(alloc: Global) -> TextsByUse
        ensures { (x : Id') → is_own result x ≡ 0 }
    {
        TextsByUse {
            own: BTreeMap::new(alloc),
        }
    }

    // The counter of the text that is an id's own.
    #[tactic(auto, using(crate::specs::ByUseLaws::held_itself))]
    fn own(&self, id: &Id) -> usize
        ensures { result ≡ is_own self.now id.now }
    {
        match self.own.get(id) {
            Some(counter) => *counter,
            None => 0,
        }
    }
}

impl NewTexts for TextsByUse {
    ghost text = { text_by_use };

    /// The short text that is the id's own at counter 0, and then the other short texts.
    ///
    /// # Errors
    ///
    /// `CounterSpent` at the greatest `usize`, and `NoMemory`. The counter then stays.
    fn new_text(&self, alloc: Global, id: &Id, n: &mut usize) -> Result<JsWord, PassError> {
        let next = n.checked_add(1).ok_or(PassError::CounterSpent)?;
        let text = short_text(alloc, moved(self.own(id), *n))?;
        *n = next;
        Ok(text)
    }

    ghost differ = { differ-by_use };
}
