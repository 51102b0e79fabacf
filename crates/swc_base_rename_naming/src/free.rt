//! The first free text of an id.
ghost use Rattle.std.specs.Prelude.{◌≡◌, ℕ, List, ◌+◌, ◌≤◌, length, IfOk, IfErr, OnOk};
ghost use Rattle.swc_base_rename_naming.specs.Counters.{greatest};
ghost use Rattle.swc_base_rename_naming.specs.Free.{Covers, FindsFree, IsSearchRefusal};

use crate::new_texts::NewTexts;
use std::alloc::Global;
use swc_tree_marks::{Id, JsWord, PassError};

/// Texts that are taken.
pub trait Taken {
    ghost use Rattle.std.specs.Prelude.{◌≡◌, ℕ, Bool, List};

    /// Whether a text is taken.
    ghost taken: { Self → List ℕ → Bool };

    /// Whether a text is taken.
    fn is_taken(&self, text: &str) -> bool
        ensures { result ≡ taken self.now text.now };
}

/// The text of an id at the least counter, from `n` on, whose text is free. The counter is then one past that one.
///
/// It tries at most one text more than are taken.
///
/// # Errors
///
/// `CounterSpent` where no counter from `n` on and below the greatest `usize` has a free text, so that as many texts are taken
/// as there are such counters; and `NoMemory`.
pub fn free_text<N: NewTexts, T: Taken>(
    alloc: Global,
    texts: &N,
    id: &Id,
    taken: &T,
    n: &mut usize,
) -> Result<JsWord, PassError>
    ensures found { IfOk result (FindsFree (N.text texts.now id.now) (T.taken taken.now) n.old n.new) }
    ensures tries { OnOk result ((those : List (List ℕ)) → Covers those (T.taken taken.now) → n.new ≤ n.old + length those + 1) }
    ensures crowded { IfErr result (λ e. e ≡ PassError.CounterSpent → (those : List (List ℕ)) → Covers those (T.taken taken.now) → greatest ≤ n.old + length those) }
    ensures refused { IfErr result (IsSearchRefusal (N.text texts.now id.now) (T.taken taken.now) n.old) }
{
    loop {
        let text = texts.new_text(alloc, id, n)?;
        if !taken.is_taken(text.as_str()) {
            return Ok(text);
        }
    }
}
