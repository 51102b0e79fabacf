//! Texts of ids, where they were by number.
ghost use Rattle.std.specs.Prelude.{◌≡◌, IfOk, OnOk, Some, if◌then◌else◌};
ghost use Rattle.swc_base_rename_substitution.specs.Names.{Id as Id', found_in, same_id};
ghost use Rattle.swc_base_rename_naming.specs.ByIds.{AreApart, AreChanged};
ghost use Rattle.swc_base_rename_naming.specs.Steps.{text_at};

use crate::asked::Asked;
use std::alloc::Global;
use std::collections::BTreeMap;
use swc_tree_marks::{Id, JsWord, NoMemory};

// Puts a copy of a text down for a copy of an id.
fn put(texts: &mut BTreeMap<Id, JsWord>, id: &Id, text: &JsWord) -> Result<(), NoMemory>
    ensures { OnOk result ((x : Id') → found_in texts.new x ≡ (if same_id id.now x then Some text.now else found_in texts.old x)) }
{
    texts.insert((id.0.clone()?, id.1.clone()?), text.clone()?)?;
    Ok(())
}

/// The texts of the ids whose numbers are below the count, where they are by the ids' numbers: those that are other than the
/// id's own. `None` where no id has a text.
///
/// # Errors
///
/// `NoMemory` where memory is refused.
pub fn texts_by_id<A: Asked>(
    alloc: Global,
    asked: &A,
    count: usize,
    texts: &BTreeMap<usize, JsWord>,
) -> Result<Option<BTreeMap<Id, JsWord>>, NoMemory>
    requires { AreApart (A.id_of asked.now) }
    ensures { IfOk result (AreChanged (A.id_of asked.now) count (text_at texts.now)) }
{
    let mut by_id = BTreeMap::new(alloc);
    let mut any = false;
    for number in 0..count {
        let Some(id) = asked.id(number) else {
            continue;
        };
        let Some(text) = texts.get(&number) else {
            continue;
        };
        any = true;
        if *text != id.0 {
            put(&mut by_id, id, text)?;
        }
    }
    Ok(if any { Some(by_id) } else { None })
}
