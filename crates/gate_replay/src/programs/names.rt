//! The names of a row: a list under the key `names`, of each a text, the marks of its context and its new text, and for
//! `remap` the marks of that.
use serde_json::Value;
use std::alloc::Global;
use std::collections::HashMap;
use swc_tree_items::Text;
use swc_tree_marks::{Id, JsWord, Mark, SyntaxContext};

fn text(alloc: Global, name: &Value, at: usize) -> Option<JsWord> {
    let text = name.get(at)?.as_str()?;
    Text::new(alloc, text).ok()
}

fn add_marks(ctxt: &mut SyntaxContext, marks: &[Value]) -> Option<()> {
    for mark in marks {
        let number = u32::try_from(mark.as_u64()?).ok()?;
        ctxt.apply_mark(Mark::from_u32(number)).ok()?;
    }
    Some(())
}

// The text at a place of a name, with the marks after it.
fn id(alloc: Global, name: &Value, at: usize) -> Option<Id> {
    let marks = name.get(at.checked_add(1)?)?.as_array()?;
    let mut ctxt = SyntaxContext::empty(alloc);
    add_marks(&mut ctxt, marks)?;
    Some((text(alloc, name, at)?, ctxt))
}

fn put<T: Drop>(map: &mut HashMap<Id, T>, id: Id, new: T) -> Option<()> {
    map.insert(id, new).ok()?;
    Some(())
}

fn put_text(alloc: Global, texts: &mut HashMap<Id, JsWord>, name: &Value) -> Option<()> {
    let new = text(alloc, name, 2)?;
    put(texts, id(alloc, name, 0)?, new)
}

fn put_id(alloc: Global, ids: &mut HashMap<Id, Id>, name: &Value) -> Option<()> {
    let new = id(alloc, name, 2)?;
    put(ids, id(alloc, name, 0)?, new)
}

// The values of the list under a key.
fn listed<'a>(value: &'a Value, key: &str) -> Option<&'a [Value]> {
    Some(value.get(key)?.as_array()?.as_slice())
}

fn texts_of(alloc: Global, names: &[Value]) -> Option<HashMap<Id, JsWord>> {
    let mut texts = HashMap::new(alloc);
    for name in names {
        put_text(alloc, &mut texts, name)?;
    }
    Some(texts)
}

fn ids_of(alloc: Global, names: &[Value]) -> Option<HashMap<Id, Id>> {
    let mut ids = HashMap::new(alloc);
    for name in names {
        put_id(alloc, &mut ids, name)?;
    }
    Some(ids)
}

fn preserved_of(alloc: Global, names: &[Value]) -> Option<Vec<Id>> {
    let mut ids = Vec::new(alloc);
    for name in names {
        ids.push(id(alloc, name, 0)?).ok()?;
    }
    Some(ids)
}

/// The ids under the key `preserved`, of each a text and the marks of its context.
pub fn preserved(alloc: Global, input: &str) -> Option<Vec<Id>> {
    let value = Value::from_str(alloc, input).ok()?;
    preserved_of(alloc, listed(&value, "preserved")?)
}

/// The new texts of ids.
pub fn texts(alloc: Global, input: &str) -> Option<HashMap<Id, JsWord>> {
    let value = Value::from_str(alloc, input).ok()?;
    texts_of(alloc, listed(&value, "names")?)
}

/// The new ids of ids.
pub fn ids(alloc: Global, input: &str) -> Option<HashMap<Id, Id>> {
    let value = Value::from_str(alloc, input).ok()?;
    ids_of(alloc, listed(&value, "names")?)
}
