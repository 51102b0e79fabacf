//! Reading what has no nodes in it: numbers, spans, contexts, texts, flags and words.
ghost use Rattle.std.specs.Prelude.{◌≡◌, option_map, option_and_then};
ghost use Rattle.json.specs.Find.{as_array, as_number};
ghost use Rattle.json.specs.Value.{value_view, items_view};
ghost use Rattle.jsbase_form.specs.Leaves.{whole, is_marked, number_at, span_at, mark_at, marks_of, context_at, text_at, flag_at, word_at, spelled};
ghost use Rattle.jsbase_form.specs.Tables.{pair_at};
ghost use Rattle.jsbase_reader.specs.Answers.{Gives};

use crate::error::{ReadError, fault, under};
use jsbase_form::Step;
use json::Value;
use std::alloc::Global;
use swc_tree_items::Text;
use swc_tree_marks::{Globals, Mark, Span, SyntaxContext};
use swc_tree_node::{Word, WordClass, spelling_of, words_of};

// The whole number of 32 bits that a text of digits alone writes.
fn whole(text: &str) -> Option<u32>
    ensures { result ≡ whole text.now }
{
    let bytes = text.as_bytes();
    if bytes.is_empty() || bytes[0] == b'+' {
        return None;
    }
    text.parse().ok()
}

fn number_in(value: &Value<'_>) -> Option<u32>
    ensures { result ≡ option_and_then whole (as_number (value_view value.now)) }
{
    whole(value.as_number()?)
}

#[tactic(auto, unfolding(jsbase_form::specs::Leaves::number_at))]
pub(crate) fn read_number(alloc: Global, value: &Value<'_>) -> Result<u32, ReadError>
    ensures { Gives result (number_at (value_view value.now)) }
{
    match number_in(value) {
        Some(number) => Ok(number),
        None => fault(alloc),
    }
}

// The items of an array.
pub(crate) fn items_of<'v, 'a>(value: &'v Value<'a>) -> Option<&'v [Value<'a>]>
    ensures { option_map (λ items. items_view items.now) result ≡ as_array (value_view value.now) }
{
    match value {
        Value::Array(items) => Some(items.as_slice()),
        _ => None,
    }
}

// Two numbers.
#[tactic(auto, using(crate::proofs::Tables::no_pair), unfolding(jsbase_form::specs::Tables::pair_at))]
pub(crate) fn read_pair(alloc: Global, value: &Value<'_>) -> Result<(u32, u32), ReadError>
    ensures { Gives result (pair_at (value_view value.now)) }
{
    let Some(numbers) = items_of(value) else {
        return fault(alloc);
    };
    match numbers {
        [first, second] => {
            let first = under(Step::Index(0), read_number(alloc, first))?;
            let second = under(Step::Index(1), read_number(alloc, second))?;
            Ok((first, second))
        }
        _ => fault(alloc),
    }
}

#[tactic(auto, using(crate::proofs::Items::span_of_pair))]
pub(crate) fn read_span(alloc: Global, value: &Value<'_>) -> Result<Span, ReadError>
    ensures { Gives result (span_at (value_view value.now)) }
{
    let (lo, hi) = read_pair(alloc, value)?;
    Ok(Span { lo, hi })
}

// Whether a number is that of a mark of the globals, and not the root's.
pub(crate) fn is_marked(globals: &Globals, number: u32) -> bool
    ensures { result ≡ is_marked globals.now number }
{
    number != 0 && globals.knows(Mark::from_u32(number))
}

#[tactic(auto, unfolding(jsbase_form::specs::Leaves::mark_at))]
pub(crate) fn read_mark(
    alloc: Global,
    globals: &Globals,
    value: &Value<'_>,
) -> Result<Mark, ReadError>
    ensures { Gives result (mark_at globals.now (value_view value.now)) }
{
    let number = read_number(alloc, value)?;
    if is_marked(globals, number) {
        Ok(Mark::from_u32(number))
    } else {
        fault(alloc)
    }
}

fn read_marks(
    alloc: Global,
    globals: &Globals,
    values: &[Value<'_>],
) -> Result<SyntaxContext, ReadError>
    ensures { Gives result (marks_of globals.now 0 (items_view values.now)) }
{
    let mut context = SyntaxContext::empty(alloc);
    for (i, value) in values.iter().enumerate() {
        let mark = under(Step::Index(i), read_mark(alloc, globals, value))?;
        context.apply_mark(mark)?;
    }
    Ok(context)
}

#[tactic(auto, unfolding(jsbase_form::specs::Leaves::context_at))]
pub(crate) fn read_context(
    alloc: Global,
    globals: &Globals,
    value: &Value<'_>,
) -> Result<SyntaxContext, ReadError>
    ensures { Gives result (context_at globals.now (value_view value.now)) }
{
    match items_of(value) {
        Some(values) => read_marks(alloc, globals, values),
        None => fault(alloc),
    }
}

#[tactic(auto, unfolding(jsbase_form::specs::Leaves::text_at))]
pub(crate) fn read_text(alloc: Global, value: &Value<'_>) -> Result<Text, ReadError>
    ensures { Gives result (text_at (value_view value.now)) }
{
    match value.as_str() {
        Some(text) => Ok(Text::new(alloc, text)?),
        None => fault(alloc),
    }
}

#[tactic(auto, unfolding(jsbase_form::specs::Leaves::flag_at))]
pub(crate) fn read_flag(alloc: Global, value: &Value<'_>) -> Result<bool, ReadError>
    ensures { Gives result (flag_at (value_view value.now)) }
{
    match value.as_bool() {
        Some(flag) => Ok(flag),
        None => fault(alloc),
    }
}

// The word of a list that is spelled so.
fn spelled(text: &str, words: &[Word]) -> Option<Word>
    ensures { result ≡ spelled text.now words.now }
{
    words
        .iter()
        .copied()
        .find(|word| spelling_of(*word) == text)
}

#[tactic(auto, unfolding(jsbase_form::specs::Leaves::word_at))]
pub(crate) fn read_word(
    alloc: Global,
    words: WordClass,
    value: &Value<'_>,
) -> Result<Word, ReadError>
    ensures { Gives result (word_at words (value_view value.now)) }
{
    let Some(text) = value.as_str() else {
        return fault(alloc);
    };
    match spelled(text, words_of(words)) {
        Some(word) => Ok(word),
        None => fault(alloc),
    }
}
