//! Whether renamers, and maps from texts to ids, answer as they must.
ghost use Rattle.std.specs.Prelude.{◌≡◌, ◌==◌};
ghost use Rattle.std.specs.List.{list_any};
ghost use Rattle.swc_base_rename_naming.specs.Chained.{ids_of};

use crate::{Letters, Numbered, Refusing};
use std::alloc::Global;
use std::fmt::Write;
use swc_base_rename::{HygieneRenamer, Renamer};
use swc_base_rename_naming::{HygieneTexts, Iter, ReverseMap, Taken, free_text};
use swc_base_rename_shortest::Shortest;
use swc_tree_items::Text;
use swc_tree_marks::{Id, Mark, PassError, SyntaxContext};

fn id(alloc: Global, text: &str, mark: u32) -> Option<Id> {
    let mut context = SyntaxContext::empty(alloc);
    if mark > 0 {
        context.apply_mark(Mark::from_u32(mark)).ok()?;
    }
    Some((Text::new(alloc, text).ok()?, context))
}

// Whether these are the numbers of the ids.
fn are(alloc: Global, ids: Iter<'_>, wanted: &str) -> Option<bool> {
    let mut found = String::new(alloc);
    for id in ids {
        write!(found, "{id} ").ok()?;
    }
    Some(found.as_str() == wanted)
}

// Whether a text was given to the id of a number.
fn is_given(map: &ReverseMap<'_>, text: &str, id: usize) -> bool
    ensures { result ≡ list_any (λ x. x == id) (ids_of map.now text.now) }
{
    for other in map.get(text) {
        if *other == id {
            return true;
        }
    }
    false
}

// Gives the text `x` to an id.
fn give(alloc: Global, map: &mut ReverseMap<'_>, id: usize) -> Option<()> {
    map.push_entry(Text::new(alloc, "x").ok()?, id).ok()
}

// Whether a map with the ids 1 and 2, and its child with 3, tell what is given in them and above.
fn are_chained(alloc: Global, map: &ReverseMap<'_>, child: &ReverseMap<'_>) -> Option<bool> {
    let of_child = are(alloc, child.get("x"), "3 1 2 ")?;
    let of_none = are(alloc, child.get("y"), "")?;
    let of_parent = are(alloc, map.get("x"), "1 2 ")?;
    let is_outer = is_given(child, "x", 2);
    let is_inner = is_given(map, "x", 3);
    Some(of_child && of_none && of_parent && is_outer && !is_inner)
}

fn chains(alloc: Global) -> Option<bool> {
    let mut map = ReverseMap::new(alloc);
    give(alloc, &mut map, 1)?;
    give(alloc, &mut map, 2)?;
    let mut child = map.next(alloc);
    give(alloc, &mut child, 3)?;
    are_chained(alloc, &map, &child)
}

// Whether a renamer gives an id a text, and the counter goes one up.
fn gives<R: Renamer>(alloc: Global, renamer: &R, from: usize, wanted: &str) -> Option<bool> {
    let mut n = from;
    let name = renamer
        .new_name_for(alloc, &id(alloc, "a", 1)?, &mut n)
        .ok()?;
    Some(name.as_str() == wanted && n == from + 1)
}

// Whether a renamer has no text at the greatest counter, which stays.
fn is_spent<R: Renamer>(alloc: Global, renamer: &R) -> Option<bool> {
    let mut n = usize::MAX;
    let error = renamer
        .new_name_for(alloc, &id(alloc, "a", 1)?, &mut n)
        .err()?;
    Some(error == PassError::CounterSpent && n == usize::MAX)
}

fn counts(alloc: Global) -> Option<bool> {
    let first = gives(alloc, &HygieneRenamer, 0, "a")?;
    let tenth = gives(alloc, &HygieneRenamer, 10, "a10")?;
    let last = gives(
        alloc,
        &HygieneRenamer,
        usize::MAX - 1,
        "a18446744073709551614",
    )?;
    Some(first && tenth && last && is_spent(alloc, &HygieneRenamer)?)
}

fn letters(alloc: Global) -> Option<bool> {
    let first = gives(alloc, &Letters, 0, "a")?;
    let last = gives(alloc, &Letters, 25, "z")?;
    let next = gives(alloc, &Letters, 27, "b1")?;
    Some(first && last && next && is_spent(alloc, &Letters)?)
}

// Counters with their short texts: around the ends of letters and of lengths, round `do` and the other words that are withheld, and the last.
const SHORT_TEXTS: [(usize, &str); 22] = [
    (0, "a"),
    (1, "b"),
    (25, "z"),
    (26, "A"),
    (51, "Z"),
    (52, "$"),
    (53, "_"),
    (54, "aa"),
    (55, "ab"),
    (117, "a9"),
    (118, "ba"),
    (259, "dn"),
    (260, "dp"),
    (569, "ie"),
    (570, "ig"),
    (571, "ih"),
    (3_507, "aaa"),
    (3_508, "aab"),
    (3_509, "aac"),
    (1_152_921_504_606_846_976, "ajjjjjjjjj7"),
    (163_295_746_507_125_000, "instanceoe"),
    (18_446_744_073_709_551_614, "pjjjjjjjjj5"),
];

fn short_texts(alloc: Global) -> Option<bool> {
    for (n, text) in SHORT_TEXTS {
        if !gives(alloc, &Shortest, n, text)? {
            return Some(false);
        }
    }
    Some(is_spent(alloc, &Shortest)? && settings::<Shortest>() == (true, false))
}

// The two settings of a renamer.
fn settings<R: Renamer>() -> (bool, bool)
    ensures { result ≡ (R.MANGLE, R.RESET_N) }
{
    (R::MANGLE, R::RESET_N)
}

fn numbers(alloc: Global) -> Option<bool> {
    let renamer = Numbered::<true, false>::new(Vec::new(alloc));
    let set = settings::<Numbered<true, true>>() == (true, true)
        && settings::<Numbered<true, false>>() == (true, false)
        && settings::<Numbered<false, true>>() == (false, true)
        && settings::<Numbered<false, false>>() == (false, false);
    let refuses = Refusing
        .new_name_for(alloc, &id(alloc, "a", 1)?, &mut 0)
        .err()?;
    Some(set && gives(alloc, &renamer, 0, "v0")? && refuses == PassError::NoMemory)
}

// Two texts that are taken.
#[derive(Clone, Copy)]
struct Two<'a>(&'a str, &'a str);

impl Taken for Two<'_> {
    ghost use Rattle.std.specs.Prelude.{◌||◌};
    ghost use Rattle.std.specs.Str.{bytes_eq};

    ghost taken = { λ two text. bytes_eq text two.0.now || bytes_eq text two.1.now };

    fn is_taken(&self, text: &str) -> bool {
        text == self.0 || text == self.1
    }
}

fn finds_free(alloc: Global, id: &Id) -> Option<bool> {
    let mut n = 0;
    let name = free_text(alloc, &HygieneTexts, id, &Two("b", "b1"), &mut n).ok()?;
    Some(name.as_str() == "b2" && n == 3)
}

// Whether there is no free text where the last is taken.
fn finds_none(alloc: Global, id: &Id) -> Option<bool> {
    let mut last = usize::MAX - 1;
    let taken = Two("b18446744073709551614", "b");
    let error = free_text(alloc, &HygieneTexts, id, &taken, &mut last).err()?;
    Some(error == PassError::CounterSpent)
}

fn free(alloc: Global) -> Option<bool> {
    let id = id(alloc, "b", 2)?;
    Some(finds_free(alloc, &id)? && finds_none(alloc, &id)?)
}

/// Whether what the words name is as it must be; nothing where memory is refused, or the words name nothing.
pub fn holds(alloc: Global, words: &str) -> Option<bool> {
    match words {
        "maps are chained" => chains(alloc),
        "hygiene counts" => counts(alloc),
        "letters are given" => letters(alloc),
        "short texts are given" => short_texts(alloc),
        "numbers are given" => numbers(alloc),
        "the first free text is found" => free(alloc),
        _ => match crate::name_rows::holds(alloc, words) {
            None => match crate::large::holds(alloc, words) {
                None => crate::by_use_rows::holds(alloc, words),
                held => held,
            },
            held => held,
        },
    }
}
