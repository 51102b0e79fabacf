//! Whether names are given as they must be.
ghost use Rattle.std.specs.Prelude.{◌≡◌, refl};
ghost use Rattle.std.specs.List.{list_any, slice_get};
ghost use Rattle.swc_base_rename_substitution.specs.Names.{same_id};
ghost use Rattle.swc_base_rename_naming.specs.Stretches.{is_within};
ghost use Rattle.gate_renamers.specs.Flat.{positions_at, round, round-own, round-same, round-through, stretch_at};

use std::alloc::Global;
use std::collections::{BTreeMap, BTreeSet};
use std::fmt::Write;
use swc_base_rename_naming::{
    Asked, HygieneTexts, Nesting, names_by_scope, names_in_order, names_with_leaks,
};
use swc_tree_items::Text;
use swc_tree_marks::{Id, JsWord, Mark, SyntaxContext};

// The ids by number, the positions of each, from where to where each scope goes, which ids keep their texts, and which text nobody
// may get. All scopes lie in the first.
#[derive(Clone, Copy)]
struct Places<'a> {
    ids: &'a [Id],
    positions: &'a [&'a [usize]],
    stretches: &'a [(usize, usize)],
    kept: &'a [Id],
    preserved: &'a str,
}

impl Asked for Places<'_> {
    ghost use Rattle.std.specs.Str.{bytes_eq};

    ghost id_of = { λ places k. slice_get places.ids.now k };

    ghost occurs = { λ places s x. list_any (is_within (stretch_at places.stretches.now s)) (positions_at places.positions.now x) };

    ghost positions = { λ places x. positions_at places.positions.now x };

    ghost stretch = { λ places s. stretch_at places.stretches.now s };

    ghost keeps = { λ places x. list_any (λ id. same_id id x) places.kept.now };

    ghost preserved = { λ places text. bytes_eq text places.preserved.now };

    fn id(&self, number: usize) -> Option<&Id> {
        self.ids.get(number)
    }

    fn occurs(&self, scope: usize, id: usize) -> bool {
        let (start, end) = self.stretch(scope);
        for position in self.positions(id) {
            if start <= *position && *position < end {
                return true;
            }
        }
        false
    }

    fn positions(&self, id: usize) -> &[usize] {
        match self.positions.get(id) {
            Some(positions) => *positions,
            None => &[],
        }
    }

    fn stretch(&self, scope: usize) -> (usize, usize) {
        match self.stretches.get(scope) {
            Some(stretch) => *stretch,
            None => (0, 0),
        }
    }

    fn keeps(&self, id: &Id) -> bool {
        for kept in self.kept {
            if *kept == *id {
                return true;
            }
        }
        false
    }

    fn is_preserved(&self, text: &str) -> bool {
        text == self.preserved
    }

    ghost placed = { λ _ _ _. refl };
}

impl Nesting for Places<'_> {
    ghost surrounds = { λ _ s t. round s t };

    fn surrounds(&self, outer: usize, inner: usize) -> bool {
        outer == 0 || outer == inner
    }

    ghost own = { λ _ s. round-own s };

    ghost through = { λ _ s t u p q. round-through s t u p q };

    ghost same = { λ _ s t p q. round-same s t p q };
}

fn id(alloc: Global, text: &str, mark: u32) -> Option<Id> {
    let mut context = SyntaxContext::empty(alloc);
    if mark > 0 {
        context.apply_mark(Mark::from_u32(mark)).ok()?;
    }
    Some((Text::new(alloc, text).ok()?, context))
}

// The ids of these texts and marks.
fn ids_of(alloc: Global, names: &[(&str, u32)]) -> Option<Vec<Id>> {
    let mut ids = Vec::new(alloc);
    for (text, mark) in names {
        ids.push(id(alloc, text, *mark)?).ok()?;
    }
    Some(ids)
}

// The texts, each with the number of its id.
fn told(alloc: Global, texts: &BTreeMap<usize, JsWord>) -> Option<String> {
    let mut found = String::new(alloc);
    for (number, text) in texts {
        write!(found, "{number} {text} ").ok()?;
    }
    Some(found)
}

// Whether these are the texts.
fn are(alloc: Global, texts: &BTreeMap<usize, JsWord>, wanted: &str) -> Option<bool> {
    Some(told(alloc, texts)?.as_str() == wanted)
}

// Whether these are the texts that names at these sites get in order.
fn are_named(
    alloc: Global,
    places: &Places<'_>,
    counter_goes_on: bool,
    sites: &[(usize, usize)],
    wanted: &str,
) -> Option<bool> {
    let texts = names_in_order(alloc, &HygieneTexts, places, counter_goes_on, sites).ok()?;
    are(alloc, &texts, wanted)
}

// `var b#1; var b1#3; { const b#2; const b1#4; { b1#3; b#2; b#1; b1#4; } }`
fn hygiene(alloc: Global) -> Option<bool> {
    let ids = ids_of(alloc, &[("b", 1), ("b1", 3), ("b", 2), ("b1", 4)])?;
    let places = Places {
        ids: ids.as_slice(),
        positions: &[&[0, 6], &[1, 4], &[2, 5], &[3, 7]],
        stretches: &[(0, 8), (2, 8)],
        kept: &[],
        preserved: "x",
    };
    let sites = [(0, 0), (0, 1), (1, 2), (1, 3), (1, 0)];
    are_named(alloc, &places, false, &sites, "0 b 1 b1 2 b2 3 b11 ")
}

// `var foo#1; { let foo#2; } foo#1`, where the block has no foo#1, and with `foo` preserved
fn apart(alloc: Global) -> Option<bool> {
    let ids = ids_of(alloc, &[("foo", 1), ("foo", 2), ("eval", 1)])?;
    let kept = ids_of(alloc, &[("foo", 1)])?;
    let places = Places {
        ids: ids.as_slice(),
        positions: &[&[0, 2], &[1], &[]],
        stretches: &[(0, 3), (1, 2)],
        kept: &[],
        preserved: "x",
    };
    let preserving = Places {
        kept: kept.as_slice(),
        preserved: "foo",
        ..places
    };
    let sites = [(0, 0), (1, 1), (1, 2)];
    let are_one = are_named(alloc, &places, false, &sites, "0 foo 1 foo ")?;
    Some(are_one && are_named(alloc, &preserving, false, &sites, "1 foo1 ")?)
}

// Three scopes, the second and the third beside one another, where scopes may share texts, and where they may not: an id of the
// second occurs in the third.
#[tactic(auto, using(crate::proofs::Order::in_order))]
fn scopes(alloc: Global) -> Option<bool> {
    let ids = ids_of(alloc, &[("a", 1), ("a", 2), ("a", 3)])?;
    let places = Places {
        ids: ids.as_slice(),
        positions: &[&[0], &[1, 2], &[3]],
        stretches: &[(0, 4), (1, 2), (2, 4)],
        kept: &[],
        preserved: "x",
    };
    let sites = [(0, 0), (1, 1), (2, 2)];
    let texts = names_by_scope(alloc, &HygieneTexts, &places, true, &sites).ok()?;
    let are_shared = are(alloc, &texts, "0 a 1 a 2 a ")?;
    Some(are_shared && are_named(alloc, &places, true, &sites, "0 a 1 a 2 a1 ")?)
}

// Whether names in those three scopes are the plain ones, which are given in order, where these scopes leak; by scope, where none does.
#[tactic(auto, using(crate::proofs::Order::in_order))]
fn are_plain(alloc: Global, places: &Places<'_>, leaking: &[usize]) -> Option<bool> {
    let mut leaks = BTreeSet::new(alloc);
    for scope in leaking {
        leaks.insert(*scope).ok()?;
    }
    let sites = [(0, 0), (1, 1), (2, 2)];
    let texts = if leaking.is_empty() {
        names_by_scope(alloc, &HygieneTexts, places, true, &sites).ok()?
    } else {
        names_with_leaks(alloc, &HygieneTexts, places, true, &leaks, &sites).ok()?
    };
    let plain = names_in_order(alloc, &HygieneTexts, places, true, &sites).ok()?;
    are(alloc, &texts, told(alloc, &plain)?.as_str())
}

// They are where all scopes leak, or the second alone, whose id occurs in the third; where none leaks they are if no id occurs in
// a scope beside its own, and else not.
fn leaks(alloc: Global) -> Option<bool> {
    let ids = ids_of(alloc, &[("a", 1), ("a", 2), ("a", 3)])?;
    let places = Places {
        ids: ids.as_slice(),
        positions: &[&[0], &[1, 2], &[3]],
        stretches: &[(0, 4), (1, 2), (2, 4)],
        kept: &[],
        preserved: "x",
    };
    let apart = Places {
        positions: &[&[0], &[1], &[3]],
        ..places
    };
    let are_held = are_plain(alloc, &places, &[0, 1, 2])? && are_plain(alloc, &places, &[1])?;
    let are_others = !are_plain(alloc, &places, &[])? && !are_plain(alloc, &places, &[0, 2])?;
    Some(are_held && are_others && are_plain(alloc, &apart, &[])?)
}

/// Whether what the words name is as it must be; nothing where memory is refused, or the words name nothing.
pub fn holds(alloc: Global, words: &str) -> Option<bool> {
    match words {
        "names go by what occurs" => hygiene(alloc),
        "names apart may be one" => apart(alloc),
        "names are given by scope" => scopes(alloc),
        "names that leak are plain" => leaks(alloc),
        _ => None,
    }
}
