//! Names that count only in the scope in which they were given, and in those in it; those of scopes that leak count everywhere.
ghost use Rattle.std.specs.Prelude.{◌≡◌, ◌<◌, ℕ, length, IfOk, IfErr, OnOk};
ghost use Rattle.std.specs.Ordering.{nat_cmp};
ghost use Rattle.std.specs.BTreeSet.{contains};
ghost use Rattle.swc_base_rename_naming.specs.InOrder.{IsRefused, NamedInOrder};
ghost use Rattle.swc_base_rename_naming.specs.Inside.{IsInPreorder, IsScopeNamed, IsScopeRefused};
ghost use Rattle.swc_base_rename_naming.specs.Places.{AreMarked};
ghost use Rattle.swc_base_rename_naming.specs.Planned.{planned};
ghost use Rattle.swc_base_rename_naming.specs.Steps.{HasMore, counts_with, naming, rules, text_at};

use crate::asked::{Asked, Nesting};
use crate::in_order::{Plan, ProgramNames, ScopeNames, name_site};
use crate::new_texts::NewTexts;
use crate::reverse_map::ReverseMap;
use crate::site::Site;
use std::alloc::Global;
use std::collections::{BTreeMap, BTreeSet};
use swc_tree_marks::{JsWord, PassError};

// Names the ids of the sites from one on, as long as they are of its scope or of scopes in it. It answers where they end.
fn name_scope<N: NewTexts, A: Asked + Nesting>(
    plan: &Plan<'_, N, A>,
    sites: &[(usize, usize)],
    from: usize,
    outer: &ReverseMap<'_>,
    in_program: &mut ProgramNames,
) -> Result<usize, PassError>
    requires within { from < length sites.now }
    requires order { IsInPreorder (A.surrounds plan.now.asked.now) sites.now }
    requires marked { AreMarked (A.positions plan.now.asked.now) in_program.old.leaked }
    ensures named { IfOk result (IsScopeNamed (planned N.text A.keeps A.preserved A.occurs A.id_of plan.now) (contains nat_cmp plan.now.leaks.now) (A.surrounds plan.now.asked.now) sites.now from in_program.old.names in_program.new.names (outer.now, in_program.old.leaked.holders) in_program.new.leaked.holders) }
    ensures more { OnOk result (HasMore in_program.old.leaked.holders in_program.new.leaked.holders) }
    ensures marked { OnOk result (AreMarked (A.positions plan.now.asked.now) in_program.new.leaked) }
    ensures refused { IfErr result (IsScopeRefused (planned N.text A.keeps A.preserved A.occurs A.id_of plan.now) (contains nat_cmp plan.now.leaks.now) (A.surrounds plan.now.asked.now) sites.now from in_program.old.names (outer.now, in_program.old.leaked.holders)) }
{
    let (scope, _) = sites[from];
    let holders = outer.next(plan.alloc);
    let mut in_scope = ScopeNames::new(plan.alloc, holders);
    let mut at = from;
    while at < sites.len() && plan.asked.surrounds(scope, sites[at].0) {
        let (of, id) = sites[at];
        let site = Site { scope: of, id };
        if site.scope == scope {
            name_site(plan, site, &mut in_scope, in_program)?;
            at += 1;
        } else {
            at = name_scope(plan, sites, at, &in_scope.holders, in_program)?;
        }
    }
    Ok(at)
}

/// The texts of the ids that are declared at these sites, where scopes beside one another may share texts: an id's text is not that of an
/// id that was named before in its scope or in one round it, and that occurs in its scope or below.
///
/// # Errors
///
/// As `names_in_order`.
pub fn names_by_scope<N: NewTexts, A: Asked + Nesting>(
    alloc: Global,
    texts: &N,
    asked: &A,
    counter_goes_on: bool,
    sites: &[(usize, usize)],
) -> Result<BTreeMap<usize, JsWord>, PassError>
    requires { IsInPreorder (A.surrounds asked.now) sites.now }
    ensures named { IfOk result (λ found. NamedInOrder (rules (naming (N.text texts.now) counter_goes_on (A.keeps asked.now) (A.preserved asked.now) (A.occurs asked.now) (A.surrounds asked.now) (A.id_of asked.now))) sites.now (text_at found)) }
    ensures refused { IfErr result (IsRefused (rules (naming (N.text texts.now) counter_goes_on (A.keeps asked.now) (A.preserved asked.now) (A.occurs asked.now) (A.surrounds asked.now) (A.id_of asked.now))) sites.now) }
{
    let leaks = BTreeSet::new(alloc);
    names_with_leaks(alloc, texts, asked, counter_goes_on, &leaks, sites)
}

/// The same, but that names of the scopes that leak count everywhere, so that no id that is named later and occurs where such a name does may share its text.
/// The scopes that leak are told by their numbers.
///
/// # Errors
///
/// As `names_in_order`.
pub fn names_with_leaks<N: NewTexts, A: Asked + Nesting>(
    alloc: Global,
    texts: &N,
    asked: &A,
    counter_goes_on: bool,
    leaks: &BTreeSet<usize>,
    sites: &[(usize, usize)],
) -> Result<BTreeMap<usize, JsWord>, PassError>
    requires { IsInPreorder (A.surrounds asked.now) sites.now }
    ensures named { IfOk result (λ found. NamedInOrder (rules (naming (N.text texts.now) counter_goes_on (A.keeps asked.now) (A.preserved asked.now) (A.occurs asked.now) (counts_with (contains nat_cmp leaks.now) (A.surrounds asked.now)) (A.id_of asked.now))) sites.now (text_at found)) }
    ensures refused { IfErr result (IsRefused (rules (naming (N.text texts.now) counter_goes_on (A.keeps asked.now) (A.preserved asked.now) (A.occurs asked.now) (counts_with (contains nat_cmp leaks.now) (A.surrounds asked.now)) (A.id_of asked.now))) sites.now) }
{
    let plan = Plan {
        alloc,
        texts,
        asked,
        counter_goes_on,
        leaks,
    };
    let outer = ReverseMap::new(alloc);
    let mut in_program = ProgramNames::new(alloc);
    let mut at = 0;
    while at < sites.len() {
        at = name_scope(&plan, sites, at, &outer, &mut in_program)?;
    }
    Ok(in_program.names.into_texts())
}
