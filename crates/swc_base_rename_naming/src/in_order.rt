//! Names for ids, one after the other.
ghost use Rattle.std.specs.Prelude.{◌≡◌, ◌||◌, ℕ, Bool, List, [], None, IfOk, IfErr, OnOk};
ghost use Rattle.std.specs.Ordering.{nat_cmp};
ghost use Rattle.std.specs.BTreeSet.{contains};
ghost use Rattle.std.specs.List.{list_any};
ghost use Rattle.swc_base_rename_naming.specs.Chained.{ids_of};
ghost use Rattle.swc_base_rename_naming.specs.Free.{FindsFree, IsSearchRefusal};
ghost use Rattle.swc_base_rename_naming.specs.InOrder.{IsRefused, NamedInOrder};
ghost use Rattle.swc_base_rename_naming.specs.Tried.{tried_at};
ghost use Rattle.swc_base_rename_naming.specs.Places.{AreMarked};
ghost use Rattle.swc_base_rename_naming.specs.Sites.{pair_of};
ghost use Rattle.swc_base_rename_naming.specs.Planned.{AreTried, IsNameGivenBy, IsSiteDoneBy, maps_of, planned, taken_by};
ghost use Rattle.swc_base_rename_naming.specs.Steps.{HasMore, IsChoiceRecorded, IsNamable, IsTextRecorded, all_count, next_at as is_next_at, naming, rules, taken_at, text_at, IsSiteRefused};

use crate::asked::Asked;
use crate::free::{Taken, free_text};
use crate::leaked::{Leaked, any_occurs};
use crate::new_texts::NewTexts;
use crate::reverse_map::ReverseMap;
use crate::site::Site;
use crate::tried::Tried;
use std::alloc::Global;
use std::collections::{BTreeMap, BTreeSet};
use swc_tree_marks::{Id, JsWord, NoMemory, PassError};

// What does not change while names are given: the texts, the program, whether the counter goes on from id to id in a scope, and
// which scopes leak.
#[derive(Clone, Copy)]
pub struct Plan<'a, N, A> {
    pub alloc: Global,
    pub texts: &'a N,
    pub asked: &'a A,
    pub counter_goes_on: bool,
    pub leaks: &'a BTreeSet<usize>,
}

/// What naming knows of a scope that is open: which ids of it and of the scopes round it were given which texts, and the counters that
/// were tried in it.
#[derive(Drop)]
pub struct ScopeNames<'a> {
    pub holders: ReverseMap<'a>,
    pub tried: Tried,
}

/// What naming knows of the program: which ids of scopes that leak were given which texts, and the texts of all ids.
#[derive(Drop)]
pub struct ProgramNames {
    pub leaked: Leaked,
    pub names: GivenTexts,
}

// What is taken at a scope: texts that nobody may get, and those of ids that occur there or below.
#[derive(Drop)]
struct AtScope<'a, 'b, A: Asked> {
    asked: &'a A,
    holders: &'a ReverseMap<'b>,
    leaked: &'a Leaked,
    scope: usize,
    ghost marked: { AreMarked (A.positions asked.now) leaked.now },
}

impl<A: Asked> Taken for AtScope<'_, '_, A> {
    ghost taken = { λ at. taken_at (A.preserved at.asked.now) (A.occurs at.asked.now) (at.holders.now, at.leaked.now.holders) at.scope };

    fn is_taken(&self, text: &str) -> bool {
        self.asked.is_preserved(text)
            || any_occurs(self.asked, self.holders, self.scope, text)
            || self.leaked.any_occurs(self.asked, self.scope, text)
    }
}

/// The texts that ids have got, by the ids' numbers, the scope in which the last one was given, and the counter after it.
#[derive(Drop)]
pub struct GivenTexts {
    texts: BTreeMap<usize, JsWord>,
    scope: usize,
    next: usize,
}

impl GivenTexts {
    pub fn new(alloc: Global) -> GivenTexts
        ensures texts { (x : ℕ) → text_at result.texts x ≡ None }
        ensures next { result.next ≡ 0 }
    {
        GivenTexts {
            texts: BTreeMap::new(alloc),
            scope: 0,
            next: 0,
        }
    }

    /// The texts.
    pub fn into_texts(self) -> BTreeMap<usize, JsWord>
        ensures { result ≡ self.texts }
    {
        self.texts
    }
}

impl<'a> ScopeNames<'a> {
    /// A scope with a map of its own, in which no counter was tried.
    pub fn new(alloc: Global, holders: ReverseMap<'a>) -> ScopeNames<'a>
        ensures holders { result.holders ≡ holders.entry }
        ensures tried { (s : ℕ) (x : List ℕ) → tried_at result.tried s x ≡ 0 }
    {
        ScopeNames {
            holders,
            tried: Tried::new(alloc),
        }
    }
}

impl ProgramNames {
    /// No id has a text.
    pub fn new(alloc: Global) -> ProgramNames
        ensures holders { (x : List ℕ) → ids_of result.leaked.holders x ≡ [] }
        ensures marked { (positions : ℕ → List ℕ) → AreMarked positions result.leaked }
        ensures texts { (x : ℕ) → text_at result.names.texts x ≡ None }
        ensures next { result.names.next ≡ 0 }
    {
        ProgramNames {
            leaked: Leaked::new(alloc),
            names: GivenTexts::new(alloc),
        }
    }
}

// The id of a number, if it is to get a name: it has none yet, and does not keep its text.
fn namable<'a, A: Asked>(
    asked: &'a A,
    texts: &BTreeMap<usize, JsWord>,
    number: usize,
) -> Option<&'a Id>
    ensures { IsNamable (A.keeps asked.now) (A.id_of asked.now) texts.now number result }
{
    let id = asked.id(number)?;
    if texts.contains_key(&number) || asked.keeps(id) || id.0.as_str() == "eval" {
        return None;
    }
    Some(id)
}

// The counter from which an id of a scope starts.
fn next_at(counter_goes_on: bool, names: &GivenTexts, scope: usize) -> usize
    ensures { result ≡ is_next_at counter_goes_on names.now scope }
{
    if counter_goes_on && names.scope == scope {
        names.next
    } else {
        0
    }
}

// The first text of an id that is free at a scope.
fn free_at<N: NewTexts, A: Asked>(
    plan: &Plan<'_, N, A>,
    id: &Id,
    scope: usize,
    in_scope: &ScopeNames<'_>,
    in_program: &ProgramNames,
    next: &mut usize,
) -> Result<JsWord, PassError>
    requires { AreMarked (A.positions plan.now.asked.now) in_program.now.leaked }
    ensures found { IfOk result (FindsFree (N.text plan.now.texts.now id.now) (taken_by A.preserved A.occurs plan.now in_scope.now in_program.now scope) next.old next.new) }
    ensures refused { IfErr result (IsSearchRefusal (N.text plan.now.texts.now id.now) (taken_by A.preserved A.occurs plan.now in_scope.now in_program.now scope) next.old) }
{
    let taken = AtScope {
        asked: plan.asked,
        holders: &in_scope.holders,
        leaked: &in_program.leaked,
        scope,
    };
    free_text(plan.alloc, plan.texts, id, &taken, next)
}

// Records that the id of a site has got a text: among those that leak if its scope does, else among those of its scope.
fn record_text<N: NewTexts, A: Asked>(
    plan: &Plan<'_, N, A>,
    text: JsWord,
    site: Site,
    holders: &mut ReverseMap<'_>,
    leaked: &mut Leaked,
) -> Result<(), NoMemory>
    requires { AreMarked (A.positions plan.now.asked.now) leaked.old }
    ensures recorded { OnOk result (IsTextRecorded (contains nat_cmp plan.now.leaks.now site.scope) text site.id (holders.old, leaked.old.holders) (holders.new, leaked.new.holders)) }
    ensures marked { OnOk result (AreMarked (A.positions plan.now.asked.now) leaked.new) }
{
    let leaks = plan.leaks.contains(&site.scope);
    if leaks {
        leaked.push(plan.alloc, plan.asked, text, site.id)
    } else {
        holders.push_entry(text, site.id)
    }
}

// Records the choice of a text for the id of a site, and the counter after it.
fn record_choice(
    text: JsWord,
    site: Site,
    next: usize,
    names: &mut GivenTexts,
) -> Result<(), NoMemory>
    ensures { OnOk result (IsChoiceRecorded text (pair_of site) next names.old names.new) }
{
    names.texts.insert(site.id, text)?;
    names.scope = site.scope;
    names.next = next;
    Ok(())
}

// Up to which counter a search starts anew: where up to three ids of a scope share a text, the few tries that a counter spares the last
// of them cost less than putting it down, which asks for memory twice.
const SEARCHED_ANEW: usize = 3;

// The first text of an id that is free at the scope of a site, and the counter after it. The search begins past the counters that
// were tried for another id of the same text, and where it had to go on, so will the next.
fn search<N: NewTexts, A: Asked>(
    plan: &Plan<'_, N, A>,
    id: &Id,
    scope: usize,
    in_scope: &mut ScopeNames<'_>,
    in_program: &ProgramNames,
) -> Result<(JsWord, usize), PassError>
    requires tried { AreTried N.text A.preserved A.occurs plan.now in_scope.old in_program.now }
    requires marked { AreMarked (A.positions plan.now.asked.now) in_program.now.leaked }
    ensures found { IfOk result (λ found. FindsFree (N.text plan.now.texts.now id.now) (taken_by A.preserved A.occurs plan.now in_scope.old in_program.now scope) (is_next_at plan.now.counter_goes_on in_program.now.names scope) found.1 found.0) }
    ensures holders { in_scope.new.holders ≡ in_scope.old.holders }
    ensures tried { OnOk result (AreTried N.text A.preserved A.occurs plan.now in_scope.new in_program.now) }
    ensures refused { IfErr result (IsSearchRefusal (N.text plan.now.texts.now id.now) (taken_by A.preserved A.occurs plan.now in_scope.old in_program.now scope) (is_next_at plan.now.counter_goes_on in_program.now.names scope)) }
{
    let start = next_at(plan.counter_goes_on, &in_program.names, scope);
    let mut next = start.max(in_scope.tried.counter(scope, id.0.as_str()));
    let text = free_at(plan, id, scope, in_scope, in_program, &mut next)?;
    if start > 0 || next <= SEARCHED_ANEW || !plan.texts.are_alike() {
        return Ok((text, next));
    }
    in_scope
        .tried
        .put(plan.alloc, scope, id.0.clone()?, next - 1)?;
    Ok((text, next))
}

// Gives an id its name at a site.
fn give_name<N: NewTexts, A: Asked>(
    plan: &Plan<'_, N, A>,
    id: &Id,
    site: Site,
    in_scope: &mut ScopeNames<'_>,
    in_program: &mut ProgramNames,
) -> Result<(), PassError>
    requires tried { AreTried N.text A.preserved A.occurs plan.now in_scope.old in_program.old }
    requires marked { AreMarked (A.positions plan.now.asked.now) in_program.old.leaked }
    ensures tried { OnOk result (AreTried N.text A.preserved A.occurs plan.now in_scope.new in_program.new) }
    ensures more { OnOk result (HasMore in_program.old.leaked.holders in_program.new.leaked.holders) }
    ensures marked { OnOk result (AreMarked (A.positions plan.now.asked.now) in_program.new.leaked) }
    ensures named { OnOk result (IsNameGivenBy N.text A.preserved A.occurs plan.now id.now site in_scope.old in_scope.new in_program.old in_program.new) }
    ensures refused { IfErr result (IsSearchRefusal (N.text plan.now.texts.now id.now) (taken_by A.preserved A.occurs plan.now in_scope.old in_program.old site.scope) (is_next_at plan.now.counter_goes_on in_program.old.names site.scope)) }
{
    let (text, next) = search(plan, id, site.scope, in_scope, in_program)?;
    record_text(
        plan,
        text.clone()?,
        site,
        &mut in_scope.holders,
        &mut in_program.leaked,
    )?;
    record_choice(text, site, next, &mut in_program.names)?;
    Ok(())
}

/// Gives the id of a site its name, if it is to get one.
pub fn name_site<N: NewTexts, A: Asked>(
    plan: &Plan<'_, N, A>,
    site: Site,
    in_scope: &mut ScopeNames<'_>,
    in_program: &mut ProgramNames,
) -> Result<(), PassError>
    requires tried { AreTried N.text A.preserved A.occurs plan.now in_scope.old in_program.old }
    requires marked { AreMarked (A.positions plan.now.asked.now) in_program.old.leaked }
    ensures tried { OnOk result (AreTried N.text A.preserved A.occurs plan.now in_scope.new in_program.new) }
    ensures more { OnOk result (HasMore in_program.old.leaked.holders in_program.new.leaked.holders) }
    ensures marked { OnOk result (AreMarked (A.positions plan.now.asked.now) in_program.new.leaked) }
    ensures named { OnOk result ((counts : ℕ → ℕ → Bool) → IsSiteDoneBy (planned N.text A.keeps A.preserved A.occurs A.id_of plan.now counts) plan.now site in_scope.old in_scope.new in_program.old in_program.new) }
    ensures refused { IfErr result (λ e. (counts : ℕ → ℕ → Bool) → IsSiteRefused (planned N.text A.keeps A.preserved A.occurs A.id_of plan.now counts) (pair_of site) in_program.old.names (maps_of in_scope.old in_program.old) e) }
{
    match namable(plan.asked, &in_program.names.texts, site.id) {
        Some(id) => give_name(plan, id, site, in_scope, in_program),
        None => Ok(()),
    }
}

/// The texts of the ids that are declared at these sites, by the ids' numbers; a site has the number of its scope and that of
/// its id.
///
/// The ids get them in the order of the sites: each the first that is free, at the first site that declares it. An id that keeps
/// its text gets none. `counter_goes_on` says whether the counter goes on from id to id within a scope, or starts at 0 for each.
///
/// This is the plain form, in which every name counts everywhere. No pass calls it: a row of the gate holds `names_by_scope` and
/// `names_with_leaks`, by which programs are named, against it. Where every scope leaks, `names_with_leaks` promises the same.
///
/// # Errors
///
/// `CounterSpent` where for an id no counter from its start and below the greatest `usize` has a free text, and `NoMemory`.
pub fn names_in_order<N: NewTexts, A: Asked>(
    alloc: Global,
    texts: &N,
    asked: &A,
    counter_goes_on: bool,
    sites: &[(usize, usize)],
) -> Result<BTreeMap<usize, JsWord>, PassError>
    ensures named { IfOk result (λ found. NamedInOrder (rules (naming (N.text texts.now) counter_goes_on (A.keeps asked.now) (A.preserved asked.now) (A.occurs asked.now) all_count (A.id_of asked.now))) sites.now (text_at found)) }
    ensures refused { IfErr result (IsRefused (rules (naming (N.text texts.now) counter_goes_on (A.keeps asked.now) (A.preserved asked.now) (A.occurs asked.now) all_count (A.id_of asked.now))) sites.now) }
{
    let leaks = BTreeSet::new(alloc);
    let plan = Plan {
        alloc,
        texts,
        asked,
        counter_goes_on,
        leaks: &leaks,
    };
    let holders = ReverseMap::new(alloc);
    let mut in_scope = ScopeNames::new(alloc, holders);
    let mut in_program = ProgramNames::new(alloc);
    for site in sites {
        let (scope, id) = *site;
        let site = Site { scope, id };
        name_site(&plan, site, &mut in_scope, &mut in_program)?;
    }
    Ok(in_program.names.into_texts())
}
