//! Two lists of identifiers beside one another.
ghost use Rattle.std.specs.Prelude.{◌≡◌, ◌↔◌, [], ◌∷◌, IsTrue, MatchOption, length};
ghost use Rattle.swc_tree_scoping.specs.Scopes.{is_name as names};
ghost use Rattle.swc_tree_walk.specs.Sites.{site_of};
ghost use Rattle.swc_base_alpha.specs.Pairs.{EachPair, IsFreeAlike, IsTopAlike, Meets, pairs};
ghost use Rattle.swc_base_alpha.specs.Shown.{FailsAt};

use swc_tree_marks::Ident;
use swc_tree_walk::Site;

/// What is asked of two identifiers that stand at one place.
#[derive(Clone, Copy)]
pub enum Question {
    /// That they have one text, unless they are names.
    Others,
    /// That both are free or neither is, and that free ones have one text.
    Free,
    /// That they have one text, if the program's own scope declares one of them.
    Top,
    /// That they have one text, if they are names.
    Names,
}

// The judge's mark of free names.
const UNRESOLVED: u32 = 1;

/// The judge's mark of the program's own scope.
pub const TOP: u32 = 2;

/// Whether a site is one of a name: a binding or a reference.
pub fn is_name(site: &Site<'_>) -> bool
    ensures { result ≡ names site.now.standing }
{
    site.is_binding() || site.is_reference()
}

fn have_one_text(one: &Ident, other: &Ident) -> bool
    ensures { IsTrue result ↔ (one.now.sym ≡ other.now.sym) }
{
    one.sym == other.sym
}

// Whether the mark is the only one of an identifier.
fn has_mark(ident: &Ident, mark: u32) -> bool
    ensures { IsTrue result ↔ (ident.now.ctxt ≡ mark ∷ []) }
{
    match ident.ctxt.marks() {
        [only] => only.as_u32() == mark,
        _ => false,
    }
}

fn are_free_alike(one: &Ident, other: &Ident) -> bool
    ensures { IsTrue result ↔ IsFreeAlike 1 1 one.now other.now }
{
    if has_mark(one, UNRESOLVED) {
        has_mark(other, UNRESOLVED) && have_one_text(one, other)
    } else {
        !has_mark(other, UNRESOLVED)
    }
}

fn are_top_alike(one: &Ident, other: &Ident) -> bool
    ensures { IsTrue result ↔ IsTopAlike 2 2 one.now other.now }
{
    if has_mark(one, TOP) || has_mark(other, TOP) {
        have_one_text(one, other)
    } else {
        true
    }
}

fn are_alike(question: Question, one: &Site<'_>, other: &Site<'_>) -> bool
    ensures { IsTrue result ↔ Meets question (site_of one.now) (site_of other.now) }
{
    let is_name = is_name(one);
    match question {
        Question::Others => is_name || have_one_text(one.ident, other.ident),
        Question::Free => !is_name || are_free_alike(one.ident, other.ident),
        Question::Top => !is_name || are_top_alike(one.ident, other.ident),
        Question::Names => !is_name || have_one_text(one.ident, other.ident),
    }
}

/// Two of the lists that stand beside one another, if there are such as are looked for.
pub type Found<'a> = Option<(Site<'a>, Site<'a>)>;

/// The first two identifiers beside one another that are not as they are asked to be, if there are such.
pub fn first_apart<'a>(question: Question, ones: &[Site<'a>], others: &[Site<'a>]) -> Found<'a>
    requires { length ones.now ≡ length others.now }
    ensures { MatchOption result (EachPair (Meets question) (pairs ones.now others.now)) (λ found. FailsAt (EachPair (Meets question)) (pairs ones.now others.now) (site_of found.0) (site_of found.1) × ¬ EachPair (Meets question) (pairs ones.now others.now)) }
{
    for i in 0..ones.len() {
        let one = ones[i];
        let other = others[i];
        if !are_alike(question, &one, &other) {
            return Some((one, other));
        }
    }
    None
}

/// Whether each two identifiers that stand beside one another are as they are asked to be.
pub fn each_pair(question: Question, ones: &[Site<'_>], others: &[Site<'_>]) -> bool
    requires { length ones.now ≡ length others.now }
    ensures { IsTrue result ↔ EachPair (Meets question) (pairs ones.now others.now) }
{
    match first_apart(question, ones, others) {
        None => true,
        Some(_) => false,
    }
}
