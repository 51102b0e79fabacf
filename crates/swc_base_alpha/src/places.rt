//! Where identifiers of normal forms stand.
ghost use Rattle.std.specs.Prelude.{◌≡◌, ◌∷◌, [], find, map};
ghost use Rattle.std.specs.Str.{bytes_eq};
ghost use Rattle.swc_tree_walk.specs.Sites.{site_of};
ghost use Rattle.swc_base_alpha.specs.Shown.{binds as does_bind, bound_at as first_bound, place_in as stands_at};

use crate::pairs::TOP;
use crate::spans::{Unplaced, placed};
use swc_tree_marks::{DUMMY_SP, Mark, Span, SyntaxContext};
use swc_tree_walk::Site;

// Whether it is the context of what the program's own scope declares: the judge's mark of that is all of it.
fn is_top(context: &SyntaxContext) -> bool
    ensures { result ≡ bytes_eq context.now (2 ∷ []) }
{
    context.marks() == [Mark::from_u32(TOP)].as_slice()
}

// Whether an identifier binds another's text in the program's own scope.
fn binds(site: &Site<'_>, other: &Site<'_>) -> bool
    ensures { result ≡ does_bind other.now.ident.now.sym (site_of site.now) }
{
    site.is_binding() && site.ident.sym == other.ident.sym && is_top(&site.ident.ctxt)
}

// The first of a list that does.
fn first_binding<'a>(other: &Site<'_>, among: &[Site<'a>]) -> Option<Site<'a>>
    ensures { result ≡ find (λ s. does_bind other.now.ident.now.sym (site_of s)) among.now }
{
    among.iter().copied().find(|site| binds(site, other))
}

// Where it stands.
fn bound_at(other: &Site<'_>, among: &[Site<'_>]) -> Span
    ensures { result ≡ first_bound other.now.ident.now.sym (map site_of among.now) }
{
    match first_binding(other, among) {
        Some(site) => site.ident.span,
        None => DUMMY_SP,
    }
}

/// Where an identifier of a list stands; one that a normal form made, for the export of a declaration, where that binds it.
pub fn place_in(site: &Site<'_>, among: &[Site<'_>], unplaced: Unplaced) -> Span
    ensures { result ≡ stands_at unplaced (map site_of among.now) (site_of site.now) }
{
    match unplaced {
        Unplaced::IsMade => placed(site.ident.span, bound_at(site, among)),
        Unplaced::IsUnknown => site.ident.span,
    }
}
