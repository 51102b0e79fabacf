//! Which scopes leak: those behind which an id occurs that they declare.
ghost use Rattle.std.specs.Prelude.{◌≡◌, ℕ, IfOk};
ghost use Rattle.std.specs.Ordering.{nat_cmp};
ghost use Rattle.std.specs.BTreeSet.{contains};
ghost use Rattle.std.specs.List.{slice_get};
ghost use Rattle.swc_base_rename_program.specs.Behind.{is_behind as is_span_behind, leaks};

use crate::spans::Span;
use std::alloc::{AllocError, Global};
use std::collections::BTreeSet;
use swc_base_rename_analysis::Region;

// Whether the last position of an id is at the end of a scope or behind it, both by their numbers.
fn is_behind(regions: &[Region], spans: &[Span], scope: usize, id: usize) -> bool
    ensures { result ≡ is_span_behind (slice_get regions.now scope) (slice_get spans.now id) }
{
    match (regions.get(scope), spans.get(id)) {
        (Some(region), Some(span)) => region.end <= span.1,
        _ => true,
    }
}

/// The scopes of those sites, each a scope and an id that it declares, at which the id occurs behind the scope.
///
/// # Errors
///
/// `AllocError` where memory is refused, which is asked for only where a scope leaks.
pub fn leaking_scopes(
    alloc: Global,
    regions: &[Region],
    spans: &[Span],
    sites: &[(usize, usize)],
) -> Result<BTreeSet<usize>, AllocError>
    ensures { IfOk result (λ scopes. (scope : ℕ) → contains nat_cmp scopes scope ≡ leaks regions.now spans.now sites.now scope) }
{
    let mut scopes = BTreeSet::new(alloc);
    for site in sites {
        if is_behind(regions, spans, site.0, site.1) {
            scopes.insert(site.0)?;
        }
    }
    Ok(scopes)
}
