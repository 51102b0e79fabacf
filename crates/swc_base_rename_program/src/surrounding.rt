//! Which scope lies in which.
ghost use Rattle.std.specs.Prelude.{◌≡◌};
ghost use Rattle.std.specs.List.{slice_get};
ghost use Rattle.swc_base_rename_analysis_laws.specs.Means.{holds_stretch, surrounds as is_surrounding};

use swc_base_rename_analysis::{Analysis, Region};

// Whether the stretch of the second of two scopes lies in that of the first.
fn holds(regions: &[Region], outer: usize, inner: usize) -> bool
    ensures { result ≡ holds_stretch (slice_get regions.now outer) (slice_get regions.now inner) }
{
    match (regions.get(outer), regions.get(inner)) {
        (Some(outer), Some(inner)) => outer.start <= inner.start && inner.end <= outer.end,
        _ => false,
    }
}

/// Whether the second of two scopes is the first or lies in it, both by their numbers.
pub fn surrounds(analysis: &Analysis, outer: usize, inner: usize) -> bool
    ensures { result ≡ is_surrounding analysis.now outer inner }
{
    outer == inner || (outer <= inner && holds(analysis.regions.as_slice(), outer, inner))
}
