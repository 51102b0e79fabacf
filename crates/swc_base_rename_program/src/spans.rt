//! Where in a program ids occur, as far as the first and the last position tell.
ghost use Rattle.std.specs.Prelude.{◌≡◌, IfOk};
ghost use Rattle.std.specs.List.{slice_get};
ghost use Rattle.swc_base_rename_program.specs.Spans.{is_apart as is_span_apart, span as is_span, spans};

use std::alloc::{AllocError, Global};
use swc_base_rename_analysis::{Entry, Region};

/// The first and the last position of an id.
pub type Span = (usize, usize);

fn span_of(positions: &[usize]) -> Span
    ensures { result ≡ is_span positions.now }
{
    if positions.is_empty() {
        (0, 0)
    } else {
        (positions[0], positions[positions.len() - 1])
    }
}

/// The first and the last position of each id, by its number.
pub fn spans_of(alloc: Global, ids: &[Entry]) -> Result<Vec<Span>, AllocError>
    ensures { IfOk result (λ found. found.items ≡ spans ids.now) }
{
    let mut found = Vec::new(alloc);
    for entry in ids {
        found.push(span_of(entry.positions.as_slice()))?;
    }
    Ok(found)
}

/// Whether a scope ends before the first position of an id or begins behind the last, both by their numbers.
pub fn is_apart(regions: &[Region], spans: &[Span], scope: usize, id: usize) -> bool
    ensures { result ≡ is_span_apart (slice_get regions.now scope) (slice_get spans.now id) }
{
    match (regions.get(scope), spans.get(id)) {
        (Some(region), Some(span)) => span.1 < region.start || region.end <= span.0,
        _ => false,
    }
}
