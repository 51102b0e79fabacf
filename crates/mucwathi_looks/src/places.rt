//! Where nodes stand in a text.
ghost use Rattle.std.specs.Prelude.{◌≡◌, ◌-◌};

use swc_tree_marks::Span;

// How many bytes are before a span: none before that of no source text.
pub(crate) fn bytes_before(span: Span) -> usize
    ensures { result ≡ span.lo - 1 }
{
    span.lo.saturating_sub(1) as usize
}
