//! Where a node stands in its source text.
/// A position in a source text, in bytes.
pub type BytePos = u32;

/// Where a node stands in its source text: from the byte at `lo` up to the byte before `hi`.
#[derive(Clone, Copy, Debug, Default, PartialEq, Eq, Hash)]
pub struct Span {
    pub lo: BytePos,
    pub hi: BytePos,
}

/// The span of what stands in no source text.
pub const DUMMY_SP: Span = Span { lo: 0, hi: 0 };
