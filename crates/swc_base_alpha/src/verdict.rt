//! What is said of two programs.
use swc_tree_marks::Span;

/// Why two programs are not the same but for names. Of several causes the first in this order is told.
#[derive(Clone, Copy, Debug, PartialEq, Eq)]
pub enum Why {
    /// No renaming accounts for it: the normal forms differ by more than what identifiers are called.
    Shape,
    /// A label, an imported or an exported name has another text.
    Name,
    /// A free name has another text, was bound, or was free.
    Free,
    /// Two names that stood for one thing stand for two.
    Split,
    /// Two names that stood for two things stand for one.
    Joined,
    /// A name that the program's own scope declares, before or after, has another text.
    Top,
    /// A direct `eval` or a `with` may read names as the program runs, and a name has another text.
    Reads,
    /// A `var`, or a plain function in a block of sloppy code, meets a catch parameter of its name (ECMA-262, B.3.2, B.3.4), and a name has
    /// another text.
    Caught,
}

/// Why two programs are not the same, before it is known where that shows in them.
#[derive(Clone, Copy, Debug, PartialEq, Eq)]
pub struct Cause {
    pub why: Why,
    /// The span of the node of the first normal form at which it shows: that of no source text where the node has none.
    pub before: Span,
    /// The same of the second.
    pub after: Span,
}

/// A difference between two programs.
#[derive(Debug, Drop)]
pub struct Difference {
    pub why: Why,
    /// Where it shows in the first program: numbers of children, from the root.
    pub before: Vec<usize>,
    /// Where it shows in the second.
    pub after: Vec<usize>,
}

/// What is said of two programs.
#[derive(Debug, Drop)]
pub enum Verdict {
    /// They are the same but for the choice of the names that they bind.
    Same,
    /// They are not.
    Differs(Difference),
}
