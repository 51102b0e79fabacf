//! Signs.

/// How many bytes are before the place behind a name, and the marks that are written there, the oldest first.
#[derive(Debug, Drop, PartialEq, Eq, PartialOrd, Ord)]
pub struct Sign {
    pub at: usize,
    pub marks: Vec<u32>,
}
