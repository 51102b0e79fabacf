//! Where ids are declared.

/// A scope that declares an id, both by number: that of the scope in the order in which scopes begin, and that of the id in the order
/// in which ids are met first.
#[derive(Clone, Copy)]
pub struct Site {
    pub scope: usize,
    pub id: usize,
}
