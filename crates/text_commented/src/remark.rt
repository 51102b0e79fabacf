//! Comments that are to be written.
ghost use Rattle.std.specs.Prelude.{◌≡◌, ◌↔◌, Some, slice_get, IfSome, IsTrue};
ghost use Rattle.text_commented.specs.Commented.{Stands};

use swc_tree_marks::BytePos;

/// Where a comment stands, in bytes from 1, as passes move it.
#[derive(Clone, Copy, Debug, PartialEq, Eq)]
pub enum At {
    /// Before the node that begins here.
    Leads(BytePos),
    /// Behind the node that stops here.
    Trails(BytePos),
}

/// A comment as it is written, and where it stands.
#[derive(Clone, Copy)]
pub struct Remark<'r> {
    pub text: &'r [u8],
    pub at: At,
}

/// A comment that is put among the pieces of a tree.
#[derive(Clone, Copy)]
pub(crate) struct Placed {
    /// How many of these are before it.
    pub(crate) before: usize,
    /// Its number among those given.
    pub(crate) number: usize,
    /// It stands in the parentheses that are written round the parameter behind it.
    pub(crate) inside: bool,
}

/// Whether two places are one.
pub(crate) fn same_place(one: At, other: At) -> bool
    ensures { IsTrue result ↔ one ≡ other }
{
    match one {
        At::Leads(place) => match other {
            At::Leads(here) => place == here,
            At::Trails(_) => false,
        },
        At::Trails(place) => match other {
            At::Leads(_) => false,
            At::Trails(here) => place == here,
        },
    }
}

/// Whether there is a comment of this number, and stands at the place.
pub(crate) fn stands_at(remarks: &[Remark<'_>], number: usize, place: At) -> bool
    ensures { IsTrue result → Stands (slice_get remarks.now number) place }
{
    match remarks.get(number) {
        Some(remark) => same_place(remark.at, place),
        None => false,
    }
}

/// The comment of this number, if there is one.
pub(crate) fn remark_at<'r>(remarks: &[Remark<'r>], number: usize) -> Option<Remark<'r>>
    ensures { IfSome result (λ remark. slice_get remarks.now number ≡ Some remark) }
{
    match remarks.get(number) {
        Some(remark) => Some(*remark),
        None => None,
    }
}
