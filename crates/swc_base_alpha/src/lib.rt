//! Whether two programs are one but for the choice of the names that they bind.
//!
//! `specs/Verdict.antt` says what a verdict tells; `judge` gives it. Of the normal forms, each resolved with marks of the judge's own, it
//! compares the outlines, and then the lists of identifiers side by side. Where they differ, `difference` finds the paths: by the spans of
//! what shows it, or else by a second look, at copies whose nodes are numbered. `why_different` takes the first look alone, and copies
//! nothing.
#![tactic(auto)]

mod caught;
mod cause;
mod differs;
mod judging;
mod only;
mod outline;
mod own;
mod pairs;
mod partners;
mod paths;
mod places;
mod shape;
mod shown;
mod spans;
mod verdict;

ghost use Rattle.swc_base_alpha.specs.Side.{SitesAreAligned};

pub use judging::{judge, why_different};
pub use outline::same_outline;
pub use shown::difference;
pub use spans::Unplaced;
pub use verdict::{Cause, Difference, Verdict, Why};

/// The identifiers of two trees of one outline stand side by side in their lists exactly if at one path.
pub fn sites_are_aligned()
    ensures { SitesAreAligned }
{}
