//! Whether a text is promised anything.
ghost use Rattle.std.specs.Prelude.{◌≡◌, MatchResult};
ghost use Rattle.mucwathi_commands.specs.Written.{IsReadAs};
ghost use Rattle.swc_base_covers.specs.Covered.{HasPath};
ghost use Rattle.swc_base_covers.specs.Shown.{IsShown};
ghost use Rattle.swc_base_covers.specs.declared.gap.Cause.{Cause as Cause'};
ghost use Rattle.mucwathi_commands.specs.Looks.{HasPlace, IsCoverTold, IsPlaceOf, IsUncovered, cause_in, cause_of};

use crate::places::place_at;
use mucwathi_order::text_source::read_text;
use mucwathi_order::{Goal, RunFault, Settings};
use mucwathi_passes::config_of;
use std::alloc::Global;
use swc_base_covers::{Cause, Gap, covers};
use swc_tree_node::Node;

/// What keeps a text from what is promised, and where.
#[derive(Clone, Copy, Debug, PartialEq, Eq)]
pub struct CoverGap {
    pub cause: Cause,
    /// How many bytes are before the first place where it shows, if it does at a node.
    pub at: Option<usize>,
}

// How many bytes are before what stands at a path, where there is one.
fn place_of(source: &Node, path: &Option<Vec<usize>>) -> Option<usize>
    ensures { (cause : Cause') → IsShown cause source.now path.now → IsPlaceOf cause source.now result }
{
    match path {
        None => None,
        Some(path) => Some(place_at(source, path.as_slice())),
    }
}

// A gap, and where it shows in the text.
fn gap_of(source: &Node, gap: Option<Gap>) -> Option<CoverGap>
    ensures cause { cause_in result ≡ cause_of gap }
    ensures place { HasPath source.now gap → HasPlace source.now result }
{
    match gap {
        None => None,
        Some(gap) => Some(CoverGap {
            cause: gap.cause,
            at: place_of(source, &gap.path),
        }),
    }
}

// What keeps a program that was read from what is promised.
fn cover(
    alloc: Global,
    goal: Goal,
    settings: &Settings,
    text: &[u8],
    source: &Node,
) -> Result<Option<CoverGap>, RunFault>
    requires { IsReadAs goal source.now text.now }
    ensures { MatchResult result (IsCoverTold goal settings.now text.now) (IsUncovered text.now) }
{
    match covers(alloc, &config_of(settings), source) {
        Ok(gap) => Ok(gap_of(source, gap)),
        Err(error) => Err(RunFault::Refused(error)),
    }
}

/// What keeps a text from what is promised of a chain; none if it is promised of the text.
///
/// Of several causes the first is told, in the order of `Cause`.
///
/// # Errors
///
/// `Text` where the text is not read, and `Refused` where memory is.
pub fn cover_text(
    alloc: Global,
    goal: Goal,
    depth: u32,
    settings: &Settings,
    text: &[u8],
) -> Result<Option<CoverGap>, RunFault>
    ensures { MatchResult result (IsCoverTold goal settings.now text.now) (IsUncovered text.now) }
{
    match read_text(alloc, goal, depth, text) {
        Ok(source) => cover(alloc, goal, settings, text, &source),
        Err(fault) => Err(RunFault::of_text(fault)),
    }
}
