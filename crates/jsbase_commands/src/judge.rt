//! What is said of two versions of a program.
ghost use Rattle.std.specs.Prelude.{◌≡◌, IfOk, MatchResult, Ok, string_bytes};
ghost use Rattle.swc_base_alpha.specs.Verdict.{IsCleanProgram, IsThere};
ghost use Rattle.swc_base_plain_form.specs.PlainForm.{plain_form as is_plain_form};
ghost use Rattle.jsbase_reader.specs.Versions.{versions_in_text};
ghost use Rattle.jsbase_commands.specs.Judge.{IsShown, IsTold, IsToldOf, IsUntoldFor, IsUntoldOf, as_compared, path_under, verdict_text, why_word};
ghost use Rattle.jsbase_commands.specs.Run.{class_of as class_in};

use crate::arguments::Kind;
use crate::commands::{class_of, read_fault};
use crate::fault::Fault;
use jsbase_form::{Step, path_to};
use jsbase_reader::{Versions, read_versions};
use jsbase_writer::{write_difference, write_same};
use std::alloc::{AllocError, Global};
use swc_base_alpha::{Cause, Difference, Unplaced, Verdict, Why, difference, why_different};
use swc_base_plain_form::plain_form;
use swc_tree_marks::{NoMemory, PassError};
use swc_tree_node::Node;

/// What the program says of the two versions that an input has, as one line.
///
/// # Errors
///
/// Those of `run`.
#[inline(never)] // so that the other commands do not pay for its frame
pub(crate) fn run_on_two(alloc: Global, kind: Kind, input: &[u8]) -> Result<Vec<u8>, Fault>
    ensures { MatchResult result (λ output. IsToldOf (class_in kind) input.now output.items) (IsUntoldOf (class_in kind) input.now) }
{
    match read_versions(alloc, class_of(kind), input) {
        Err(error) => Err(read_fault(alloc, error)),
        Ok(versions) => match tell(alloc, kind, input, versions) {
            Ok(text) => Ok(text.into_bytes()),
            Err(error) => Err(Fault::Refused(error)),
        },
    }
}

// A version as it is compared: its plain form, unless spellings count. It has the places and the spans of the version.
fn compared(alloc: Global, spelling: bool, version: Node) -> Result<Node, NoMemory>
    ensures { IfOk result (λ t. t ≡ as_compared spelling version) }
{
    if spelling {
        return Ok(version);
    }
    plain_form(alloc, version)
}

// What is said of the two versions that an input has, as one line. They are given up.
fn tell(alloc: Global, kind: Kind, input: &[u8], versions: Versions) -> Result<String, PassError>
    requires read { versions_in_text (class_in kind) input.now ≡ Ok versions }
    requires before { IsCleanProgram versions.before }
    requires after { IsCleanProgram versions.after }
    ensures { MatchResult result (λ text. IsTold versions (string_bytes text)) (IsUntoldFor versions) }
{
    let Versions {
        keep_top,
        spelling,
        before,
        after,
    } = versions;
    let before = compared(alloc, spelling, before)?;
    let after = compared(alloc, spelling, after)?;
    match why_different(alloc, keep_top, Unplaced::IsUnknown, before, after)? {
        None => Ok(write_same(alloc)?),
        Some(cause) => Ok(tell_difference(alloc, kind, input, cause)?),
    }
}

// The plain form of a version, which stays.
fn plain_copy(alloc: Global, version: &Node) -> Result<Node, NoMemory>
    ensures { IfOk result (λ t. t ≡ is_plain_form version.now) }
{
    let copy = version.clone()?;
    let plain = plain_form(alloc, copy)?;
    Ok(plain)
}

// Where a cause shows in two versions of which plain forms are compared: these have the places of the versions.
fn shown_plain(
    alloc: Global,
    cause: Cause,
    before: &Node,
    after: &Node,
) -> Result<Difference, NoMemory>
    ensures why { IfOk result (λ d. d.why ≡ cause.why) }
    ensures before { IfOk result (λ d. IsThere before.now d.before.items) }
    ensures after { IfOk result (λ d. IsThere after.now d.after.items) }
{
    let first = plain_copy(alloc, before)?;
    let second = plain_copy(alloc, after)?;
    let found = difference(alloc, cause, &first, &second)?;
    Ok(found)
}

// Where a cause shows in two versions.
fn shown(alloc: Global, cause: Cause, versions: &Versions) -> Result<Difference, NoMemory>
    ensures why { IfOk result (λ d. d.why ≡ cause.why) }
    ensures before { IfOk result (λ d. IsThere versions.now.before d.before.items) }
    ensures after { IfOk result (λ d. IsThere versions.now.after d.after.items) }
{
    if versions.spelling {
        return difference(alloc, cause, &versions.before, &versions.after);
    }
    shown_plain(alloc, cause, &versions.before, &versions.after)
}

// The line that tells of a cause where it shows. The versions are read once more: most inputs have no difference, and those need not
// pay for two trees to be kept.
fn tell_difference(
    alloc: Global,
    kind: Kind,
    input: &[u8],
    cause: Cause,
) -> Result<String, NoMemory>
    ensures { IfOk result (λ text. IsShown (class_in kind) input.now cause.why (string_bytes text)) }
{
    let Ok(versions) = read_versions(alloc, class_of(kind), input) else {
        // They were read before, so memory was refused.
        return Err(NoMemory);
    };
    let difference = shown(alloc, cause, &versions)?;
    let text = line(alloc, &versions, &difference)?;
    Ok(text)
}

// The line that tells a difference.
fn line(alloc: Global, versions: &Versions, difference: &Difference) -> Result<String, AllocError>
    ensures { IfOk result (λ text. string_bytes text ≡ verdict_text versions.now (Verdict.Differs difference.now)) }
{
    let after = path_in(alloc, "after", &versions.after, difference.after.as_slice())?;
    let before = path_in(
        alloc,
        "before",
        &versions.before,
        difference.before.as_slice(),
    )?;
    write_difference(
        alloc,
        after.as_str(),
        before.as_str(),
        word_of(difference.why),
    )
}

// The path of a node in the tree at a key of the input.
pub(crate) fn path_in(
    alloc: Global,
    key: &'static str,
    tree: &Node,
    numbers: &[usize],
) -> Result<String, AllocError>
    ensures { IfOk result (λ text. string_bytes text ≡ path_under key.now tree.now numbers.now) }
{
    let mut path = path_to(alloc, tree, numbers)?;
    path.push_outer(Step::Key(key))?;
    path.to_text(alloc)
}

fn word_of(why: Why) -> &'static str
    ensures { result.now ≡ why_word why }
{
    match why {
        Why::Shape => "shape",
        Why::Name => "name",
        Why::Free => "free",
        Why::Split => "split",
        Why::Joined => "joined",
        Why::Top => "top",
        Why::Reads => "reads",
        Why::Caught => "caught",
    }
}
