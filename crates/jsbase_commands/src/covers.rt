//! What is said of a program: whether what is promised of a chain is promised of it.
ghost use Rattle.std.specs.Prelude.{◌≡◌, IfOk, MatchResult, string_bytes};
ghost use Rattle.jsbase_commands.specs.Covers.{cause_word, cover_text, gap_line as line_of};
ghost use Rattle.jsbase_commands.specs.Run.{IsCausedFor, IsCoverTold, IsProgram};

use crate::arguments::Command;
use crate::commands::config;
use crate::judge::path_in;
use jsbase_reader::Envelope;
use jsbase_writer::{write_covered, write_gap, write_placed_gap};
use std::alloc::{AllocError, Global};
use swc_base_covers::{Cause, Gap, covers};
use swc_tree_marks::PassError;
use swc_tree_node::Node;

/// Says whether what is promised of a chain is promised of the program of an envelope, or the first that fails and where.
///
/// # Errors
///
/// `NoMemory` alone.
#[inline(never)] // so that the other commands do not pay for its frame
pub(crate) fn cover(alloc: Global, envelope: &Envelope) -> Result<String, PassError>
    requires { IsProgram envelope.now.tree }
    ensures { MatchResult result (λ text. IsCoverTold envelope.now (string_bytes text)) (IsCausedFor Command.Covers envelope.now) }
{
    let config = config(
        envelope.top,
        envelope.keep_class_names,
        envelope.ignore_eval,
    );
    let gap = covers(alloc, &config, &envelope.tree)?;
    let text = line(alloc, &envelope.tree, gap)?;
    Ok(text)
}

// The line that tells what keeps a program from what is promised, if something does.
fn line(alloc: Global, tree: &Node, gap: Option<Gap>) -> Result<String, AllocError>
    ensures { IfOk result (λ text. string_bytes text ≡ cover_text tree.now gap) }
{
    match gap {
        None => write_covered(alloc),
        Some(gap) => gap_line(alloc, tree, &gap),
    }
}

// The line that tells of one.
fn gap_line(alloc: Global, tree: &Node, gap: &Gap) -> Result<String, AllocError>
    ensures { IfOk result (λ text. string_bytes text ≡ line_of tree.now gap.now) }
{
    let word = word_of(gap.cause);
    match &gap.path {
        None => write_gap(alloc, word),
        Some(numbers) => {
            let path = path_in(alloc, "tree", tree, numbers.as_slice())?;
            write_placed_gap(alloc, word, path.as_str())
        }
    }
}

fn word_of(cause: Cause) -> &'static str
    ensures { result.now ≡ cause_word cause }
{
    match cause {
        Cause::Types => "types",
        Cause::Context => "context",
        Cause::Written => "written",
        Cause::Classes => "classes",
        Cause::Reads => "reads",
        Cause::Function => "function",
        Cause::Label => "label",
        Cause::Global => "global",
        Cause::Repeated => "repeated",
        Cause::Export => "export",
        Cause::Twice => "twice",
        Cause::Variable => "variable",
        Cause::Parameter => "parameter",
        Cause::Eval => "eval",
    }
}
