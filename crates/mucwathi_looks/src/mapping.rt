//! What is written, held against where it stood in the source.
ghost use Rattle.std.specs.Prelude.{◌≡◌, IfOk, MatchResult};
ghost use Rattle.text_source.specs.Texts.{SpansAreOf};
ghost use Rattle.mucwathi_commands.specs.Faults.{IsRunFault, IsWriteFault};
ghost use Rattle.mucwathi_commands.specs.Written.{IsReadAs};
ghost use Rattle.mucwathi_looks.specs.Map.{IsMap, IsNoneOrMap, TellsNodes, TellsWritten};

use crate::spots::{same_names, spots_of};
use crate::told::{mapped_of, names_by_place};
use mucwathi_mappings::map_text;
use mucwathi_order::{Order, RunFault};
use mucwathi_passes::make;
use std::alloc::{AllocError, Global};
use swc_tree_marks::PassError;
use swc_tree_node::Node;
use text_source::{TextFault, read_text};

// Texts, and what they are called.
#[derive(Clone, Copy)]
struct Texts<'a> {
    name: &'a str,
    read: &'a [u8],
    written: &'a [u8],
}

// The map of a source's answer and of what was written for it, node by node; none if they differ in how many these are, or in a name.
fn map_of(
    alloc: Global,
    texts: Texts<'_>,
    source: &Node,
    answer: &Node,
    written: &Node,
) -> Result<Option<Vec<u8>>, AllocError>
    ensures { IfOk result (IsNoneOrMap texts.entry source.now answer.now written.now) }
{
    let sources = spots_of(alloc, source)?;
    let answers = spots_of(alloc, answer)?;
    let writes = spots_of(alloc, written)?;
    let news = answers.as_slice();
    let outs = writes.as_slice();
    if !same_names(news, outs) {
        return Ok(None);
    }
    let olds = names_by_place(alloc, sources.as_slice())?;
    let mapped = mapped_of(alloc, &olds, news, outs)?;
    let map = map_text(
        alloc,
        texts.name,
        texts.read,
        texts.written,
        mapped.as_slice(),
    )?;
    Ok(Some(map))
}

fn map_nodes(
    alloc: Global,
    texts: Texts<'_>,
    source: &Node,
    answer: &Node,
    written: &Node,
) -> Result<Vec<u8>, RunFault>
    ensures { MatchResult result (λ map. TellsNodes texts.entry.name.now texts.entry.read.now texts.entry.written.now source.now answer.now written.now map.items) IsWriteFault }
{
    match map_of(alloc, texts, source, answer, written) {
        Ok(Some(map)) => Ok(map),
        Ok(None) => Err(RunFault::NotWritten),
        Err(_) => Err(RunFault::Refused(PassError::NoMemory)),
    }
}

// The same where what was written is read again.
fn map_answer(
    alloc: Global,
    order: &Order,
    texts: Texts<'_>,
    source: &Node,
    answer: &Node,
) -> Result<Vec<u8>, RunFault>
    ensures { MatchResult result (λ map. TellsWritten order.now texts.entry.name.now texts.entry.read.now texts.entry.written.now source.now answer.now map.items) IsWriteFault }
{
    match read_text(alloc, order.goal, order.depth, texts.written) {
        Ok(written) => map_nodes(alloc, texts, source, answer, &written),
        Err(TextFault::NoMemory) => Err(RunFault::Refused(PassError::NoMemory)),
        Err(_) => Err(RunFault::NotWritten),
    }
}

// The map of what was written for a source, of which the command gets a copy.
fn map_copy(
    alloc: Global,
    order: &Order,
    texts: Texts<'_>,
    source: &Node,
    copy: Node,
) -> Result<Vec<u8>, RunFault>
    requires read { IsReadAs order.now.goal source.now texts.read.now }
    requires stands { SpansAreOf order.now.goal source.now texts.read.now }
    requires same { copy ≡ source.now }
    ensures { MatchResult result (λ map. IsMap order.now texts.entry.name.now texts.entry.read.now texts.entry.written.now map.items) (IsRunFault order.now texts.entry.read.now) }
{
    match make(alloc, order.command, &order.settings, copy) {
        Ok(answer) => map_answer(alloc, order, texts, source, &answer),
        Err(error) => Err(RunFault::Refused(error)),
    }
}

fn map_source(
    alloc: Global,
    order: &Order,
    texts: Texts<'_>,
    source: &Node,
) -> Result<Vec<u8>, RunFault>
    requires read { IsReadAs order.now.goal source.now texts.read.now }
    requires stands { SpansAreOf order.now.goal source.now texts.read.now }
    ensures { MatchResult result (λ map. IsMap order.now texts.entry.name.now texts.entry.read.now texts.entry.written.now map.items) (IsRunFault order.now texts.entry.read.now) }
{
    match source.clone() {
        Ok(copy) => map_copy(alloc, order, texts, source, copy),
        Err(_) => Err(RunFault::Refused(PassError::NoMemory)),
    }
}

/// The source map of what a command wrote for a text of that name.
///
/// Each node of what was written that stood in the source is mapped to where it stood, and an identifier that was given anew to its old
/// name. Time grows in step with the texts, but for the logarithm of how many nodes there are.
///
/// # Errors
///
/// Those of `rewrite_text`; `NotWritten` where what was written is not read again, node by node and name by name.
pub fn source_map(
    alloc: Global,
    order: &Order,
    name: &str,
    text: &[u8],
    out: &[u8],
) -> Result<Vec<u8>, RunFault>
    ensures { MatchResult result (λ map. IsMap order.now name.now text.now out.now map.items) (IsRunFault order.now text.now) }
{
    let texts = Texts {
        name,
        read: text,
        written: out,
    };
    match read_text(alloc, order.goal, order.depth, text) {
        Ok(source) => map_source(alloc, order, texts, &source),
        Err(fault) => Err(RunFault::of_text(fault)),
    }
}
