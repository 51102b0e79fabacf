//! Envelopes as JSON.
ghost use Rattle.std.specs.Prelude.{◌≡◌, IfErr, IfOk, string_bytes};
ghost use Rattle.jsbase_writer.specs.Envelopes.{envelope_text};
ghost use Rattle.mucwathi_given.specs.Given.{IsRead, IsReadAs, IsReady};
ghost use Rattle.mucwathi_given.specs.Faults.{IsShownFault, IsTreeFault, IsUnreadFault, NamesUnread, longer};

use jsbase_programs::{Goal, read_program};
use jsbase_reader::{Envelope, ReadError};
use jsbase_writer::write_envelope;
use std::alloc::{AllocError, Global};

/// Why an input is no program.
#[derive(Debug, Drop)]
pub enum TreeFault {
    /// It is no envelope with a program; the path of the first fault in it.
    NotATree(String),
    /// Memory was refused.
    NoMemory,
}

fn fault_of(alloc: Global, error: ReadError) -> TreeFault
    ensures { IsShownFault error result }
{
    match error {
        ReadError::Fault(path) => match path.to_text(alloc) {
            Ok(text) => TreeFault::NotATree(text),
            Err(_) => TreeFault::NoMemory,
        },
        ReadError::NoMemory => TreeFault::NoMemory,
    }
}

fn read_as(alloc: Global, goal: Goal, bytes: &[u8]) -> Result<Envelope, TreeFault>
    ensures read { IfOk result (IsReadAs goal bytes.now) }
    ensures ready { IfOk result IsReady }
    ensures fault { IfErr result (IsUnreadFault goal bytes.now) }
{
    match read_program(alloc, goal, bytes) {
        Ok(envelope) => Ok(envelope),
        Err(error) => Err(fault_of(alloc, error)),
    }
}

// Of two paths that which is further in.
fn further(first: String, second: String) -> String
    ensures { string_bytes result ≡ longer (string_bytes first) (string_bytes second) }
{
    if first.len() >= second.len() {
        first
    } else {
        second
    }
}

// The same as of a script, where it is none of a module, as this path shows.
fn read_as_script(alloc: Global, bytes: &[u8], path: String) -> Result<Envelope, TreeFault>
    requires { NamesUnread bytes.now (string_bytes path) }
    ensures read { IfOk result (IsRead bytes.now) }
    ensures ready { IfOk result IsReady }
    ensures fault { IfErr result (IsTreeFault bytes.now) }
{
    match read_as(alloc, Goal::Script, bytes) {
        Ok(envelope) => Ok(envelope),
        Err(TreeFault::NotATree(other)) => Err(TreeFault::NotATree(further(path, other))),
        Err(TreeFault::NoMemory) => Err(TreeFault::NoMemory),
    }
}

/// The envelope that an input is, of a module or of a script.
///
/// # Errors
///
/// `NotATree` where it is neither, with the longer of the two paths; `NoMemory`.
pub fn read_tree(alloc: Global, bytes: &[u8]) -> Result<Envelope, TreeFault>
    ensures read { IfOk result (IsRead bytes.now) }
    ensures ready { IfOk result IsReady }
    ensures fault { IfErr result (IsTreeFault bytes.now) }
{
    match read_as(alloc, Goal::Module, bytes) {
        Ok(envelope) => Ok(envelope),
        Err(TreeFault::NotATree(path)) => read_as_script(alloc, bytes, path),
        Err(TreeFault::NoMemory) => Err(TreeFault::NoMemory),
    }
}

/// An envelope as JSON, one line of it.
pub fn write_tree(alloc: Global, envelope: &Envelope) -> Result<String, AllocError>
    ensures { IfOk result (λ text. string_bytes text ≡ envelope_text envelope.now.globals envelope.now.top envelope.now.tree envelope.now.unresolved) }
{
    write_envelope(
        alloc,
        &envelope.globals,
        envelope.top,
        &envelope.tree,
        envelope.unresolved,
    )
}
