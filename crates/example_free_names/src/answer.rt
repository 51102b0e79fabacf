//! From the bytes of an envelope to the lines of its program's free names.
ghost use Rattle.std.specs.Prelude.{◌≡◌, Some, MatchResult, IfOk, map, string_bytes};
ghost use Rattle.swc_tree_scoping.specs.declared.places.Scope.TheVariants as scope;
ghost use Rattle.swc_tree_scoping.specs.Places.{opened, program_place};
ghost use Rattle.swc_base_resolver_program.specs.Marked.{MarksOk};
ghost use Rattle.example_free_names.specs.Answers.{HasNames, IsAnswer, IsFaultOf, IsRefusedFor, lines};
ghost use Rattle.example_free_names.specs.Free.{text_of};

use crate::free::free_names;
use jsbase_form::FaultPath;
use jsbase_programs::{Goal, read_program};
use jsbase_reader::{Envelope, ReadError};
use std::alloc::{AllocError, Global};
use swc_base_resolver_program::resolve_program;
use swc_tree_marks::PassError;

/// Why there is no answer.
#[derive(Debug, Drop)]
pub enum Fault {
    /// The input is no envelope with a program of the goal: the path of the first fault in it.
    NotATree(FaultPath),
    /// Memory was refused, or there were no marks left for the scopes.
    Refused(PassError),
}

/// The free names of the program of an envelope, each in a line, each once, in the order of the source.
pub fn answer(alloc: Global, goal: Goal, input: &[u8]) -> Result<String, Fault>
    ensures { MatchResult result (λ text. IsAnswer goal input.now (string_bytes text)) (IsFaultOf goal input.now) }
{
    match read_program(alloc, goal, input) {
        Ok(envelope) => match names_of(alloc, envelope) {
            Ok(text) => Ok(text),
            Err(error) => Err(Fault::Refused(error)),
        },
        Err(ReadError::Fault(path)) => Err(Fault::NotATree(path)),
        Err(ReadError::NoMemory) => Err(Fault::Refused(PassError::NoMemory)),
    }
}

fn names_of(alloc: Global, envelope: Envelope) -> Result<String, PassError>
    requires program { opened program_place envelope.tree ≡ Some scope.Program }
    requires marks { MarksOk envelope.globals envelope.unresolved envelope.top }
    ensures { MatchResult result (λ text. HasNames envelope (string_bytes text)) (IsRefusedFor envelope) }
{
    let Envelope {
        mut globals,
        unresolved,
        top,
        tree,
        ..
    } = envelope;
    let program = resolve_program(alloc, &mut globals, unresolved, top, tree)?;
    let names = free_names(alloc, unresolved, &program)?;
    let text = lines(alloc, names.as_slice())?;
    Ok(text)
}

fn lines(alloc: Global, names: &[&str]) -> Result<String, AllocError>
    ensures { IfOk result (λ text. string_bytes text ≡ lines (map text_of names.now)) }
{
    let mut text = String::new(alloc);
    for name in names {
        text.push_str(name)?;
        text.push_str("\n")?;
    }
    Ok(text)
}
