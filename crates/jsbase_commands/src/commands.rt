//! From the bytes of an envelope to the bytes of an envelope.
ghost use Rattle.std.specs.Prelude.{◌≡◌, ◌≢◌, Some, true, false, MatchResult, string_bytes};
ghost use Rattle.swc_tree_scoping.specs.declared.places.Scope.TheVariants as scope;
ghost use Rattle.swc_tree_scoping.specs.Places.{opened, program_place};
ghost use Rattle.swc_tree_spaces.specs.Spaces.{has_types as has_any_types};
ghost use Rattle.swc_base_resolver_program.specs.Marked.{MarksOk};
ghost use Rattle.jsbase_commands.specs.Run.{class_of as class_in, config_by, Makes, MakesOfOne, Does, IsChained, IsFaultOfOne, IsRunFault, IsMadeHygienic, IsResolved, IsFixed, IsUnparened, IsProgram, IsCausedFor, IsRefusedFor, IsReadFault, refuses_types, takes_one};

use crate::arguments::{Command, Kind};
use crate::covers::cover;
use crate::fault::Fault;
use crate::judge::run_on_two;
use crate::mangle::mangle;
use jsbase_reader::{Envelope, ReadError, read_bytes};
use jsbase_writer::write_envelope;
use std::alloc::Global;
use swc_base_fixer_program::fix_parens;
use swc_base_fixer_unparen::remove_parens;
use swc_base_rename_program::hygiene_program;
use swc_base_rename_substitution::Config;
use swc_base_resolver_program::resolve_program;
use swc_tree_comments::NoComments;
use swc_tree_has_types::has_types;
use swc_tree_marks::{Mark, PassError};
use swc_tree_node::Class;

/// What the program writes on an input.
///
/// What is promised of it beside, by the laws of chaining and of the fixer, is stated at `run` of `jsbase_engine`. Time and memory
/// grow in step with the input.
///
/// # Errors
///
/// `NotATree` with the path of the first fault where the input is no envelope with a tree of the kind, or with two under `Judge`;
/// `Refused` where declarations of types stand in the tree and the command takes none, as all but `Resolve` and `Covers`; and where the
/// command's pass is refused, or memory is. Never `Usage`.
pub fn run(alloc: Global, command: Command, kind: Kind, input: &[u8]) -> Result<Vec<u8>, Fault>
    ensures { MatchResult result (λ output. Makes command kind input.now output.items) (IsRunFault command kind input.now) }
{
    if takes_one(command) {
        return run_on_one(alloc, command, kind, input);
    }
    run_on_two(alloc, kind, input)
}

// Whether the command is about one program.
fn takes_one(command: Command) -> bool
    ensures { result ≡ takes_one command }
{
    match command {
        Command::Resolve
        | Command::Hygiene
        | Command::Unparen
        | Command::Fix
        | Command::Chain
        | Command::Mangle
        | Command::Covers => true,
        Command::Judge => false,
    }
}

// What the program writes on an input that is an envelope of one program.
fn run_on_one(alloc: Global, command: Command, kind: Kind, input: &[u8]) -> Result<Vec<u8>, Fault>
    requires { takes_one command ≡ true }
    ensures { MatchResult result (λ output. MakesOfOne command kind input.now output.items) (IsFaultOfOne command kind input.now) }
{
    match read_bytes(alloc, class_of(kind), input) {
        Err(error) => Err(read_fault(alloc, error)),
        Ok(envelope) => match answer(alloc, command, envelope) {
            Ok(text) => Ok(text.into_bytes()),
            Err(error) => Err(Fault::Refused(error)),
        },
    }
}

// The class of a program of the kind.
pub(crate) fn class_of(kind: Kind) -> Class
    ensures { result ≡ class_in kind }
{
    match kind {
        Kind::Module => Class::Module,
        Kind::Script => Class::Script,
    }
}

// Why an input was not read.
pub(crate) fn read_fault(alloc: Global, error: ReadError) -> Fault
    ensures { IsReadFault error result }
{
    let ReadError::Fault(path) = error else {
        return Fault::Refused(PassError::NoMemory);
    };
    match path.to_text(alloc) {
        Ok(text) => Fault::NotATree(text),
        Err(_) => Fault::Refused(PassError::NoMemory),
    }
}

// The envelope that a command makes of an envelope. Declarations of types are looked for first.
fn answer(alloc: Global, command: Command, envelope: Envelope) -> Result<String, PassError>
    requires one { takes_one command ≡ true }
    requires fits { IsProgram envelope.tree }
    requires program { opened program_place envelope.tree ≡ Some scope.Program }
    requires marks { MarksOk envelope.globals envelope.unresolved envelope.top }
    ensures { MatchResult result (λ text. Does command envelope (string_bytes text)) (IsRefusedFor command envelope) }
{
    if refuses_types(command, &envelope) {
        return Err(PassError::TypesLeft);
    }
    make(alloc, command, envelope)
}

// Whether the command is refused for declarations of types in the tree.
fn refuses_types(command: Command, envelope: &Envelope) -> bool
    ensures { result ≡ refuses_types command envelope.now }
{
    match command {
        Command::Resolve | Command::Covers => false,
        Command::Hygiene
        | Command::Unparen
        | Command::Fix
        | Command::Chain
        | Command::Mangle
        | Command::Judge => has_types(&envelope.tree),
    }
}

// What a command makes of an envelope whose types it takes.
fn make(alloc: Global, command: Command, envelope: Envelope) -> Result<String, PassError>
    requires one { takes_one command ≡ true }
    requires fits { IsProgram envelope.tree }
    requires program { opened program_place envelope.tree ≡ Some scope.Program }
    requires marks { MarksOk envelope.globals envelope.unresolved envelope.top }
    requires types { refuses_types command envelope ≡ false }
    ensures { MatchResult result (λ text. Does command envelope (string_bytes text)) (IsCausedFor command envelope) }
{
    match command {
        Command::Resolve => resolve(alloc, envelope),
        Command::Hygiene => hygiene(alloc, envelope),
        Command::Unparen => unparen(alloc, envelope),
        Command::Fix => fix(alloc, envelope),
        Command::Chain => chain(alloc, envelope),
        Command::Mangle => mangle(alloc, envelope),
        Command::Covers => cover(alloc, &envelope),
        Command::Judge => unreachable!(),
    }
}

// Gives each identifier of the program of an envelope its mark.
fn resolve(alloc: Global, envelope: Envelope) -> Result<String, PassError>
    requires program { opened program_place envelope.tree ≡ Some scope.Program }
    requires marks { MarksOk envelope.globals envelope.unresolved envelope.top }
    ensures { MatchResult result (λ text. IsResolved envelope (string_bytes text)) (IsCausedFor Command.Resolve envelope) }
{
    let Envelope {
        mut globals,
        unresolved,
        top,
        tree,
        ..
    } = envelope;
    let resolved = resolve_program(alloc, &mut globals, unresolved, top, tree)?;
    let text = write_envelope(alloc, &globals, top, &resolved, unresolved)?;
    Ok(text)
}

// What hygiene goes by.
pub(crate) fn config(top_level_mark: Mark, keep_class_names: bool, ignore_eval: bool) -> Config
    ensures { result ≡ config_by top_level_mark keep_class_names ignore_eval }
{
    Config {
        keep_class_names,
        safari_10: false,
        top_level_mark,
        ignore_eval,
    }
}

// Gives the names of the program of an envelope anew, and clears its contexts.
fn hygiene(alloc: Global, envelope: Envelope) -> Result<String, PassError>
    requires { has_any_types envelope.tree ≡ false }
    ensures { MatchResult result (λ text. IsMadeHygienic envelope (string_bytes text)) (IsCausedFor Command.Hygiene envelope) }
{
    let Envelope {
        globals,
        unresolved,
        top,
        keep_class_names,
        ignore_eval,
        tree,
        ..
    } = envelope;
    let config = config(top, keep_class_names, ignore_eval);
    let renamed = hygiene_program(alloc, &config, &globals, tree)?;
    let text = write_envelope(alloc, &globals, top, &renamed, unresolved)?;
    Ok(text)
}

// Takes the parentheses off the program of an envelope.
fn unparen(alloc: Global, envelope: Envelope) -> Result<String, PassError>
    requires { has_any_types envelope.tree ≡ false }
    ensures { MatchResult result (λ text. IsUnparened envelope (string_bytes text)) (IsCausedFor Command.Unparen envelope) }
{
    let Envelope {
        globals,
        unresolved,
        top,
        tree,
        ..
    } = envelope;
    let bare = remove_parens(alloc, None::<&mut NoComments>, tree)?;
    let text = write_envelope(alloc, &globals, top, &bare, unresolved)?;
    Ok(text)
}

// Sets the parentheses of the program of an envelope anew.
fn fix(alloc: Global, envelope: Envelope) -> Result<String, PassError>
    requires { has_any_types envelope.tree ≡ false }
    ensures { MatchResult result (λ text. IsFixed envelope (string_bytes text)) (IsCausedFor Command.Fix envelope) }
{
    let Envelope {
        globals,
        unresolved,
        top,
        tree,
        ..
    } = envelope;
    let fixed = fix_parens(alloc, None::<&mut NoComments>, tree)?;
    let text = write_envelope(alloc, &globals, top, &fixed, unresolved)?;
    Ok(text)
}

// Resolves the program of an envelope, gives its names anew and clears its contexts, and sets its parentheses anew.
fn chain(alloc: Global, envelope: Envelope) -> Result<String, PassError>
    requires program { opened program_place envelope.tree ≡ Some scope.Program }
    requires marks { MarksOk envelope.globals envelope.unresolved envelope.top }
    requires types { has_any_types envelope.tree ≡ false }
    ensures { MatchResult result (λ text. IsChained envelope (string_bytes text)) (IsCausedFor Command.Chain envelope) }
{
    let Envelope {
        mut globals,
        unresolved,
        top,
        keep_class_names,
        ignore_eval,
        tree,
        ..
    } = envelope;
    let config = config(top, keep_class_names, ignore_eval);
    let marked = resolve_program(alloc, &mut globals, unresolved, top, tree)?;
    let renamed = hygiene_program(alloc, &config, &globals, marked)?;
    let fixed = fix_parens(alloc, None::<&mut NoComments>, renamed)?;
    let text = write_envelope(alloc, &globals, top, &fixed, unresolved)?;
    Ok(text)
}
