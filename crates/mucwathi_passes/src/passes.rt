//! The passes, on a program that was read.
ghost use Rattle.std.specs.Prelude.{◌≡◌, ◌⊎◌, Some, false, IfOk, IfErr, MatchResult};
ghost use Rattle.swc_tree_marks.specs.declared.error.PassError.TheVariants as refusal;
ghost use Rattle.swc_tree_scoping.specs.declared.places.Scope.TheVariants as scope;
ghost use Rattle.swc_tree_scoping.specs.Places.{opened, program_place};
ghost use Rattle.swc_tree_spaces.specs.Spaces.{ResolvedBy, has_types as stand_in};
ghost use Rattle.mucwathi_passes.specs.Passes.{IsApart, IsApartRefusal, IsBared, IsCauseOf, IsPaired, IsPairRefusal, IsRefusal, IsRefusedInTurn, IsRenamedAndPaired, IsResolved, IsShort, IsShortRefusal, Makes, TakesTooManyMarks, config_of as config_by, own_table};

use mucwathi_settings::{Command, Settings};
use std::alloc::Global;
use swc_base_fixer_program::fix_parens;
use swc_base_fixer_unparen::remove_parens;
use swc_base_mangle::mangle_program;
use swc_base_mangle::swc_base_rename_program::hygiene_program;
use swc_base_rename_substitution::Config;
use swc_base_resolver_program::resolve_program;
use swc_tree_comments::NoComments;
use swc_tree_has_types::has_types;
use swc_tree_marks::{Globals, Mark, NoMemory, PassError};
use swc_tree_node::Node;
use swc_tree_spaces_laws::types_are_told;

/// The mark of names that nothing declares.
pub fn unresolved() -> Mark
    ensures { result ≡ 1 }
{
    Mark::from_u32(1)
}

/// The mark of the names of the program's own scope.
pub fn top() -> Mark
    ensures { result ≡ 2 }
{
    Mark::from_u32(2)
}

/// The table of the two marks that a text is resolved with: that of names that nothing declares, and that of the program's own scope.
///
/// # Errors
///
/// Where memory is refused.
pub fn own_marks(alloc: Global) -> Result<Globals, NoMemory>
    ensures { IfOk result (λ globals. globals ≡ own_table) }
{
    match Globals::from_table(alloc, &[(1, 0), (2, 0)]) {
        Ok(globals) => Ok(globals),
        // No row is bad, so memory was refused.
        Err(_) => Err(NoMemory),
    }
}

/// What the passes go by.
pub fn config_of(settings: &Settings) -> Config
    ensures { result ≡ config_by settings.now }
{
    Config {
        keep_class_names: settings.keep_class_names,
        safari_10: false,
        top_level_mark: top(),
        ignore_eval: settings.ignore_eval,
    }
}

/// A program each of whose identifiers has the mark of its scope.
///
/// # Errors
///
/// `NoMemory`, and `MarksSpent` where the program has more scopes than there are marks for.
pub fn resolve(alloc: Global, globals: &mut Globals, program: Node) -> Result<Node, PassError>
    requires own { globals.old ≡ own_table }
    requires program { opened program_place program ≡ Some scope.Program }
    ensures resolved { IfOk result (λ answer. ResolvedBy 1 2 own_table globals.new program answer) }
    ensures by_values { stand_in program ≡ false → IfOk result (λ answer. IsResolved program globals.new answer) }
    ensures refused { IfErr result (λ e. (e ≡ refusal.NoMemory) ⊎ ((e ≡ refusal.MarksSpent) × TakesTooManyMarks program)) }
{
    types_are_told();
    resolve_program(alloc, globals, unresolved(), top(), program)
}

// A program with its names apart.
fn set_apart(alloc: Global, settings: &Settings, program: Node) -> Result<Node, PassError>
    requires program { opened program_place program ≡ Some scope.Program }
    requires types { stand_in program ≡ false }
    ensures { MatchResult result (IsApart settings.now program) (IsApartRefusal settings.now program) }
{
    let mut globals = own_marks(alloc)?;
    let resolved = resolve(alloc, &mut globals, program)?;
    hygiene_program(alloc, &config_of(settings), &globals, resolved)
}

// A program with short names.
fn shorten(alloc: Global, settings: &Settings, program: Node) -> Result<Node, PassError>
    requires program { opened program_place program ≡ Some scope.Program }
    requires types { stand_in program ≡ false }
    ensures { MatchResult result (IsShort settings.now program) (IsShortRefusal settings.now program) }
{
    let mut globals = own_marks(alloc)?;
    let resolved = resolve(alloc, &mut globals, program)?;
    mangle_program(
        alloc,
        &config_of(settings),
        &globals,
        settings.keep_top,
        resolved,
    )
}

// A program with its parentheses set anew.
fn pair(alloc: Global, program: Node) -> Result<Node, PassError>
    ensures { MatchResult result (IsPaired program) (IsPairRefusal program) }
{
    fix_parens(alloc, None::<&mut NoComments>, program)
}

// A program without parentheses.
fn bare(alloc: Global, program: Node) -> Result<Node, PassError>
    ensures { MatchResult result (IsBared program) (IsPairRefusal program) }
{
    remove_parens(alloc, None::<&mut NoComments>, program)
}

fn chain(alloc: Global, settings: &Settings, program: Node) -> Result<Node, PassError>
    requires program { opened program_place program ≡ Some scope.Program }
    requires types { stand_in program ≡ false }
    ensures { MatchResult result (IsRenamedAndPaired (IsApart settings.now) program) (IsRefusedInTurn (IsApartRefusal settings.now) (IsApart settings.now) program) }
{
    let renamed = set_apart(alloc, settings, program)?;
    pair(alloc, renamed)
}

fn mangle(alloc: Global, settings: &Settings, program: Node) -> Result<Node, PassError>
    requires program { opened program_place program ≡ Some scope.Program }
    requires types { stand_in program ≡ false }
    ensures { MatchResult result (IsRenamedAndPaired (IsShort settings.now) program) (IsRefusedInTurn (IsShortRefusal settings.now) (IsShort settings.now) program) }
{
    let renamed = shorten(alloc, settings, program)?;
    pair(alloc, renamed)
}

// What a command makes of a program in which no types stand.
fn make_of_values(
    alloc: Global,
    command: Command,
    settings: &Settings,
    program: Node,
) -> Result<Node, PassError>
    requires program { opened program_place program ≡ Some scope.Program }
    requires types { stand_in program ≡ false }
    ensures { MatchResult result (Makes command settings.now program) (IsCauseOf command settings.now program) }
{
    match command {
        Command::Chain => chain(alloc, settings, program),
        Command::Mangle => mangle(alloc, settings, program),
        Command::Hygiene => set_apart(alloc, settings, program),
        Command::Fix => pair(alloc, program),
        Command::Unparen => bare(alloc, program),
    }
}

/// What a command makes of a program.
///
/// Time and memory grow in step with the program.
///
/// # Errors
///
/// `TypesLeft` exactly where declarations of types stand in it, which no text leads to. Else `NoMemory`; `MarksSpent` where it has more scopes than
/// there are marks for; `CounterSpent` where for an id no counter gives a free text; `NotAssignable` where a parenthesised target takes no
/// value.
pub fn make(
    alloc: Global,
    command: Command,
    settings: &Settings,
    program: Node,
) -> Result<Node, PassError>
    requires { opened program_place program ≡ Some scope.Program }
    ensures { MatchResult result (Makes command settings.now program) (IsRefusal command settings.now program) }
{
    if has_types(&program) {
        return Err(PassError::TypesLeft);
    }
    make_of_values(alloc, command, settings, program)
}
