//! What the commands make of programs that are given with marks.
ghost use Rattle.std.specs.Prelude.{◌≡◌, Some, IfErr, IfOk};
ghost use Rattle.mucwathi_given.specs.Given.{HasPairs, IsApart, IsAround, IsBare, IsMade, IsReady, IsResolved, IsShort, Then, keeps_top_by, config_of as config_by};
ghost use Rattle.mucwathi_given.specs.Refusals.{InTurn, IsCauseOf, IsNotApart, IsNotShort, IsUnmade, IsUnpaired, IsUnresolved};

use jsbase_reader::Envelope;
use mucwathi_settings::Command;
use std::alloc::Global;
use swc_base_fixer_program::fix_parens;
use swc_base_fixer_unparen::remove_parens;
use swc_base_mangle::mangle_program;
use swc_base_rename_program::hygiene_program;
use swc_base_rename_substitution::Config;
use swc_base_resolver_program::resolve_program;
use swc_tree_comments::NoComments;
use swc_tree_has_types::has_types;
use swc_tree_marks::PassError;
use swc_tree_node::{Kind, Node};

fn config_of(given: &Envelope) -> Config
    ensures { result ≡ config_by given.now }
{
    Config {
        keep_class_names: given.keep_class_names,
        safari_10: false,
        top_level_mark: given.top,
        ignore_eval: given.ignore_eval,
    }
}

// Whether names of the program's scope are to stay: as it is said, and else in scripts.
fn keeps_top(said: Option<bool>, program: &Node) -> bool
    ensures { result ≡ keeps_top_by said program.now }
{
    match said {
        Some(keeps) => keeps,
        None => matches!(program, Node::Tree(Kind::Script, _)),
    }
}

// Each name with the mark of its scope, but for those that have one.
fn resolve(alloc: Global, given: Envelope) -> Result<Envelope, PassError>
    ensures around { IfOk result (IsAround given) }
    ensures made { IsReady given → IfOk result (IsResolved given) }
    ensures refused { IfErr result (IsUnresolved given) }
{
    let Envelope {
        mut globals,
        unresolved,
        top,
        keep_class_names,
        ignore_eval,
        keep_top,
        tree,
    } = given;
    let tree = resolve_program(alloc, &mut globals, unresolved, top, tree)?;
    Ok(Envelope {
        globals,
        unresolved,
        top,
        keep_class_names,
        ignore_eval,
        keep_top,
        tree,
    })
}

fn set_apart(alloc: Global, given: Envelope) -> Result<Envelope, PassError>
    ensures around { IfOk result (IsAround given) }
    ensures made { IfOk result (IsApart given) }
    ensures refused { IfErr result (IsNotApart given) }
{
    let config = config_of(&given);
    let Envelope {
        globals,
        unresolved,
        top,
        keep_class_names,
        ignore_eval,
        keep_top,
        tree,
    } = given;
    let tree = hygiene_program(alloc, &config, &globals, tree)?;
    Ok(Envelope {
        globals,
        unresolved,
        top,
        keep_class_names,
        ignore_eval,
        keep_top,
        tree,
    })
}

fn shorten(alloc: Global, given: Envelope) -> Result<Envelope, PassError>
    ensures around { IfOk result (IsAround given) }
    ensures made { IfOk result (IsShort given) }
    ensures refused { IfErr result (IsNotShort given) }
{
    let config = config_of(&given);
    let keeps = keeps_top(given.keep_top, &given.tree);
    let Envelope {
        globals,
        unresolved,
        top,
        keep_class_names,
        ignore_eval,
        keep_top,
        tree,
    } = given;
    let tree = mangle_program(alloc, &config, &globals, keeps, tree)?;
    Ok(Envelope {
        globals,
        unresolved,
        top,
        keep_class_names,
        ignore_eval,
        keep_top,
        tree,
    })
}

fn pair(alloc: Global, given: Envelope) -> Result<Envelope, PassError>
    ensures around { IfOk result (IsAround given) }
    ensures made { IfOk result (HasPairs given) }
    ensures refused { IfErr result (IsUnpaired given) }
{
    let tree = fix_parens(alloc, None::<&mut NoComments>, given.tree)?;
    Ok(Envelope { tree, ..given })
}

fn bare(alloc: Global, given: Envelope) -> Result<Envelope, PassError>
    ensures around { IfOk result (IsAround given) }
    ensures made { IfOk result (IsBare given) }
    ensures refused { IfErr result (IsUnpaired given) }
{
    let tree = remove_parens(alloc, None::<&mut NoComments>, given.tree)?;
    Ok(Envelope { tree, ..given })
}

fn set_apart_and_pair(alloc: Global, given: Envelope) -> Result<Envelope, PassError>
    ensures around { IfOk result (IsAround given) }
    ensures made { IfOk result (Then IsApart HasPairs given) }
    ensures refused { IfErr result (InTurn IsNotApart IsApart IsUnpaired given) }
{
    let renamed = set_apart(alloc, given)?;
    pair(alloc, renamed)
}

fn shorten_and_pair(alloc: Global, given: Envelope) -> Result<Envelope, PassError>
    ensures around { IfOk result (IsAround given) }
    ensures made { IfOk result (Then IsShort HasPairs given) }
    ensures refused { IfErr result (InTurn IsNotShort IsShort IsUnpaired given) }
{
    let renamed = shorten(alloc, given)?;
    pair(alloc, renamed)
}

fn chain(alloc: Global, given: Envelope) -> Result<Envelope, PassError>
    ensures around { IfOk result (IsAround given) }
    ensures made { IsReady given → IfOk result (Then IsResolved (Then IsApart HasPairs) given) }
    ensures refused { IsReady given → IfErr result (InTurn IsUnresolved IsResolved (InTurn IsNotApart IsApart IsUnpaired) given) }
{
    let resolved = resolve(alloc, given)?;
    set_apart_and_pair(alloc, resolved)
}

fn mangle(alloc: Global, given: Envelope) -> Result<Envelope, PassError>
    ensures around { IfOk result (IsAround given) }
    ensures made { IsReady given → IfOk result (Then IsResolved (Then IsShort HasPairs) given) }
    ensures refused { IsReady given → IfErr result (InTurn IsUnresolved IsResolved (InTurn IsNotShort IsShort IsUnpaired) given) }
{
    let resolved = resolve(alloc, given)?;
    shorten_and_pair(alloc, resolved)
}

fn make(alloc: Global, command: Command, given: Envelope) -> Result<Envelope, PassError>
    ensures made { IsReady given → IfOk result (IsMade (Some command) given) }
    ensures refused { IsReady given → IfErr result (IsCauseOf command given) }
{
    match command {
        Command::Chain => chain(alloc, given),
        Command::Mangle => mangle(alloc, given),
        Command::Hygiene => set_apart(alloc, given),
        Command::Fix => pair(alloc, given),
        Command::Unparen => bare(alloc, given),
    }
}

/// What a command makes of a program that is given with marks; where there is none, the program with the mark of its scope on each name that
/// has none.
///
/// `Hygiene`, `Fix` and `Unparen` take the marks as they are; `Chain` and `Mangle` resolve names without any first.
///
/// # Errors
///
/// `TypesLeft` where there is a command and declarations of types stand in the program. Else `NoMemory`; `MarksSpent` where there are
/// more scopes than marks left; `CounterSpent` where for an id no counter gives a free text; `NotAssignable` where a parenthesised target
/// takes no value.
pub fn make_given(
    alloc: Global,
    command: Option<Command>,
    given: Envelope,
) -> Result<Envelope, PassError>
    ensures made { IsReady given → IfOk result (IsMade command given) }
    ensures refused { IsReady given → IfErr result (IsUnmade command given) }
{
    match command {
        None => resolve(alloc, given),
        Some(command) => {
            if has_types(&given.tree) {
                return Err(PassError::TypesLeft);
            }
            make(alloc, command, given)
        }
    }
}
