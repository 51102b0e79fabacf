//! The words of the command line.
ghost use Rattle.std.specs.Prelude.{◌≡◌, ◌≢◌, [], ◌∷◌, map, string_bytes, IfOk, IfErr, IfSome, IfNone};
ghost use Rattle.jsbase_commands.specs.declared.fault.Fault.TheVariants.{Usage};
ghost use Rattle.jsbase_commands.specs.declared.arguments.Command.{Command};
ghost use Rattle.jsbase_commands.specs.declared.arguments.Kind.{Kind};
ghost use Rattle.jsbase_commands.specs.Arguments.{command_word, kind_word};

use crate::fault::Fault;

/// What is done with a program.
#[derive(Clone, Copy, Debug, PartialEq, Eq)]
pub enum Command {
    /// Each identifier gets the mark of its scope.
    Resolve,
    /// Names are given anew where ids of one text would meet, and contexts are cleared.
    Hygiene,
    /// Parentheses are taken off, and with them what is idle in sequences and classes.
    Unparen,
    /// Parentheses are set anew: those that are due, and no other.
    Fix,
    /// The program is resolved, then made hygienic, then its parentheses are set anew.
    Chain,
    /// The program is resolved, then its names are made short, then its parentheses are set anew.
    Mangle,
    /// Two versions of a program are compared: whether one is the other but for the choice of the names that it binds.
    Judge,
    /// Whether what is promised of `Chain` is promised of the program.
    Covers,
}

/// The goal symbol of a program (ECMA-262, Script and Module).
#[derive(Clone, Copy, Debug, PartialEq, Eq)]
pub enum Kind {
    Module,
    Script,
}

fn command_named(word: &str) -> Option<Command>
    ensures found { IfSome result (λ c. command_word c ≡ word.now) }
    ensures missing { IfNone result ((c : Command) → command_word c ≢ word.now) }
{
    match word {
        "resolve" => Some(Command::Resolve),
        "hygiene" => Some(Command::Hygiene),
        "unparen" => Some(Command::Unparen),
        "fix" => Some(Command::Fix),
        "chain" => Some(Command::Chain),
        "mangle" => Some(Command::Mangle),
        "judge" => Some(Command::Judge),
        "covers" => Some(Command::Covers),
        _ => None,
    }
}

fn kind_named(word: &str) -> Option<Kind>
    ensures found { IfSome result (λ k. kind_word k ≡ word.now) }
    ensures missing { IfNone result ((k : Kind) → kind_word k ≢ word.now) }
{
    match word {
        "module" => Some(Kind::Module),
        "script" => Some(Kind::Script),
        _ => None,
    }
}

/// The command and the kind that a program's two arguments name.
///
/// Any other number of arguments, or a word that names nothing, is `Usage`.
pub fn words(arguments: &[String]) -> Result<(Command, Kind), Fault>
    ensures named { IfOk result (λ w. map string_bytes arguments.now ≡ command_word w.0 ∷ kind_word w.1 ∷ []) }
    ensures usage { IfErr result (λ fault. (fault ≡ Usage)
        × ((c : Command) (k : Kind) → map string_bytes arguments.now ≢ command_word c ∷ kind_word k ∷ [])) }
{
    let [command, kind] = arguments else {
        return Err(Fault::Usage);
    };
    let Some(command) = command_named(command.as_str()) else {
        return Err(Fault::Usage);
    };
    let Some(kind) = kind_named(kind.as_str()) else {
        return Err(Fault::Usage);
    };
    Ok((command, kind))
}
