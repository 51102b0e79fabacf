//! The commands and their options, as `clap` is told them: one table, and the loops that go over it.
ghost use Rattle.std.specs.Prelude.{◌≡◌, false, map, IfOk};
ghost use Rattle.clap.specs.Words.{app_of, new_rule, rule_of, shape_of};
ghost use Rattle.clap.specs.Walk.{is_empty};
ghost use Rattle.mucwathi_arguments.specs.Offered.{offered};
ghost use Rattle.mucwathi_arguments.specs.Rules.{IsLocal, command_for, rule_for, with_rules};

use crate::version::VERSION;
use clap::{Arg, ArgAction, Command as Parser};
use std::alloc::{AllocError, Global};

// What stands behind a word, or in its place.
#[derive(Clone, Copy)]
pub(crate) enum Shape {
    // Nothing: it was said or not.
    Flag,
    // A value, by what help calls it.
    Value(&'static str),
    // No word, but a file, which may be left out.
    File(&'static str),
    // The same of a file that may not.
    Needed(&'static str),
    // The same of any number of files.
    Files(&'static str),
}

// An option or a file, and the options that it does not go with.
#[derive(Clone, Copy)]
pub(crate) struct Choice {
    pub(crate) name: &'static str,
    pub(crate) shape: Shape,
    pub(crate) help: &'static str,
    pub(crate) apart: &'static [&'static str],
}

// A command.
#[derive(Clone, Copy)]
pub(crate) struct Offer {
    pub(crate) name: &'static str,
    pub(crate) about: &'static str,
    pub(crate) example: &'static str,
    pub(crate) choices: &'static [&'static [Choice]],
}

const GOALS: &[Choice] = &[
    Choice {
        name: "module",
        shape: Shape::Flag,
        help: "Read a module, whatever the file is called",
        apart: &["script"],
    },
    Choice {
        name: "script",
        shape: Shape::Flag,
        help: "Read a script, whatever the file is called",
        apart: &[],
    },
];

// How an answer is written.
const STYLES: &[Choice] = &[
    Choice {
        name: "print",
        shape: Shape::Flag,
        help: "Write the answer anew, a statement a line",
        apart: &["compact", "json"],
    },
    Choice {
        name: "compact",
        shape: Shape::Flag,
        help: "Write the answer anew, in one line",
        apart: &["json"],
    },
];

// Where it goes, or what is told in its place, which goes nowhere. What tells of layout or places goes with no tree.
const TARGETS: &[Choice] = &[
    Choice {
        name: "in-place",
        shape: Shape::Flag,
        help: "Write each answer into the place of its file",
        apart: &["out"],
    },
    Choice {
        name: "out",
        shape: Shape::Value("FOLDER"),
        help: "Write each answer into a folder, under the name of its file",
        apart: &[],
    },
    Choice {
        name: "list",
        shape: Shape::Flag,
        help: "Tell which names would be given anew: line:column old new",
        apart: &["in-place", "out", "marks", "from-json", "json"],
    },
    Choice {
        name: "source-map",
        shape: Shape::Value("MAP"),
        help: "Write a source map of the answer into a file",
        apart: &["list", "marks", "from-json", "json"],
    },
];

// As what a program is given, and whether its answer is an envelope.
const FORMS: &[Choice] = &[
    Choice {
        name: "marks",
        shape: Shape::Flag,
        help: "Names have marks behind them: a#2.3; those that are left are written",
        apart: &["from-json"],
    },
    Choice {
        name: "from-json",
        shape: Shape::Flag,
        help: "Read a tree as JSON, as jsbase writes it",
        apart: &[],
    },
    Choice {
        name: "json",
        shape: Shape::Flag,
        help: "Write the tree as JSON, as jsbase reads it",
        apart: &[],
    },
];

// What gives names anew.
const SETTINGS: &[Choice] = &[
    Choice {
        name: "keep-class-names",
        shape: Shape::Flag,
        help: "Classes keep their names",
        apart: &[],
    },
    Choice {
        name: "ignore-eval",
        shape: Shape::Flag,
        help: "Give names anew where a direct eval could read them",
        apart: &[],
    },
    Choice {
        name: "explain",
        shape: Shape::Flag,
        help: "Tell whether the promise covers the file, else why not",
        apart: &[
            "list",
            "source-map",
            "in-place",
            "out",
            "marks",
            "from-json",
            "json",
        ],
    },
];

const TOP: &[Choice] = &[
    Choice {
        name: "keep-top",
        shape: Shape::Flag,
        help: "Names of the program's own scope stay, as they do in scripts",
        apart: &["mangle-top"],
    },
    Choice {
        name: "mangle-top",
        shape: Shape::Flag,
        help: "They do not, as they do not in modules",
        apart: &[],
    },
];

const MANY: &[Choice] = &[Choice {
    name: "file",
    shape: Shape::Files("FILE"),
    help: "Files; standard input where there is none",
    apart: &[],
}];

const ONE: &[Choice] = &[Choice {
    name: "file",
    shape: Shape::File("FILE"),
    help: "A file; standard input where there is none",
    apart: &[],
}];

const JUDGED: &[Choice] = &[
    Choice {
        name: "keep-top",
        shape: Shape::Flag,
        help: "Names of the program's own scope have to stay",
        apart: &[],
    },
    Choice {
        name: "any-spelling",
        shape: Shape::Flag,
        help: "Spellings of literals don't count: 16 is 0x10, 'a' is \"a\"",
        apart: &[],
    },
    Choice {
        name: "before",
        shape: Shape::Needed("BEFORE"),
        help: "A file",
        apart: &[],
    },
    Choice {
        name: "after",
        shape: Shape::Needed("AFTER"),
        help: "Another",
        apart: &[],
    },
];

pub(crate) const OFFERS: &[Offer] = &[
    Offer {
        name: "chain",
        about: "Names apart, parentheses right",
        example: "Example: mucwathi chain src/a.mjs > a.mjs",
        choices: &[GOALS, STYLES, TARGETS, FORMS, MANY, SETTINGS],
    },
    Offer {
        name: "mangle",
        about: "The shortest names",
        example: "Example: mucwathi mangle --compact src/a.mjs > a.min.mjs",
        choices: &[GOALS, STYLES, TARGETS, FORMS, MANY, SETTINGS, TOP],
    },
    Offer {
        name: "hygiene",
        about: "Names apart",
        example: "Example: mucwathi hygiene --list src/a.mjs",
        choices: &[GOALS, STYLES, TARGETS, FORMS, MANY, SETTINGS],
    },
    Offer {
        name: "fix",
        about: "Parentheses set anew: those that are due",
        example: "Example: echo '((a + (b)) * c)' | mucwathi fix",
        choices: &[GOALS, STYLES, TARGETS, FORMS, MANY],
    },
    Offer {
        name: "unparen",
        about: "Parentheses taken off",
        example: "Example: echo 'f((a))' | mucwathi unparen",
        choices: &[GOALS, STYLES, TARGETS, FORMS, MANY],
    },
    Offer {
        name: "judge",
        about: "Whether two files are the same program but for the names that it binds",
        example: "Example: mucwathi judge src/a.mjs a.min.mjs && echo the same",
        choices: &[GOALS, JUDGED],
    },
    Offer {
        name: "names",
        about: "The free names, each once: line:column name",
        example: "Example: mucwathi names src/a.mjs",
        choices: &[GOALS, ONE],
    },
    Offer {
        name: "resolve",
        about: "Each name with the mark of its scope: a#2, a#3",
        example: "Example: echo 'let a; { let a; a }' | mucwathi resolve",
        choices: &[GOALS, ONE, FORMS],
    },
    Offer {
        name: "show",
        about: "A page on which each variable has a colour of its own",
        example: "Example: mucwathi show src/a.mjs > a.html",
        choices: &[GOALS, ONE],
    },
];

// A word, which does not go with some others.
fn named<'a>(alloc: Global, choice: &Choice) -> Result<Arg<'a>, AllocError>
    ensures rule { IfOk result (λ a. rule_of a ≡ record (new_rule choice.now.name.now) { is_free = is_empty choice.now.apart.now }) }
    ensures local { IfOk result (λ a. a.global ≡ false) }
{
    let arg = Arg::new(alloc, choice.name).help(choice.help);
    arg.conflicts_with_all(choice.apart)
}

// What it is, with what stands behind it.
fn shaped<'a>(arg: Arg<'a>, choice: &Choice) -> Arg<'a>
    requires { rule_of arg ≡ record (new_rule choice.now.name.now) { is_free = is_empty choice.now.apart.now } }
    ensures rule { rule_of result ≡ rule_for choice.now }
    ensures local { result.global ≡ arg.entry.global }
{
    match choice.shape {
        Shape::Flag => arg.long(choice.name).action(ArgAction::SetTrue),
        Shape::Value(shown) => arg
            .long(choice.name)
            .value_name(shown)
            .action(ArgAction::Set),
        Shape::File(shown) => arg.value_name(shown).action(ArgAction::Set),
        Shape::Needed(shown) => arg.value_name(shown).action(ArgAction::Set).required(true),
        Shape::Files(shown) => arg
            .value_name(shown)
            .num_args(0..)
            .action(ArgAction::Append),
    }
}

fn option_of<'a>(alloc: Global, choice: &Choice) -> Result<Arg<'a>, AllocError>
    ensures rule { IfOk result (λ a. rule_of a ≡ rule_for choice.now) }
    ensures local { IfOk result (λ a. a.global ≡ false) }
{
    let arg = named(alloc, choice)?;
    Ok(shaped(arg, choice))
}

fn with_choices<'a>(
    alloc: Global,
    mut parser: Parser<'a>,
    choices: &[Choice],
) -> Result<Parser<'a>, AllocError>
    ensures app { IfOk result (λ p. app_of p ≡ with_rules (app_of parser.entry) (map rule_for choices.now)) }
    ensures local { IsLocal parser.entry → IfOk result IsLocal }
{
    for choice in choices {
        let option = option_of(alloc, choice)?;
        parser = parser.arg(option)?;
    }
    Ok(parser)
}

fn parser_of<'a>(alloc: Global, offer: &Offer) -> Result<Parser<'a>, AllocError>
    ensures shape { IfOk result (λ p. shape_of p ≡ command_for offer.now) }
    ensures local { IfOk result IsLocal }
{
    let mut parser = Parser::new(alloc, offer.name)
        .about(offer.about)
        .after_help(offer.example);
    for choices in offer.choices {
        parser = with_choices(alloc, parser, *choices)?;
    }
    Ok(parser)
}

/// What reads the words of a command line.
///
/// # Errors
///
/// `AllocError` where memory is refused.
pub(crate) fn program<'a>(alloc: Global) -> Result<Parser<'a>, AllocError>
    ensures { IfOk result (λ p. app_of p ≡ offered) }
{
    let mut parser = Parser::new(alloc, "mucwathi")
        .version(VERSION)
        .about("JavaScript in, JavaScript out: names and parentheses, proved")
        .subcommand_required(true)
        .arg_required_else_help(true);
    for offer in OFFERS {
        let command = parser_of(alloc, offer)?;
        parser = parser.subcommand(command)?;
    }
    Ok(parser)
}
