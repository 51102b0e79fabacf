//! Words read by `clap`.
ghost use Rattle.std.specs.Prelude.{◌≡◌, [], codes, map, unwrap_or, IfOk, IfSome, string_bytes};
ghost use Rattle.clap.specs.Words.{all_of};
ghost use Rattle.mucwathi_arguments.specs.Asked.{IsAskedBy, IsJudging, IsLooking, IsNameOf, IsRewriting, IsTarget, IsTaskOf, form_asked, goal_asked, resolving_asked, rows, said, settings_asked, source_asked, style_asked, top_asked};

use crate::offers::program;
use crate::task::{Form, Giving, Judging, Looking, Rewriting, Source, Target, Task, View};
use clap::error::ErrorKind;
use clap::{ArgMatches, Error};
use mucwathi_order::{Command, Goal, Settings, Style};
use std::alloc::{AllocError, Global};

// Whether an option was given that has no value.
fn is_said(given: &ArgMatches<'_>, name: &str) -> bool
    ensures { result ≡ said name.now (rows given.now) }
{
    match given.get_str(name) {
        Some(word) => word == "true",
        None => false,
    }
}

// Resolving a program that is not given as a text.
fn resolving_given(given: &ArgMatches<'_>, form: Form) -> Giving
    requires { form ≡ form_asked (rows given.now) }
    ensures { result ≡ resolving_asked (rows given.now) }
{
    Giving {
        command: None,
        goal: goal_of(given),
        settings: Settings {
            keep_class_names: false,
            ignore_eval: false,
            keep_top: false,
        },
        keep_top: None,
        style: Style::Kept,
        form,
    }
}

fn resolving<'a>(given: &ArgMatches<'a>) -> Task<'a>
    ensures { IsTaskOf (codes "resolve") (rows given.now) result }
{
    let form = form_of(given);
    if form.source != Source::Text {
        return Task::ResolveGiven(looking(given), resolving_given(given, form));
    }
    if form.json {
        return Task::Look(View::Tree, looking(given));
    }
    Task::Look(View::Marks, looking(given))
}

fn goal_of(given: &ArgMatches<'_>) -> Option<Goal>
    ensures { result ≡ goal_asked (rows given.now) }
{
    if is_said(given, "module") {
        return Some(Goal::Module);
    }
    if is_said(given, "script") {
        return Some(Goal::Script);
    }
    None
}

fn style_of(given: &ArgMatches<'_>) -> Style
    ensures { result ≡ style_asked (rows given.now) }
{
    if is_said(given, "compact") {
        return Style::Compact;
    }
    if is_said(given, "print") {
        return Style::Lines;
    }
    Style::Kept
}

fn target_of<'a>(given: &ArgMatches<'a>) -> Target<'a>
    ensures { IsTarget (rows given.now) result }
{
    if is_said(given, "in-place") {
        return Target::Place;
    }
    match given.get_str("out") {
        Some(folder) => Target::Folder(folder),
        None => Target::Output,
    }
}

fn source_of(given: &ArgMatches<'_>) -> Source
    ensures { result ≡ source_asked (rows given.now) }
{
    if is_said(given, "marks") {
        return Source::Marked;
    }
    if is_said(given, "from-json") {
        return Source::Tree;
    }
    Source::Text
}

fn form_of(given: &ArgMatches<'_>) -> Form
    ensures { result ≡ form_asked (rows given.now) }
{
    let source = source_of(given);
    let json = is_said(given, "json");
    Form { source, json }
}

fn top_of(given: &ArgMatches<'_>) -> Option<bool>
    ensures { result ≡ top_asked (rows given.now) }
{
    if is_said(given, "keep-top") {
        return Some(true);
    }
    if is_said(given, "mangle-top") {
        return Some(false);
    }
    None
}

fn settings_of(given: &ArgMatches<'_>) -> Settings
    ensures { result ≡ settings_asked (rows given.now) }
{
    let keep_class_names = is_said(given, "keep-class-names");
    let ignore_eval = is_said(given, "ignore-eval");
    Settings {
        keep_class_names,
        ignore_eval,
        keep_top: false,
    }
}

fn files_of<'a>(alloc: Global, given: &ArgMatches<'a>) -> Result<Vec<&'a str>, AllocError>
    ensures { IfOk result (λ files. map (λ f. f.now) files.items ≡ unwrap_or (all_of (codes "file") (rows given.now)) []) }
{
    match given.get_strs("file") {
        Some(words) => Vec::from_slice(alloc, words),
        None => Ok(Vec::new(alloc)),
    }
}

fn rewriting<'a>(
    alloc: Global,
    command: Command,
    given: &ArgMatches<'a>,
) -> Result<Rewriting<'a>, AllocError>
    ensures { IfOk result (λ r. (r.command ≡ command) × IsRewriting (rows given.now) r) }
{
    let files = files_of(alloc, given)?;
    let lists = is_said(given, "list");
    let explains = is_said(given, "explain");
    Ok(Rewriting {
        command,
        goal: goal_of(given),
        settings: settings_of(given),
        keep_top: top_of(given),
        style: style_of(given),
        lists,
        explains,
        map: given.get_str("source-map"),
        target: target_of(given),
        form: form_of(given),
        files,
    })
}

fn judging<'a>(given: &ArgMatches<'a>) -> Judging<'a>
    ensures { IsJudging (rows given.now) result }
{
    let keep_top = is_said(given, "keep-top");
    let any = is_said(given, "any-spelling");
    let before = given.get_str("before").unwrap_or("");
    let after = given.get_str("after").unwrap_or("");
    Judging {
        goal: goal_of(given),
        keep_top,
        spelling: !any,
        before,
        after,
    }
}

fn looking<'a>(given: &ArgMatches<'a>) -> Looking<'a>
    ensures { IsLooking (rows given.now) result }
{
    Looking {
        goal: goal_of(given),
        file: given.get_str("file"),
    }
}

// The command that a word names, if it rewrites texts.
fn command_named(name: &str) -> Option<Command>
    ensures { IfSome result (IsNameOf name.now) }
{
    match name {
        "chain" => Some(Command::Chain),
        "mangle" => Some(Command::Mangle),
        "hygiene" => Some(Command::Hygiene),
        "fix" => Some(Command::Fix),
        "unparen" => Some(Command::Unparen),
        _ => None,
    }
}

// The task of a word that rewrites nothing, if it names one.
fn looking_named<'a>(name: &str, given: &ArgMatches<'a>) -> Option<Task<'a>>
    ensures { IfSome result (IsTaskOf name.now (rows given.now)) }
{
    match name {
        "judge" => Some(Task::Judge(judging(given))),
        "names" => Some(Task::Look(View::Names, looking(given))),
        "resolve" => Some(resolving(given)),
        "show" => Some(Task::Look(View::Page, looking(given))),
        _ => None,
    }
}

fn task_named<'a>(
    alloc: Global,
    name: &str,
    given: &ArgMatches<'a>,
) -> Result<Option<Task<'a>>, AllocError>
    ensures { IfOk result (λ task. IfSome task (IsTaskOf name.now (rows given.now))) }
{
    match command_named(name) {
        Some(command) => {
            let task = rewriting(alloc, command, given)?;
            Ok(Some(Task::Rewrite(task)))
        }
        None => Ok(looking_named(name, given)),
    }
}

/// What the words of a command line ask for, the program's own name first.
///
/// # Errors
///
/// What `clap` finds wrong, `--help` and `--version`: the error has the text to print and the status to end with.
pub fn read_words<'a>(alloc: Global, words: &'a [String]) -> Result<Task<'a>, Error>
    ensures { IfOk result (IsAskedBy (map string_bytes words.entry.now)) }
{
    let matches = program(alloc)?.try_get_matches_from(words)?;
    if let Some((name, given)) = matches.subcommand()
        && let Some(task) = task_named(alloc, name, given)?
    {
        return Ok(task);
    }
    Err(program(alloc)?.error(ErrorKind::MissingSubcommand, "a command is missing")?)
}
