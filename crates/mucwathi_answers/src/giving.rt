//! What is made of a program that is given, or answered, otherwise than as a text.
ghost use Rattle.std.specs.Prelude.{◌≡◌, None, IfErr, IfOk, MatchResult};
ghost use Rattle.text_parser.specs.declared.programs.Goal.TheVariants as kinds;
ghost use Rattle.mucwathi_arguments.specs.declared.task.Source.TheVariants as sources;
ghost use Rattle.mucwathi_given.specs.Faults.{IsTreeFault};
ghost use Rattle.mucwathi_given.specs.Given.{IsRead, IsReady};
ghost use Rattle.mucwathi_looks.specs.Given.{IsUnmarked};
ghost use Rattle.mucwathi_looks.specs.Refused.{IsUngiven, IsUnread};
ghost use Rattle.mucwathi_answers.specs.Answers.{IsAsked, goal_asked as is_asked};
ghost use Rattle.mucwathi_answers.specs.Given.{HasEnvelopeOf, HasFault, IsAnswerOf, IsAnsweredAs, IsEnvelopeOf, IsGivenAnswer, IsMadeBy, IsNoEnvelope, IsNoProgram, IsNoText, IsNoTreeTold, IsOfText, IsOfTree, IsProgramOf, IsRefusal, IsRemarked, IsTextFault, IsTextOfMade, IsUnanswered, IsUnansweredAs, IsUnmadeBy, IsUnremarked, IsUnwrittenAs, IsWrittenAs, goal_of, order_given, with_settings as settings_in};

use crate::answer::{Answer, DEPTH};
use crate::goals::{further, goal_asked, may_be_module};
use crate::rewriting::does_keep_top;
use mucwathi_arguments::{Giving, Source};
use mucwathi_commands::{Command, Goal, Memory, Order, RunFault, Settings, Style};
use mucwathi_given::{Envelope, TreeFault, make_given, read_tree, write_tree};
use mucwathi_looks::{
    Named, give_marked, give_text, print_given, resolve_marked, rewrite_marked, tell_no_tree,
};
use std::alloc::{AllocError, Global};
use swc_tree_marks::PassError;
use swc_tree_node::{Kind, Node};
use text_printer::Layout;

// The program with what the passes go by.
fn with_settings(task: &Giving, program: Envelope) -> Envelope
    ensures { result ≡ settings_in task.now program }
{
    let keep_class_names = task.settings.keep_class_names || program.keep_class_names;
    let ignore_eval = task.settings.ignore_eval || program.ignore_eval;
    let keep_top = task.keep_top.or(program.keep_top);
    Envelope {
        keep_class_names,
        ignore_eval,
        keep_top,
        ..program
    }
}

fn made(alloc: Global, task: &Giving, program: Envelope) -> Result<Envelope, PassError>
    requires { IsReady program }
    ensures { MatchResult result (IsMadeBy task.now program) (IsUnmadeBy task.now program) }
{
    let given = with_settings(task, program);
    make_given(alloc, task.command, given)
}

// The envelope of what is made of it, as JSON.
fn write_made(alloc: Global, task: &Giving, program: Envelope) -> Result<Vec<u8>, PassError>
    requires { IsReady program }
    ensures { MatchResult result (λ out. IsEnvelopeOf task.now program out.items) (IsUnmadeBy task.now program) }
{
    let made = made(alloc, task, program)?;
    let json = write_tree(alloc, &made)?;
    Ok(json.into_bytes())
}

fn envelope(alloc: Global, task: &Giving, program: Envelope) -> Result<Vec<u8>, RunFault>
    requires { IsReady program }
    ensures { MatchResult result (λ out. IsEnvelopeOf task.now program out.items) (IsRefusal task.now program) }
{
    match write_made(alloc, task, program) {
        Ok(out) => Ok(out),
        Err(error) => Err(RunFault::Refused(error)),
    }
}

// The program of a text, with the marks that stand behind its names.
fn marked_program(alloc: Global, text: &[u8], goal: Goal) -> Result<Envelope, RunFault>
    ensures program { IfOk result (IsProgramOf sources.Marked goal text.now) }
    ensures ready { IfOk result IsReady }
    ensures fault { IfErr result (IsUngiven text.now) }
{
    let marked = give_marked(alloc, goal, DEPTH, text)?;
    Ok(marked.program)
}

// ... or without any.
fn plain_program(alloc: Global, text: &[u8], goal: Goal) -> Result<Envelope, RunFault>
    ensures program { IfOk result (IsUnmarked goal text.now) }
    ensures ready { IfOk result IsReady }
    ensures fault { IfErr result (IsUnread text.now) }
{
    give_text(alloc, goal, DEPTH, text)
}

// The program of a text that is read as the goal has it.
fn program_of(alloc: Global, source: Source, text: &[u8], goal: Goal) -> Result<Envelope, RunFault>
    ensures program { IfOk result (IsProgramOf source goal text.now) }
    ensures ready { IfOk result IsReady }
    ensures fault { IfErr result (IsNoProgram source text.now) }
{
    match source {
        Source::Marked => marked_program(alloc, text, goal),
        _ => plain_program(alloc, text, goal),
    }
}

// The envelope of what is made of a text.
fn envelope_of(alloc: Global, task: &Giving, text: &[u8], goal: Goal) -> Result<Vec<u8>, RunFault>
    ensures { MatchResult result (λ out. HasEnvelopeOf task.now goal text.now out.items) (IsNoEnvelope task.now goal text.now) }
{
    let program = program_of(alloc, task.form.source, text, goal)?;
    envelope(alloc, task, program)
}

// What the passes go by, once it is known as what the text is read.
fn order_for(task: &Giving, command: Command, goal: Goal) -> Order
    ensures { result ≡ order_given task.now command goal }
{
    Order {
        command,
        goal,
        depth: DEPTH,
        settings: Settings {
            keep_top: does_keep_top(task.keep_top, goal),
            ..task.settings
        },
        style: task.style,
        memory: Memory::GivenBack,
    }
}

// What is made of a text with marks, as such a text.
fn text_of(alloc: Global, task: &Giving, text: &[u8], goal: Goal) -> Result<Vec<u8>, RunFault>
    ensures { MatchResult result (λ out. IsRemarked task.now.command task.now goal text.now out.items) (IsUnremarked task.now.command task.now goal text.now) }
{
    match task.command {
        None => resolve_marked(alloc, goal, DEPTH, text),
        Some(command) => {
            let order = order_for(task, command, goal);
            rewrite_marked(alloc, &order, text)
        }
    }
}

fn work_as(alloc: Global, task: &Giving, text: &[u8], goal: Goal) -> Result<Vec<u8>, RunFault>
    ensures { MatchResult result (λ out. IsAnsweredAs task.now.form.json task.now goal text.now out.items) (IsUnansweredAs task.now.form.json task.now goal text.now) }
{
    if task.form.json {
        envelope_of(alloc, task, text, goal)
    } else {
        text_of(alloc, task, text, goal)
    }
}

// The same as a module, where the text was not read as a script.
fn work_as_module(
    alloc: Global,
    task: &Giving,
    of: Named<'_>,
    fault: RunFault,
) -> Result<Vec<u8>, RunFault>
    requires asked { IsAsked task.now.goal of kinds.Module }
    requires told { IsTextFault task.now of fault }
    ensures { MatchResult result (λ out. IsOfText task.now of.entry out.items) (IsTextFault task.now of.entry) }
{
    match work_as(alloc, task, of.text, Goal::Module) {
        Ok(out) => Ok(out),
        Err(other) => Err(further(fault, other)),
    }
}

// The same where it is open as what it is read: as a script where it is one, and else as a module.
fn work_open(alloc: Global, task: &Giving, of: Named<'_>) -> Result<Vec<u8>, RunFault>
    requires { is_asked task.now.goal of ≡ None }
    ensures { MatchResult result (λ out. IsOfText task.now of.entry out.items) (IsTextFault task.now of.entry) }
{
    match work_as(alloc, task, of.text, Goal::Script) {
        Ok(out) => Ok(out),
        Err(fault) => {
            if may_be_module(&fault) {
                work_as_module(alloc, task, of, fault)
            } else {
                Err(fault)
            }
        }
    }
}

fn work_on(alloc: Global, task: &Giving, of: Named<'_>) -> Result<Vec<u8>, RunFault>
    ensures { MatchResult result (λ out. IsOfText task.now of.entry out.items) (IsTextFault task.now of.entry) }
{
    match goal_asked(task.goal, of) {
        Some(goal) => work_as(alloc, task, of.text, goal),
        None => work_open(alloc, task, of),
    }
}

fn goal_of_program(tree: &Node) -> Goal
    ensures { result ≡ goal_of tree.now }
{
    match tree {
        Node::Tree(Kind::Module, _) => Goal::Module,
        _ => Goal::Script,
    }
}

// How a tree is laid out: anew, since it has no text.
fn layout_of(style: Style) -> Layout {
    match style {
        Style::Compact => Layout::Compact,
        Style::Kept | Style::Lines => Layout::Lines,
    }
}

// What is made of an envelope's program, as a text.
fn text_of_tree(alloc: Global, task: &Giving, program: Envelope) -> Result<Vec<u8>, RunFault>
    requires { IsReady program }
    ensures { MatchResult result (λ out. IsTextOfMade task.now program out.items) (IsNoText task.now program) }
{
    match made(alloc, task, program) {
        Ok(made) => {
            let goal = goal_of_program(&made.tree);
            print_given(alloc, goal, DEPTH, layout_of(task.style), &made.tree)
        }
        Err(error) => Err(RunFault::Refused(error)),
    }
}

// What is made of an envelope.
fn work_on_tree(alloc: Global, task: &Giving, program: Envelope) -> Result<Vec<u8>, RunFault>
    requires { IsReady program }
    ensures { MatchResult result (λ out. IsWrittenAs task.now.form.json task.now program out.items) (IsUnwrittenAs task.now.form.json task.now program) }
{
    if task.form.json {
        envelope(alloc, task, program)
    } else {
        text_of_tree(alloc, task, program)
    }
}

fn answer_program(
    alloc: Global,
    task: &Giving,
    of: Named<'_>,
    program: Envelope,
) -> Result<Answer, AllocError>
    requires ready { IsReady program }
    requires read { IsRead of.text.now program }
    ensures { IfOk result (IsAnswerOf (IsOfTree task.now of.entry) (IsUnanswered sources.Tree task.now of.entry)) }
{
    match work_on_tree(alloc, task, program) {
        Ok(out) => Ok(Answer::of(alloc, out)),
        Err(fault) => Answer::fault(alloc, of, &fault),
    }
}

// That an input is no tree, and where that shows.
fn tell_unread(alloc: Global, of: Named<'_>, fault: TreeFault) -> Result<Answer, AllocError>
    requires { IsTreeFault of.text.now fault }
    ensures { IfOk result (IsNoTreeTold of.entry) }
{
    match fault {
        TreeFault::NotATree(path) => {
            let told = tell_no_tree(alloc, of.name, path.as_str())?;
            Ok(Answer::told(alloc, told, 3))
        }
        TreeFault::NoMemory => Err(AllocError),
    }
}

fn answer_tree_given(alloc: Global, task: &Giving, of: Named<'_>) -> Result<Answer, AllocError>
    ensures { IfOk result (IsAnswerOf (IsOfTree task.now of.entry) (IsUnanswered sources.Tree task.now of.entry)) }
{
    match read_tree(alloc, of.text) {
        Ok(program) => answer_program(alloc, task, of, program),
        Err(fault) => tell_unread(alloc, of, fault),
    }
}

fn answer_text_given(alloc: Global, task: &Giving, of: Named<'_>) -> Result<Answer, AllocError>
    ensures { IfOk result (IsAnswerOf (IsOfText task.now of.entry) (HasFault (IsTextFault task.now of.entry) of.entry)) }
{
    match work_on(alloc, task, of) {
        Ok(out) => Ok(Answer::of(alloc, out)),
        Err(fault) => Answer::fault(alloc, of, &fault),
    }
}

/// What is made of a program that is given as a text with marks or as an envelope, or is to be answered as an envelope.
///
/// With status 0 it is written; with another nothing is, and what is told is a fault, or where an input is no tree.
pub fn answer_given(alloc: Global, task: &Giving, of: Named<'_>) -> Result<Answer, AllocError>
    ensures { IfOk result (IsGivenAnswer task.now of.entry) }
{
    match task.form.source {
        Source::Tree => answer_tree_given(alloc, task, of),
        _ => answer_text_given(alloc, task, of),
    }
}
