//! Rows of the calls that run passes one after another, and of hygiene by value. A row is an envelope, and what is left of it; where
//! comments are lent, behind the moves that they were asked for, and `room` in the envelope says how many they grant. Of scripts that are
//! mangled the names of the program stay.
use gate_rows::{Given, Notes, Program, Settings, room};
use std::alloc::Global;
use swc_ecma_transforms_base::hygiene::{Config, hygiene_with_config};
use swc_ecma_transforms_base::resolver::marks_ok;
use swc_ecma_transforms_base::{
    chain_module, chain_script, finish_module, finish_script, mangle_module, mangle_script,
};
use swc_tree::PassError;
use swc_tree_node::Class;

/// What is to be done to a program in place.
#[derive(Clone, Copy)]
pub enum Task {
    Finish,
    Chain,
    Mangle,
}

// The class of programs that a word names.
fn class_of(word: &str) -> Option<Class> {
    match word {
        "module" => Some(Class::Module),
        "script" => Some(Class::Script),
        _ => None,
    }
}

/// The task and the class of programs that the words of a row name.
pub fn task_of(words: &str) -> Option<(Task, Class)> {
    match words.split_once(' ')? {
        ("finish", class) => Some((Task::Finish, class_of(class)?)),
        ("chain", class) => Some((Task::Chain, class_of(class)?)),
        ("mangle", class) => Some((Task::Mangle, class_of(class)?)),
        _ => None,
    }
}

// What hygiene goes by.
fn config_of(settings: Settings) -> Config {
    Config {
        keep_class_names: settings.keep_class_names,
        safari_10: false,
        top_level_mark: settings.top,
        ignore_eval: settings.ignore_eval,
    }
}

// Finishes a program.
fn finish(alloc: Global, comments: Option<&mut Notes>, given: &mut Given) -> Result<(), PassError> {
    let config = config_of(given.settings);
    let globals = &mut given.globals;
    match &mut given.program {
        Program::Module(module) => finish_module(alloc, globals, config, comments, module),
        Program::Script(script) => finish_script(alloc, globals, config, comments, script),
    }
}

// Runs the chain on a program whose marks are known.
fn chain(
    alloc: Global,
    comments: Option<&mut Notes>,
    given: &mut Given,
) -> Option<Result<(), PassError>> {
    let config = config_of(given.settings);
    let (unresolved, top) = (given.settings.unresolved, given.settings.top);
    let globals = &mut given.globals;
    if !marks_ok(globals, unresolved, top) {
        return None;
    }
    Some(match &mut given.program {
        Program::Module(module) => {
            chain_module(alloc, globals, unresolved, top, config, comments, module)
        }
        Program::Script(script) => {
            chain_script(alloc, globals, unresolved, top, config, comments, script)
        }
    })
}

// Gives a program whose marks are known short names.
fn mangle(alloc: Global, given: &mut Given) -> Option<Result<(), PassError>> {
    let config = config_of(given.settings);
    let unresolved = given.settings.unresolved;
    let globals = &mut given.globals;
    if !marks_ok(globals, unresolved, config.top_level_mark) {
        return None;
    }
    Some(match &mut given.program {
        Program::Module(module) => {
            mangle_module(alloc, globals, unresolved, &config, false, module)
        }
        Program::Script(script) => {
            mangle_script(alloc, globals, unresolved, &config, true, script)
        }
    })
}

/// Does the task to a program, with comments that are lent, if there are any and the task takes them.
pub fn run(
    alloc: Global,
    task: Task,
    comments: Option<&mut Notes>,
    given: &mut Given,
) -> Option<Result<(), PassError>> {
    match task {
        Task::Finish => Some(finish(alloc, comments, given)),
        Task::Chain => chain(alloc, comments, given),
        Task::Mangle => mangle(alloc, given),
    }
}

// What hygiene by value makes of the program of a row.
fn folded(alloc: Global, class: &str, input: &str) -> Option<String> {
    let given = Given::read(alloc, class_of(class)?, input).ok()?;
    let mut hygiene = hygiene_with_config(config_of(given.settings));
    given.folded(alloc, &mut hygiene).ok()
}

// What is left of the program of a row that words name a task for, with comments that are lent, if there are any.
fn left_by(
    alloc: Global,
    words: &str,
    comments: Option<&mut Notes>,
    input: &str,
) -> Option<String> {
    let (task, class) = task_of(words)?;
    let mut given = Given::read(alloc, class, input).ok()?;
    let answer = run(alloc, task, comments, &mut given)?;
    given.left(alloc, answer).ok()
}

// What is left of the program of a row, behind the moves.
fn commented(alloc: Global, words: &str, input: &str) -> Option<String> {
    let mut notes = Notes::new(alloc, room(alloc, input)?);
    let left = left_by(alloc, words, Some(&mut notes), input)?;
    notes.before(alloc, left.as_str()).ok()
}

/// What is left of the program of a row, if its words name one of these tasks.
pub fn answer(alloc: Global, words: &str, input: &str) -> Option<String> {
    if let Some(class) = words.strip_prefix("fold ") {
        return folded(alloc, class, input);
    }
    if let Some(words) = words.strip_prefix("commented ") {
        return commented(alloc, words, input);
    }
    left_by(alloc, words, None, input)
}
