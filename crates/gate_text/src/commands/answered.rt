//! What is answered to a row.
use crate::commands::row::Row;
use mucwathi_answers::{
    Answer, Named, answer_given, answer_judging, answer_looking, answer_rewriting,
};
use mucwathi_arguments::{Error, Misuse, Rewriting, Task, misuse_of, read_words};
use std::alloc::{AllocError, Global};

fn named<'a>(file: Option<&'a str>, text: &'a str) -> Named<'a> {
    Named {
        name: file.unwrap_or("<stdin>"),
        text: text.as_bytes(),
    }
}

// What can't be done, whatever a text is.
fn of_misuse(alloc: Global, misuse: &Misuse<'_>) -> Result<Answer, AllocError> {
    let told = format!(in alloc; "mucwathi: {misuse}\n")?;
    Ok(Answer {
        out: Vec::new(alloc),
        map: Vec::new(alloc),
        told: told.into_bytes(),
        status: 2,
    })
}

fn rewrite(alloc: Global, task: &Rewriting<'_>, text: &str) -> Result<Answer, AllocError> {
    if let Some(misuse) = misuse_of(task) {
        return of_misuse(alloc, &misuse);
    }
    let file = task.files.get(0).copied();
    answer_rewriting(alloc, task, "", named(file, text))
}

fn answer_task(alloc: Global, task: &Task<'_>, row: &Row) -> Result<Answer, AllocError> {
    let text = row.text.as_str();
    let other = row.other.as_str();
    match task {
        Task::Rewrite(task) => rewrite(alloc, task, text),
        Task::Judge(task) => answer_judging(
            alloc,
            task,
            named(Some(task.before), text),
            named(Some(task.after), other),
        ),
        Task::Look(view, task) => {
            answer_looking(alloc, *view, task.goal, named(task.file, text))
        }
        Task::ResolveGiven(task, giving) => answer_given(alloc, giving, named(task.file, text)),
    }
}

// What a command line is refused with, or `--help` and `--version` print.
fn of_clap(alloc: Global, error: &Error) -> Result<Answer, AllocError> {
    let said = error.to_string(alloc)?.into_bytes();
    if error.use_stderr() {
        return Ok(Answer {
            out: Vec::new(alloc),
            map: Vec::new(alloc),
            told: said,
            status: 2,
        });
    }
    Ok(Answer {
        out: said,
        map: Vec::new(alloc),
        told: Vec::new(alloc),
        status: 0,
    })
}

/// What is answered to a row.
pub(crate) fn answer(alloc: Global, row: &Row) -> Result<Answer, AllocError> {
    match read_words(alloc, row.words.as_slice()) {
        Ok(task) => answer_task(alloc, &task, row),
        Err(error) => of_clap(alloc, &error),
    }
}
