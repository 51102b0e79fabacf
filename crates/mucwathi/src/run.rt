//! Tasks done.
use crate::files::{
    Taken, Unwritten, read, tell, write_into, write_out, write_untaken, write_whole,
};
use mucwathi_answers::{
    Answer, Named, answer_given, answer_judging, answer_looking, answer_rewriting,
};
use mucwathi_arguments::{Giving, Judging, Looking, Rewriting, Target, Task, View, misuse_of};
use std::alloc::{AllocError, Global};
use std::io::{self, IsTerminal};

pub(crate) const USAGE: u8 = 2;

pub(crate) const NOT_READ: u8 = 4;

pub(crate) const REFUSED: u8 = 5;

// The file that a word names, if it is not `-`, which means standard input.
fn file_of(word: &str) -> Option<&str> {
    if word == "-" { None } else { Some(word) }
}

// What is read where no file is named or one.
fn input_of(file: Option<&str>) -> Option<&str> {
    match file {
        Some(word) => file_of(word),
        None => None,
    }
}

// What a file is called in what is told.
fn name_of(file: Option<&str>) -> &str {
    file.unwrap_or("<stdin>")
}

const READ_TWICE: &str = "standard input can be read once";

// Tells why words ask for what can't be done.
fn tell_misuse(rt: &HostRuntime, why: &str) -> u8 {
    let _ = eprintln!(rt; "mucwathi: {why}");
    USAGE
}

fn tell_failure(rt: &HostRuntime, name: &str, what: &str, error: &io::Error) -> u8 {
    let _ = eprintln!(rt; "{name}: {what}: {error}");
    NOT_READ
}

fn tell_no_memory(rt: &HostRuntime, name: &str) -> u8 {
    let _ = eprintln!(rt; "{name}: refused: no memory");
    REFUSED
}

// The text of a file, or the status to end with where it is not read, which is told.
fn read_told(rt: &HostRuntime, file: Option<&str>) -> Result<Vec<u8>, u8> {
    match read(rt, file) {
        Ok(text) => Ok(text),
        Err(error) => Err(tell_failure(rt, name_of(file), "not read", &error)),
    }
}

// Tells what is told, and writes what is written to standard output.
fn give(rt: &HostRuntime, name: &str, answer: Result<Answer, AllocError>) -> u8 {
    let Ok(answer) = answer else {
        return tell_no_memory(rt, name);
    };
    tell(rt, answer.told.as_slice());
    match write_out(rt, answer.out.as_slice()) {
        Ok(()) => answer.status,
        Err(error) => tell_failure(rt, "standard output", "not written", &error),
    }
}

fn put_out(rt: &HostRuntime, out: &[u8]) -> Result<(), Unwritten> {
    write_out(rt, out)?;
    Ok(())
}

// Writes an answer that is not told where it goes.
fn put(
    rt: &HostRuntime,
    taken: &mut Taken,
    target: Target<'_>,
    file: Option<&str>,
    out: &[u8],
) -> Result<(), Unwritten> {
    let Some(path) = file else {
        return put_out(rt, out);
    };
    match target {
        Target::Output => put_out(rt, out),
        Target::Place => write_whole(rt, path, out),
        Target::Folder(folder) => write_into(rt, taken, folder, path, out),
    }
}

// What the place of an answer is called, where it is not written.
fn place_of<'a>(target: Target<'a>, name: &'a str) -> &'a str {
    match target {
        Target::Folder(folder) => folder,
        Target::Output => "standard output",
        Target::Place => name,
    }
}

// Tells that a place is not written to, or the file that stands in the way.
fn tell_unwritten(rt: &HostRuntime, place: &str, fault: &Unwritten) -> u8 {
    let name = match &fault.stands {
        Some(path) => path.as_str(),
        None => place,
    };
    tell_failure(rt, name, "not written", &fault.error)
}

// Writes the map that goes with an answer.
fn put_map(rt: &HostRuntime, taken: &mut Taken, path: &str, map: &[u8]) -> u8 {
    match write_untaken(rt, taken, path, map) {
        Ok(()) => 0,
        Err(fault) => tell_unwritten(rt, path, &fault),
    }
}

// Tells what is told of an answer, and writes what is written where it goes.
fn put_answer(
    rt: &HostRuntime,
    taken: &mut Taken,
    task: &Rewriting<'_>,
    file: Option<&str>,
    answer: &Answer,
) -> u8 {
    tell(rt, answer.told.as_slice());
    if answer.status != 0 {
        return answer.status;
    }
    if let Err(fault) = put(rt, taken, task.target, file, answer.out.as_slice()) {
        return tell_unwritten(rt, place_of(task.target, name_of(file)), &fault);
    }
    match task.map {
        Some(path) => put_map(rt, taken, path, answer.map.as_slice()),
        None => 0,
    }
}

fn rewrite_text(
    rt: &HostRuntime,
    taken: &mut Taken,
    task: &Rewriting<'_>,
    prefix: &str,
    file: Option<&str>,
    text: &[u8],
) -> u8 {
    let name = name_of(file);
    let of = Named { name, text };
    let answer = answer_rewriting(rt.alloc(), task, prefix, of);
    if task.lists || task.explains {
        return give(rt, name, answer);
    }
    match answer {
        Ok(answer) => put_answer(rt, taken, task, file, &answer),
        Err(_) => tell_no_memory(rt, name),
    }
}

fn rewrite_one(
    rt: &HostRuntime,
    taken: &mut Taken,
    task: &Rewriting<'_>,
    prefix: &str,
    file: Option<&str>,
) -> u8 {
    match read_told(rt, file) {
        Ok(text) => rewrite_text(rt, taken, task, prefix, file, text.as_slice()),
        Err(status) => status,
    }
}

// What each line of a list begins with, where there are several files.
fn prefix_for(alloc: Global, count: usize, file: &str) -> Result<String, AllocError> {
    if count < 2 {
        return Ok(String::new(alloc));
    }
    format!(in alloc; "{file}:")
}

// How far it is, where several files are worked on and somebody looks on.
fn tell_progress(rt: &HostRuntime, done: usize, count: usize, file: &str) {
    if count > 1 && rt.stderr().is_terminal() {
        let _ = eprintln!(rt; "{done} of {count}: {file}");
    }
}

fn rewrite_each(rt: &HostRuntime, taken: &mut Taken, task: &Rewriting<'_>) -> u8 {
    let mut status = 0;
    let mut number: usize = 0;
    for file in task.files.iter() {
        number = number.saturating_add(1);
        let file = file_of(*file);
        tell_progress(rt, number, task.files.len(), name_of(file));
        let done = match prefix_for(rt.alloc(), task.files.len(), name_of(file)) {
            Ok(prefix) => rewrite_one(rt, taken, task, prefix.as_str(), file),
            Err(_) => tell_no_memory(rt, name_of(file)),
        };
        if status < done {
            status = done;
        }
    }
    status
}

// How often standard input is named.
fn count_inputs(files: &[&str]) -> usize {
    let mut count: usize = 0;
    for file in files {
        if *file == "-" {
            count = count.saturating_add(1);
        }
    }
    count
}

// Why standard input can't be read as it is named, if it can't.
fn misnamed_input(task: &Rewriting<'_>) -> Option<&'static str> {
    match (count_inputs(task.files.as_slice()), task.target) {
        (0, _) | (1, Target::Output) => None,
        (_, Target::Output) => Some(READ_TWICE),
        _ => Some("--in-place and --out want files"),
    }
}

fn rewrite(rt: &HostRuntime, task: &Rewriting<'_>) -> u8 {
    if let Some(misuse) = misuse_of(task) {
        let _ = eprintln!(rt; "mucwathi: {misuse}");
        return USAGE;
    }
    if let Some(why) = misnamed_input(task) {
        return tell_misuse(rt, why);
    }
    let Ok(mut taken) = Taken::of(rt, task.files.as_slice()) else {
        return tell_no_memory(rt, "mucwathi");
    };
    if task.files.is_empty() {
        return rewrite_one(rt, &mut taken, task, "", None);
    }
    rewrite_each(rt, &mut taken, task)
}

fn judge_texts(rt: &HostRuntime, task: &Judging<'_>, before: &[u8], after: &[u8]) -> u8 {
    let first = Named {
        name: name_of(file_of(task.before)),
        text: before,
    };
    let name = name_of(file_of(task.after));
    let second = Named { name, text: after };
    let answer = answer_judging(rt.alloc(), task, first, second);
    give(rt, name, answer)
}

fn judge(rt: &HostRuntime, task: &Judging<'_>) -> u8 {
    if task.before == "-" && task.after == "-" {
        return tell_misuse(rt, READ_TWICE);
    }
    let before = match read_told(rt, file_of(task.before)) {
        Ok(text) => text,
        Err(status) => return status,
    };
    match read_told(rt, file_of(task.after)) {
        Ok(after) => judge_texts(rt, task, before.as_slice(), after.as_slice()),
        Err(status) => status,
    }
}

fn look_at(rt: &HostRuntime, view: View, task: &Looking<'_>, text: &[u8]) -> u8 {
    let name = name_of(input_of(task.file));
    let of = Named { name, text };
    let answer = answer_looking(rt.alloc(), view, task.goal, of);
    give(rt, name, answer)
}

fn look(rt: &HostRuntime, view: View, task: &Looking<'_>) -> u8 {
    match read_told(rt, input_of(task.file)) {
        Ok(text) => look_at(rt, view, task, text.as_slice()),
        Err(status) => status,
    }
}

fn resolve_text(rt: &HostRuntime, file: Option<&str>, giving: &Giving, text: &[u8]) -> u8 {
    let name = name_of(file);
    let of = Named { name, text };
    let answer = answer_given(rt.alloc(), giving, of);
    give(rt, name, answer)
}

fn resolve_given(rt: &HostRuntime, file: Option<&str>, giving: &Giving) -> u8 {
    match read_told(rt, file) {
        Ok(text) => resolve_text(rt, file, giving, text.as_slice()),
        Err(status) => status,
    }
}

/// Does a task, and tells the status to end with.
pub(crate) fn run(rt: &HostRuntime, task: &Task<'_>) -> u8 {
    match task {
        Task::Rewrite(task) => rewrite(rt, task),
        Task::Judge(task) => judge(rt, task),
        Task::Look(view, task) => look(rt, *view, task),
        Task::ResolveGiven(task, giving) => resolve_given(rt, input_of(task.file), giving),
    }
}
