//! Calls that no program and no tree leads to, and whether they answer as they must.
use jsbase_engine::{Command, Fault, Kind, ServeFault, report, run};
use jsbase_reader::{ReadError, read_bytes};
use jsbase_stream::InputFault;
use std::alloc::Global;
use std::fmt::Write;
use swc_base_resolver::scope::{DeclKind, ScopeKind};
use swc_tree::{
    EsVersion, Globals, Items, Mark, MarkError, NoMemory, PassError, Text, VarDeclKind,
};
use swc_tree_node::Class;

// A list that was changed in each way is as it must be.
fn changes(alloc: Global) -> Option<bool> {
    let mut list = Items::from_slice(alloc, &[3, 1, 4, 1, 5]).ok()?;
    let removed = list.remove(1);
    list.set(0, 2);
    list.reverse();
    let is_changed = removed == 1 && list.as_slice() == [5, 1, 4, 2].as_slice();
    list.clear();
    Some(is_changed && list.is_empty() && list.get(0).is_none())
}

// A text made of a string and given back as one.
fn gives_one_back(alloc: Global, text: &str) -> Option<bool> {
    let copy = Text::new(alloc, text).ok()?.clone().ok()?;
    let made = Text::from_string(alloc, String::from_str(alloc, text).ok()?).ok()?;
    let is_same = made == copy && copy.as_str() == text;
    Some(is_same && made.into_string(alloc).ok()?.as_str() == text)
}

// Texts about as long as those that take no memory.
fn gives_back(alloc: Global) -> Option<bool> {
    let mut text = String::new(alloc);
    for _ in 0..50 {
        if !gives_one_back(alloc, text.as_str())? {
            return Some(false);
        }
        text.push_str("\u{e9}").ok()?;
        if !gives_one_back(alloc, text.as_str())? {
            return Some(false);
        }
        text.push_str("a").ok()?;
    }
    Some(Text::empty().as_str().is_empty())
}

// The first characters of names of 32 that the library's hash can't tell apart, whatever the last eight
// (`tools/shapes.py` says why).
const COLLIDING: &str = "GTRUmMvIgEGsoszMKsqImMGL";

fn add_names(text: &mut String, end: u32, before: &str, after: &str) -> Option<()> {
    for i in 10_000_000..end {
        if i > 10_000_000 {
            text.push_str(",").ok()?;
        }
        write!(text, "{before}{COLLIDING}{i}{after}").ok()?;
    }
    Some(())
}

// A script that declares such names, with numbers below the end, and refers to each.
fn script_of_colliding_names(alloc: Global, end: u32) -> Option<String> {
    let mut text = String::new(alloc);
    text.push_str(
        r#"{"marks":[[1,0],[2,0]],"unresolved":1,"top":2,"tree":{"type":"Script","span":[0,0],"body":["#,
    ).ok()?;
    text.push_str(r#"{"type":"VarDecl","span":[0,0],"kind":"var","decls":["#)
        .ok()?;
    let declarator =
        r#"{"type":"VarDeclarator","span":[0,0],"name":{"type":"BindingIdent","span":[0,0],"ctxt":[],"sym":""#;
    add_names(&mut text, end, declarator, r#""}}"#)?;
    text.push_str("]},").ok()?;
    let statement =
        r#"{"type":"ExprStmt","span":[0,0],"expr":{"type":"Ident","span":[0,0],"ctxt":[],"sym":""#;
    add_names(&mut text, end, statement, r#""}}"#)?;
    text.push_str("]}}").ok()?;
    Some(text)
}

fn takes_colliding_names(alloc: Global, command: Command, end: u32) -> Option<bool> {
    let script = script_of_colliding_names(alloc, end)?;
    let taken = run(alloc, command, Kind::Script, script.as_bytes());
    Some(taken.is_ok())
}

// Marks of known parents, of the root and of one that is not known.
fn makes_marks(alloc: Global) -> Option<bool> {
    let mut globals = Globals::new(alloc);
    Mark::new(&mut globals).ok()?;
    for parent in [1, 7] {
        Mark::fresh(&mut globals, Mark::from_u32(parent)).ok()?;
    }
    Some(globals.table() == [(1, 0), (2, 1), (3, 0)].as_slice())
}

// A program of a goal, in an envelope with so many lists in one another under another key.
fn nested(alloc: Global, goal: &str, lists: u32) -> Option<String> {
    let mut text = String::new(alloc);
    text.push_str(r#"{"marks":[[1,0],[2,0]],"unresolved":1,"top":2,"other":"#)
        .ok()?;
    for _ in 0..lists {
        text.push_str("[").ok()?;
    }
    for _ in 0..lists {
        text.push_str("]").ok()?;
    }
    write!(
        text,
        r#","tree":{{"type":"{goal}","span":[0,0],"body":[]}}}}"#
    )
    .ok()?;
    Some(text)
}

const COMMANDS: [Command; 6] = [
    Command::Resolve,
    Command::Hygiene,
    Command::Unparen,
    Command::Fix,
    Command::Chain,
    Command::Mangle,
];

// Whether a command takes text of 127 levels, and finds that one of 128 is no tree.
fn counts_levels(alloc: Global, command: Command, kind: Kind, goal: &str) -> Option<bool> {
    let taken = nested(alloc, goal, 126)?;
    let refused = nested(alloc, goal, 127)?;
    let is_taken = run(alloc, command, kind, taken.as_bytes()).is_ok();
    let is_refused = matches!(
        &run(alloc, command, kind, refused.as_bytes()),
        Err(Fault::NotATree(path)) if path.as_str() == "$"
    );
    Some(is_taken && is_refused)
}

// Whether each command does.
fn levels_are_counted(alloc: Global) -> Option<bool> {
    let mut are_counted = true;
    for command in COMMANDS {
        for (kind, goal) in [(Kind::Module, "Module"), (Kind::Script, "Script")] {
            are_counted = counts_levels(alloc, command, kind, goal)? && are_counted;
        }
    }
    Some(are_counted)
}

// The line and the status of each fault that no row leads to.
fn fault_lines(alloc: Global) -> Option<String> {
    let mut text = String::new(alloc);
    for fault in [ServeFault::Read, ServeFault::Write(3), ServeFault::NoMemory] {
        let mut line = Vec::new(alloc);
        let status = report(&fault, &mut line);
        let line = String::from_utf8(line).ok()?;
        write!(text, "{status} {}, ", line.strip_suffix("\n")?).ok()?;
    }
    Some(text)
}

// Texts that are no program: one is no JSON, and in one a statement is no tree.
const FAULTY: [&str; 2] = [
    "{",
    r#"{"marks":[[1,0],[2,0]],"unresolved":1,"top":2,"tree":{"type":"Module","span":[0,0],"shebang":null,"body":[1]}}"#,
];

fn add_read_error(alloc: Global, faulty: &str, text: &mut String) -> Option<()> {
    let error = read_bytes(alloc, Class::Module, faulty.as_bytes()).err()?;
    write!(text, "{error}, ").ok()
}

fn add_run_fault(alloc: Global, faulty: &str, text: &mut String) -> Option<()> {
    let fault = run(alloc, Command::Resolve, Kind::Module, faulty.as_bytes()).err()?;
    write!(text, "{fault}, ").ok()
}

// What displays why an input, a tree or a program was not taken.
fn displays(alloc: Global) -> Option<String> {
    let mut text = String::new(alloc);
    for fault in [InputFault::Read, InputFault::NoMemory] {
        write!(text, "{fault}, ").ok()?;
    }
    for fault in [ServeFault::Read, ServeFault::Write(3), ServeFault::NoMemory] {
        write!(text, "{fault}, ").ok()?;
    }
    for faulty in FAULTY {
        add_read_error(alloc, faulty, &mut text)?;
        add_run_fault(alloc, faulty, &mut text)?;
    }
    write!(text, "{}", ReadError::NoMemory).ok()?;
    Some(text)
}

const ANCESTORS: [(u32, u32, bool); 13] = [
    (5, 5, true),
    (5, 2, true),
    (5, 1, true),
    (5, 0, true),
    (5, 3, false),
    (1, 2, false),
    (3, 1, false),
    (0, 0, true),
    (0, 1, false),
    (4, 4, true),
    (4, 0, true),
    (4, 1, false),
    (5, 4, false),
];

fn finds_ancestors(alloc: Global) -> Option<bool> {
    let globals = Globals::from_table(alloc, &[(1, 0), (2, 1), (3, 0), (5, 2)]).ok()?;
    let mut are_found = true;
    for (mark, ancestor, under) in ANCESTORS {
        let (mark, ancestor) = (Mark::from_u32(mark), Mark::from_u32(ancestor));
        are_found = are_found && mark.is_descendant_of(&globals, ancestor) == under;
    }
    Some(are_found)
}

const PASS_ERRORS: [PassError; 5] = [
    PassError::NoMemory,
    PassError::MarksSpent,
    PassError::CounterSpent,
    PassError::NotAssignable,
    PassError::TypesLeft,
];

const MARK_ERRORS: [MarkError; 3] = [
    MarkError::NoMemory,
    MarkError::MarksSpent,
    MarkError::BadTable(3),
];

// The texts of errors, and the names of those of passes.
fn errors(alloc: Global) -> Option<String> {
    let mut text = String::new(alloc);
    for error in PASS_ERRORS {
        write!(text, "{} {error}, ", error.name()).ok()?;
    }
    for error in MARK_ERRORS {
        write!(text, "{error}, ").ok()?;
    }
    write!(text, "{NoMemory}").ok()?;
    Some(text)
}

fn converts() -> bool {
    PassError::from(NoMemory) == PassError::NoMemory
        && MarkError::from(NoMemory) == MarkError::NoMemory
        && DeclKind::from(VarDeclKind::Var) == DeclKind::Var
        && DeclKind::from(VarDeclKind::Let) == DeclKind::Lexical
        && DeclKind::from(VarDeclKind::Const) == DeclKind::Lexical
        && ScopeKind::default() == ScopeKind::Fn
}

fn versions_rise() -> bool {
    EsVersion::Es5 < EsVersion::Es2015 && EsVersion::Es2022 < EsVersion::EsNext
}

fn holds(alloc: Global, word: &str) -> Option<bool> {
    match word {
        "ancestors are found" => finds_ancestors(alloc),
        "levels of JSON are counted" => levels_are_counted(alloc),
        "lists change" => changes(alloc),
        "colliding names are resolved" => takes_colliding_names(
            alloc,
            Command::Resolve,
            10_002_000,
        ),
        // Were it quadratic, so many would take the program past the time that it has.
        "colliding names are renamed" => takes_colliding_names(alloc, Command::Hygiene, 10_060_000),
        "marks are made" => makes_marks(alloc),
        "words become kinds" => Some(converts()),
        "texts are given back" => gives_back(alloc),
        "versions rise" => Some(versions_rise()),
        _ => gate_renamers::holds(alloc, word),
    }
}

/// What is answered to a row of no input.
pub fn answer(alloc: Global, word: &str) -> Option<String> {
    match word {
        "displays" => return displays(alloc),
        "errors" => return errors(alloc),
        "faults" => return fault_lines(alloc),
        _ => {}
    }
    let holds = holds(alloc, word)?;
    format!(in alloc; "{holds}").ok()
}
