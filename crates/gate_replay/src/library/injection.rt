//! Rows of helpers that are brought into programs. The input is an envelope, and behind a tab, where helpers are written out, the
//! envelope of a script that is the body of the helper `throw`. The helper mark is 7, and the global mark is the unresolved one.
//! Where the helper is refused, what is left stands behind the name of the refusal.
use crate::library::finished::{Task, run};
use gate_rows::{Given, Program};
use jsbase_writer::write;
use std::alloc::Global;
use swc_base_rename::hygiene;
use swc_base_tables::{
    Helper, HelperBodies, Helpers, InjectHelpers, helper, helper_expr, inject_helpers,
};
use swc_tree::{DUMMY_SP, Expr, Globals, Ident, Mark, NoMemory, Opened, Tree, Trees, class};
use swc_tree_node::{Class, Kind};

/// Helpers with the mark 7, `throw` among them.
pub fn helpers(alloc: Global, external: bool) -> Option<Helpers> {
    let mut globals = Globals::from_table(alloc, &[(6, 0)]).ok()?;
    let mut helpers = Helpers::new(&mut globals, external).ok()?;
    helpers.enable(throw()?);
    Some(helpers)
}

/// The helper `throw`.
pub fn throw() -> Option<Helper> {
    for helper in Helper::all() {
        if helper.name() == "throw" {
            return Some(helper);
        }
    }
    None
}

/// The statements of the script that an envelope holds.
pub fn statements(alloc: Global, text: &str) -> Option<Trees<class::Stmt>> {
    let Given { program, .. } = Given::read(alloc, Class::Script, text).ok()?;
    let Program::Script(script) = program else {
        return None;
    };
    Some(script.body)
}

// The bodies that an input gives.
fn bodies(alloc: Global, text: Option<&str>) -> Option<HelperBodies> {
    let mut bodies = HelperBodies::new(alloc);
    if let Some(text) = text {
        bodies.insert(throw()?, statements(alloc, text)?).ok()?;
    }
    Some(bodies)
}

/// The envelope of the program of an input.
pub fn program_of(input: &str) -> &str {
    match input.split_once('\t') {
        Some((program, _)) => program,
        None => input,
    }
}

/// The envelope of the body of an input, if it gives one.
pub fn body_of(input: &str) -> Option<&str> {
    match input.split_once('\t') {
        Some((_, body)) => Some(body),
        None => None,
    }
}

/// The pass that brings `throw` into a program, if it has a body where it is written out.
pub fn pass_of(alloc: Global, global: Mark, external: bool, input: &str) -> Option<InjectHelpers> {
    if global == Mark::root() {
        return None;
    }
    let helpers = helpers(alloc, external)?;
    let bodies = bodies(alloc, body_of(input))?;
    if !helpers.external() && !bodies.covers(&helpers) {
        return None;
    }
    Some(inject_helpers(global, &helpers, bodies))
}

// What is run on a program once its helpers are in it.
#[derive(Clone, Copy)]
enum Then {
    Nothing,
    Hygiene,
    InjectionAgain,
    Finishing,
}

// Runs on a program what is run once its helpers are in it.
fn follow(alloc: Global, then: Then, pass: &mut InjectHelpers, given: &mut Given) -> Option<()> {
    match then {
        Then::Nothing => Some(()),
        Then::Hygiene => given.visit(alloc, &mut hygiene()).ok(),
        Then::InjectionAgain => given.visit(alloc, pass).ok(),
        Then::Finishing => run(alloc, Task::Finish, None, given)?.ok(),
    }
}

// What is left of a program that helpers are brought into.
fn left_by(
    alloc: Global,
    then: Then,
    pass: &mut InjectHelpers,
    mut given: Given,
) -> Option<String> {
    let answer = given.visit(alloc, pass);
    if answer.is_ok() {
        follow(alloc, then, pass, &mut given)?;
    }
    given.left(alloc, answer).ok()
}

// What is left of the program of an input, with the helper in it.
fn injected(
    alloc: Global,
    class: Class,
    external: bool,
    then: Then,
    input: &str,
) -> Option<String> {
    let given = Given::read(alloc, class, program_of(input)).ok()?;
    let settings = given.settings;
    let mut pass = pass_of(alloc, settings.unresolved, external, input)?;
    left_by(alloc, then, &mut pass, given)
}

/// The name of a helper, as the expression has it by which a program calls the helper.
pub fn name_of(alloc: Global, helpers: &mut Helpers, helper: Helper) -> Result<Ident, NoMemory> {
    match helper_expr(alloc, helpers, DUMMY_SP, helper)? {
        Expr::Ident(name) => Ok(name),
        _ => unreachable!(),
    }
}

/// Helpers of a package on a table with the one mark 1, and the mark made before theirs.
pub fn helpers_of_package(alloc: Global) -> Option<(u32, Helpers)> {
    let mut globals = Globals::from_table(alloc, &[(1, 0)]).ok()?;
    let second = Mark::new(&mut globals).ok()?.as_u32();
    let helpers = Helpers::new(&mut globals, true).ok()?;
    Some((second, helpers))
}

// What is written of a helper's name as an expression.
fn name_written(alloc: Global, helpers: &mut Helpers, named: Helper) -> Option<String> {
    let name = name_of(alloc, helpers, named).ok()?;
    let expr = Tree::<class::Expr>::from_identifier(alloc, Kind::Ident, name).ok()?;
    write(alloc, expr.node()).ok()
}

// What is written of it as what is called.
fn callee_written(alloc: Global, helpers: &mut Helpers, named: Helper) -> Option<String> {
    let called = helper(alloc, helpers, DUMMY_SP, named).ok()?;
    let node = called.into_node(alloc).ok()?;
    write(alloc, &node).ok()
}

// The name of `throw` as an expression and as what is called, and whether it is enabled then, on a table with the one mark 1.
fn names(alloc: Global) -> Option<String> {
    let (second, mut helpers) = helpers_of_package(alloc)?;
    let named = throw()?;
    let expr = name_written(alloc, &mut helpers, named)?;
    let called = callee_written(alloc, &mut helpers, named)?;
    let (is_enabled, mark) = (helpers.is_enabled(named), helpers.mark().as_u32());
    format!(in alloc; "{second} {mark} {expr} {called} {is_enabled}").ok()
}

/// What is answered to words about helpers in programs.
pub fn answer(alloc: Global, words: &str, input: &str) -> Option<String> {
    match words {
        "helper names" => names(alloc),
        "helper of a package in a module" => {
            injected(alloc, Class::Module, true, Then::Nothing, input)
        }
        "helper of a package in a script" => {
            injected(alloc, Class::Script, true, Then::Nothing, input)
        }
        "helper written out in a module" => {
            injected(alloc, Class::Module, false, Then::Nothing, input)
        }
        "helper written out in a script" => {
            injected(alloc, Class::Script, false, Then::Nothing, input)
        }
        "helper written out, then hygiene" => {
            injected(alloc, Class::Module, false, Then::Hygiene, input)
        }
        "helper of a package, then finish" => {
            injected(alloc, Class::Module, true, Then::Finishing, input)
        }
        "helper written out, then finish" => {
            injected(alloc, Class::Module, false, Then::Finishing, input)
        }
        "helper written out, then injection again" => {
            injected(alloc, Class::Module, false, Then::InjectionAgain, input)
        }
        _ => None,
    }
}
