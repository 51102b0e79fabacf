//! Works that may be refused memory, each with all that it needs.
use crate::library::finished::{Task, run, task_of};
use crate::library::helpers::{named, names};
use crate::library::injection::{
    body_of, helpers, helpers_of_package, name_of, pass_of, program_of, statements, throw,
};
use gate_rows::{Given, Notes, Work, room};
use jsbase_writer::write;
use std::alloc::Global;
use std::fmt::Write;
use swc_base_tables::{Helper, HelperBodies, Helpers, InjectHelpers, helper};
use swc_tree::{DUMMY_SP, Globals, Opened, PassError, Tree, Trees, class};
use swc_tree_node::{Class, Kind, Node};

/// Helpers that are made on an empty table, and enabled one.
#[derive(Drop)]
pub struct Made {
    globals: Globals,
    external: bool,
    helper: Helper,
    made: Option<Helpers>,
}

impl Made {
    /// The work of a row of helpers.
    pub fn of_row(alloc: Global, words: &str, input: &str) -> Option<Made> {
        let external = match words {
            "helpers written out" => false,
            "helpers of a package" => true,
            _ => return None,
        };
        Some(Made {
            globals: Globals::new(alloc),
            external,
            helper: named(input)?,
            made: None,
        })
    }

    // The helpers, or why they are refused.
    fn make(&mut self) -> Result<(), PassError> {
        match Helpers::new(&mut self.globals, self.external) {
            Ok(mut helpers) => {
                helpers.enable(self.helper);
                self.made = Some(helpers);
                Ok(())
            }
            Err(error) => Err(PassError::from_fresh(error)),
        }
    }

    // The names of those that the helpers have.
    fn names(&self, alloc: Global) -> Option<String> {
        names(alloc, self.made.as_ref()?)
    }
}

impl Work for Made {
    fn run(&mut self, _alloc: Global) -> Option<Result<(), PassError>> {
        Some(self.make())
    }

    fn is_kept(&mut self, _alloc: Global) -> Option<bool> {
        Some(self.globals.table().is_empty() && self.made.is_none())
    }

    fn is_ample(self, alloc: Global, _answer: Result<(), PassError>, wanted: &str) -> Option<bool> {
        Some(self.names(alloc)?.as_str() == wanted)
    }
}

/// The helper `throw`, named as an expression, and of helpers of their own as what is called. The names are kept closed,
/// and beside them whether they were given.
#[derive(Drop)]
pub struct Named {
    second: u32,
    helper: Helper,
    helpers: Helpers,
    others: Helpers,
    is_named: bool,
    is_called: bool,
    expr: Option<Node>,
    called: Option<Node>,
}

impl Named {
    /// The work of the row of names.
    pub fn of_row(alloc: Global, words: &str) -> Option<Named> {
        if words != "helper names" {
            return None;
        }
        let helper = throw()?;
        let (second, helpers) = helpers_of_package(alloc)?;
        let others = Helpers::from_data(helpers.data());
        Some(Named {
            second,
            helper,
            helpers,
            others,
            is_named: false,
            is_called: false,
            expr: None,
            called: None,
        })
    }

    // The name as an expression.
    fn name_expr(&mut self, alloc: Global) -> Result<(), PassError> {
        let name = name_of(alloc, &mut self.helpers, self.helper)?;
        self.is_named = true;
        let expr = Tree::<class::Expr>::from_identifier(alloc, Kind::Ident, name)?;
        self.expr = Some(expr.into_node());
        Ok(())
    }

    // The name as what is called.
    fn name_callee(&mut self, alloc: Global) -> Result<(), PassError> {
        let called = helper(alloc, &mut self.others, DUMMY_SP, self.helper)?;
        self.is_called = true;
        self.called = Some(called.into_node(alloc)?);
        Ok(())
    }

    // Both names.
    fn name(&mut self, alloc: Global) -> Result<(), PassError> {
        self.name_expr(alloc)?;
        self.name_callee(alloc)
    }

    // What is said of both.
    fn said(&self, alloc: Global) -> Option<String> {
        let expr = write(alloc, self.expr.as_ref()?).ok()?;
        let called = write(alloc, self.called.as_ref()?).ok()?;
        let is_enabled = self.helpers.is_enabled(self.helper)
            && self.others.is_enabled(self.helper);
        let (second, mark) = (self.second, self.helpers.mark().as_u32());
        format!(in alloc; "{second} {mark} {expr} {called} {is_enabled}").ok()
    }
}

impl Work for Named {
    fn run(&mut self, alloc: Global) -> Option<Result<(), PassError>> {
        Some(self.name(alloc))
    }

    // Each name enables its helper, and where it is refused, does not.
    fn is_kept(&mut self, _alloc: Global) -> Option<bool> {
        let is_first_kept = self.helpers.is_enabled(self.helper) == self.is_named;
        let is_second_kept = self.others.is_enabled(self.helper) == self.is_called;
        Some(is_first_kept && is_second_kept)
    }

    fn is_ample(self, alloc: Global, _answer: Result<(), PassError>, wanted: &str) -> Option<bool> {
        Some(self.said(alloc)?.as_str() == wanted)
    }
}

/// The body of `throw`, given to helpers that have none.
#[derive(Drop)]
pub struct Inserted {
    helpers: Helpers,
    bodies: HelperBodies,
    body: Option<Trees<class::Stmt>>,
}

impl Inserted {
    /// The work of a row of helpers that are written out.
    pub fn of_row(alloc: Global, input: &str) -> Option<Inserted> {
        let helpers = helpers(alloc, false)?;
        let body = statements(alloc, body_of(input)?)?;
        Some(Inserted {
            helpers,
            bodies: HelperBodies::new(alloc),
            body: Some(body),
        })
    }
}

impl Work for Inserted {
    fn run(&mut self, _alloc: Global) -> Option<Result<(), PassError>> {
        let (helper, body) = (throw()?, self.body.take()?);
        Some(match self.bodies.insert(helper, body) {
            Ok(()) => Ok(()),
            Err(error) => Err(PassError::from(error)),
        })
    }

    fn is_kept(&mut self, _alloc: Global) -> Option<bool> {
        Some(!self.bodies.covers(&self.helpers))
    }

    fn is_ample(
        self,
        _alloc: Global,
        _answer: Result<(), PassError>,
        _wanted: &str,
    ) -> Option<bool> {
        Some(self.bodies.covers(&self.helpers))
    }
}

/// Helpers that are brought into a program.
#[derive(Drop)]
pub struct Injected {
    class: Class,
    text: String,
    pass: InjectHelpers,
    given: Given,
}

impl Injected {
    /// The work of a row of helpers in programs.
    pub fn of_row(alloc: Global, words: &str, input: &str) -> Option<Injected> {
        let (external, class) = match words {
            "helper of a package in a module" => (true, Class::Module),
            "helper of a package in a script" => (true, Class::Script),
            "helper written out in a module" => (false, Class::Module),
            "helper written out in a script" => (false, Class::Script),
            _ => return None,
        };
        let text = String::from_str(alloc, program_of(input)).ok()?;
        let given = Given::read(alloc, class, text.as_str()).ok()?;
        let settings = given.settings;
        let pass = pass_of(alloc, settings.unresolved, external, input)?;
        Some(Injected {
            class,
            text,
            pass,
            given,
        })
    }

    // A further program.
    fn further(&self, alloc: Global) -> Option<Given> {
        Given::read(alloc, self.class, self.text.as_str()).ok()
    }

    // What the pass leaves of it.
    fn left_by_pass(&mut self, alloc: Global) -> Option<String> {
        let mut further = self.further(alloc)?;
        let answer = further.visit(alloc, &mut self.pass);
        further.left(alloc, answer).ok()
    }

    // Whether the pass changes no further program.
    fn is_used_up(&mut self, alloc: Global) -> Option<bool> {
        let left = self.left_by_pass(alloc)?;
        Some(left == self.further(alloc)?.left(alloc, Ok(())).ok()?)
    }
}

impl Work for Injected {
    fn run(&mut self, alloc: Global) -> Option<Result<(), PassError>> {
        Some(self.given.visit(alloc, &mut self.pass))
    }

    fn is_kept(&mut self, alloc: Global) -> Option<bool> {
        Some(self.given.is_emptied() && self.is_used_up(alloc)?)
    }

    fn is_ample(self, alloc: Global, answer: Result<(), PassError>, wanted: &str) -> Option<bool> {
        Some(self.given.left(alloc, answer).ok()?.as_str() == wanted)
    }
}

/// Passes that are run one after another on a program, with comments, if there are any.
#[derive(Drop)]
pub struct Finished {
    task: Task,
    comments: Option<Notes>,
    given: Given,
}

impl Finished {
    /// The work of a row of such passes.
    pub fn of_row(alloc: Global, words: &str, input: &str) -> Option<Finished> {
        let (words, is_commented) = match words.strip_prefix("commented ") {
            Some(words) => (words, true),
            None => (words, false),
        };
        let (task, class) = task_of(words)?;
        let given = Given::read(alloc, class, input).ok()?;
        let comments = if is_commented {
            Some(Notes::new(alloc, room(alloc, input)?))
        } else {
            None
        };
        Some(Finished {
            task,
            comments,
            given,
        })
    }
}

impl Work for Finished {
    fn run(&mut self, alloc: Global) -> Option<Result<(), PassError>> {
        run(alloc, self.task, self.comments.as_mut(), &mut self.given)
    }

    // The resolver alone makes marks.
    fn is_kept(&mut self, _alloc: Global) -> Option<bool> {
        let has_its_marks = match self.task {
            Task::Chain | Task::Mangle => true,
            Task::Finish => self.given.has_no_new_mark(),
        };
        Some(self.given.is_emptied() && has_its_marks)
    }

    fn is_ample(self, alloc: Global, answer: Result<(), PassError>, wanted: &str) -> Option<bool> {
        let left = self.given.left(alloc, answer).ok()?;
        match self.comments {
            Some(notes) => Some(notes.before(alloc, left.as_str()).ok()?.as_str() == wanted),
            None => Some(left.as_str() == wanted),
        }
    }
}
