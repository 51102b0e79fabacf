//! Programs of either goal that were read, with what they came with.
ghost use Rattle.swc_tree_node.specs.declared.slot.Slot.TheVariants.{One};
ghost use Rattle.swc_tree_node.specs.declared.slot.Content.TheVariants.{Node as Of};
ghost use Rattle.swc_tree_node.specs.Fits.{Fits};

use anyhow::{Result, bail};
use jsbase_reader::read_bytes;
use jsbase_writer::write_envelope;
use std::alloc::{AllocError, Global};
use std::fmt::Write;
use swc_tree::{Globals, JsPass, Mark, Module, Opened, PassError, Script, Span};
use swc_tree_node::{Class, Node};

/// A program, opened.
#[derive(Drop)]
pub enum Program {
    Module(Module),
    Script(Script),
}

/// What a program came with beside its table of marks.
#[derive(Clone, Copy)]
pub struct Settings {
    pub top: Mark,
    pub unresolved: Mark,
    pub keep_class_names: bool,
    pub ignore_eval: bool,
}

/// A program that was read, with what it came with, and the span and the marks that it had then.
#[derive(Drop)]
pub struct Given {
    pub globals: Globals,
    pub settings: Settings,
    pub program: Program,
    span: Span,
    marks: Vec<(u32, u32)>,
}

impl Program {
    /// The program of a class that a tree is, if programs are of that class.
    pub fn open(class: Class, tree: Node) -> Option<Program>
        requires { Fits tree (One (Of class)) }
    {
        match class {
            Class::Module => Some(Program::Module(Module::from_node(tree))),
            Class::Script => Some(Program::Script(Script::from_node(tree))),
            _ => None,
        }
    }

    fn into_node(self, alloc: Global) -> Result<Node, AllocError> {
        match self {
            Program::Module(module) => module.into_node(alloc),
            Program::Script(script) => script.into_node(alloc),
        }
    }

    fn span(&self) -> Span {
        match self {
            Program::Module(module) => module.span,
            Program::Script(script) => script.span,
        }
    }

    // Whether the program has no items and no `#!` line.
    fn is_empty(&self) -> bool {
        match self {
            Program::Module(module) => module.body.is_empty() && module.shebang.is_none(),
            Program::Script(script) => script.body.is_empty() && script.shebang.is_none(),
        }
    }

    /// The items, as nodes.
    pub fn items(&self) -> &[Node] {
        match self {
            Program::Module(module) => module.body.as_slice(),
            Program::Script(script) => script.body.as_slice(),
        }
    }

    // Hands the program to a pass by value.
    fn fold<P: JsPass>(
        self,
        pass: &mut P,
        alloc: Global,
        globals: &mut Globals,
    ) -> Result<Program, PassError> {
        match self {
            Program::Module(module) => {
                Ok(Program::Module(pass.fold_module(alloc, globals, module)?))
            }
            Program::Script(script) => {
                Ok(Program::Script(pass.fold_script(alloc, globals, script)?))
            }
        }
    }
}

// The envelope of a program, without the line feed at its end.
fn envelope(
    alloc: Global,
    globals: &Globals,
    settings: Settings,
    program: Program,
) -> Result<String, AllocError> {
    let tree = program.into_node(alloc)?;
    let mut text = write_envelope(alloc, globals, settings.top, &tree, settings.unresolved)?;
    text.pop();
    Ok(text)
}

impl Given {
    /// The program of a class that a line is.
    ///
    /// # Errors
    ///
    /// Where the line is no envelope of such a program, or memory is refused.
    pub fn read(alloc: Global, class: Class, line: &str) -> Result<Given> {
        let Ok(envelope) = read_bytes(alloc, class, line.as_bytes()) else {
            bail!("a line is no envelope of such a program, or memory was refused");
        };
        let Some(program) = Program::open(class, envelope.tree) else {
            bail!("a program is a module or a script");
        };
        Ok(Given {
            settings: Settings {
                top: envelope.top,
                unresolved: envelope.unresolved,
                keep_class_names: envelope.keep_class_names,
                ignore_eval: envelope.ignore_eval,
            },
            span: program.span(),
            marks: Vec::from_slice(alloc, envelope.globals.table())?,
            globals: envelope.globals,
            program,
        })
    }

    /// Whether the program is empty, with the span that it had, and the table begins with the marks that it had.
    pub fn is_emptied(&self) -> bool {
        self.program.is_empty()
            && self.program.span() == self.span
            && self.globals.table().starts_with(self.marks.as_slice())
    }

    /// Whether the table has as many marks as it had.
    pub fn has_no_new_mark(&self) -> bool {
        self.globals.table().len() == self.marks.len()
    }

    /// Runs a pass on the program.
    ///
    /// # Errors
    ///
    /// Those of the pass.
    pub fn visit<P: JsPass>(&mut self, alloc: Global, pass: &mut P) -> Result<(), PassError> {
        match &mut self.program {
            Program::Module(module) => pass.visit_mut_module(alloc, &mut self.globals, module),
            Program::Script(script) => pass.visit_mut_script(alloc, &mut self.globals, script),
        }
    }

    /// What a pass that has the program by value makes of it.
    ///
    /// # Errors
    ///
    /// Where the pass is refused, or memory.
    pub fn folded<P: JsPass>(self, alloc: Global, pass: &mut P) -> Result<String> {
        let Given {
            mut globals,
            settings,
            program,
            ..
        } = self;
        match program.fold(pass, alloc, &mut globals) {
            Ok(program) => Ok(envelope(alloc, &globals, settings, program)?),
            Err(error) => bail!("refused: {}", error.name()),
        }
    }

    /// What is left of the program, behind the name of a refusal.
    ///
    /// # Errors
    ///
    /// `AllocError` where memory is refused.
    pub fn left(self, alloc: Global, answer: Result<(), PassError>) -> Result<String, AllocError> {
        let Given {
            globals,
            settings,
            program,
            ..
        } = self;
        let envelope = envelope(alloc, &globals, settings, program)?;
        match answer {
            Ok(()) => Ok(envelope),
            Err(error) => format!(in alloc; "refused: {}, {envelope}", error.name()),
        }
    }
}
