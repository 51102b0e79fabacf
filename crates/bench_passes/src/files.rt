//! Files that are made of the module on standard input.
use crate::bindings::Bound;
use crate::copies::copy_template;
use crate::random::Random;
use anyhow::{Result, bail};
use jsbase_reader::{Envelope, read_bytes};
use std::alloc::{AllocError, Global};
use std::collections::HashMap;
use swc_ecma_transforms_base::rename::rename;
use swc_tree::{Globals, Id, JsPass, JsWord, Mark, Module, Opened};
use swc_tree_items::Text;
use swc_tree_node::Class;

/// The module that files are made of, with the names that it binds.
///
/// In it a number stands for each of them, which no program has for a name, and what the names stood for beside is written out. So a
/// copy with other names takes one walk.
#[derive(Drop)]
struct Template {
    names: Vec<JsWord>,
    module: Module,
}

/// A template, its marks, and what names are called anew by.
#[derive(Drop)]
pub struct Source {
    pub globals: Globals,
    pub top: Mark,
    pub unresolved: Mark,
    random: Random,
    template: Template,
}

/// A module with its table of marks.
#[derive(Drop)]
pub struct File {
    pub globals: Globals,
    pub module: Module,
}

// The texts of ids.
fn texts_of(alloc: Global, ids: &[Id]) -> Result<Vec<JsWord>, AllocError> {
    let mut texts = Vec::new(alloc);
    for id in ids {
        texts.push(id.0.clone()?)?;
    }
    Ok(texts)
}

fn number_text(alloc: Global, number: usize) -> Result<JsWord, AllocError> {
    Text::from_string(alloc, format!(in alloc; "{number}")?)
}

// Of each id its number.
fn numbers_of(alloc: Global, ids: Vec<Id>) -> Result<HashMap<Id, JsWord>, AllocError> {
    let mut numbers = HashMap::new(alloc);
    for (number, id) in ids.into_iter().enumerate() {
        numbers.insert(id, number_text(alloc, number)?)?;
    }
    Ok(numbers)
}

// Puts the numbers of ids in their place.
fn put_numbers(alloc: Global, marks: &Globals, ids: Vec<Id>, module: &mut Module) -> Result<()> {
    let numbers = numbers_of(alloc, ids)?;
    let mut globals = Globals::from_table(alloc, marks.table())?;
    rename(&numbers).visit_mut_module(alloc, &mut globals, module)?;
    Ok(())
}

impl Template {
    // The template that a module gives.
    fn of(alloc: Global, marks: &Globals, module: Module) -> Result<Template> {
        let Bound { mut program, ids } = Bound::of(alloc, module)?;
        let names = texts_of(alloc, ids.as_slice())?;
        put_numbers(alloc, marks, ids, &mut program)?;
        Ok(Template {
            names,
            module: program,
        })
    }
}

impl Source {
    /// The source that an envelope and a seed give.
    ///
    /// # Errors
    ///
    /// Where the input is no envelope of a module, or memory is refused.
    pub fn read(alloc: Global, seed: u32, input: &[u8]) -> Result<Source> {
        let Ok(envelope) = read_bytes(alloc, Class::Module, input) else {
            bail!("standard input is no envelope of a module, or memory was refused");
        };
        let Envelope {
            globals,
            unresolved,
            top,
            tree,
            ..
        } = envelope;
        let template = Template::of(alloc, &globals, Module::from_node(tree))?;
        Ok(Source {
            globals,
            top,
            unresolved,
            random: Random::new(seed),
            template,
        })
    }

    // The names of one copy: each has a number of five digits, by which copies differ.
    fn names(&mut self, alloc: Global) -> Result<Vec<JsWord>> {
        let mut names = Vec::with_capacity(alloc, self.template.names.len())?;
        for name in &self.template.names {
            let number = 10_000 + self.random.next() % 90_000;
            names.push(Text::from_string(alloc, format!(in alloc; "{name}{number}")?)?)?;
        }
        Ok(names)
    }

    // A copy of the module with names of its own.
    fn copy(&mut self, alloc: Global) -> Result<Module> {
        let names = self.names(alloc)?;
        copy_template(alloc, names.as_slice(), &self.template.module)
    }

    // Adds a copy to a module.
    fn add_copy(&mut self, alloc: Global, module: &mut Module) -> Result<()> {
        let more = self.copy(alloc)?;
        let end = module.body.len();
        module.body.insert_all(end, more.body)?;
        Ok(())
    }

    /// A file of so many copies.
    ///
    /// # Errors
    ///
    /// Where memory is refused.
    pub fn file(&mut self, alloc: Global, copies: u32) -> Result<File> {
        let mut module = self.copy(alloc)?;
        for _ in 1..copies {
            self.add_copy(alloc, &mut module)?;
        }
        let globals = Globals::from_table(alloc, self.globals.table())?;
        Ok(File { globals, module })
    }
}
