//! Passes by their names.
use crate::programs::finishing::Finishing;
use crate::programs::names;
use crate::programs::renamers::Renaming;
use crate::texts::text_each;
use anyhow::{Result, bail};
use gate_rows::{Given, Notes, room};
use std::alloc::{AllocError, Global};
use std::collections::HashMap;
use swc_base_fixer::{NoComments, fixer, paren_remover};
use swc_base_rename::{Config, hygiene, hygiene_with_config, remap, rename, rename_with_config};
use swc_base_resolver::{Resolver, marks_ok, resolver};
use swc_tree::{Id, JsPass, JsWord, PassError};
use swc_tree_node::Class;

/// The class of programs that a word names.
pub fn class_of(word: &str) -> Result<Class> {
    match word {
        "module" => Ok(Class::Module),
        "script" => Ok(Class::Script),
        _ => bail!("a program is a module or a script"),
    }
}

/// A pass, for which all memory is taken but that of the pass.
#[derive(Drop)]
pub enum Pass {
    Resolve(Resolver),
    Unparen,
    UnparenComments(Notes),
    Fix,
    FixComments(Notes),
    Rename(HashMap<Id, JsWord>, Config),
    Remap(HashMap<Id, Id>, Config),
    Renamer(Renaming, Config),
    Finished(Finishing, Config),
    Hygiene,
    HygieneWith(Config),
}

// The resolver of a program's marks, where they are known and neither is the root.
fn resolver_of(given: &Given) -> Option<Resolver> {
    let (unresolved, top) = (given.settings.unresolved, given.settings.top);
    if marks_ok(&given.globals, unresolved, top) {
        Some(resolver(unresolved, top))
    } else {
        None
    }
}

// What the renaming passes go by.
fn config_of(given: &Given) -> Config {
    Config {
        keep_class_names: given.settings.keep_class_names,
        safari_10: false,
        top_level_mark: given.settings.top,
        ignore_eval: given.settings.ignore_eval,
    }
}

// Runs one pass on each of some programs, up to the first that is refused.
pub fn visit_each<P: JsPass>(
    pass: &mut P,
    alloc: Global,
    programs: &mut [Given],
) -> Result<(), PassError> {
    for given in programs {
        given.visit(alloc, pass)?;
    }
    Ok(())
}

// The same with comments, of which the pass is asked afterwards.
fn unparen_with(notes: &mut Notes, alloc: Global, programs: &mut [Given]) -> Result<(), PassError> {
    let mut pass = paren_remover(Some(notes));
    let answer = visit_each(&mut pass, alloc, programs);
    match pass.into_comments() {
        Some(_kept) => answer,
        None => answer,
    }
}

fn fix_with(notes: &mut Notes, alloc: Global, programs: &mut [Given]) -> Result<(), PassError> {
    let mut pass = fixer(Some(notes));
    let answer = visit_each(&mut pass, alloc, programs);
    match pass.into_comments() {
        Some(_kept) => answer,
        None => answer,
    }
}

impl Pass {
    /// The pass that a word names. `rename` gives every id a new text.
    pub fn of_word(alloc: Global, word: &str, given: &Given) -> Result<Pass> {
        match word {
            "resolve" => match resolver_of(given) {
                Some(resolver) => Ok(Pass::Resolve(resolver)),
                None => bail!("the marks are not known"),
            },
            "unparen" => Ok(Pass::Unparen),
            "fix" => Ok(Pass::Fix),
            "hygiene" => Ok(Pass::Hygiene),
            "hygiene_with_config" => Ok(Pass::HygieneWith(config_of(given))),
            "rename" => {
                let texts = text_each(alloc, given.program.items())?;
                Ok(Pass::Rename(texts, config_of(given)))
            }
            _ => bail!("no pass has that name"),
        }
    }

    // The pass of a row with a renamer, if it is one.
    fn of_renamer(alloc: Global, words: &str, input: &str, config: Config) -> Option<Pass> {
        match Finishing::of_words(alloc, words, input) {
            Some(finishing) => Some(Pass::Finished(finishing, config)),
            None => {
                let renaming = Renaming::of_words(alloc, words, input)?;
                Some(Pass::Renamer(renaming, config))
            }
        }
    }

    // The pass of a row with names, comments or a renamer, if it is one.
    fn of_input(alloc: Global, word: &str, input: &str, given: &Given) -> Option<Pass> {
        match word {
            "rename" => Some(Pass::Rename(names::texts(alloc, input)?, config_of(given))),
            "remap" => Some(Pass::Remap(names::ids(alloc, input)?, config_of(given))),
            "unparen_comments" => Some(Pass::UnparenComments(Notes::new(
                alloc,
                room(alloc, input)?,
            ))),
            "fix_comments" => Some(Pass::FixComments(Notes::new(alloc, room(alloc, input)?))),
            _ => Pass::of_renamer(alloc, word, input, config_of(given)),
        }
    }

    /// The pass of a row.
    pub fn of_row(alloc: Global, words: &str, input: &str, given: &Given) -> Result<Pass> {
        if let Some(word) = words.strip_prefix("pass ") {
            return Pass::of_word(alloc, word, given);
        }
        match Pass::of_input(alloc, words, input, given) {
            Some(pass) => Ok(pass),
            None => bail!("no row has that word, or its input is not as it should be"),
        }
    }

    /// Runs the pass on programs, one after the other. The configuration of `rename` counts only where it says more than the
    /// default.
    pub fn visit(&mut self, alloc: Global, programs: &mut [Given]) -> Result<(), PassError> {
        match self {
            Pass::Resolve(resolver) => visit_each(resolver, alloc, programs),
            Pass::Unparen => {
                visit_each(&mut paren_remover(None::<&mut NoComments>), alloc, programs)
            }
            Pass::UnparenComments(notes) => unparen_with(notes, alloc, programs),
            Pass::Fix => visit_each(&mut fixer(None::<&mut NoComments>), alloc, programs),
            Pass::FixComments(notes) => fix_with(notes, alloc, programs),
            Pass::Rename(texts, config) if config.keep_class_names => {
                visit_each(&mut rename_with_config(texts, *config), alloc, programs)
            }
            Pass::Rename(texts, _) => visit_each(&mut rename(texts), alloc, programs),
            Pass::Remap(ids, config) => visit_each(&mut remap(ids, *config), alloc, programs),
            Pass::Renamer(renaming, config) => renaming.visit(*config, alloc, programs),
            Pass::Finished(finishing, config) => finishing.visit(config, alloc, programs),
            Pass::Hygiene => visit_each(&mut hygiene(), alloc, programs),
            Pass::HygieneWith(config) => {
                visit_each(&mut hygiene_with_config(*config), alloc, programs)
            }
        }
    }

    /// What is left, behind the moves that the pass asked for.
    pub fn before(&self, alloc: Global, left: String) -> Result<String, AllocError> {
        match self {
            Pass::UnparenComments(notes) | Pass::FixComments(notes) => {
                notes.before(alloc, left.as_str())
            }
            _ => Ok(left),
        }
    }
}
