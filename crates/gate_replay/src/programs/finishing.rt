//! Renamers that more is done by than names given anew: behind `finish_with` the fixer runs too, and behind `chain_with` the resolver
//! before. Each is a copy of all that in the program, so rows have three renamers behind either: `letters`, `refusing`, and `numbered`,
//! which mangles in the chain.
use crate::programs::names;
use gate_renamers::{Letters, Numbered, Refusing};
use gate_rows::{Given, Program};
use std::alloc::Global;
use std::mem;
use swc_base_rename::{Config, Renamer};
use swc_base_resolver::marks_ok;
use swc_ecma_transforms_base::{
    chain_with_module, chain_with_script, finish_with_module, finish_with_script,
};
use swc_tree::{Id, NoComments, PassError};

/// What is done by a renamer: names are given anew, contexts cleared then, and parentheses set, or the program is resolved before
/// that. Scopes beside one another may share texts in the last.
#[derive(Drop)]
pub enum Finishing {
    FinishLetters,
    FinishRefusing,
    FinishNumbered(Vec<Id>),
    ChainLetters,
    ChainRefusing,
    ChainMangling(Vec<Id>),
}

// A program that is finished.
fn finish<R: Renamer>(
    config: &Config,
    alloc: Global,
    renamer: &mut R,
    given: &mut Given,
) -> Result<(), PassError> {
    let comments = None::<&mut NoComments>;
    let globals = &mut given.globals;
    match &mut given.program {
        Program::Module(module) => {
            finish_with_module(alloc, globals, *config, renamer, comments, module)
        }
        Program::Script(script) => {
            finish_with_script(alloc, globals, *config, renamer, comments, script)
        }
    }
}

// A program that is run through the chain; one whose marks are not known is left as it is.
fn chain<R: Renamer>(
    config: &Config,
    alloc: Global,
    renamer: &mut R,
    given: &mut Given,
) -> Result<(), PassError> {
    let comments = None::<&mut NoComments>;
    let (unresolved, top) = (given.settings.unresolved, given.settings.top);
    let globals = &mut given.globals;
    if !marks_ok(globals, unresolved, top) {
        return Ok(());
    }
    match &mut given.program {
        Program::Module(module) => chain_with_module(
            alloc, globals, unresolved, top, *config, renamer, comments, module,
        ),
        Program::Script(script) => chain_with_script(
            alloc, globals, unresolved, top, *config, renamer, comments, script,
        ),
    }
}

// Each program is finished, up to the first that is refused.
fn finish_each<R: Renamer + Drop>(
    config: &Config,
    alloc: Global,
    mut renamer: R,
    programs: &mut [Given],
) -> Result<(), PassError> {
    for given in programs {
        finish(config, alloc, &mut renamer, given)?;
    }
    Ok(())
}

// Each program is run through the chain, up to the first that is refused.
fn chain_each<R: Renamer + Drop>(
    config: &Config,
    alloc: Global,
    mut renamer: R,
    programs: &mut [Given],
) -> Result<(), PassError> {
    for given in programs {
        chain(config, alloc, &mut renamer, given)?;
    }
    Ok(())
}

impl Finishing {
    /// What words name, with the ids that the input has the renamer preserve.
    pub fn of_words(alloc: Global, words: &str, input: &str) -> Option<Finishing> {
        match words {
            "finish_with letters" => Some(Finishing::FinishLetters),
            "finish_with refusing" => Some(Finishing::FinishRefusing),
            "finish_with numbered" => {
                Some(Finishing::FinishNumbered(names::preserved(alloc, input)?))
            }
            "chain_with letters" => Some(Finishing::ChainLetters),
            "chain_with refusing" => Some(Finishing::ChainRefusing),
            "chain_with numbered mangles" => {
                Some(Finishing::ChainMangling(names::preserved(alloc, input)?))
            }
            _ => None,
        }
    }

    /// Does it to each program. What is preserved is used up.
    pub fn visit(
        &mut self,
        config: &Config,
        alloc: Global,
        programs: &mut [Given],
    ) -> Result<(), PassError> {
        match self {
            Finishing::FinishLetters => finish_each(config, alloc, Letters, programs),
            Finishing::FinishRefusing => finish_each(config, alloc, Refusing, programs),
            Finishing::FinishNumbered(preserved) => {
                let preserved = mem::replace(preserved, Vec::new(alloc));
                let renamer = Numbered::<false, false>::new(preserved);
                finish_each(config, alloc, renamer, programs)
            }
            Finishing::ChainLetters => chain_each(config, alloc, Letters, programs),
            Finishing::ChainRefusing => chain_each(config, alloc, Refusing, programs),
            Finishing::ChainMangling(preserved) => {
                let preserved = mem::replace(preserved, Vec::new(alloc));
                let renamer = Numbered::<true, false>::new(preserved);
                chain_each(config, alloc, renamer, programs)
            }
        }
    }
}
