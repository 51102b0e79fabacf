//! Renamers by their words: `letters`, `shortest`, `refusing`, and `numbered` and `suffixed`, which may be followed by `mangles`, by `resets`, or
//! by both; `numbered` finds the ids that it preserves under the key `preserved`.
use crate::programs::names;
use crate::programs::passes::visit_each;
use gate_renamers::{Letters, Numbered, Refusing, Suffixed};
use gate_rows::Given;
use std::alloc::Global;
use std::mem;
use swc_base_rename::{Config, Renamer, renamer};
use swc_base_rename_shortest::Shortest;
use swc_tree::{Id, PassError};

/// A renamer.
#[derive(Drop)]
pub enum Renaming {
    Letters,
    Shortest,
    Refusing,
    Numbered(Settings, Vec<Id>),
    Suffixed(Settings),
}

/// The settings of a renamer: whether scopes beside one another may share texts, and whether the counter starts again.
#[derive(Clone, Copy)]
pub struct Settings {
    mangles: bool,
    resets: bool,
}

// The settings that the words behind a renamer name.
fn settings_of(words: &str) -> Option<Settings> {
    let (mangles, resets) = match words {
        "" => (false, false),
        " mangles" => (true, false),
        " resets" => (false, true),
        " mangles resets" => (true, true),
        _ => return None,
    };
    Some(Settings { mangles, resets })
}

// Runs a renamer on each program.
fn visit_with<R: Renamer + Drop>(
    config: Config,
    alloc: Global,
    of_row: R,
    programs: &mut [Given],
) -> Result<(), PassError> {
    visit_each(&mut renamer(config, of_row), alloc, programs)
}

// Runs the renamer of these settings on each program.
fn visit_numbered(
    settings: Settings,
    preserved: Vec<Id>,
    config: Config,
    alloc: Global,
    programs: &mut [Given],
) -> Result<(), PassError> {
    match (settings.mangles, settings.resets) {
        (true, true) => {
            let renamer = Numbered::<true, true>::new(preserved);
            visit_with(config, alloc, renamer, programs)
        }
        (true, false) => {
            let renamer = Numbered::<true, false>::new(preserved);
            visit_with(config, alloc, renamer, programs)
        }
        (false, true) => {
            let renamer = Numbered::<false, true>::new(preserved);
            visit_with(config, alloc, renamer, programs)
        }
        (false, false) => {
            let renamer = Numbered::<false, false>::new(preserved);
            visit_with(config, alloc, renamer, programs)
        }
    }
}

// The same of one that goes by ids and counters.
fn visit_suffixed(
    settings: Settings,
    config: Config,
    alloc: Global,
    programs: &mut [Given],
) -> Result<(), PassError> {
    match (settings.mangles, settings.resets) {
        (true, true) => visit_with(config, alloc, Suffixed::<true, true>, programs),
        (true, false) => visit_with(config, alloc, Suffixed::<true, false>, programs),
        (false, true) => visit_with(config, alloc, Suffixed::<false, true>, programs),
        (false, false) => visit_with(config, alloc, Suffixed::<false, false>, programs),
    }
}

impl Renaming {
    /// The renamer that words name, with the ids that the input has it preserve.
    pub fn of_words(alloc: Global, words: &str, input: &str) -> Option<Renaming> {
        if let Some(words) = words.strip_prefix("suffixed") {
            return Some(Renaming::Suffixed(settings_of(words)?));
        }
        if let Some(words) = words.strip_prefix("numbered") {
            let settings = settings_of(words)?;
            let preserved = names::preserved(alloc, input)?;
            return Some(Renaming::Numbered(settings, preserved));
        }
        match words {
            "letters" => Some(Renaming::Letters),
            "shortest" => Some(Renaming::Shortest),
            "refusing" => Some(Renaming::Refusing),
            _ => None,
        }
    }

    /// Gives the names of each program anew. What is preserved is used up.
    pub fn visit(
        &mut self,
        config: Config,
        alloc: Global,
        programs: &mut [Given],
    ) -> Result<(), PassError> {
        match self {
            Renaming::Letters => visit_with(config, alloc, Letters, programs),
            Renaming::Shortest => visit_with(config, alloc, Shortest, programs),
            Renaming::Refusing => visit_with(config, alloc, Refusing, programs),
            Renaming::Numbered(settings, preserved) => {
                let preserved = mem::replace(preserved, Vec::new(alloc));
                visit_numbered(*settings, preserved, config, alloc, programs)
            }
            Renaming::Suffixed(settings) => visit_suffixed(*settings, config, alloc, programs),
        }
    }
}
