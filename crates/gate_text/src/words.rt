//! What the words of a row say.
use text_lexer::Comments;
use text_printer::Layout;
use text_source::Goal;

/// How deep a text may be where a row says nothing of it.
pub(crate) const DEPTH: u32 = 10_000;

/// What a row asks.
#[derive(Clone, Copy)]
pub(crate) enum Task {
    /// The tree.
    Read,
    /// The text of the tree.
    Print(Layout),
    /// The text of the tree with the text's comments.
    Commented(Layout),
    /// The text of the first text's tree with comments that are given with their places.
    Set,
    /// The first of two texts edited to be the other's, but for its layout.
    Edit,
    /// What is answered to each beginning of the text, in numbers.
    Cuts,
    /// How many spans the tree has, none of which may be off by a byte.
    Shifts,
    /// Whether so many texts, each but for a byte the text, are answered, and printed where they are read.
    Mutants(u32),
    /// What is answered to so many first lines of the text, its second, and so many third lines.
    Levels(u32),
}

/// What a row asks, and of what.
#[derive(Clone, Copy)]
pub(crate) struct Asked {
    pub(crate) task: Task,
    pub(crate) goal: Goal,
    pub(crate) depth: u32,
}

/// The goal that a word names.
pub(crate) fn goal_named(word: &str) -> Option<Goal> {
    match word {
        "module" => Some(Goal::Module),
        "script" => Some(Goal::Script),
        _ => None,
    }
}

/// The comments that texts of a goal may have.
pub(crate) fn comments_of(goal: Goal) -> Comments {
    match goal {
        Goal::Module => Comments::Module,
        Goal::Script => Comments::Script,
    }
}

/// What a row asks by its words: the task, the goal, a number where the task has one, and how deep the text may be, if that is said.
pub(crate) fn parse_words(words: &str) -> Option<Asked> {
    let mut words = words.split(" ");
    let task = words.next()?;
    let goal = goal_named(words.next()?)?;
    let task = match task {
        "read" => Task::Read,
        "print" => Task::Print(Layout::Lines),
        "compact" => Task::Print(Layout::Compact),
        "commented" => Task::Commented(Layout::Lines),
        "dense" => Task::Commented(Layout::Compact),
        "set" => Task::Set,
        "edit" => Task::Edit,
        "cuts" => Task::Cuts,
        "shifts" => Task::Shifts,
        "mutants" => Task::Mutants(words.next()?.parse().ok()?),
        "levels" => Task::Levels(words.next()?.parse().ok()?),
        _ => return None,
    };
    let depth = match words.next() {
        Some(depth) => depth.parse().ok()?,
        None => DEPTH,
    };
    Some(Asked { task, goal, depth })
}
