//! What is made of a program.

/// What is made of a program.
#[derive(Clone, Copy, Debug, PartialEq, Eq)]
pub enum Command {
    /// Names that would meet get other texts, and then parentheses are set anew.
    Chain,
    /// Names get the shortest texts, and then parentheses are set anew.
    Mangle,
    /// Names that would meet get other texts.
    Hygiene,
    /// Parentheses are set anew: those that are due, and no other.
    Fix,
    /// Parentheses are taken off, and with them what is idle in sequences and classes.
    Unparen,
}

/// What the passes go by.
#[derive(Clone, Copy, Debug, Default, PartialEq, Eq)]
pub struct Settings {
    /// Whether classes keep their names, for code that reads a class's `name`.
    pub keep_class_names: bool,
    /// Whether names are given anew where a direct `eval` could read them.
    pub ignore_eval: bool,
    /// Whether mangling leaves the names of the program's own scope as they are.
    pub keep_top: bool,
}
