//! How kinds, classes and words are shown: as the table calls them. Derived for so many variants, `Debug` is dear to prove.
use crate::kind::{Class, Kind, Word, WordClass};
use crate::table::{kinds_of, name_of, spelling_of, words_of};
use std::fmt;

/// The name of the struct, as `IfStmt`.
impl fmt::Debug for Kind {
    fn fmt<W: fmt::Write>(&self, f: &mut fmt::Formatter<W>) -> fmt::Result {
        f.write_str(name_of(*self))
    }
}

/// The kinds that it takes, as `[IfStmt]`.
impl fmt::Debug for Class {
    fn fmt<W: fmt::Write>(&self, f: &mut fmt::Formatter<W>) -> fmt::Result {
        fmt::Debug::fmt(kinds_of(*self), f)
    }
}

/// The word as it is written, as `+`.
impl fmt::Debug for Word {
    fn fmt<W: fmt::Write>(&self, f: &mut fmt::Formatter<W>) -> fmt::Result {
        f.write_str(spelling_of(*self))
    }
}

/// The words that it takes, as `[++, --]`.
impl fmt::Debug for WordClass {
    fn fmt<W: fmt::Write>(&self, f: &mut fmt::Formatter<W>) -> fmt::Result {
        fmt::Debug::fmt(words_of(*self), f)
    }
}
