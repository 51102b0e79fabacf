//! No step of hygiene and of the fixer adds what reads names as a program runs.
//!
//! `specs/Laws.antt` states the laws. Each is the contract of a function that does nothing; a caller calls it, and then knows
//! the law.

ghost use Rattle.swc_base_renaming_laws.specs.Readers.{BlocksAddNoReader, ContextsAddNoReader, DuePairsAddNoReader, NewNamesAddNoReader, StrippingAddsNoReader};

/// With its blocks a tree reads no more.
pub fn blocks_add_no_reader()
    ensures { BlocksAddNoReader }
{}

/// With its due pairs a tree reads no more.
pub fn due_pairs_add_no_reader()
    ensures { DuePairsAddNoReader }
{}

/// A tree that can be written down reads no more once it is stripped.
pub fn stripping_adds_no_reader()
    ensures { StrippingAddsNoReader }
{}

/// With new names, of which none is `eval`, a tree reads no more.
pub fn new_names_add_no_reader()
    ensures { NewNamesAddNoReader }
{}

/// Without its contexts a tree reads no more.
pub fn contexts_add_no_reader()
    ensures { ContextsAddNoReader }
{}
