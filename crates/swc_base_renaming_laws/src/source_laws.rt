//! What is said of a program with contexts, said of the program without them: of the source that a resolver was given.
//!
//! `specs/Laws.antt` states the laws. Each is the contract of a function that does nothing, so that it is proved.

ghost use Rattle.swc_base_renaming_laws.specs.Source.{ReadersNeedNoContexts, SamenessNeedsNoContexts};

/// What is the same as a program but for its bound names is so to the program without contexts.
pub fn sameness_needs_no_contexts()
    ensures { SamenessNeedsNoContexts }
{}

/// Where something in a program reads names, so it does in the program without contexts.
pub fn readers_need_no_contexts()
    ensures { ReadersNeedNoContexts }
{}
