//! What a text asks of a program, through a chain of passes.
//!
//! `specs/Laws.antt` states the laws. Each is the contract of a function that does nothing, so that it is proved.

ghost use Rattle.text_kept_laws.specs.Chain.{ChainKeepsTexts, FixerKeepsTexts, HygieneKeepsTexts, ShortChainKeepsTexts, ShortNamesKeepTexts, UnparenKeepsTexts};

/// The resolver and then hygiene keep lengths, leaves and names.
pub fn hygiene_keeps_texts()
    ensures { HygieneKeepsTexts }
{}

/// So do the resolver and then mangling.
pub fn short_names_keep_texts()
    ensures { ShortNamesKeepTexts }
{}

/// So does the fixer.
pub fn fixer_keeps_texts()
    ensures { FixerKeepsTexts }
{}

/// So does what takes pairs off.
pub fn unparen_keeps_texts()
    ensures { UnparenKeepsTexts }
{}

/// The resolver, hygiene and the fixer, one after another.
pub fn chain_keeps_texts()
    ensures { ChainKeepsTexts }
{}

/// The resolver, mangling and the fixer.
pub fn short_chain_keeps_texts()
    ensures { ShortChainKeepsTexts }
{}
