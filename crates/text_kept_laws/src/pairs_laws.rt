//! What a text asks of a tree, where pairs of parentheses and blocks are set.
//!
//! `specs/Laws.antt` states the laws. Each is the contract of a function that does nothing, so that it is proved.

ghost use Rattle.text_kept_laws.specs.Pairs.{BlocksKeepShape, BlocksKeepSpelling, DuePairsKeepShape, DuePairsKeepSpelling};

/// The due pairs keep lengths.
pub fn due_pairs_keep_shape()
    ensures { DuePairsKeepShape }
{}

/// The due pairs keep leaves and names.
pub fn due_pairs_keep_spelling()
    ensures { DuePairsKeepSpelling }
{}

/// Blocks keep lengths.
pub fn blocks_keep_shape()
    ensures { BlocksKeepShape }
{}

/// Blocks keep leaves and names.
pub fn blocks_keep_spelling()
    ensures { BlocksKeepSpelling }
{}
