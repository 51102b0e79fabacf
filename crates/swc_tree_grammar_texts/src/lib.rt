//! What is said of a tree does not rest on the contexts in it: laws of the grammar's definitions.
//!
//! `specs/Laws.antt` states the laws. Each is the contract of a function that does nothing, so that it is proved.
#![tactic(auto)]

ghost use Rattle.swc_tree_grammar_texts.specs.Laws.{TextsAreAsWritable};

/// A tree without contexts can be written down exactly if the tree can.
pub fn texts_are_as_writable()
    ensures { TextsAreAsWritable }
{}
