//! The tokens of a program and of its normal form, and so of what a chain makes of it.
//!
//! `specs/Laws.antt` states the laws. Each is the contract of a function that does nothing, so that it is proved.

ghost use Rattle.text_kept_laws.specs.Tokens.{AnswersKeepTokens, ChainsKeepTokens, NormalFormsKeepTokens, StrippingKeepsTokens, UnpairingKeepsTokens, WritingOutKeepsTokens};

/// Written out, a tree has its tokens, and what is written out.
pub fn writing_out_keeps_tokens()
    ensures { WritingOutKeepsTokens }
{}

/// Without its pairs of parentheses a tree has its other tokens.
pub fn unpairing_keeps_tokens()
    ensures { UnpairingKeepsTokens }
{}

/// Stripped, it has its tokens but for those and what does nothing.
pub fn stripping_keeps_tokens()
    ensures { StrippingKeepsTokens }
{}

/// So have a program and its normal form the same tokens.
pub fn normal_forms_keep_tokens()
    ensures { NormalFormsKeepTokens }
{}

/// So have the fixer's answer and its normal form.
pub fn answers_keep_tokens()
    ensures { AnswersKeepTokens }
{}

/// So have a source and what a chain answers, but for bound names.
pub fn chains_keep_tokens()
    ensures { ChainsKeepTokens }
{}
