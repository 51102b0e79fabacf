//! Texts rewritten, and told to be covered, by the laws of the passes.
ghost use Rattle.std.specs.Prelude.{MatchResult};
ghost use Rattle.mucwathi_commands.specs.Looks.{IsUncovered};
ghost use Rattle.mucwathi_engine.specs.Headline.{IsPromised, IsPromisedFault, IsPromisedWith, IsToldToBePromised};

use mucwathi_commands::{CoverGap, RewrittenText};
use mucwathi_laws::{promises_are_kept, targets_are_spared, texts_are_kept, tokens_are_kept};
use mucwathi_order::{Goal, Order, RunFault, Settings};
use std::alloc::Global;

/// What a command makes of a text: `rewrite_text` of `mucwathi_commands`.
///
/// Where names are given anew, by `Chain`, `Mangle` and `Hygiene`, that is the same program but for the names that it binds, and by the first
/// two the grammar derives it: of a module, and of a plain script, without early errors of names, that can be written down, in which
/// nothing reads names and where classes don't keep theirs. `cover_text` says whether a text is one. Of each text the answer's productions
/// have their lengths, and its leaves are tokens of their kinds. A chain and mangling change no token but names that the program binds, once
/// all is written out and parentheses are off (`normal_form`): the answer has the tokens of a source but for such names, pairs, blocks, what
/// is written out, and what does nothing (`KeepsTokens`).
///
/// # Errors
///
/// Those of that call. A chain or mangling of what can be written down so is not refused for a target.
pub fn rewrite_text(alloc: Global, order: &Order, text: &[u8]) -> Result<Vec<u8>, RunFault>
    ensures { MatchResult result (λ out. IsPromised order.now text.now out.items) (IsPromisedFault order.now text.now) }
{
    promises_are_kept();
    targets_are_spared();
    texts_are_kept();
    tokens_are_kept();
    mucwathi_commands::rewrite_text(alloc, order, text)
}

/// The same with comments set again where it is written anew, as `mucwathi` has it: `rewrite_with_comments` of `mucwathi_commands`. Each is
/// written once, at one of the nodes round which it stood, or told as lost.
///
/// # Errors
///
/// Those of `rewrite_text`.
pub fn rewrite_with_comments(
    alloc: Global,
    order: &Order,
    text: &[u8],
) -> Result<RewrittenText, RunFault>
    ensures { MatchResult result (λ made. IsPromisedWith order.now text.now made.out.items made.lost.items) (IsPromisedFault order.now text.now) }
{
    promises_are_kept();
    targets_are_spared();
    texts_are_kept();
    tokens_are_kept();
    mucwathi_commands::rewrite_with_comments(alloc, order, text)
}

/// What keeps a text from what is promised: `cover_text` of `mucwathi_commands`. If it says none, the text is one of which the promises are
/// kept.
///
/// # Errors
///
/// Those of that call.
pub fn cover_text(
    alloc: Global,
    goal: Goal,
    depth: u32,
    settings: &Settings,
    text: &[u8],
) -> Result<Option<CoverGap>, RunFault>
    ensures { MatchResult result (IsToldToBePromised goal settings.now text.now) (IsUncovered text.now) }
{
    mucwathi_commands::cover_text(alloc, goal, depth, settings, text)
}
