//! What is promised of each answer, said apart from the pass.
ghost use Rattle.swc_base_fixer.specs.Promises.{AnswersKeepPromises};

/// What the fixer answers keeps its promises; for callers that set pairs by `fix_parens`. It does nothing.
pub fn answers_keep_promises()
    ensures { AnswersKeepPromises }
{}
