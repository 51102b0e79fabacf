//! Two texts compared.
ghost use Rattle.std.specs.Prelude.{◌≡◌, ℕ, List, IfOk, IfSome, MatchResult};
ghost use Rattle.swc_tree_grammar.specs.Normal.{normal_form};
ghost use Rattle.swc_tree_node.specs.declared.node.Node.{Node as Node'};
ghost use Rattle.swc_base_alpha.specs.Shown.{Shows};
ghost use Rattle.swc_base_alpha.specs.Verdict.{IsCleanProgram, IsJudgeRefusal, word_in};
ghost use Rattle.mucwathi_commands.specs.Judged.{IsAfterFault, IsBeforeFault, IsJudgeFault, IsJudged, IsPlaced, IsRead, IsSaid, IsUnread, IsUnsaid, as_compared, why_in};

use crate::places::bytes_before;
use mucwathi_order::text_source::{TextFault, read_text};
use mucwathi_order::{Goal, JudgeFault};
use std::alloc::Global;
use swc_base_alpha::{Cause, Unplaced, Why, why_different};
use swc_base_plain_form::plain_form;
use swc_tree_marks::{NoMemory, PassError};
use swc_tree_node::Node;

/// A text, and as what it is read.
#[derive(Clone, Copy)]
pub struct NamedText<'a> {
    pub goal: Goal,
    pub text: &'a [u8],
}

/// By what two texts are judged.
#[derive(Clone, Copy, Debug, PartialEq, Eq)]
pub struct Rules {
    /// How many productions may be open at once.
    pub depth: u32,
    /// Whether names of the program's own scope have to keep their texts.
    pub keep_top: bool,
    /// Whether spellings of literals count: else `16` is `0x10`, and `'a'` is `"a"`, but in directives and templates.
    pub spelling: bool,
}

/// Why two texts are not the same program but for names, and where that shows.
#[derive(Clone, Copy, Debug, PartialEq, Eq)]
pub struct TextDifference {
    pub why: Why,
    /// How many bytes are before the place in the first text.
    pub before: usize,
    /// The same in the second.
    pub after: usize,
}

// Why the first of two texts is not read.
fn before_fault(fault: TextFault) -> JudgeFault
    ensures { (bytes : List ℕ) → IsUnread bytes fault → IsBeforeFault bytes result }
{
    match fault {
        TextFault::NoMemory => JudgeFault::Refused(PassError::NoMemory),
        fault => JudgeFault::Before(fault),
    }
}

// Why the second is not.
fn after_fault(fault: TextFault) -> JudgeFault
    ensures { (bytes : List ℕ) → IsUnread bytes fault → IsAfterFault bytes result }
{
    match fault {
        TextFault::NoMemory => JudgeFault::Refused(PassError::NoMemory),
        fault => JudgeFault::After(fault),
    }
}

// The program of a text, in which no identifier has a context.
fn read(alloc: Global, depth: u32, given: &NamedText<'_>) -> Result<Node, TextFault>
    ensures { MatchResult result (IsRead given.now.goal given.now.text.now) (IsUnread given.now.text.now) }
{
    match read_text(alloc, given.goal, depth, given.text) {
        Ok(tree) => Ok(tree),
        Err(fault) => Err(fault),
    }
}

fn read_before(alloc: Global, depth: u32, given: &NamedText<'_>) -> Result<Node, JudgeFault>
    ensures { MatchResult result (IsRead given.now.goal given.now.text.now) (IsBeforeFault given.now.text.now) }
{
    match read(alloc, depth, given) {
        Ok(tree) => Ok(tree),
        Err(fault) => Err(before_fault(fault)),
    }
}

fn read_after(alloc: Global, depth: u32, given: &NamedText<'_>) -> Result<Node, JudgeFault>
    ensures { MatchResult result (IsRead given.now.goal given.now.text.now) (IsAfterFault given.now.text.now) }
{
    match read(alloc, depth, given) {
        Ok(tree) => Ok(tree),
        Err(fault) => Err(after_fault(fault)),
    }
}

// Where a cause shows in both texts.
fn difference_of(cause: Option<Cause>) -> Option<TextDifference>
    ensures why { why_in result ≡ word_in cause }
    ensures places { (t u : Node') → IfSome cause (λ c. Shows Unplaced.IsMade (normal_form t) (normal_form u) c.why c.before c.after) → IfSome result (IsPlaced t u) }
{
    match cause {
        None => None,
        Some(cause) => Some(TextDifference {
            why: cause.why,
            before: bytes_before(cause.before),
            after: bytes_before(cause.after),
        }),
    }
}

// A program as it is compared: its plain form, unless spellings count. It has the spans of the program.
fn compared(alloc: Global, spelling: bool, program: Node) -> Result<Node, NoMemory>
    ensures { IfOk result (λ t. t ≡ as_compared spelling program) }
{
    if spelling {
        return Ok(program);
    }
    plain_form(alloc, program)
}

// What is said of two programs as they are compared.
fn judge_compared(
    alloc: Global,
    keep_top: bool,
    first: Node,
    second: Node,
) -> Result<Option<TextDifference>, PassError>
    requires before { IsCleanProgram first }
    requires after { IsCleanProgram second }
    ensures { MatchResult result (IsSaid keep_top first second) (IsJudgeRefusal first second) }
{
    match why_different(alloc, keep_top, Unplaced::IsMade, first, second) {
        Ok(cause) => Ok(difference_of(cause)),
        Err(error) => Err(error),
    }
}

// What is said of two programs.
fn judge(
    alloc: Global,
    rules: &Rules,
    first: Node,
    second: Node,
) -> Result<Option<TextDifference>, PassError>
    requires before { IsCleanProgram first }
    requires after { IsCleanProgram second }
    ensures { MatchResult result (IsSaid rules.now.keep_top (as_compared rules.now.spelling first) (as_compared rules.now.spelling second)) (IsUnsaid rules.now.spelling first second) }
{
    let one = compared(alloc, rules.spelling, first)?;
    let other = compared(alloc, rules.spelling, second)?;
    judge_compared(alloc, rules.keep_top, one, other)
}

// What is said of two texts that are read.
fn judge_both(
    alloc: Global,
    rules: &Rules,
    before: &NamedText<'_>,
    first: Node,
    after: &NamedText<'_>,
    second: Node,
) -> Result<Option<TextDifference>, JudgeFault>
    requires before { IsRead before.now.goal before.now.text.now first }
    requires after { IsRead after.now.goal after.now.text.now second }
    ensures { MatchResult result (IsJudged rules.now before.now.goal before.now.text.now after.now.goal after.now.text.now) (IsJudgeFault rules.now.spelling before.now.goal before.now.text.now after.now.goal after.now.text.now) }
{
    match judge(alloc, rules, first, second) {
        Ok(said) => Ok(said),
        Err(error) => Err(JudgeFault::Refused(error)),
    }
}

// What is said of two texts, the first of which is read.
fn judge_second(
    alloc: Global,
    rules: &Rules,
    before: &NamedText<'_>,
    first: Node,
    after: &NamedText<'_>,
) -> Result<Option<TextDifference>, JudgeFault>
    requires { IsRead before.now.goal before.now.text.now first }
    ensures { MatchResult result (IsJudged rules.now before.now.goal before.now.text.now after.now.goal after.now.text.now) (IsJudgeFault rules.now.spelling before.now.goal before.now.text.now after.now.goal after.now.text.now) }
{
    match read_after(alloc, rules.depth, after) {
        Ok(second) => judge_both(alloc, rules, before, first, after, second),
        Err(fault) => Err(fault),
    }
}

/// Whether two texts are the same program but for the choice of the names that it binds: none if they are, else why not and where.
///
/// The rules say whether names of the program's own scope have to keep their texts, and whether spellings of literals count. Where a
/// direct `eval` or a `with` may read names in one of both, no name may have another text. Of several causes the first is told, in the
/// order of `Why`. It costs time in step with the texts, but for the logarithm of how many ids they have.
///
/// # Errors
///
/// `Before` and `After` where a text is not read; `Refused` where memory is refused, or marks are spent.
pub fn judge_texts(
    alloc: Global,
    rules: &Rules,
    before: &NamedText<'_>,
    after: &NamedText<'_>,
) -> Result<Option<TextDifference>, JudgeFault>
    ensures { MatchResult result (IsJudged rules.now before.now.goal before.now.text.now after.now.goal after.now.text.now) (IsJudgeFault rules.now.spelling before.now.goal before.now.text.now after.now.goal after.now.text.now) }
{
    match read_before(alloc, rules.depth, before) {
        Ok(first) => judge_second(alloc, rules, before, first, after),
        Err(fault) => Err(fault),
    }
}
