//! Reports, as compilers give them: `file:line:column: what it is`, the line, and a caret.
ghost use Rattle.std.specs.Prelude.{◌≡◌, ◌++◌, [], ◌∷◌, codes, Some, IfOk, OnOk, map, string_bytes};
ghost use Rattle.mucwathi_looks.specs.Reports.{IsCoverReport, IsDifferenceReport, IsFaultReport, IsJudgeFaultReport, IsReport, IsShown, line_of, no_tree_text, place_text, refusal_text};
ghost use Rattle.mucwathi_order.specs.declared.fault.RunFault.TheVariants as running;

use crate::excerpt::add_excerpt;
use crate::sentences::{cause_sentence, refusal_sentence, why_sentence};
use mucwathi_commands::{CoverGap, JudgeFault, RunFault, TextDifference};
use std::alloc::{AllocError, Global};
use swc_tree_marks::PassError;
use text_source::{TextFault, line_and_column};

/// A text, and what it is called.
#[derive(Clone, Copy)]
pub struct Named<'a> {
    pub name: &'a str,
    pub text: &'a [u8],
}

fn add_line(out: &mut Vec<u8>, parts: &[&str]) -> Result<(), AllocError>
    ensures { OnOk result (out.new.items ≡ out.old.items ++ line_of (map (λ p. p.now) parts.now)) }
{
    for part in parts {
        out.extend_from_slice(part.as_bytes())?;
    }
    out.push(b'\n')?;
    Ok(())
}

fn tell_line(alloc: Global, parts: &[&str]) -> Result<Vec<u8>, AllocError>
    ensures { IfOk result (λ out. out.items ≡ line_of (map (λ p. p.now) parts.now)) }
{
    let mut out = Vec::new(alloc);
    add_line(&mut out, parts)?;
    Ok(out)
}

// A place as it is written: `:2:7: `, or just `: `.
fn place_of(alloc: Global, text: &[u8], at: Option<usize>) -> Result<String, AllocError>
    ensures { IfOk result (λ place. string_bytes place ≡ place_text text.now at) }
{
    match at {
        Some(at) => place_at(alloc, text, at),
        None => String::from_str(alloc, ": "),
    }
}

fn place_at(alloc: Global, text: &[u8], at: usize) -> Result<String, AllocError>
    ensures { IfOk result (λ place. string_bytes place ≡ place_text text.now (Some at)) }
{
    let place = line_and_column(text, at);
    let (line, column) = (place.line, place.column);
    let numbers = format!(in alloc; ":{line}:{column}: ")?;
    Ok(numbers)
}

// Shows a place, if there is one.
fn show(text: &[u8], at: Option<usize>, out: &mut Vec<u8>) -> Result<(), AllocError>
    ensures { OnOk result (IsShown text.now at out.old.items out.new.items) }
{
    match at {
        Some(at) => add_excerpt(text, at, out),
        None => Ok(()),
    }
}

// What is said of a place, which is shown, or of no place.
fn report(
    alloc: Global,
    of: Named<'_>,
    at: Option<usize>,
    sentence: &str,
) -> Result<Vec<u8>, AllocError>
    ensures { IfOk result (λ out. IsReport of.entry.name.now of.entry.text.now at sentence.now out.items) }
{
    let place = place_of(alloc, of.text, at)?;
    let mut out = tell_line(alloc, &[of.name, place.as_str(), sentence])?;
    show(of.text, at, &mut out)?;
    Ok(out)
}

fn tell_text_fault(alloc: Global, of: Named<'_>, fault: &TextFault) -> Result<Vec<u8>, AllocError>
    ensures { IfOk result (λ out. IsFaultReport of.entry.name.now of.entry.text.now (running.Text fault.now) out.items) }
{
    let at = fault.at();
    let sentence = fault.to_string(alloc)?;
    report(alloc, of, at, sentence.as_str())
}

fn tell_refused(alloc: Global, name: &str, sentence: &str) -> Result<Vec<u8>, AllocError>
    ensures { IfOk result (λ out. out.items ≡ line_of (name.now ∷ codes ": refused: " ∷ sentence.now ∷ [])) }
{
    tell_line(alloc, &[name, ": refused: ", sentence])
}

fn tell_refusal(alloc: Global, name: &str, error: PassError) -> Result<Vec<u8>, AllocError>
    ensures { IfOk result (λ out. out.items ≡ line_of (name.now ∷ codes ": refused: " ∷ refusal_text error ∷ [])) }
{
    tell_refused(alloc, name, refusal_sentence(error))
}

/// Why nothing was made of a text.
pub fn tell_fault(alloc: Global, of: Named<'_>, fault: &RunFault) -> Result<Vec<u8>, AllocError>
    ensures { IfOk result (λ out. IsFaultReport of.entry.name.now of.entry.text.now fault.now out.items) }
{
    match fault {
        RunFault::Text(fault) => tell_text_fault(alloc, of, fault),
        RunFault::Refused(error) => tell_refusal(alloc, of.name, *error),
        RunFault::NotWritten => tell_line(
            alloc,
            &[
                of.name,
                ": refused: the answer has no text, or none that is read again",
            ],
        ),
        RunFault::NotKept => tell_line(
            alloc,
            &[
                of.name,
                ": refused: its layout can't be kept; --print writes it anew",
            ],
        ),
    }
}

/// That an input is no envelope, by the path of what is wrong in it first.
pub fn tell_no_tree(alloc: Global, name: &str, path: &str) -> Result<Vec<u8>, AllocError>
    ensures { IfOk result (λ out. out.items ≡ no_tree_text name.now path.now) }
{
    tell_line(alloc, &[name, ": not a tree: ", path])
}

/// Why nothing is said of two texts.
pub fn tell_judge_fault(
    alloc: Global,
    before: Named<'_>,
    after: Named<'_>,
    fault: &JudgeFault,
) -> Result<Vec<u8>, AllocError>
    ensures { IfOk result (λ out. IsJudgeFaultReport before.entry after.entry fault.now out.items) }
{
    match fault {
        JudgeFault::Before(fault) => tell_text_fault(alloc, before, fault),
        JudgeFault::After(fault) => tell_text_fault(alloc, after, fault),
        JudgeFault::Refused(error) => tell_refusal(alloc, after.name, *error),
    }
}

/// Why two texts are not the same program but for names, and where that shows in both.
pub fn tell_difference(
    alloc: Global,
    before: Named<'_>,
    after: Named<'_>,
    difference: &TextDifference,
) -> Result<Vec<u8>, AllocError>
    ensures { IfOk result (λ out. IsDifferenceReport before.entry after.entry difference.now out.items) }
{
    let sentence = why_sentence(difference.why);
    let mut out = report(alloc, after, Some(difference.after), sentence)?;
    let here = report(alloc, before, Some(difference.before), "here before")?;
    out.extend_from_slice(here.as_slice())?;
    Ok(out)
}

// What a text lacks, and where.
fn tell_gap(alloc: Global, of: Named<'_>, gap: CoverGap) -> Result<Vec<u8>, AllocError>
    ensures { IfOk result (λ out. IsCoverReport of.entry.name.now of.entry.text.now (Some gap) out.items) }
{
    let cause = cause_sentence(gap.cause);
    let sentence = format!(in alloc; "the promise does not cover it: {cause}")?;
    report(alloc, of, gap.at, sentence.as_str())
}

/// Whether what is promised of a chain is promised of a text, else what it lacks first, and where.
pub fn tell_cover(
    alloc: Global,
    of: Named<'_>,
    gap: Option<CoverGap>,
) -> Result<Vec<u8>, AllocError>
    ensures { IfOk result (λ out. IsCoverReport of.entry.name.now of.entry.text.now gap out.items) }
{
    match gap {
        Some(gap) => tell_gap(alloc, of, gap),
        None => tell_line(alloc, &[of.name, ": the promise covers it"]),
    }
}
