//! Writing whether a promise covers a program.
ghost use Rattle.std.specs.Prelude.{◌≡◌, ◌++◌, IfOk, OnOk, string_bytes};
ghost use Rattle.jsbase_writer.specs.Gaps.{covered_json, covered_text, gap_json, gap_text, placed_gap_json, placed_gap_text};
ghost use Rattle.jsbase_writer.specs.Tokens.{tokens_of};

use crate::nodes::text_of;
use json::Writer;
use std::alloc::{AllocError, Global};

fn write_covered_object(out: &mut Writer) -> Result<(), AllocError>
    ensures written { OnOk result (out.new.tokens ≡ out.old.tokens ++ tokens_of covered_json) }
    ensures before { OnOk result (out.new.before ≡ out.old.before) }
{
    out.begin_object()?;
    out.key("covered")?;
    out.boolean(true)?;
    out.end_object()?;
    Ok(())
}

fn write_gap_object(out: &mut Writer, word: &str) -> Result<(), AllocError>
    ensures written { OnOk result (out.new.tokens ≡ out.old.tokens ++ tokens_of (gap_json word.now)) }
    ensures before { OnOk result (out.new.before ≡ out.old.before) }
{
    out.begin_object()?;
    out.key("covered")?;
    out.boolean(false)?;
    out.key("gap")?;
    out.string(word)?;
    out.end_object()?;
    Ok(())
}

fn write_placed_gap_object(out: &mut Writer, word: &str, path: &str) -> Result<(), AllocError>
    ensures written { OnOk result (out.new.tokens ≡ out.old.tokens ++ tokens_of (placed_gap_json word.now path.now)) }
    ensures before { OnOk result (out.new.before ≡ out.old.before) }
{
    out.begin_object()?;
    out.key("covered")?;
    out.boolean(false)?;
    out.key("gap")?;
    out.string(word)?;
    out.key("path")?;
    out.string(path)?;
    out.end_object()?;
    Ok(())
}

/// That a promise covers a program, as one line of JSON.
///
/// # Errors
///
/// Where memory is refused.
pub fn write_covered(alloc: Global) -> Result<String, AllocError>
    ensures { IfOk result (λ text. string_bytes text ≡ covered_text) }
{
    let mut out = Writer::new(Vec::new(alloc));
    write_covered_object(&mut out)?;
    let mut text = text_of(out);
    text.push_str("\n")?;
    Ok(text)
}

/// That it doesn't, as one line of JSON: `covered`, and `gap`, a word for what fails.
///
/// # Errors
///
/// Where memory is refused.
pub fn write_gap(alloc: Global, word: &str) -> Result<String, AllocError>
    ensures { IfOk result (λ text. string_bytes text ≡ gap_text word.now) }
{
    let mut out = Writer::new(Vec::new(alloc));
    write_gap_object(&mut out, word)?;
    let mut text = text_of(out);
    text.push_str("\n")?;
    Ok(text)
}

/// The same with `path`, where it shows.
///
/// # Errors
///
/// Where memory is refused.
pub fn write_placed_gap(alloc: Global, word: &str, path: &str) -> Result<String, AllocError>
    ensures { IfOk result (λ text. string_bytes text ≡ placed_gap_text word.now path.now) }
{
    let mut out = Writer::new(Vec::new(alloc));
    write_placed_gap_object(&mut out, word, path)?;
    let mut text = text_of(out);
    text.push_str("\n")?;
    Ok(text)
}
