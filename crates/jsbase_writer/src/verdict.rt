//! Writing what is said of two programs.
ghost use Rattle.std.specs.Prelude.{◌≡◌, ◌++◌, IfOk, OnOk, string_bytes};
ghost use Rattle.jsbase_writer.specs.Tokens.{tokens_of};
ghost use Rattle.jsbase_writer.specs.Verdicts.{difference_json, difference_text, same_json, same_text};

use crate::nodes::text_of;
use json::Writer;
use std::alloc::{AllocError, Global};

fn write_same_object(out: &mut Writer) -> Result<(), AllocError>
    ensures written { OnOk result (out.new.tokens ≡ out.old.tokens ++ tokens_of same_json) }
    ensures before { OnOk result (out.new.before ≡ out.old.before) }
{
    out.begin_object()?;
    out.key("same")?;
    out.boolean(true)?;
    out.end_object()?;
    Ok(())
}

fn write_difference_object(
    out: &mut Writer,
    after: &str,
    before: &str,
    why: &str,
) -> Result<(), AllocError>
    ensures written { OnOk result (out.new.tokens ≡ out.old.tokens ++ tokens_of (difference_json after.now before.now why.now)) }
    ensures before { OnOk result (out.new.before ≡ out.old.before) }
{
    out.begin_object()?;
    out.key("after")?;
    out.string(after)?;
    out.key("before")?;
    out.string(before)?;
    out.key("same")?;
    out.boolean(false)?;
    out.key("why")?;
    out.string(why)?;
    out.end_object()?;
    Ok(())
}

/// That two programs are the same, as one line of JSON.
///
/// # Errors
///
/// Where memory is refused.
pub fn write_same(alloc: Global) -> Result<String, AllocError>
    ensures { IfOk result (λ text. string_bytes text ≡ same_text) }
{
    let mut out = Writer::new(Vec::new(alloc));
    write_same_object(&mut out)?;
    let mut text = text_of(out);
    text.push_str("\n")?;
    Ok(text)
}

/// That two programs differ, as one line of JSON: `after` and `before`, the paths to where it shows, `same`, and `why`, a word.
///
/// # Errors
///
/// Where memory is refused.
pub fn write_difference(
    alloc: Global,
    after: &str,
    before: &str,
    why: &str,
) -> Result<String, AllocError>
    ensures { IfOk result (λ text. string_bytes text ≡ difference_text after.now before.now why.now) }
{
    let mut out = Writer::new(Vec::new(alloc));
    write_difference_object(&mut out, after, before, why)?;
    let mut text = text_of(out);
    text.push_str("\n")?;
    Ok(text)
}
