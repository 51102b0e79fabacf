//! The page.
ghost use Rattle.std.specs.Prelude.{◌≡◌, ◌≤◌, ◌++◌, length, IfOk, OnOk};
ghost use Rattle.std.specs.List.{All};
ghost use Rattle.mucwathi_page.specs.Drawn.{EndsNoTag, as_html, class_text, drawn, end_of, escaped, head_text, foot_text, hue as colour, named, near as nearest, new_text, page_text, tag_text, up_to};
ghost use Rattle.mucwathi_page.specs.Shown.{IsPage};

use std::alloc::{AllocError, Global};

/// Where a name stands in a text, whose it is, and what else it is called.
#[derive(Clone, Copy, Debug)]
pub struct Use<'a> {
    /// How many bytes are before it.
    pub from: usize,
    /// How many bytes are before what is behind it.
    pub to: usize,
    /// The number of its variable.
    pub variable: usize,
    /// The mark of its scope.
    pub mark: u32,
    /// What it is called anew, if it is.
    pub new: Option<&'a str>,
}

const STYLE: &str = "
body { margin: 0; background: #fff; color: #333; }
pre { margin: 0; padding: 1em 1em 4em; font: 14px/1.5 monospace; tab-size: 4; }
b { font-weight: normal; color: hsl(var(--hue) 75% 35%); border-radius: 2px; cursor: default; }
b.free { color: inherit; font-style: italic; }
b[data-new] { text-decoration: underline dotted; }
b.scope { background: hsl(var(--hue) 60% 92%); }
b.use { background: hsl(var(--hue) 90% 80%); font-weight: bold; }
p { position: fixed; bottom: 0; left: 0; right: 0; margin: 0; padding: .5em 1em; background: #eee; font: 14px/1.5 sans-serif; }
";

const SCRIPT: &str = "
const names = [...document.querySelectorAll('b')];
const said = document.querySelector('p');
const hint = said.textContent;
function mark(name) {
  for (const each of names) {
    each.classList.toggle('use', name !== null && each.dataset.of === name.dataset.of);
    each.classList.toggle('scope', name !== null && each.dataset.scope === name.dataset.scope);
  }
}
function tell(name) {
  const uses = names.filter((each) => each.dataset.of === name.dataset.of);
  const where = name.classList.contains('free') ? 'free, declared nowhere here' : `of scope ${name.dataset.scope}`;
  const others = name.dataset.new ? `; chain calls it ${name.dataset.new}` : '';
  said.textContent = `${name.textContent}: ${where}; ${uses.length} places${others}`;
}
for (const name of names) {
  name.onmouseenter = () => { mark(name); tell(name); };
  name.onmouseleave = () => { mark(null); said.textContent = hint; };
}
";

// Adds a byte of a text as HTML.
fn add_byte(out: &mut Vec<u8>, byte: u8) -> Result<(), AllocError>
    ensures { OnOk result (out.new.items ≡ out.old.items ++ escaped byte) }
{
    if byte == b'&' {
        out.extend_from_slice(b"&amp;")?;
    } else if byte == b'<' {
        out.extend_from_slice(b"&lt;")?;
    } else if byte == b'>' {
        out.extend_from_slice(b"&gt;")?;
    } else if byte == b'"' {
        out.extend_from_slice(b"&quot;")?;
    } else {
        out.push(byte)?;
    }
    Ok(())
}

// Adds a part of a text as HTML.
fn add_text(out: &mut Vec<u8>, part: &[u8]) -> Result<(), AllocError>
    ensures { OnOk result (out.new.items ≡ out.old.items ++ as_html part.now) }
{
    for byte in part {
        add_byte(out, *byte)?;
    }
    Ok(())
}

// The mark of names that nothing declares.
const FREE: u32 = 1;

// The colour of a variable, in degrees: a golden section of the circle on from one to the next.
fn hue(variable: usize) -> usize
    ensures { result ≡ colour variable }
{
    variable % 360 * 137 % 360
}

// Names that nothing declares are of a class.
fn class_of(mark: u32) -> &'static str
    ensures { result.now ≡ class_text mark }
{
    if mark == FREE { " class=free" } else { "" }
}

// Adds what a name is called anew, if it is.
fn add_new(out: &mut Vec<u8>, new: Option<&str>) -> Result<(), AllocError>
    ensures { OnOk result (out.new.items ≡ out.old.items ++ new_text new.entry) }
{
    if let Some(new) = new {
        out.extend_from_slice(b" data-new=\"")?;
        add_text(out, new.as_bytes())?;
        out.push(b'"')?;
    }
    Ok(())
}

// What a tag tells of a name.
fn tag_of(alloc: Global, each: &Use<'_>) -> Result<Vec<u8>, AllocError>
    ensures tag { IfOk result (λ tag. tag.items ≡ tag_text each.now) }
    ensures inside { IfOk result (λ tag. EndsNoTag each.now) }
{
    let class = class_of(each.mark);
    let (variable, mark) = (each.variable, each.mark);
    let hue = hue(variable);
    let data = format!(in alloc;
        "b{class} data-of={variable} data-scope={mark} style=\"--hue:{hue}\""
    )?;
    let mut tag = data.into_bytes();
    add_new(&mut tag, each.new)?;
    Ok(tag)
}

// Adds a name in its tags.
fn add_named(
    alloc: Global,
    name: &[u8],
    each: &Use<'_>,
    out: &mut Vec<u8>,
) -> Result<(), AllocError>
    ensures named { OnOk result (out.new.items ≡ out.old.items ++ named each.now name.now) }
    ensures inside { OnOk result (EndsNoTag each.now) }
{
    let tag = tag_of(alloc, each)?;
    out.push(b'<')?;
    out.extend_from_slice(tag.as_slice())?;
    out.push(b'>')?;
    add_text(out, name)?;
    out.extend_from_slice(b"</b>")?;
    Ok(())
}

// The nearest place to one between two others.
fn near(at: usize, low: usize, high: usize) -> usize
    requires { low ≤ high }
    ensures nearest { result ≡ nearest at low high }
    ensures low { low ≤ result }
    ensures high { result ≤ high }
{
    at.min(high).max(low)
}

// Adds what is before a name, from a place on, and the name; tells the place behind.
fn add_name(
    alloc: Global,
    text: &[u8],
    from: usize,
    each: &Use<'_>,
    out: &mut Vec<u8>,
) -> Result<usize, AllocError>
    requires { from ≤ length text.now }
    ensures within { IfOk result (λ to. to ≤ length text.now) }
    ensures place { IfOk result (λ to. to ≡ end_of text.now from each.now) }
    ensures added { OnOk result (out.new.items ≡ out.old.items ++ up_to text.now from each.now) }
    ensures inside { OnOk result (EndsNoTag each.now) }
{
    let begin = near(each.from, from, text.len());
    let end = near(each.to, begin, text.len());
    add_text(out, &text[from..begin])?;
    add_named(alloc, &text[begin..end], each, out)?;
    Ok(end)
}

fn add_names(
    alloc: Global,
    text: &[u8],
    uses: &[Use<'_>],
    out: &mut Vec<u8>,
) -> Result<(), AllocError>
    ensures drawn { OnOk result (out.new.items ≡ out.old.items ++ drawn text.now 0 uses.now) }
    ensures inside { OnOk result (All EndsNoTag uses.now) }
{
    let mut from = 0;
    for each in uses {
        from = add_name(alloc, text, from, each, out)?;
    }
    add_text(out, &text[from..])
}

// Adds what is before the text.
fn add_head(out: &mut Vec<u8>, name: &str) -> Result<(), AllocError>
    ensures { OnOk result (out.new.items ≡ out.old.items ++ head_text name.now) }
{
    out.extend_from_slice(b"<!DOCTYPE html>\n<html lang=en><meta charset=utf-8><title>")?;
    add_text(out, name.as_bytes())?;
    out.extend_from_slice(b"</title><style>")?;
    out.extend_from_slice(STYLE.as_bytes())?;
    // A line end right behind the tag is none of the text (HTML, 13.1.2.5).
    out.extend_from_slice(b"</style><pre>\n")?;
    Ok(())
}

// Adds what is behind it.
fn add_foot(out: &mut Vec<u8>) -> Result<(), AllocError>
    ensures { OnOk result (out.new.items ≡ out.old.items ++ foot_text) }
{
    out.extend_from_slice(b"</pre>")?;
    out.extend_from_slice(
        b"<p>Point at a name: its uses, and the other names of its scope.</p><script>",
    )?;
    out.extend_from_slice(SCRIPT.as_bytes())?;
    out.extend_from_slice(b"</script></html>\n")?;
    Ok(())
}

/// The page of a text of that name, with the names in it: between its tags, in `pre`, it has the text.
pub fn page(alloc: Global, name: &str, text: &[u8], uses: &[Use<'_>]) -> Result<Vec<u8>, AllocError>
    ensures drawn { IfOk result (λ page. page.items ≡ page_text name.now text.now uses.now) }
    ensures shown { IfOk result (λ page. IsPage text.now page.items) }
{
    let mut out = Vec::new(alloc);
    add_head(&mut out, name)?;
    add_names(alloc, text, uses, &mut out)?;
    add_foot(&mut out)?;
    Ok(out)
}
