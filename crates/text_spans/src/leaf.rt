//! Leaves of a tree, and the bytes of a text at their spans.
ghost use Rattle.std.specs.Prelude.{◌≡◌, Some, codes, drop, length, take};
ghost use Rattle.std.specs.Option.{option_copied};
ghost use Rattle.swc_tree_grammar.specs.Forms.{holds as is_held};
ghost use Rattle.swc_tree_grammar.specs.Levels.{is_absent as is_nothing};
ghost use Rattle.swc_tree_node.specs.declared.node.Node.TheOpen.{Node-F};
ghost use Rattle.swc_tree_node.specs.Parts.{span_of, text_of};
ghost use Rattle.text_spans.specs.Leaves as spec;

use swc_tree_marks::Span;
use swc_tree_node::fields::{
    big_int, bool as boolean, empty_stmt, ident_name, import, null, number, private_name, regex,
    str, super_, this_expr, tpl_element,
};
use swc_tree_node::{Kind, Node};
use text_strings::Reading;
use text_values::{cooks_to, raw_is};

#[tactic(auto, using(std::proofs::lemmas::List::drop_min))]
fn behind(text: &[u8], n: usize) -> &[u8]
    ensures { result.now ≡ drop n text.now }
{
    let (_, behind) = text.split_at(n.min(text.len()));
    behind
}

#[tactic(auto, using(std::proofs::lemmas::List::take_min))]
fn front(text: &[u8], n: usize) -> &[u8]
    ensures { result.now ≡ take n text.now }
{
    let (front, _) = text.split_at(n.min(text.len()));
    front
}

fn bytes_at(text: &[u8], span: Span) -> &[u8]
    ensures { result.now ≡ spec.bytes_at text.now span }
{
    let start = span.lo.saturating_sub(1) as usize;
    let length = span.hi.saturating_sub(span.lo) as usize;
    front(behind(text, start), length)
}

/// Whether a name stands at a span, maybe with escapes.
pub fn name_stands(text: &[u8], span: Span, name: &str) -> bool
    ensures { result ≡ spec.name_stands text.now span name.now }
{
    0 < span.lo && cooks_to(Reading::Quoted, bytes_at(text, span), name.as_bytes())
}

fn is_private(name: &str, bytes: &[u8]) -> bool
    ensures { result ≡ spec.is_private name.now bytes.now }
{
    match bytes {
        [first, behind @ ..] => {
            *first == b'#' && cooks_to(Reading::Quoted, behind, name.as_bytes())
        }
        [] => false,
    }
}

fn private_name_stands(text: &[u8], span: Span, name: &str) -> bool
    ensures { result ≡ spec.private_name_stands text.now span name.now }
{
    0 < span.lo && is_private(name, bytes_at(text, span))
}

fn written_stands(text: &[u8], span: Span, written: &str) -> bool
    ensures { result ≡ spec.written_stands text.now span written.now }
{
    0 < span.lo && bytes_at(text, span) == written.as_bytes()
}

fn is_name_there(text: &[u8], span: &Node, name: &Node) -> bool
    ensures { result ≡ spec.is_there (spec.name_stands text.now) (span_of span.now) (text_of name.now) }
{
    match (span.as_span(), name.as_text()) {
        (Some(span), Some(name)) => name_stands(text, span, name),
        _ => false,
    }
}

fn is_private_name_there(text: &[u8], span: &Node, name: &Node) -> bool
    ensures { result ≡ spec.is_there (spec.private_name_stands text.now) (span_of span.now) (text_of name.now) }
{
    match (span.as_span(), name.as_text()) {
        (Some(span), Some(name)) => private_name_stands(text, span, name),
        _ => false,
    }
}

fn is_written_there(text: &[u8], span: &Node, written: &Node) -> bool
    ensures { result ≡ spec.is_there (spec.written_stands text.now) (span_of span.now) (text_of written.now) }
{
    match (span.as_span(), written.as_text()) {
        (Some(span), Some(written)) => written_stands(text, span, written),
        _ => false,
    }
}

fn template_stands(text: &[u8], span: Span, raw: &str) -> bool
    ensures { result ≡ spec.template_stands text.now span raw.now }
{
    0 < span.lo && raw_is(bytes_at(text, span), raw.as_bytes())
}

fn is_template_there(text: &[u8], span: &Node, raw: &Node) -> bool
    ensures { result ≡ spec.is_there (spec.template_stands text.now) (span_of span.now) (text_of raw.now) }
{
    match (span.as_span(), raw.as_text()) {
        (Some(span), Some(raw)) => template_stands(text, span, raw),
        _ => false,
    }
}

fn begins(part: &str, bytes: &[u8]) -> bool
    ensures { result ≡ spec.begins part.now bytes.now }
{
    front(bytes, part.len()) == part.as_bytes()
}

fn is_regex(pattern: &str, flags: &str, bytes: &[u8]) -> bool
    ensures { result ≡ spec.is_regex pattern.now flags.now bytes.now }
{
    let inner = behind(bytes, 1);
    let close = behind(inner, pattern.len());
    begins("/", bytes)
        && (begins(pattern, inner) && (begins("/", close) && behind(close, 1) == flags.as_bytes()))
}

fn is_regex_there(text: &[u8], span: &Node, pattern: &Node, flags: &Node) -> bool
    ensures { result ≡ spec.regex_stands text.now (span_of span.now) (text_of pattern.now) (text_of flags.now) }
{
    match (span.as_span(), pattern.as_text(), flags.as_text()) {
        (Some(span), Some(pattern), Some(flags)) => {
            0 < span.lo && is_regex(pattern, flags, bytes_at(text, span))
        }
        _ => false,
    }
}

fn is_word_there(text: &[u8], word: &str, span: &Node) -> bool
    ensures { result ≡ spec.word_stands text.now word.now span.now }
{
    match span.as_span() {
        Some(span) => written_stands(text, span, word),
        None => false,
    }
}

fn is_set(node: &Node) -> bool
    ensures { result ≡ is_held node.now }
{
    match node {
        Node::Flag(flag) => *flag,
        _ => false,
    }
}

fn truth<'a>(value: bool) -> &'a str
    ensures { result.now ≡ spec.truth value }
{
    if value { "true" } else { "false" }
}

// Whether a tree is one word or sign that stands elsewhere than it says.
fn is_misplaced_word(text: &[u8], kind: Kind, fields: &[Node]) -> bool
    ensures { result ≡ spec.is_misplaced_word text.now (Node-F.Tree kind fields.now) }
{
    match kind {
        Kind::ThisExpr if fields.len() == 1 => !is_word_there(
            text,
            "this",
            &fields[this_expr::SPAN],
        ),
        Kind::Super if fields.len() == 1 => !is_word_there(text, "super", &fields[super_::SPAN]),
        Kind::Import if fields.len() == 1 => !is_word_there(text, "import", &fields[import::SPAN]),
        Kind::Null if fields.len() == 1 => !is_word_there(text, "null", &fields[null::SPAN]),
        Kind::EmptyStmt if fields.len() == 1 => !is_word_there(
            text,
            ";",
            &fields[empty_stmt::SPAN],
        ),
        Kind::Bool if fields.len() == 2 => {
            let word = truth(is_set(&fields[boolean::VALUE]));
            !is_word_there(text, word, &fields[boolean::SPAN])
        }
        _ => false,
    }
}

fn is_absent(node: &Node) -> bool
    ensures { result ≡ is_nothing node.now }
{
    matches!(node, Node::Absent)
}

/// Whether a tree is a leaf that stands elsewhere than it says.
pub fn is_misplaced(text: &[u8], kind: Kind, fields: &[Node]) -> bool
    ensures { result ≡ spec.is_misplaced text.now (Node-F.Tree kind fields.now) }
{
    match kind {
        Kind::IdentName if fields.len() == 2 => {
            !is_name_there(text, &fields[ident_name::SPAN], &fields[ident_name::SYM])
        }
        Kind::PrivateName if fields.len() == 2 => !is_private_name_there(
            text,
            &fields[private_name::SPAN],
            &fields[private_name::NAME],
        ),
        Kind::Number if fields.len() == 2 => {
            !is_written_there(text, &fields[number::SPAN], &fields[number::TEXT])
        }
        Kind::BigInt if fields.len() == 2 => {
            !is_written_there(text, &fields[big_int::SPAN], &fields[big_int::TEXT])
        }
        Kind::Str if fields.len() == 3 => {
            !is_absent(&fields[str::RAW])
                && !is_written_there(text, &fields[str::SPAN], &fields[str::RAW])
        }
        Kind::Regex if fields.len() == 3 => !is_regex_there(
            text,
            &fields[regex::SPAN],
            &fields[regex::EXP],
            &fields[regex::FLAGS],
        ),
        Kind::TplElement if fields.len() == 4 => {
            !is_template_there(text, &fields[tpl_element::SPAN], &fields[tpl_element::RAW])
        }
        kind => is_misplaced_word(text, kind, fields),
    }
}
