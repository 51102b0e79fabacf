//! A tree's tokens, one after another.
#![tactic(auto, using(crate::proofs::Sinks::stays))]

ghost use Rattle.std.specs.Prelude.{◌≡◌, ◌&&◌, ◌||◌, ◌++◌, [], ◌∷◌, Some, false, not, map, OnOk, slice_get, if◌then◌else◌};
ghost use Rattle.swc_tree_node.specs.declared.node.Node.{out-Node};
ghost use Rattle.text_pieces.specs.Frames.{framed_name, framing, in_frames, span_at as field_span};
ghost use Rattle.text_pieces.specs.Leaves.{lone_span as name_span};
ghost use Rattle.text_pieces.specs.Pieces as spec;
ghost use Rattle.text_pieces.specs.Pieces.{written, written_with};
ghost use Rattle.text_pieces.specs.Tokens.{name, parameter, piece_view};
ghost use Rattle.text_walk.specs.Sinks.{Gains};

use crate::form::{add_form, piece_of_word};
use crate::frame::{
    first_span, inner_span, own_span, push_begun, push_named, push_stopped, push_text_begun,
    push_text_stopped, span_at,
};
use crate::leaf::{
    field_at, is_declaration_at, is_expression_at, is_lone_at, is_named, is_set_at, items_of,
    lone_name, lone_span, text_at,
};
use crate::sink::{Refusal, Sink, push, push_if, push_mark, push_name, push_word};
use swc_tree_marks::Ident;
use swc_tree_node::{Kind, Node};
use text_lexer::{Mark, TemplatePart};
use text_pieces::{Form, Gap, Item, Many, Piece, apart_layout_of, keyword_text, layout_of};

fn opening_part(some: bool) -> TemplatePart
    ensures { result ≡ spec.opening_part some }
{
    if some {
        TemplatePart::Middle
    } else {
        TemplatePart::Head
    }
}

fn closing_part(some: bool) -> TemplatePart
    ensures { result ≡ spec.closing_part some }
{
    if some {
        TemplatePart::Tail
    } else {
        TemplatePart::Whole
    }
}

fn template_piece(part: TemplatePart, node: &Node) -> Piece<'_>
    ensures { piece_view result ≡ spec.template_piece part (out-Node node.now) }
{
    match node {
        Node::Tree(Kind::TplElement, fields) => match text_at(fields.as_slice(), 3) {
            Some(raw) => Piece::Template(part, text_at(fields.as_slice(), 2), raw),
            None => Piece::Never,
        },
        _ => Piece::Never,
    }
}

fn items_at(fields: &[Node], n: usize) -> &[Node]
    ensures { result.now ≡ spec.items_at fields.now n }
{
    match field_at(fields, n) {
        Some(node) => items_of(node),
        None => &[],
    }
}

fn add_of<'a>(fields: &'a [Node], n: usize, form: Form, found: &mut Sink<'a>) -> Result<(), Refusal>
    ensures { OnOk result (Gains found.old (spec.form_in form (slice_get fields.now n)) found.new) }
{
    match field_at(fields, n) {
        Some(node) => add_form(node, form, found),
        None => Ok(()),
    }
}

fn quoted_piece<'a>(
    fields: &'a [Node],
    n: usize,
    m: usize,
    found: &mut Sink<'a>,
) -> Result<(), Refusal>
    ensures { OnOk result (Gains found.old (spec.quoted_at fields.now n m) found.new) }
{
    match text_at(fields, n) {
        Some(value) => push(found, Piece::Quoted(value, text_at(fields, m))),
        None => push(found, Piece::Never),
    }
}

fn regex_piece<'a>(
    fields: &'a [Node],
    n: usize,
    m: usize,
    found: &mut Sink<'a>,
) -> Result<(), Refusal>
    ensures { OnOk result (Gains found.old (spec.regex_at fields.now n m) found.new) }
{
    match text_at(fields, n) {
        Some(pattern) => match text_at(fields, m) {
            Some(flags) => push(found, Piece::Regex(pattern, flags)),
            None => push(found, Piece::Never),
        },
        None => push(found, Piece::Never),
    }
}

fn add_parameter<'a>(
    framed: bool,
    node: &'a Node,
    name: &'a str,
    found: &mut Sink<'a>,
) -> Result<(), Refusal>
    ensures { OnOk result (Gains found.old (framed_name framed (name_span (out-Node node.now)) name.now ++ parameter name.now ∷ []) found.new) }
{
    push_named(framed, lone_span(node), name, found)?;
    push(found, Piece::Parameter(name))
}

// One plain name that may stand in parentheses.
fn add_lone<'a>(
    framed: bool,
    fields: &'a [Node],
    n: usize,
    found: &mut Sink<'a>,
) -> Result<(), Refusal>
    ensures { OnOk result (Gains found.old (spec.lone_in framed (slice_get fields.now n)) found.new) }
{
    match field_at(fields, n) {
        Some(node) => match lone_name(node) {
            Some(name) => add_parameter(framed, node, name, found),
            None => Ok(()),
        },
        None => Ok(()),
    }
}

fn add_dots<'a>(
    framed: bool,
    fields: &'a [Node],
    n: usize,
    found: &mut Sink<'a>,
) -> Result<(), Refusal>
    ensures { OnOk result (Gains found.old (spec.dots_at framed fields.now n) found.new) }
{
    if !is_set_at(fields, n) {
        return Ok(());
    }
    if !framed {
        return push(found, Piece::Mark(Mark::Dots));
    }
    push_begun(span_at(fields, n), found)?;
    push(found, Piece::Mark(Mark::Dots))?;
    push_stopped(span_at(fields, n), found)
}

// A text of a template.
fn add_text<'a>(
    framed: bool,
    part: TemplatePart,
    node: &'a Node,
    found: &mut Sink<'a>,
) -> Result<(), Refusal>
    ensures { OnOk result (Gains found.old (spec.text_in_frame framed part (out-Node node.now)) found.new) }
{
    if !framed {
        return push(found, template_piece(part, node));
    }
    push_text_begun(first_span(node), found)?;
    push(found, template_piece(part, node))?;
    push_text_stopped(part, first_span(node), found)
}

fn add_name<'a>(framed: bool, ident: &'a Ident, found: &mut Sink<'a>) -> Result<(), Refusal>
    ensures { OnOk result (Gains found.old (framing framed (Some ident.now.span) (name ident.now.sym ∷ [])) found.new) }
{
    if !framed {
        return push_name(found, ident.sym.as_str());
    }
    push_begun(Some(ident.span), found)?;
    push_name(found, ident.sym.as_str())?;
    push_stopped(Some(ident.span), found)
}

/// Takes the tokens that a tree is written with; `framed`: with each node in the frame of its span.
#[cycle(add)]
pub(crate) fn add<'a>(framed: bool, tree: &'a Node, found: &mut Sink<'a>) -> Result<(), Refusal>
    ensures { OnOk result (Gains found.old (written_with framed tree.now) found.new) }
{
    match tree {
        Node::List(items) => add_lines(framed, items.as_slice(), found),
        Node::Identifier(_, ident) => add_name(framed, ident.get(), found),
        Node::Word(word) => push(found, piece_of_word(*word)),
        Node::Tree(kind, fields) => add_tree(
            framed,
            *kind,
            layout_of(*kind),
            fields.as_slice(),
            found,
        ),
        Node::Absent | Node::Flag(_) | Node::Text(_) | Node::Span(_) => Ok(()),
    }
}

#[cycle(add)]
fn add_apart<'a>(framed: bool, tree: &'a Node, found: &mut Sink<'a>) -> Result<(), Refusal>
    ensures { OnOk result (Gains found.old ((written framed tree.now).apart) found.new) }
{
    match tree {
        Node::Tree(kind, fields) => add_tree(
            framed,
            *kind,
            apart_layout_of(*kind),
            fields.as_slice(),
            found,
        ),
        _ => Ok(()),
    }
}

// The same without its frames.
#[cycle(add)]
fn add_within<'a>(framed: bool, tree: &'a Node, found: &mut Sink<'a>) -> Result<(), Refusal>
    ensures { OnOk result (Gains found.old ((written framed tree.now).within) found.new) }
{
    match tree {
        Node::Tree(kind, fields) => add_fields(framed, layout_of(*kind), fields.as_slice(), found),
        _ => Ok(()),
    }
}

// What a node of a kind is written with by a layout, in its frames.
#[cycle(add)]
fn add_tree<'a>(
    framed: bool,
    kind: Kind,
    layout: &[Item],
    fields: &'a [Node],
    found: &mut Sink<'a>,
) -> Result<(), Refusal>
    ensures { OnOk result (Gains found.old (in_frames framed kind fields.now (spec.layout_pieces framed fields.now (map (written framed) fields.now) layout.now)) found.new) }
{
    if !framed {
        return add_fields(framed, layout, fields, found);
    }
    push_begun(own_span(kind, fields), found)?;
    push_begun(inner_span(kind, fields), found)?;
    add_fields(framed, layout, fields, found)?;
    push_stopped(inner_span(kind, fields), found)?;
    push_stopped(own_span(kind, fields), found)
}

#[cycle(add)]
fn add_lines<'a>(framed: bool, items: &'a [Node], found: &mut Sink<'a>) -> Result<(), Refusal>
    ensures { OnOk result (Gains found.old (spec.lines (map (written_with framed) items.now)) found.new) }
{
    for i in 0..items.len() {
        push(found, Piece::Gap(Gap::Line))?;
        add(framed, &items[i], found)?;
    }
    Ok(())
}

#[cycle(add)]
fn add_list<'a>(framed: bool, items: &'a [Node], found: &mut Sink<'a>) -> Result<(), Refusal>
    ensures { OnOk result (Gains found.old (spec.with_commas (map (written_with framed) items.now)) found.new) }
{
    for i in 0..items.len() {
        push_if(found, i > 0, Piece::Mark(Mark::Comma))?;
        add(framed, &items[i], found)?;
    }
    Ok(())
}

// Whether a brace opens before the next specifier.
fn opens(inside: bool, named: bool) -> bool
    ensures { result ≡ (named && not inside) }
{
    named && !inside
}

// Whether one is open behind it.
fn stays_open(inside: bool, named: bool) -> bool
    ensures { result ≡ (inside || named) }
{
    inside || named
}

#[cycle(add)]
fn add_specifiers<'a>(framed: bool, items: &'a [Node], found: &mut Sink<'a>) -> Result<(), Refusal>
    ensures { OnOk result (Gains found.old (spec.specified false false items.now (map (written_with framed) items.now)) found.new) }
{
    let mut some = false;
    let mut inside = false;
    for i in 0..items.len() {
        let item = &items[i];
        let named = is_named(item);
        push_if(found, some, Piece::Mark(Mark::Comma))?;
        push_if(found, opens(inside, named), Piece::Mark(Mark::LeftBrace))?;
        add(framed, item, found)?;
        some = true;
        inside = stays_open(inside, named);
    }
    push_if(found, inside, Piece::MayComma)?;
    push_if(found, inside, Piece::Mark(Mark::RightBrace))
}

#[cycle(add)]
fn add_template<'a>(
    framed: bool,
    parts: &'a [Node],
    texts: &'a [Node],
    found: &mut Sink<'a>,
) -> Result<(), Refusal>
    ensures { OnOk result (Gains found.old (spec.template_pieces framed texts.now (map (written_with framed) parts.now)) found.new) }
{
    if texts.len() != parts.len() + 1 {
        return push(found, Piece::Never);
    }
    let mut some = false;
    for i in 0..parts.len() {
        add_text(framed, opening_part(some), &texts[i], found)?;
        add(framed, &parts[i], found)?;
        some = true;
    }
    add_text(framed, closing_part(some), &texts[parts.len()], found)
}

#[cycle(add)]
fn add_many<'a>(
    framed: bool,
    items: &'a [Node],
    texts: &'a [Node],
    many: Many,
    found: &mut Sink<'a>,
) -> Result<(), Refusal>
    ensures { OnOk result (Gains found.old (spec.many_pieces framed many texts.now items.now (map (written_with framed) items.now)) found.new) }
{
    match many {
        Many::List => add_list(framed, items, found),
        Many::Specifiers => add_specifiers(framed, items, found),
        Many::Template => add_template(framed, items, texts, found),
    }
}

#[cycle(add)]
fn add_items<'a>(
    framed: bool,
    fields: &'a [Node],
    n: usize,
    texts: &'a [Node],
    many: Many,
    found: &mut Sink<'a>,
) -> Result<(), Refusal>
    ensures { OnOk result (Gains found.old (spec.items_pieces framed many texts.now (spec.each_in (slice_get (map (written framed) fields.now) n))) found.new) }
{
    if n >= fields.len() {
        return Ok(());
    }
    match &fields[n] {
        Node::List(items) => add_many(framed, items.as_slice(), texts, many, found),
        _ => Ok(()),
    }
}

#[cycle(add)]
fn add_part<'a>(
    framed: bool,
    fields: &'a [Node],
    n: usize,
    found: &mut Sink<'a>,
) -> Result<(), Refusal>
    ensures { OnOk result (Gains found.old (spec.pieces_in (slice_get (map (written framed) fields.now) n)) found.new) }
{
    if n < fields.len() {
        add(framed, &fields[n], found)
    } else {
        Ok(())
    }
}

#[cycle(add)]
fn add_other<'a>(
    framed: bool,
    fields: &'a [Node],
    n: usize,
    found: &mut Sink<'a>,
) -> Result<(), Refusal>
    ensures { OnOk result (Gains found.old (spec.apart_in (slice_get (map (written framed) fields.now) n)) found.new) }
{
    if n < fields.len() {
        add_apart(framed, &fields[n], found)
    } else {
        Ok(())
    }
}

#[cycle(add)]
fn add_inner<'a>(
    framed: bool,
    fields: &'a [Node],
    n: usize,
    found: &mut Sink<'a>,
) -> Result<(), Refusal>
    ensures { OnOk result (Gains found.old (spec.within_in (slice_get (map (written framed) fields.now) n)) found.new) }
{
    if n < fields.len() {
        add_within(framed, &fields[n], found)
    } else {
        Ok(())
    }
}

// A field in the frame of the span that another is.
#[cycle(add)]
fn add_at<'a>(
    framed: bool,
    fields: &'a [Node],
    n: usize,
    m: usize,
    found: &mut Sink<'a>,
) -> Result<(), Refusal>
    ensures { OnOk result (Gains found.old (framing framed (field_span fields.now n) (spec.pieces_in (slice_get (map (written framed) fields.now) m))) found.new) }
{
    if !framed {
        return add_part(framed, fields, m, found);
    }
    push_begun(span_at(fields, n), found)?;
    add_part(framed, fields, m, found)?;
    push_stopped(span_at(fields, n), found)
}

#[cycle(add)]
fn add_chosen<'a>(
    framed: bool,
    apart: bool,
    fields: &'a [Node],
    n: usize,
    found: &mut Sink<'a>,
) -> Result<(), Refusal>
    ensures { OnOk result (Gains found.old (spec.chosen apart (slice_get (map (written framed) fields.now) n)) found.new) }
{
    if apart {
        add_other(framed, fields, n, found)
    } else {
        add_part(framed, fields, n, found)
    }
}

#[cycle(add)]
fn add_part_if<'a>(
    framed: bool,
    wanted: bool,
    fields: &'a [Node],
    n: usize,
    found: &mut Sink<'a>,
) -> Result<(), Refusal>
    ensures { OnOk result (Gains found.old (if wanted then spec.pieces_in (slice_get (map (written framed) fields.now) n) else []) found.new) }
{
    if wanted {
        add_part(framed, fields, n, found)
    } else {
        Ok(())
    }
}

#[cycle(add)]
fn add_others<'a>(
    framed: bool,
    fields: &'a [Node],
    n: usize,
    found: &mut Sink<'a>,
) -> Result<(), Refusal>
    ensures { OnOk result (Gains found.old (spec.others_at framed fields.now (map (written framed) fields.now) n) found.new) }
{
    if is_lone_at(fields, n) {
        Ok(())
    } else {
        add_items(framed, fields, n, &[], Many::List, found)
    }
}

#[cycle(add)]
fn add_fields<'a>(
    framed: bool,
    layout: &[Item],
    fields: &'a [Node],
    found: &mut Sink<'a>,
) -> Result<(), Refusal>
    ensures { OnOk result (Gains found.old (spec.layout_pieces framed fields.now (map (written framed) fields.now) layout.now) found.new) }
{
    for i in 0..layout.len() {
        add_item(framed, layout[i], fields, found)?;
    }
    Ok(())
}

#[cycle(add)]
fn add_item<'a>(
    framed: bool,
    item: Item,
    fields: &'a [Node],
    found: &mut Sink<'a>,
) -> Result<(), Refusal>
    ensures { OnOk result (Gains found.old (spec.item_pieces framed fields.now (map (written framed) fields.now) item) found.new) }
{
    match item {
        Item::Part(n) => add_part(framed, fields, n, found),
        Item::Within(n) => add_inner(framed, fields, n, found),
        Item::At(n, m) => add_at(framed, fields, n, m, found),
        Item::Dots(n) => add_dots(framed, fields, n, found),
        Item::Lone(n) => add_lone(framed, fields, n, found),
        Item::Sign(mark) => push_mark(found, mark),
        Item::Word(keyword) => push_word(found, keyword_text(keyword)),
        Item::Of(n, form) => add_of(fields, n, form, found),
        Item::List(n) => add_items(framed, fields, n, &[], Many::List, found),
        Item::Head(n) => add_chosen(framed, is_declaration_at(fields, n), fields, n, found),
        Item::Body(n) => add_chosen(framed, is_expression_at(fields, n), fields, n, found),
        Item::Apart(n, m) => add_chosen(framed, is_set_at(fields, n), fields, m, found),
        Item::If(n, m) => add_part_if(framed, is_set_at(fields, n), fields, m, found),
        Item::Unless(n, m) => add_part_if(framed, !is_set_at(fields, n), fields, m, found),
        Item::Others(n) => add_others(framed, fields, n, found),
        Item::Specifiers(n) => add_items(framed, fields, n, &[], Many::Specifiers, found),
        Item::Template(n, m) => add_items(
            framed,
            fields,
            m,
            items_at(fields, n),
            Many::Template,
            found,
        ),
        Item::Quoted(n, m) => quoted_piece(fields, n, m, found),
        Item::Regex(n, m) => regex_piece(fields, n, m, found),
        Item::Here => push(found, Piece::Here),
        Item::In => push(found, Piece::Gap(Gap::In)),
        Item::Out => push(found, Piece::Gap(Gap::Out)),
        Item::Closes(ending) => push(found, Piece::Closes(ending)),
        Item::End => push(found, Piece::End),
        Item::Never => push(found, Piece::Never),
    }
}
