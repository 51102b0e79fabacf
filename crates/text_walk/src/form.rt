//! What is written of a field by its form alone.
#![tactic(auto, using(crate::proofs::Sinks::stays))]

ghost use Rattle.std.specs.Prelude.{◌≡◌, ◌∷◌, ◌++◌, [], codes, false, OnOk, if◌then◌else◌};
ghost use Rattle.std.specs.Option.{option_copied};
ghost use Rattle.swc_tree_node.specs.declared.node.Node.{Node, out-Node};
ghost use Rattle.text_lexer.specs.declared.mark.Mark.TheVariants as mark;
ghost use Rattle.text_pieces.specs.Forms as spec;
ghost use Rattle.text_pieces.specs.Tokens.{piece_view, punctuator, sign_piece, word as word_of};
ghost use Rattle.text_walk.specs.Sinks.{Gains};

use crate::leaf::{
    ends_with_hole, has_items, is_block, is_computed, is_default_alone, is_empty_list,
    is_identifier_let, is_set, is_set_in, items_of, lone_name, may_comma, text_at,
};
use crate::sink::{Refusal, Sink, push, push_if, push_three, push_two};
use swc_tree_node::{Kind, Node, Word, spelling_of};
use text_lexer::Mark;
use text_pieces::{Ending, Form, Keyword, Piece, keyword_text, sign_of};

/// What a word of a node is written with.
pub(crate) fn piece_of_word(word: Word) -> Piece<'static>
    ensures { piece_view result ≡ spec.piece_of_word word }
{
    match sign_of(word) {
        Some(mark) => Piece::Mark(mark),
        None => Piece::Word(spelling_of(word)),
    }
}

fn add_accessor<'a>(node: &Node, found: &mut Sink<'a>) -> Result<(), Refusal>
    ensures { OnOk result (Gains found.old (spec.accessor (out-Node node.now)) found.new) }
{
    match node {
        Node::Word(Word::Getter) => push(found, Piece::Word("get")),
        Node::Word(Word::Setter) => push(found, Piece::Word("set")),
        _ => Ok(()),
    }
}

fn add_meta<'a>(node: &Node, found: &mut Sink<'a>) -> Result<(), Refusal>
    ensures { OnOk result (Gains found.old (spec.meta (out-Node node.now)) found.new) }
{
    let dot = Piece::Mark(Mark::Dot);
    match node {
        Node::Word(Word::NewTarget) => push_three(
            found,
            Piece::Word("new"),
            dot,
            Piece::Word("target"),
        ),
        Node::Word(Word::ImportMeta) => push_three(
            found,
            Piece::Word("import"),
            dot,
            Piece::Word("meta"),
        ),
        _ => Ok(()),
    }
}

fn add_bare<'a>(node: &Node, found: &mut Sink<'a>) -> Result<(), Refusal>
    ensures { OnOk result (Gains found.old (spec.bare (out-Node node.now)) found.new) }
{
    if is_empty_list(node) {
        push(found, Piece::MayFrom)
    } else {
        push_if(found, is_default_alone(node), Piece::MayBraces)
    }
}

fn add_braces<'a>(node: &Node, found: &mut Sink<'a>) -> Result<(), Refusal>
    ensures { OnOk result (Gains found.old (spec.braces (out-Node node.now)) found.new) }
{
    if is_empty_list(node) {
        push_two(
            found,
            Piece::Mark(Mark::LeftBrace),
            Piece::Mark(Mark::RightBrace),
        )
    } else {
        Ok(())
    }
}

fn add_async<'a>(node: &Node, found: &mut Sink<'a>) -> Result<(), Refusal>
    ensures { OnOk result (Gains found.old (spec.asynchronous (out-Node node.now)) found.new) }
{
    if is_set_in(node, 4) {
        push_two(found, Piece::Word("async"), Piece::Here)
    } else {
        Ok(())
    }
}

fn key_ending(text: &str) -> Ending
    ensures { result ≡ spec.key_ending text.now }
{
    if text == "get" || text == "set" {
        Ending::Accessor
    } else if text == "static" {
        Ending::Any
    } else {
        Ending::Field
    }
}

fn ending_of_key(node: &Node) -> Ending
    ensures { result ≡ spec.ending_of_key (out-Node node.now) }
{
    match node {
        Node::Tree(Kind::IdentName, fields) => match text_at(fields.as_slice(), 1) {
            Some(text) => key_ending(text),
            None => Ending::Field,
        },
        _ => Ending::Field,
    }
}

fn ending_of_attributes(node: &Node) -> Ending
    ensures { result ≡ spec.ending_of_attributes (out-Node node.now) }
{
    match node {
        Node::Absent => Ending::From,
        _ => Ending::Closed,
    }
}

fn attribute(node: &Node) -> Piece<'_>
    ensures { piece_view result ≡ spec.attribute (out-Node node.now) }
{
    let parts = items_of(node);
    match text_at(parts, 0) {
        Some(key) => match text_at(parts, 1) {
            Some(value) => Piece::Attribute(key, value),
            None => Piece::Never,
        },
        None => Piece::Never,
    }
}

fn add_pairs<'a>(pairs: &'a [Node], found: &mut Sink<'a>) -> Result<(), Refusal>
    ensures { OnOk result (Gains found.old (spec.pairs false pairs.now) found.new) }
{
    let mut some = false;
    for i in 0..pairs.len() {
        push_if(found, some, Piece::Mark(Mark::Comma))?;
        push(found, attribute(&pairs[i]))?;
        some = true;
    }
    push_if(found, some, Piece::MayComma)
}

fn add_attribute_list<'a>(pairs: &'a [Node], found: &mut Sink<'a>) -> Result<(), Refusal>
    ensures { OnOk result (Gains found.old (word_of (codes "with") ∷ punctuator mark.LeftBrace ∷ spec.pairs false pairs.now ++ punctuator mark.RightBrace ∷ []) found.new) }
{
    push_two(found, Piece::Word("with"), Piece::Mark(Mark::LeftBrace))?;
    add_pairs(pairs, found)?;
    push(found, Piece::Mark(Mark::RightBrace))
}

fn add_attributes<'a>(node: &'a Node, found: &mut Sink<'a>) -> Result<(), Refusal>
    ensures { OnOk result (Gains found.old (spec.attributes (out-Node node.now)) found.new) }
{
    match node {
        Node::List(pairs) => add_attribute_list(pairs.as_slice(), found),
        _ => Ok(()),
    }
}

fn add_text<'a>(node: &'a Node, form: Form, found: &mut Sink<'a>) -> Result<(), Refusal>
    ensures { OnOk result (Gains found.old (spec.text_pieces form node.now) found.new) }
{
    match node.as_text() {
        Some(text) => match form {
            Form::Name => push(found, Piece::Name(text)),
            Form::Number => push(found, Piece::Number(text)),
            Form::BigInt => push(found, Piece::BigInt(text)),
            Form::Private => push(found, Piece::Private(text)),
            _ => push(found, Piece::Hashbang(text)),
        },
        None => Ok(()),
    }
}

fn word<'a>(keyword: Keyword) -> Piece<'a>
    ensures { piece_view result ≡ spec.word_piece keyword }
{
    Piece::Word(keyword_text(keyword))
}

/// What is written of a node by a form.
pub(crate) fn add_form<'a>(node: &'a Node, form: Form, found: &mut Sink<'a>) -> Result<(), Refusal>
    ensures { OnOk result (Gains found.old (spec.form_pieces form node.now) found.new) }
{
    match form {
        Form::SignIf(mark) => push_if(found, is_set(node), Piece::Mark(mark)),
        Form::SignUnlessLone(mark) => push_if(found, lone_name(node).is_none(), Piece::Mark(mark)),
        Form::WordIf(keyword) => push_if(found, is_set(node), word(keyword)),
        Form::WordUnless(keyword) => push_if(found, !is_set(node), word(keyword)),
        Form::WordIfAny(keyword) => push_if(found, has_items(node), word(keyword)),
        Form::HereIf => push_if(found, is_set(node), Piece::Here),
        Form::HereUnless => push_if(found, !is_set(node), Piece::Here),
        Form::EndingUnless(ending) => push_if(found, !is_set(node), Piece::Closes(ending)),
        Form::Comma => push_if(found, may_comma(node), Piece::MayComma),
        Form::CommaUnlessLone => push_if(
            found,
            may_comma(node) && lone_name(node).is_none(),
            Piece::MayComma,
        ),
        Form::Hole => push_if(found, ends_with_hole(node), Piece::Mark(Mark::Comma)),
        Form::Name | Form::Number | Form::BigInt | Form::Private | Form::Hashbang => add_text(
            node, form, found,
        ),
        Form::Dot => push_if(found, !is_computed(node), Piece::Mark(Mark::Dot)),
        Form::Accessor => add_accessor(node, found),
        Form::Async => add_async(node, found),
        Form::Star => push_if(found, is_set_in(node, 3), Piece::Mark(Mark::Mul)),
        Form::Meta => add_meta(node, found),
        Form::Attributes => add_attributes(node, found),
        Form::Bare => add_bare(node, found),
        Form::Braces => add_braces(node, found),
        Form::BlockEnding => push_if(found, is_block(node), Piece::Closes(Ending::Closed)),
        Form::KeyEnding => push(found, Piece::Closes(ending_of_key(node))),
        Form::LetEnding => push_if(found, is_identifier_let(node), Piece::Closes(Ending::Let)),
        Form::FromEnding => push(found, Piece::Closes(ending_of_attributes(node))),
    }
}
