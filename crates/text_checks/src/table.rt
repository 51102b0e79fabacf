//! Whether what stands in a tree may stand there, by the table.
ghost use Rattle.std.specs.Prelude.{◌≡◌, ◌<◌, Some, length, map, slice_get};
ghost use Rattle.swc_tree_node.specs.Fits as spec;
ghost use Rattle.swc_tree_node.specs.Table.{kind_number, slots_of, word_number};

use swc_tree_node::{
    Class, Content, Field, Kind, Node, Slot, Word, WordClass, fields_of, is_identifier, kinds_of,
    words_of,
};

fn number_of(kind: Kind) -> usize
    ensures { result ≡ kind_number kind }
{
    kind as usize
}

fn number_of_word(word: Word) -> usize
    ensures { result ≡ word_number word }
{
    word as usize
}

pub(crate) fn belongs(kind: Kind, class: Class) -> bool
    ensures { result ≡ spec.belongs kind class }
{
    let number = number_of(kind);
    kinds_of(class)
        .iter()
        .any(|other| number == number_of(*other))
}

fn is_among(word: Word, words: WordClass) -> bool
    ensures { result ≡ spec.is_among word words }
{
    let number = number_of_word(word);
    words_of(words)
        .iter()
        .any(|other| number == number_of_word(*other))
}

pub(crate) fn single(slot: Slot) -> Option<Content>
    ensures { result ≡ spec.single slot }
{
    match slot {
        Slot::One(content) | Slot::Optional(content) => Some(content),
        _ => None,
    }
}

fn absent_fits(slot: Slot) -> bool
    ensures { result ≡ spec.absent_fits slot }
{
    matches!(
        slot,
        Slot::Optional(_) | Slot::OptionalList(_) | Slot::Pairs
    )
}

fn flag_fits(content: Option<Content>) -> bool
    ensures { result ≡ spec.flag_fits content }
{
    matches!(content, Some(Content::Flag))
}

fn text_fits(content: Option<Content>) -> bool
    ensures { result ≡ spec.text_fits content }
{
    matches!(content, Some(Content::Text))
}

fn span_fits(content: Option<Content>) -> bool
    ensures { result ≡ spec.span_fits content }
{
    matches!(content, Some(Content::Span))
}

fn word_fits(word: Word, content: Option<Content>) -> bool
    ensures { result ≡ spec.word_fits word content }
{
    match content {
        Some(Content::Word(words)) => is_among(word, words),
        _ => false,
    }
}

fn identifier_fits(kind: Kind, content: Option<Content>) -> bool
    ensures { result ≡ spec.identifier_fits kind content }
{
    match content {
        Some(Content::Node(class)) => is_identifier(kind) && belongs(kind, class),
        _ => false,
    }
}

/// Whether a node may stand in a place, and all that is below it, each in its own.
///
/// It takes no memory, and looks at each node once.
#[cycle(fits)]
#[tactic(auto, using(swc_tree_node::proofs::Fit::fitting))]
pub fn fits(node: &Node, slot: Slot) -> bool
    ensures { result ≡ spec.fits node.now slot }
{
    match node {
        Node::Absent => absent_fits(slot),
        Node::Flag(_) => flag_fits(single(slot)),
        Node::Word(word) => word_fits(*word, single(slot)),
        Node::Text(_) => text_fits(single(slot)),
        Node::Span(_) => span_fits(single(slot)),
        Node::List(items) => list_fits(items.as_slice(), slot),
        Node::Identifier(kind, _) => identifier_fits(*kind, single(slot)),
        Node::Tree(kind, fields) => tree_fits(*kind, fields.as_slice(), single(slot)),
    }
}

#[cycle(fits)]
#[tactic(auto, using(crate::proofs::Fitting::all_items))]
fn all_fit(nodes: &[Node], slot: Slot) -> bool
    ensures { result ≡ spec.all_fit (map spec.fits nodes.now) slot }
{
    for i in 0..nodes.len() {
        if !fits(&nodes[i], slot) {
            return false;
        }
    }
    true
}

#[cycle(fits)]
pub(crate) fn list_fits(nodes: &[Node], slot: Slot) -> bool
    ensures { result ≡ spec.list_fits (map spec.fits nodes.now) slot }
{
    match slot {
        Slot::List(content) => all_fit(nodes, Slot::One(content)),
        Slot::OptionalList(content) => all_fit(nodes, Slot::One(content)),
        Slot::Holes(content) => all_fit(nodes, Slot::Optional(content)),
        Slot::Pairs => all_fit(nodes, Slot::Pair),
        Slot::Pair => match nodes {
            [key, value] => {
                let text = Slot::One(Content::Text);
                fits(key, text) && fits(value, text)
            }
            _ => false,
        },
        _ => false,
    }
}

#[cycle(fits)]
fn tree_fits(kind: Kind, fields: &[Node], content: Option<Content>) -> bool
    ensures { result ≡ spec.tree_fits kind (map spec.fits fields.now) content }
{
    match content {
        Some(Content::Node(class)) => {
            !is_identifier(kind) && (belongs(kind, class) && fields_fit(kind, fields))
        }
        _ => false,
    }
}

#[cycle(fits)]
fn fields_fit(kind: Kind, fields: &[Node]) -> bool
    ensures { result ≡ spec.each_fits (slots_of kind) (map spec.fits fields.now) }
{
    each_fits(fields_of(kind), fields)
}

// What stands in a field of the table.
#[tactic(auto, using(crate::proofs::Fitting::slot_of))]
pub(crate) fn slot_at(places: &[Field], i: usize) -> Slot
    requires { i < length places.now }
    ensures { slice_get (map (λ f. f.slot) places.now) i ≡ Some result }
{
    places[i].slot
}

#[cycle(fits)]
#[tactic(auto, using(crate::proofs::Fitting::misfits, crate::proofs::Fitting::all_passed))]
fn each_fits(places: &[Field], fields: &[Node]) -> bool
    ensures { result ≡ spec.each_fits (map (λ f. f.slot) places.now) (map spec.fits fields.now) }
{
    if places.len() != fields.len() {
        return false;
    }
    for i in 0..fields.len() {
        if !fits(&fields[i], slot_at(places, i)) {
            return false;
        }
    }
    true
}
