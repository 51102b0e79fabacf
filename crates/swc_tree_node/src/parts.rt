//! What stands in a node, read in place.
ghost use Rattle.std.specs.Prelude.{◌≡◌, nat_eq, position};
ghost use Rattle.std.specs.Cmp.Lexicographic.{pointwise};
ghost use Rattle.std.specs.Option.{option_copied};
ghost use Rattle.swc_tree_node.specs.Parts.{kind_of, flag_of, word_of, text_of, span_of, ident_of, children_of, field_of, place_of, has_parts as is_list_or_tree, may_hold_names as is_no_leaf};

use crate::kind::{Kind, Word};
use crate::node::Node;
use crate::slot::Field;
use crate::table::fields_of;
use swc_tree_marks::{Ident, Span};

impl Node {
    /// What struct the node is, if it is one.
    pub fn kind(&self) -> Option<Kind>
        ensures { result ≡ kind_of self.now }
    {
        match self {
            Node::Identifier(kind, _) | Node::Tree(kind, _) => Some(*kind),
            _ => None,
        }
    }

    /// The flag that the node is, if it is one.
    pub fn as_flag(&self) -> Option<bool>
        ensures { result ≡ flag_of self.now }
    {
        match self {
            Node::Flag(flag) => Some(*flag),
            _ => None,
        }
    }

    /// The word that the node is, if it is one.
    pub fn as_word(&self) -> Option<Word>
        ensures { result ≡ word_of self.now }
    {
        match self {
            Node::Word(word) => Some(*word),
            _ => None,
        }
    }

    /// The text that the node is, if it is one.
    pub fn as_text(&self) -> Option<&str>
        ensures { option_copied result ≡ text_of self.now }
    {
        match self {
            Node::Text(text) => Some(text.as_str()),
            _ => None,
        }
    }

    /// The span that the node is, if it is one.
    pub fn as_span(&self) -> Option<Span>
        ensures { result ≡ span_of self.now }
    {
        match self {
            Node::Span(span) => Some(*span),
            _ => None,
        }
    }

    /// The identifier that the node is, of whatever kind, if it is one.
    pub fn as_ident(&self) -> Option<&Ident>
        ensures { option_copied result ≡ ident_of self.now }
    {
        match self {
            Node::Identifier(_, ident) => Some(ident.get()),
            _ => None,
        }
    }

    /// What stands right below, in the order of the source: the items of a list, or the fields of a
    /// tree. There is nothing below a leaf or an identifier.
    pub fn children(&self) -> &[Node]
        ensures { result.now ≡ children_of self.now }
    {
        match self {
            Node::List(nodes) | Node::Tree(_, nodes) => nodes.as_slice(),
            _ => &[],
        }
    }

    /// Whether nodes may stand below: whether the node is a list or a tree. Most nodes have no parts,
    /// and a walk leaves them where they are.
    #[inline]
    pub fn has_parts(&self) -> bool
        ensures { result ≡ is_list_or_tree self.now }
    {
        matches!(self, Node::List(_) | Node::Tree(..))
    }

    /// Whether an identifier may stand in the node: whether it is one, a list or a tree.
    #[inline]
    pub fn may_hold_names(&self) -> bool
        ensures { result ≡ is_no_leaf self.now }
    {
        matches!(self, Node::List(_) | Node::Identifier(..) | Node::Tree(..))
    }

    /// The field of a key, as the table calls it. No other node than a tree has fields.
    pub fn field(&self, key: &str) -> Option<&Node>
        ensures { option_copied result ≡ field_of key.now self.now }
    {
        match self {
            Node::Tree(kind, fields) => fields.get(place_of(*kind, key)?),
            _ => None,
        }
    }
}

// Where a key stands among the fields of a kind.
#[tactic(auto, using(crate::proofs::Keys::position_map))]
fn place_of(kind: Kind, key: &str) -> Option<usize>
    ensures { result ≡ place_of kind key.now }
{
    place_among(fields_of(kind), key)
}

// Where a key stands among fields.
fn place_among(fields: &[Field], key: &str) -> Option<usize>
    ensures { result ≡ position (λ f. pointwise nat_eq f.key.now key.now) fields.now }
{
    fields.iter().position(|field| field.key == key)
}
