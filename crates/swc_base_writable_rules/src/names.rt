//! Names: what an identifier may be (ECMA-262, 12.7, 13.1.1).
ghost use Rattle.std.specs.Prelude.{◌≡◌, nat_eq};
ghost use Rattle.std.specs.List.{list_all};
ghost use Rattle.swc_tree_node.specs.declared.node.Node.{out-Node};
ghost use Rattle.swc_tree_grammar.specs.Writable.{begins_name as begins_as_name, is_bindable as may_be_bound, is_digit as is_ascii_digit, is_identifier_text as is_identifier_text_of, is_letter as is_name_letter, name_is};
ghost use Rattle.swc_base_writable_rules.specs.Rounds.{continues as continues_name, name_sound};

use crate::reserved::is_reserved;
use crate::round::Round;
use swc_tree_node::{Kind, Node};

// Whether a name may begin with a byte; those past ASCII are taken for letters.
fn is_letter(byte: u8) -> bool
    ensures { result ≡ is_name_letter byte }
{
    (b'a' <= byte && byte <= b'z')
        || ((b'A' <= byte && byte <= b'Z') || (byte == b'$' || (byte == b'_' || 128 <= byte)))
}

fn is_digit(byte: u8) -> bool
    ensures { result ≡ is_ascii_digit byte }
{
    b'0' <= byte && byte <= b'9'
}

// Whether a byte may stand in a name behind its first.
fn continues(byte: u8) -> bool
    ensures { result ≡ continues_name byte }
{
    is_letter(byte) || is_digit(byte)
}

fn all_continue(bytes: &[u8]) -> bool
    ensures { result ≡ list_all continues_name bytes.now }
{
    bytes.iter().all(|byte| continues(*byte))
}

fn begins_name(bytes: &[u8]) -> bool
    ensures { result ≡ begins_as_name bytes.now }
{
    match bytes {
        [] => false,
        [first, rest @ ..] => is_letter(*first) && all_continue(rest),
    }
}

/// Whether a text is an identifier and no reserved word.
pub fn is_identifier_text(text: &str) -> bool
    ensures { result ≡ is_identifier_text_of text.now }
{
    begins_name(text.as_bytes()) && !is_reserved(text)
}

/// Whether a text is a name that may be bound, in strict code or not.
pub fn is_bindable(strict: bool, text: &str) -> bool
    ensures { result ≡ may_be_bound strict text.now }
{
    is_identifier_text(text) && !(strict && (text == "eval" || text == "arguments"))
}

/// Whether a node is a name that may be bound, or nothing.
pub fn is_bound_name(strict: bool, node: &Node) -> bool
    ensures { result ≡ name_is strict (out-Node node.now) }
{
    match node {
        Node::Identifier(_, ident) => is_bindable(strict, ident.get().sym.as_str()),
        Node::Absent => true,
        _ => false,
    }
}

/// Whether an identifier of that kind may have the text.
pub fn is_sound_name(kind: Kind, text: &str, round: Round) -> bool
    ensures { result ≡ name_sound kind text.now round }
{
    match kind {
        Kind::BindingIdent => {
            if round.assigned {
                is_identifier_text(text)
            } else {
                is_bindable(round.strict, text)
            }
        }
        _ => is_identifier_text(text),
    }
}
