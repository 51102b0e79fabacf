//! Where the fault of a spoilt field lies.
use swc_tree_node::{Content, Field, Kind, Role, Slot, fields_of, is_identifier};

/// How a field is spoilt.
#[derive(Clone, Copy)]
pub enum Fault {
    /// A number with a fraction stands there.
    WrongType,
    /// The key is left out.
    Missing,
    /// The value stands in a list.
    ExtraLevel,
}

// The parts of an identifier. Its marks count as a list of what no field holds.
const IDENTIFIER: &[Field] = &[
    Field {
        key: "span",
        slot: Slot::One(Content::Span),
        role: Role::Plain,
    },
    Field {
        key: "ctxt",
        slot: Slot::List(Content::Flag),
        role: Role::Plain,
    },
    Field {
        key: "sym",
        slot: Slot::One(Content::Text),
        role: Role::Plain,
    },
];

/// The parts of a kind, as fields.
pub fn parts_of(kind: Kind) -> &'static [Field] {
    if is_identifier(kind) {
        IDENTIFIER
    } else {
        fields_of(kind)
    }
}

/// Where the fault lies, seen from the part: nowhere, where the part may be left out.
pub fn place(slot: Slot, fault: Fault) -> Option<&'static str> {
    match (fault, slot) {
        (Fault::Missing, Slot::Optional(_) | Slot::OptionalList(_) | Slot::Pairs) => None,
        (Fault::ExtraLevel, Slot::List(_) | Slot::Holes(_) | Slot::OptionalList(_) | Slot::Pairs) =>
            { Some("[0]") }
        _ => Some(""),
    }
}
