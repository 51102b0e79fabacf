//! The text of a tree that has one.
ghost use Rattle.std.specs.Prelude.{IfErr, IfOk};
ghost use Rattle.text_grammar.specs.Shaped.{Shaped};
ghost use Rattle.text_checks.specs.Spelled.{Spelled};
ghost use Rattle.text_writing.specs.Written.{IsToBlame, IsWritten};

use crate::place::place_of;
use std::alloc::{AllocError, Global};
use swc_tree_node::Node;
use text_checks::Misspelled;
use text_grammar::Misshapen;
use text_lexer::Comments;
use text_printer::{Layout, PrintFault, print_text};

/// Why a tree is not written.
#[derive(Debug, Drop)]
pub enum WriteFault {
    NoMemory,
    /// A node that has lengths which no production has; numbers of children lead to the first from the root.
    Shape(Vec<usize>),
    /// A node that is no token of its kind, or below which a name stands that can't.
    Spelling(Vec<usize>),
    /// A node has no text, as a type.
    NoText,
}

impl From<AllocError> for WriteFault {
    ghost use Rattle.std.specs.Prelude.{◌≡◌};
    ghost use Rattle.text_writing.specs.declared.write.WriteFault.TheVariants.{NoMemory};

    ghost from_gives = { λ _ fault. fault ≡ NoMemory };

    fn from(_refused: AllocError) -> WriteFault {
        WriteFault::NoMemory
    }
}

// Why nothing is printed of a tree that has lengths and leaves as it may.
fn of_print(fault: PrintFault) -> WriteFault
    ensures { (t : Node) → IsToBlame t result }
{
    match fault {
        PrintFault::NoMemory => WriteFault::NoMemory,
        PrintFault::NotSpelled => WriteFault::NoText,
    }
}

// Nothing, if each node has lengths that its production has.
fn check_shape(alloc: Global, tree: &Node) -> Result<(), WriteFault>
    ensures shaped { IfOk result (λ done. Shaped tree.now) }
    ensures refused { IfErr result (IsToBlame tree.now) }
{
    let place = place_of(alloc, &Misshapen, tree)?;
    match place {
        Some(path) => Err(WriteFault::Shape(path)),
        None => Ok(()),
    }
}

// Nothing, if each leaf is a token of its kind, and each name one that may stand where it does.
fn check_spelling(alloc: Global, tree: &Node) -> Result<(), WriteFault>
    ensures spelled { IfOk result (λ done. Spelled tree.now) }
    ensures refused { IfErr result (IsToBlame tree.now) }
{
    let place = place_of(alloc, &Misspelled, tree)?;
    match place {
        Some(path) => Err(WriteFault::Spelling(path)),
        None => Ok(()),
    }
}

/// A text that is written with the tokens of a tree, in UTF-8, where each node has lengths that its production has, and each leaf and
/// each name is one that may stand there.
///
/// # Errors
///
/// `Shape` and `Spelling` with the path to the first node that is to blame, `NoText` where a node has no text, `NoMemory` where memory
/// is refused.
pub fn write_text(
    alloc: Global,
    comments: Comments,
    layout: Layout,
    tree: &Node,
) -> Result<Vec<u8>, WriteFault>
    ensures written { IfOk result (λ out. IsWritten comments tree.now out.items) }
    ensures refused { IfErr result (IsToBlame tree.now) }
{
    check_shape(alloc, tree)?;
    check_spelling(alloc, tree)?;
    match print_text(alloc, comments, layout, tree) {
        Ok(out) => Ok(out),
        Err(fault) => Err(of_print(fault)),
    }
}
