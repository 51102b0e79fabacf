//! All that is asked of a tree that a text has, but for the text itself.
ghost use Rattle.std.specs.Prelude.{◌≡◌, ◌↔◌, Err, IfOk, IsTrue};
ghost use Rattle.swc_tree_node.specs.Fits.{Fits};
ghost use Rattle.text_checks.specs.Checked.{IsWellFormed, Lacks};

use crate::{fits, is_spelled};
use swc_tree_node::{Node, Slot};
use text_derives::derives;
use text_grammar::is_shaped;

/// What a tree lacks that no text has.
#[derive(Clone, Copy, Debug, PartialEq, Eq)]
pub enum Lack {
    /// A node stands where the table has no such.
    Fitting,
    /// A production has other lengths.
    Shape,
    /// A leaf is no token of its kind, or a name is a reserved word.
    Spelling,
    /// The grammar does not derive it as it stands: parentheses are missing, mostly.
    Derivation,
}

// Whether a node may stand in a place, and all below it.
fn does_fit(slot: Slot, tree: &Node) -> bool
    ensures { IsTrue result ↔ Fits tree.now slot }
{
    fits(tree, slot)
}

/// Whether a program, in its place, is one that a text can have.
///
/// It takes no memory; the time is in step with the size of the program. Whether patterns, targets and names are such, early errors
/// among them, `is_writable` says of what fits.
///
/// # Errors
///
/// The first of the four that it lacks, in the order of `Lack`.
pub fn check_tree(slot: Slot, tree: &Node) -> Result<(), Lack>
    ensures sound { IfOk result (λ done. IsWellFormed slot tree.now) }
    ensures lacking { (lack : Lack) → result ≡ Err lack → Lacks slot tree.now lack }
{
    if !does_fit(slot, tree) {
        return Err(Lack::Fitting);
    }
    if !is_shaped(tree) {
        return Err(Lack::Shape);
    }
    if !is_spelled(tree) {
        return Err(Lack::Spelling);
    }
    if !derives(tree) {
        return Err(Lack::Derivation);
    }
    Ok(())
}
