//! Whether a text can have a tree, and the tree's leaves stand in it where they say.
ghost use Rattle.std.specs.Prelude.{◌≡◌, IsTrue};
ghost use Rattle.swc_tree_grammar.specs.Grammar.{FitsGrammar};
ghost use Rattle.swc_tree_node.specs.Fits.{Fits};
ghost use Rattle.swc_tree_node.specs.declared.node.Node.{out-Node};
ghost use Rattle.swc_tree_scoping.specs.WellScoped.{IsClean};
ghost use Rattle.swc_tree_walk.specs.Nodes.{HasNode};
ghost use Rattle.text_checks.specs.Checked.{IsWellFormed};
ghost use Rattle.text_grammar.specs.Shaped.{Shaped};
ghost use Rattle.text_checks.specs.Pinned.{IsPinned, is_astray};
ghost use Rattle.text_source.specs.Amiss as spec;
ghost use Rattle.text_spans.specs.Leaves.{LeavesStand};
ghost use Rattle.text_checks.specs.Spelled.{Spelled};

use swc_tree_marks::Mark;
use swc_tree_node::{Node, Slot};
use swc_tree_walk::Finder;
use text_checks::text_derives::derives;
use text_checks::{Astray, Misspelled, fits_without, is_pinned_if_straight, keeps_all_rules};
use text_grammar::Misshapen;
use text_spans::Misplaced;

fn has_marks(marks: &[Mark]) -> bool
    ensures { result ≡ spec.has_marks marks.now }
{
    match marks {
        [] => false,
        [_first, _rest @ ..] => true,
    }
}

// Whether a node is an identifier that has a context.
fn is_marked(node: &Node) -> bool
    ensures { result ≡ spec.is_marked (out-Node node.now) }
{
    match node {
        Node::Identifier(_, ident) => has_marks(ident.get().ctxt.marks()),
        _ => false,
    }
}

// Whether a node is what one of five checks looks for.
#[inline(never)]
fn is_amiss(text: &[u8], node: &Node) -> bool
    ensures { result ≡ spec.is_amiss text.now (out-Node node.now) }
{
    Misshapen.is_sought(node)
        || (Misspelled.is_sought(node)
            || (Misplaced { text }.is_sought(node) || (Astray.is_sought(node) || is_marked(node))))
}

// Looks for what five checks look for; of a leaf that is no identifier none looks for any.
#[derive(Clone, Copy)]
struct Amiss<'t> {
    text: &'t [u8],
}

impl Finder for Amiss<'_> {
    ghost use Rattle.text_source.specs.Amiss as spec;

    ghost is_sought = { λ looks node. spec.is_amiss looks.text.now node };

    #[inline]
    fn is_sought(&self, node: &Node) -> bool {
        match node {
            Node::List(_) | Node::Identifier(..) | Node::Tree(..) => is_amiss(self.text, node),
            _ => false,
        }
    }
}

// Whether each node stands where it may by the table, lengths are those of productions, leaves are tokens, these stand where they
// say, no node is astray, and no identifier has a context.
fn is_sound(slot: Slot, tree: &Node, text: &[u8]) -> bool
    ensures fits { IsTrue result → Fits tree.now slot }
    ensures shaped { IsTrue result → Shaped tree.now }
    ensures spelled { IsTrue result → Spelled tree.now }
    ensures leaves { IsTrue result → LeavesStand text.now tree.now }
    ensures straight { IsTrue result → HasNode is_astray tree.now → ⊥ }
    ensures clean { IsTrue result → IsClean tree.now }
{
    let looks = Amiss { text };
    fits_without(&looks, tree, slot)
}

fn is_derived(tree: &Node) -> bool
    ensures { IsTrue result → FitsGrammar tree.now }
{
    derives(tree)
}

// Whether it is the one that its tokens say, where the grammar leaves a choice.
fn is_exact(slot: Slot, tree: &Node) -> bool
    requires straight { HasNode is_astray tree.now → ⊥ }
    requires fits { Fits tree.now slot }
    ensures { IsTrue result → IsPinned tree.now }
{
    is_pinned_if_straight(tree)
}

// The same of a tree that keeps the rules of all code, by one walk.
fn keeps_rules(slot: Slot, tree: &Node) -> bool
    requires straight { HasNode is_astray tree.now → ⊥ }
    requires fits { Fits tree.now slot }
    ensures derived { IsTrue result → FitsGrammar tree.now }
    ensures pinned { IsTrue result → IsPinned tree.now }
{
    keeps_all_rules(tree)
}

// Whether the grammar derives a tree, and it is the one that its tokens say. What only sloppy code has takes more walks than one.
fn is_program(slot: Slot, tree: &Node) -> bool
    requires straight { HasNode is_astray tree.now → ⊥ }
    requires fits { Fits tree.now slot }
    ensures derived { IsTrue result → FitsGrammar tree.now }
    ensures pinned { IsTrue result → IsPinned tree.now }
{
    if keeps_rules(slot, tree) {
        return true;
    }
    is_derived(tree) && is_exact(slot, tree)
}

/// Whether a text can have a tree: the table, lengths, leaves and the grammar, where it leaves a choice the tokens; and whether its leaves
/// stand there, and no identifier has a context.
pub(crate) fn is_formed(slot: Slot, tree: &Node, text: &[u8]) -> bool
    ensures formed { IsTrue result → IsWellFormed slot tree.now }
    ensures pinned { IsTrue result → IsPinned tree.now }
    ensures leaves { IsTrue result → LeavesStand text.now tree.now }
    ensures straight { IsTrue result → HasNode is_astray tree.now → ⊥ }
    ensures clean { IsTrue result → IsClean tree.now }
{
    if !is_sound(slot, tree, text) {
        return false;
    }
    is_program(slot, tree)
}
