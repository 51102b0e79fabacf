//! Where two trees have other outlines.
ghost use Rattle.std.specs.Prelude.{◌≡◌, ◌↔◌, IsTrue, MatchOption, length};
ghost use Rattle.swc_tree_node.specs.declared.node.Node.{out-Node};
ghost use Rattle.swc_base_rename_laws.specs.NewNames.{outline};
ghost use Rattle.swc_base_alpha.specs.Among.{AlikeBefore, AmongShows, SameOutlines};
ghost use Rattle.swc_base_alpha.specs.Shapes.{ShapeShows, alone};

use crate::spans::{Spans, Unplaced, span_of};
use swc_tree_node::Node;

/// The spans of the first nodes at which two trees have other outlines, if they do; of nodes without a span those of the nodes round
/// them, which are given for the trees themselves.
#[cycle(shape_apart)]
pub fn shape_apart(one: &Node, other: &Node, round: Spans, unplaced: Unplaced) -> Option<Spans>
    ensures { MatchOption result (outline one.now ≡ outline other.now) (λ s. ShapeShows unplaced round.before round.after one.now other.now s.before s.after) }
{
    let near = Spans {
        before: span_of(one, round.before, unplaced),
        after: span_of(other, round.after, unplaced),
    };
    if !are_alike(one, other) {
        return Some(near);
    }
    shapes_apart(one.children(), other.children(), near, unplaced)
}

#[cycle(shape_apart)]
fn shapes_apart(ones: &[Node], others: &[Node], near: Spans, unplaced: Unplaced) -> Option<Spans>
    ensures { MatchOption result (SameOutlines ones.now others.now) (λ s. AmongShows unplaced near.before near.after ones.now others.now s.before s.after) }
{
    for i in 0..ones.len() {
        let one = &ones[i];
        let Some(other) = others.get(i) else {
            return Some(Spans {
                before: span_of(one, near.before, unplaced),
                after: near.after,
            });
        };
        if let Some(found) = shape_apart(one, other, near, unplaced) {
            return Some(found);
        }
    }
    one_more(ones, others, near, unplaced)
}

// The spans where the second of two lists is longer, of which the nodes have one outline as far as the first goes.
fn one_more(ones: &[Node], others: &[Node], near: Spans, unplaced: Unplaced) -> Option<Spans>
    requires { AlikeBefore ones.now others.now (length ones.now) }
    ensures { MatchOption result (SameOutlines ones.now others.now) (λ s. AmongShows unplaced near.before near.after ones.now others.now s.before s.after) }
{
    match others.get(ones.len()) {
        Some(other) => Some(Spans {
            before: near.before,
            after: span_of(other, near.after, unplaced),
        }),
        None => None,
    }
}

// Whether two nodes are one but for spans, what identifiers are called, and what stands below.
fn are_alike(one: &Node, other: &Node) -> bool
    ensures { IsTrue result ↔ (alone (out-Node one.now) ≡ alone (out-Node other.now)) }
{
    match one {
        Node::Span(_) => match other {
            Node::Span(_) => true,
            _ => false,
        },
        Node::List(_) => match other {
            Node::List(_) => true,
            _ => false,
        },
        Node::Identifier(kind, _) => match other {
            Node::Identifier(same, _) => kind == same,
            _ => false,
        },
        Node::Tree(kind, _) => match other {
            Node::Tree(same, _) => kind == same,
            _ => false,
        },
        _ => one == other,
    }
}
