//! Lists of pairs of texts.
ghost use Rattle.std.specs.Prelude.{◌≡◌, [], ◌++◌, ◌∷◌, ◌↔◌, IsTrue, OnOk, OnErr, MatchOption, length};
ghost use Rattle.swc_tree_node.specs.declared.slot.Slot.TheVariants.{Pair, Pairs as Several};
ghost use Rattle.swc_tree_node.specs.Fits.{Fits, AllFit};
ghost use Rattle.swc_tree_node.specs.Sameness.{all_same, all_same_equiv, all_same_per};
ghost use Rattle.swc_tree_handle.specs.Handles.{optional_list, pair_node};

use crate::row::Row;
use crate::tree::collect;
use std::alloc::{AllocError, Global};
use std::marker::Model;
use swc_tree_items::Items;
use swc_tree_marks::Atom;
use swc_tree_node::{Node, copy_nodes};

/// Pairs of texts, as the attributes of an import. Contracts see them as the list of their nodes.
#[derive(Debug, Drop)]
pub struct Pairs {
    nodes: Items<Node>,
}

impl Model for Pairs {
    ghost use Rattle.std.specs.Prelude.{List};
    ghost use Rattle.std.specs.Coded.{codes};
    ghost use Rattle.swc_tree_node.specs.declared.node.Node.{Node};
    ghost use Rattle.swc_tree_node.specs.contracts.node.Node as stored;
    ghost use Rattle.swc_tree_node.specs.declared.slot.Slot.TheVariants.{Pair};
    ghost use Rattle.swc_tree_node.specs.Fits.{AllFit};

    ghost Value = { List Node };

    ghost coded = { Prim.hlevel (codes, stored.the_row.coded) };

    ghost view = { λ t. t.nodes };

    ghost invariant = { λ t. AllFit Pair t.nodes };
}

impl Pairs {
    /// The empty list.
    pub fn new(alloc: Global) -> Pairs
        ensures { result ≡ [] }
    {
        Pairs {
            nodes: Items::new(alloc),
        }
    }

    /// What a place holds that takes pairs.
    #[tactic(auto, using(swc_tree_node::proofs::Fit::fitting, swc_tree_node::proofs::Fit::pairs_open))]
    pub fn from_optional(node: Node) -> Option<Pairs>
        requires { Fits node Several }
        ensures { optional_list result ≡ node }
    {
        match node {
            Node::Absent => None,
            Node::List(nodes) => Some(Pairs { nodes }),
            _ => unreachable!(),
        }
    }

    /// What a place is to hold that takes pairs.
    #[tactic(auto, using(swc_tree_node::proofs::Fit::fitting, swc_tree_node::proofs::Fit::pairs_close))]
    pub fn into_optional(pairs: Option<Pairs>) -> Node
        ensures is { result ≡ optional_list pairs }
        ensures fits { Fits result Several }
    {
        match pairs {
            Some(Pairs { nodes }) => Node::List(nodes),
            None => Node::Absent,
        }
    }

    /// The pairs in place, as nodes.
    pub fn as_slice(&self) -> &[Node]
        ensures same { result.now ≡ self.now }
        ensures fit { AllFit Pair result.now }
    {
        self.nodes.as_slice()
    }

    /// How many pairs there are.
    pub fn len(&self) -> usize
        ensures { result ≡ length self.now }
    {
        self.nodes.len()
    }

    /// Whether there is no pair.
    pub fn is_empty(&self) -> bool
        ensures { IsTrue result ↔ (self.now ≡ []) }
    {
        self.nodes.is_empty()
    }

    /// Adds a pair at the end. Where memory is refused, the list stays and the texts are dropped.
    #[tactic(auto, using(swc_tree_node::proofs::Fit::all_push, swc_tree_node::proofs::Fit::pair_closes))]
    pub fn push(&mut self, alloc: Global, key: Atom, value: Atom) -> Result<(), AllocError>
        ensures ok { OnOk result (self.new ≡ self.old ++ pair_node key value ∷ []) }
        ensures err { OnErr result (self.new ≡ self.old) }
    {
        let pair = collect(alloc, [Node::Text(key), Node::Text(value)])?;
        self.nodes.push(Node::List(pair))
    }

    /// Takes the last pair out.
    #[tactic(auto, using(swc_tree_node::proofs::Fit::all_last, swc_tree_node::proofs::Fit::all_before))]
    pub fn pop(&mut self) -> Option<(Atom, Atom)>
        ensures { MatchOption result ((self.old ≡ []) × (self.new ≡ [])) (λ last. self.old ≡ self.new ++ pair_node last.0 last.1 ∷ []) }
    {
        match self.nodes.pop() {
            Some(node) => Some(to_pair(node)),
            None => None,
        }
    }
}

impl Clone for Pairs {
    ghost is_clone = { λ pairs copy. copy ≡ pairs };

    fn clone(&self) -> Result<Pairs, AllocError> {
        let nodes = copy_nodes(&self.nodes)?;
        Ok(Pairs { nodes })
    }
}

impl PartialEq for Pairs {
    ghost eq = { all_same };

    ghost laws = { all_same_per };

    #[tactic(auto, using(swc_tree_node::proofs::Same::lists_same))]
    fn eq(&self, other: &Pairs) -> bool
        ensures is { result ≡ all_same self.now other.now }
        ensures exactly { IsTrue result ↔ (self.now ≡ other.now) }
    {
        self.nodes.as_slice() == other.nodes.as_slice()
    }
}

impl Eq for Pairs {
    ghost laws = { all_same_equiv };
}

// The texts of a pair.
#[tactic(auto, using(swc_tree_node::proofs::Fit::fitting, swc_tree_node::proofs::Fit::pair_opens))]
fn to_pair(node: Node) -> (Atom, Atom)
    requires { Fits node Pair }
    ensures { pair_node result.0 result.1 ≡ node }
{
    match node {
        Node::List(texts) => {
            let (((), key), value): (((), Atom), Atom) = Row::taken(texts);
            (key, value)
        }
        _ => unreachable!(),
    }
}
