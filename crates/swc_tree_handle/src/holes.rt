//! Lists of nodes with their class, in which some may be left out.
ghost use Rattle.std.specs.Prelude.{◌≡◌, [], ◌++◌, ◌∷◌, ◌<◌, ◌↔◌, IsTrue, OnOk, OnErr, MatchOption, Some, length, slice_get, slice_set};
ghost use Rattle.swc_tree_node.specs.declared.node.Node.{List as Many};
ghost use Rattle.swc_tree_node.specs.declared.slot.Slot.TheVariants.{Optional, Holes as Several};
ghost use Rattle.swc_tree_node.specs.declared.slot.Content.TheVariants.{Node as Of};
ghost use Rattle.swc_tree_node.specs.Fits.{Fits, AllFit};
ghost use Rattle.swc_tree_node.specs.Sameness.{all_same, all_same_equiv, all_same_per};
ghost use Rattle.swc_tree_handle.specs.Handles.{optional_node};

use crate::class::Syntax;
use crate::tree::Tree;
use std::alloc::{AllocError, Global};
use std::fmt;
use std::marker::{Model, PhantomData};
use swc_tree_items::Items;
use swc_tree_node::{Node, copy_nodes};

/// Nodes of the class `C`, some of which may be left out. Contracts see them as the list of the nodes,
/// `Absent` where there is none.
#[derive(Drop)]
pub struct Holes<C: Syntax> {
    nodes: Items<Node>,
    of: PhantomData<C>,
}

impl<C: Syntax> Model for Holes<C> {
    ghost use Rattle.std.specs.Prelude.{List};
    ghost use Rattle.std.specs.Coded.{codes};
    ghost use Rattle.swc_tree_node.specs.declared.node.Node.{Node};
    ghost use Rattle.swc_tree_node.specs.contracts.node.Node as stored;
    ghost use Rattle.swc_tree_node.specs.declared.slot.Slot.TheVariants.{Optional};
    ghost use Rattle.swc_tree_node.specs.declared.slot.Content.TheVariants.{Node as Of};
    ghost use Rattle.swc_tree_node.specs.Fits.{AllFit};

    ghost Value = { List Node };

    ghost coded = { Prim.hlevel (codes, stored.the_row.coded) };

    ghost view = { λ t. t.nodes };

    ghost invariant = { λ t. AllFit (Optional (Of C.class)) t.nodes };
}

impl<C: Syntax> Holes<C> {
    /// The empty list.
    pub fn new(alloc: Global) -> Holes<C>
        ensures { result ≡ [] }
    {
        Holes {
            nodes: Items::new(alloc),
            of: PhantomData,
        }
    }

    /// Nodes and gaps as a list of nodes of the class, with the list's memory.
    pub fn from_nodes(nodes: Items<Node>) -> Holes<C>
        requires { AllFit (Optional (Of C.class)) nodes }
        ensures { result ≡ nodes }
    {
        Holes {
            nodes,
            of: PhantomData,
        }
    }

    /// The nodes themselves, with the list's memory.
    pub fn into_nodes(self) -> Items<Node>
        ensures same { result ≡ self }
        ensures fit { AllFit (Optional (Of C.class)) result }
    {
        let Holes { nodes, of } = self;
        nodes
    }

    /// The list that a node is.
    #[tactic(auto, using(swc_tree_node::proofs::Fit::fitting, swc_tree_node::proofs::Fit::holes_open))]
    pub fn from_node(node: Node) -> Holes<C>
        requires { Fits node (Several (Of C.class)) }
        ensures { Many result ≡ node }
    {
        match node {
            Node::List(nodes) => Holes::from_nodes(nodes),
            _ => unreachable!(),
        }
    }

    /// The list as a node.
    #[tactic(auto, using(swc_tree_node::proofs::Fit::holes_close))]
    pub fn into_node(self) -> Node
        ensures same { result ≡ Many self }
        ensures fits { Fits result (Several (Of C.class)) }
    {
        Node::List(self.into_nodes())
    }

    /// The nodes in place.
    pub fn as_slice(&self) -> &[Node]
        ensures same { result.now ≡ self.now }
        ensures fit { AllFit (Optional (Of C.class)) result.now }
    {
        self.nodes.as_slice()
    }

    /// How many nodes and gaps there are.
    pub fn len(&self) -> usize
        ensures { result ≡ length self.now }
    {
        self.nodes.len()
    }

    /// Whether there is no node and no gap.
    pub fn is_empty(&self) -> bool
        ensures { IsTrue result ↔ (self.now ≡ []) }
    {
        self.nodes.is_empty()
    }

    /// Adds a node, or a gap, at the end. Where memory is refused, the list stays and the node is dropped.
    #[tactic(auto, using(swc_tree_node::proofs::Fit::all_push))]
    pub fn push(&mut self, tree: Option<Tree<C>>) -> Result<(), AllocError>
        ensures ok { OnOk result (self.new ≡ self.old ++ optional_node tree ∷ []) }
        ensures err { OnErr result (self.new ≡ self.old) }
    {
        self.nodes.push(Tree::into_optional(tree))
    }

    /// Takes the last node or gap out.
    #[tactic(auto, using(swc_tree_node::proofs::Fit::all_last, swc_tree_node::proofs::Fit::all_before))]
    pub fn pop(&mut self) -> Option<Option<Tree<C>>>
        ensures { MatchOption result ((self.old ≡ []) × (self.new ≡ [])) (λ last. self.old ≡ self.new ++ optional_node last ∷ []) }
    {
        match self.nodes.pop() {
            Some(node) => Some(Tree::from_optional(node)),
            None => None,
        }
    }

    /// Puts a node or a gap in the place of another, which it answers.
    #[tactic(auto, using(crate::proofs::Handles::all_set, crate::proofs::Handles::all_at))]
    pub fn replace(&mut self, index: usize, tree: Option<Tree<C>>) -> Option<Tree<C>>
        requires { index < length self.old }
        ensures taken { slice_get self.old index ≡ Some (optional_node result) }
        ensures list { self.new ≡ slice_set self.old index (optional_node tree) }
    {
        Tree::from_optional(self.nodes.replace(index, Tree::into_optional(tree)))
    }
}

impl<C: Syntax> Clone for Holes<C> {
    ghost is_clone = { λ holes copy. copy ≡ holes };

    fn clone(&self) -> Result<Holes<C>, AllocError> {
        let nodes = copy_nodes(&self.nodes)?;
        Ok(Holes {
            nodes,
            of: PhantomData,
        })
    }
}

impl<C: Syntax> PartialEq for Holes<C> {
    ghost eq = { all_same };

    ghost laws = { all_same_per };

    #[tactic(auto, using(swc_tree_node::proofs::Same::lists_same))]
    fn eq(&self, other: &Holes<C>) -> bool
        ensures is { result ≡ all_same self.now other.now }
        ensures exactly { IsTrue result ↔ (self.now ≡ other.now) }
    {
        self.nodes.as_slice() == other.nodes.as_slice()
    }
}

impl<C: Syntax> Eq for Holes<C> {
    ghost laws = { all_same_equiv };
}

impl<C: Syntax> fmt::Debug for Holes<C> {
    fn fmt<W: fmt::Write>(&self, f: &mut fmt::Formatter<W>) -> fmt::Result {
        fmt::Debug::fmt(&self.nodes, f)
    }
}
