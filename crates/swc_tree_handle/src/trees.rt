//! Lists of nodes with their class.
ghost use Rattle.std.specs.Prelude.{◌≡◌, [], ◌++◌, ◌∷◌, ◌<◌, ◌≤◌, ◌↔◌, IsTrue, OnOk, OnErr, MatchOption, Some, length, slice_get, slice_set, take, drop as drop_first};
ghost use Rattle.swc_tree_node.specs.declared.node.Node.{List as Many};
ghost use Rattle.swc_tree_node.specs.declared.slot.Slot.TheVariants.{One, List as Several, OptionalList};
ghost use Rattle.swc_tree_node.specs.declared.slot.Content.TheVariants.{Node as Of};
ghost use Rattle.swc_tree_node.specs.Fits.{Fits, AllFit};
ghost use Rattle.swc_tree_node.specs.Sameness.{all_same, all_same_equiv, all_same_per};
ghost use Rattle.swc_tree_handle.specs.Handles.{optional_list};

use crate::class::Syntax;
use crate::tree::Tree;
use std::alloc::{AllocError, Global};
use std::fmt;
use std::marker::{Model, PhantomData};
use swc_tree_items::Items;
use swc_tree_node::{Node, copy_nodes};

/// Nodes of the class `C`. Contracts see them as the list of the nodes.
#[derive(Drop)]
pub struct Trees<C: Syntax> {
    nodes: Items<Node>,
    of: PhantomData<C>,
}

impl<C: Syntax> Model for Trees<C> {
    ghost use Rattle.std.specs.Prelude.{List};
    ghost use Rattle.std.specs.Coded.{codes};
    ghost use Rattle.swc_tree_node.specs.declared.node.Node.{Node};
    ghost use Rattle.swc_tree_node.specs.contracts.node.Node as stored;
    ghost use Rattle.swc_tree_node.specs.declared.slot.Slot.TheVariants.{One};
    ghost use Rattle.swc_tree_node.specs.declared.slot.Content.TheVariants.{Node as Of};
    ghost use Rattle.swc_tree_node.specs.Fits.{AllFit};

    ghost Value = { List Node };

    ghost coded = { Prim.hlevel (codes, stored.the_row.coded) };

    ghost view = { λ t. t.nodes };

    ghost invariant = { λ t. AllFit (One (Of C.class)) t.nodes };
}

impl<C: Syntax> Trees<C> {
    /// The empty list.
    pub fn new(alloc: Global) -> Trees<C>
        ensures { result ≡ [] }
    {
        Trees {
            nodes: Items::new(alloc),
            of: PhantomData,
        }
    }

    /// Nodes as a list of nodes of the class, with the list's memory.
    pub fn from_nodes(nodes: Items<Node>) -> Trees<C>
        requires { AllFit (One (Of C.class)) nodes }
        ensures { result ≡ nodes }
    {
        Trees {
            nodes,
            of: PhantomData,
        }
    }

    /// The nodes themselves, with the list's memory.
    pub fn into_nodes(self) -> Items<Node>
        ensures same { result ≡ self }
        ensures fit { AllFit (One (Of C.class)) result }
    {
        let Trees { nodes, of } = self;
        nodes
    }

    /// The list that a node is.
    #[tactic(auto, using(swc_tree_node::proofs::Fit::fitting, swc_tree_node::proofs::Fit::list_opens))]
    pub fn from_node(node: Node) -> Trees<C>
        requires { Fits node (Several (Of C.class)) }
        ensures { Many result ≡ node }
    {
        match node {
            Node::List(nodes) => Trees::from_nodes(nodes),
            _ => unreachable!(),
        }
    }

    /// The list as a node.
    #[tactic(auto, using(swc_tree_node::proofs::Fit::list_closes))]
    pub fn into_node(self) -> Node
        ensures same { result ≡ Many self }
        ensures fits { Fits result (Several (Of C.class)) }
    {
        Node::List(self.into_nodes())
    }

    /// What a place holds that takes a list, or nothing.
    #[tactic(auto, using(swc_tree_node::proofs::Fit::fitting, swc_tree_node::proofs::Fit::optional_list_opens))]
    pub fn from_optional(node: Node) -> Option<Trees<C>>
        requires { Fits node (OptionalList (Of C.class)) }
        ensures { optional_list result ≡ node }
    {
        match node {
            Node::Absent => None,
            Node::List(nodes) => Some(Trees::from_nodes(nodes)),
            _ => unreachable!(),
        }
    }

    /// What a place is to hold that takes a list, or nothing.
    #[tactic(auto, using(swc_tree_node::proofs::Fit::fitting, swc_tree_node::proofs::Fit::optional_list_closes))]
    pub fn into_optional(trees: Option<Trees<C>>) -> Node
        ensures is { result ≡ optional_list trees }
        ensures fits { Fits result (OptionalList (Of C.class)) }
    {
        match trees {
            Some(trees) => Node::List(trees.into_nodes()),
            None => Node::Absent,
        }
    }

    /// The nodes in place.
    pub fn as_slice(&self) -> &[Node]
        ensures same { result.now ≡ self.now }
        ensures fit { AllFit (One (Of C.class)) result.now }
    {
        self.nodes.as_slice()
    }

    /// How many nodes there are.
    pub fn len(&self) -> usize
        ensures { result ≡ length self.now }
    {
        self.nodes.len()
    }

    /// Whether there is no node.
    pub fn is_empty(&self) -> bool
        ensures { IsTrue result ↔ (self.now ≡ []) }
    {
        self.nodes.is_empty()
    }

    /// Adds a node at the end. Where memory is refused, the list stays and the node is dropped.
    #[tactic(auto, using(swc_tree_node::proofs::Fit::all_push))]
    pub fn push(&mut self, tree: Tree<C>) -> Result<(), AllocError>
        ensures ok { OnOk result (self.new ≡ self.old ++ tree ∷ []) }
        ensures err { OnErr result (self.new ≡ self.old) }
    {
        self.nodes.push(tree.into_node())
    }

    /// Moves the nodes of `more` to before the node at an index, or to the end. Where memory is refused,
    /// the list stays and `more` is dropped.
    pub fn insert_all(&mut self, index: usize, more: Trees<C>) -> Result<(), AllocError>
        requires { index ≤ length self.old }
        ensures ok { OnOk result (self.new ≡ take index self.old ++ more ++ drop_first index self.old) }
        ensures err { OnErr result (self.new ≡ self.old) }
    {
        self.nodes.insert_all(index, more.into_nodes())?;
        Ok(())
    }

    /// Takes the last node out.
    #[tactic(auto, using(swc_tree_node::proofs::Fit::all_last, swc_tree_node::proofs::Fit::all_before))]
    pub fn pop(&mut self) -> Option<Tree<C>>
        ensures { MatchOption result ((self.old ≡ []) × (self.new ≡ [])) (λ last. self.old ≡ self.new ++ last ∷ []) }
    {
        match self.nodes.pop() {
            Some(node) => Some(Tree::from_node(node)),
            None => None,
        }
    }

    /// Puts a node in the place of another, which it answers.
    #[tactic(auto, using(crate::proofs::Handles::all_set, crate::proofs::Handles::all_at))]
    pub fn replace(&mut self, index: usize, tree: Tree<C>) -> Tree<C>
        requires { index < length self.old }
        ensures taken { slice_get self.old index ≡ Some result }
        ensures list { self.new ≡ slice_set self.old index tree }
    {
        Tree::from_node(self.nodes.replace(index, tree.into_node()))
    }
}

impl<C: Syntax> Clone for Trees<C> {
    ghost is_clone = { λ trees copy. copy ≡ trees };

    fn clone(&self) -> Result<Trees<C>, AllocError> {
        let nodes = copy_nodes(&self.nodes)?;
        Ok(Trees {
            nodes,
            of: PhantomData,
        })
    }
}

impl<C: Syntax> PartialEq for Trees<C> {
    ghost eq = { all_same };

    ghost laws = { all_same_per };

    #[tactic(auto, using(swc_tree_node::proofs::Same::lists_same))]
    fn eq(&self, other: &Trees<C>) -> bool
        ensures is { result ≡ all_same self.now other.now }
        ensures exactly { IsTrue result ↔ (self.now ≡ other.now) }
    {
        self.nodes.as_slice() == other.nodes.as_slice()
    }
}

impl<C: Syntax> Eq for Trees<C> {
    ghost laws = { all_same_equiv };
}

impl<C: Syntax> fmt::Debug for Trees<C> {
    fn fmt<W: fmt::Write>(&self, f: &mut fmt::Formatter<W>) -> fmt::Result {
        fmt::Debug::fmt(&self.nodes, f)
    }
}
