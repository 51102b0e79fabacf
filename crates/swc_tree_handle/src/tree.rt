//! A node with its class.
ghost use Rattle.std.specs.Prelude.{◌≡◌, [], ◌∷◌, ◌↔◌, Some, IsTrue, IfOk, not};
ghost use Rattle.swc_tree_node.specs.declared.node.Node.{Identifier, Tree as Plain};
ghost use Rattle.swc_tree_node.specs.declared.slot.Slot.TheVariants.{One, Optional};
ghost use Rattle.swc_tree_node.specs.declared.slot.Content.TheVariants.{Node as Of};
ghost use Rattle.swc_tree_node.specs.Table.{kinds_of, slots_of, is_identifier};
ghost use Rattle.swc_tree_node.specs.Fits.{Fits, FieldsFit, belongs};
ghost use Rattle.std.specs.Option.{option_copied};
ghost use Rattle.swc_tree_node.specs.Parts.{children_of, field_of};
ghost use Rattle.swc_tree_node.specs.Sameness.{same, same_equiv, same_per};
ghost use Rattle.swc_tree_handle.specs.Handles.{kind_of, is_of, is_within, optional_node};

use crate::class::Syntax;
use std::alloc::{AllocError, Global};
use std::fmt;
use std::marker::{Model, PhantomData};
use swc_tree_items::{Boxed, Items};
use swc_tree_marks::Ident;
use swc_tree_node::{Kind, Node};

/// The fields of a node as a list. Where memory is refused, they are dropped.
pub fn collect<const N: usize>(alloc: Global, fields: [Node; N]) -> Result<Items<Node>, AllocError>
    ensures { IfOk result (λ list. list ≡ fields.entry) }
{
    Ok(Items::from_vec(Vec::from_array(alloc, fields)?))
}

/// A node of the class `C`. Contracts see it as the node.
#[derive(Drop)]
pub struct Tree<C: Syntax> {
    node: Node,
    of: PhantomData<C>,
}

impl<C: Syntax> Model for Tree<C> {
    ghost use Rattle.std.specs.Coded.{codes};
    ghost use Rattle.swc_tree_node.specs.declared.node.Node.{Node};
    ghost use Rattle.swc_tree_node.specs.contracts.node.Node as stored;
    ghost use Rattle.swc_tree_node.specs.declared.slot.Slot.TheVariants.{One};
    ghost use Rattle.swc_tree_node.specs.declared.slot.Content.TheVariants.{Node as Of};
    ghost use Rattle.swc_tree_node.specs.Fits.{Fits};

    ghost Value = { Node };

    ghost coded = { Prim.hlevel (codes, stored.the_row.coded) };

    ghost view = { λ t. t.node };

    ghost invariant = { λ t. Fits t.node (One (Of C.class)) };
}

impl<C: Syntax> Tree<C> {
    /// A node as one of the class.
    pub fn from_node(node: Node) -> Tree<C>
        requires { Fits node (One (Of C.class)) }
        ensures { result ≡ node }
    {
        Tree {
            node,
            of: PhantomData,
        }
    }

    /// The node itself.
    pub fn into_node(self) -> Node
        ensures same { result ≡ self }
        ensures fits { Fits result (One (Of C.class)) }
    {
        let Tree { node, of } = self;
        node
    }

    /// The node in place.
    pub fn node(&self) -> &Node
        ensures same { result.now ≡ self.now }
        ensures fits { Fits result.now (One (Of C.class)) }
    {
        &self.node
    }

    /// What struct the node is.
    #[tactic(auto, using(swc_tree_node::proofs::Fit::fitting))]
    pub fn kind(&self) -> Kind
        ensures is { kind_of self.now ≡ Some result }
        ensures belongs { IsTrue (belongs result C.class) }
    {
        match self.node() {
            Node::Identifier(kind, _) => *kind,
            Node::Tree(kind, _) => *kind,
            _ => unreachable!(),
        }
    }

    /// The field of a key, as the table calls it; an identifier has none.
    pub fn field(&self, key: &str) -> Option<&Node>
        ensures { option_copied result ≡ field_of key.now self.now }
    {
        self.node.field(key)
    }

    /// The fields in the order of the source; an identifier has none.
    pub fn children(&self) -> &[Node]
        ensures { result.now ≡ children_of self.now }
    {
        self.node.children()
    }

    /// The node as one of a class that takes its kind.
    #[tactic(auto, using(swc_tree_node::proofs::Fit::fitting))]
    pub fn narrow<D: Syntax>(self) -> Tree<D>
        requires { IsTrue (is_of self D.class) }
        ensures { result ≡ self }
    {
        match self.into_node() {
            Node::Identifier(kind, ident) => Tree::from_node(Node::Identifier(kind, ident)),
            Node::Tree(kind, fields) => Tree::from_node(Node::Tree(kind, fields)),
            _ => unreachable!(),
        }
    }

    /// The node as one of a wider class.
    #[tactic(auto, using(swc_tree_node::proofs::Fit::fitting))]
    pub fn widen<D: Syntax>(self) -> Tree<D>
        requires { IsTrue (is_within C.class D.class) }
        ensures { result ≡ self }
    {
        match self.into_node() {
            Node::Identifier(kind, ident) => Tree::from_node(Node::Identifier(kind, ident)),
            Node::Tree(kind, fields) => Tree::from_node(Node::Tree(kind, fields)),
            _ => unreachable!(),
        }
    }

    /// What an optional place holds.
    #[tactic(auto, using(swc_tree_node::proofs::Fit::fitting))]
    pub fn from_optional(node: Node) -> Option<Tree<C>>
        requires { Fits node (Optional (Of C.class)) }
        ensures { optional_node result ≡ node }
    {
        match node {
            Node::Absent => None,
            node => Some(Tree::from_node(node)),
        }
    }

    /// What an optional place is to hold.
    #[tactic(auto, using(swc_tree_node::proofs::Fit::fitting))]
    pub fn into_optional(tree: Option<Tree<C>>) -> Node
        ensures is { result ≡ optional_node tree }
        ensures fits { Fits result (Optional (Of C.class)) }
    {
        match tree {
            Some(tree) => tree.into_node(),
            None => Node::Absent,
        }
    }

    /// The fields of a node whose class takes one kind.
    #[tactic(auto, using(swc_tree_node::proofs::Fit::fitting, crate::proofs::Handles::sole_tree_kind))]
    pub fn into_fields(self, kind: Kind) -> Items<Node>
        requires sole { kinds_of C.class ≡ kind ∷ [] }
        requires plain { IsTrue (not (is_identifier kind)) }
        ensures same { self ≡ Plain kind result }
        ensures fit { FieldsFit (slots_of kind) result }
    {
        match self.into_node() {
            Node::Tree(_, fields) => fields,
            Node::Identifier(_, _) => unreachable!(),
            _ => unreachable!(),
        }
    }

    /// The node of a kind and its fields.
    pub fn from_fields(kind: Kind, fields: Items<Node>) -> Tree<C>
        requires plain { IsTrue (not (is_identifier kind)) }
        requires belongs { IsTrue (belongs kind C.class) }
        requires fit { FieldsFit (slots_of kind) fields }
        ensures { result ≡ Plain kind fields }
    {
        Tree::from_node(Node::Tree(kind, fields))
    }

    /// The identifier that a node is whose class takes one kind.
    #[tactic(auto, using(swc_tree_node::proofs::Fit::fitting, crate::proofs::Handles::sole_identifier, crate::proofs::Handles::sole_plain))]
    pub fn into_identifier(self, kind: Kind) -> Ident
        requires sole { kinds_of C.class ≡ kind ∷ [] }
        requires identifier { IsTrue (is_identifier kind) }
        ensures { self ≡ Identifier kind result }
    {
        match self.into_node() {
            Node::Identifier(_, ident) => ident.into_inner(),
            _ => unreachable!(),
        }
    }

    /// The node of a kind and an identifier. Where memory is refused, the identifier is dropped.
    #[tactic(auto, using(crate::proofs::Handles::identifier_closes))]
    pub fn from_identifier(alloc: Global, kind: Kind, ident: Ident) -> Result<Tree<C>, AllocError>
        requires identifier { IsTrue (is_identifier kind) }
        requires belongs { IsTrue (belongs kind C.class) }
        ensures { IfOk result (λ tree. tree ≡ Identifier kind ident) }
    {
        Ok(Tree::from_node(Node::Identifier(kind, Boxed::new(alloc, ident)?)))
    }
}

impl<C: Syntax> Clone for Tree<C> {
    ghost is_clone = { λ tree copy. copy ≡ tree };

    fn clone(&self) -> Result<Tree<C>, AllocError> {
        let node = self.node.clone()?;
        Ok(Tree {
            node,
            of: PhantomData,
        })
    }
}

impl<C: Syntax> PartialEq for Tree<C> {
    ghost eq = { same };

    ghost laws = { same_per };

    fn eq(&self, other: &Tree<C>) -> bool
        ensures is { result ≡ same self.now other.now }
        ensures exactly { IsTrue result ↔ (self.now ≡ other.now) }
    {
        self.node == other.node
    }
}

impl<C: Syntax> Eq for Tree<C> {
    ghost laws = { same_equiv };
}

impl<C: Syntax> fmt::Debug for Tree<C> {
    fn fmt<W: fmt::Write>(&self, f: &mut fmt::Formatter<W>) -> fmt::Result {
        fmt::Debug::fmt(&self.node, f)
    }
}
