//! Fields in a row, and nodes of so many fields taken apart and put together.
//!
//! A struct of the tree is opened and closed by one call for the number of its fields, so that what is said of a list of
//! fields is proved once for each number and not once for each struct.
ghost use Rattle.std.specs.Prelude.{◌≡◌, [], ◌∷◌, ◌++◌, IsTrue, IfOk, OnOk, not};
ghost use Rattle.swc_tree_node.specs.declared.node.Node.{Tree as Plain};
ghost use Rattle.swc_tree_node.specs.declared.slot.Slot.TheVariants.{One};
ghost use Rattle.swc_tree_node.specs.declared.slot.Content.TheVariants.{Node as Of};
ghost use Rattle.swc_tree_node.specs.Table.{kinds_of, slots_of, is_identifier};
ghost use Rattle.swc_tree_node.specs.Fits.{Fits, FieldsFit, belongs};

use crate::class::Syntax;
use crate::place::Place;
use crate::tree::Tree;
use std::alloc::{AllocError, Global};
use swc_tree_items::Items;
use swc_tree_node::{Kind, Node};

/// Fields in a row, the first of them innermost: `(((), A), B)`.
pub trait Row: Sized + Drop {
    ghost use Rattle.std.specs.Prelude.{List};
    ghost use Rattle.swc_tree_node.specs.declared.slot.Slot.{Slot};
    ghost use Rattle.swc_tree_node.specs.declared.node.Node.{Node};

    /// What the table says of the fields.
    ghost slots: { List Slot };

    /// The nodes that stand there.
    ghost nodes: { Self → List Node };

    /// What the fields are.
    fn taken(fields: Items<Node>) -> Self
        requires { FieldsFit slots fields }
        ensures { nodes result ≡ fields };

    /// Puts the fields to the end of a list.
    fn given(self, alloc: Global, fields: &mut Items<Node>) -> Result<(), AllocError>
        ensures { OnOk result ((fields.new ≡ fields.old ++ nodes self) × FieldsFit slots (nodes self)) };
}

impl Row for () {
    ghost slots = { [] };

    ghost nodes = { λ _. [] };

    fn taken(fields: Items<Node>) {}

    fn given(self, alloc: Global, fields: &mut Items<Node>) -> Result<(), AllocError> {
        Ok(())
    }
}

impl<R: Row, A: Place> Row for (R, A) {
    ghost slots = { R.slots ++ A.slot ∷ [] };

    ghost nodes = { λ row. R.nodes row.0 ++ A.node row.1 ∷ [] };

    #[tactic(auto, using(crate::proofs::Rows::fit_init, crate::proofs::Rows::fit_last, crate::proofs::Rows::fit_none))]
    fn taken(fields: Items<Node>) -> (R, A) {
        let mut fields = fields;
        match fields.pop() {
            Some(last) => {
                let last = A::taken(last);
                (R::taken(fields), last)
            }
            None => unreachable!(),
        }
    }

    #[tactic(auto, using(crate::proofs::Rows::fit_snoc, std::proofs::Common::append_assoc))]
    fn given(self, alloc: Global, fields: &mut Items<Node>) -> Result<(), AllocError> {
        let (row, last) = self;
        row.given(alloc, fields)?;
        let last = last.given(alloc)?;
        fields.push(last)
    }
}

// Takes a node apart into a row.
fn open<K: Syntax, R: Row>(closed: Node, kind: Kind) -> R
    requires closed { Fits closed (One (Of K.class)) }
    requires sole { kinds_of K.class ≡ kind ∷ [] }
    requires plain { IsTrue (not (is_identifier kind)) }
    requires slots { slots_of kind ≡ R.slots }
    ensures { Plain kind (R.nodes result) ≡ closed }
{
    R::taken(Tree::<K>::from_node(closed).into_fields(kind))
}

// The node of a kind and a row. Where memory is refused, the row is dropped.
fn close<K: Syntax, R: Row>(
    alloc: Global,
    kind: Kind,
    count: usize,
    row: R,
) -> Result<Node, AllocError>
    requires plain { IsTrue (not (is_identifier kind)) }
    requires belongs { IsTrue (belongs kind K.class) }
    requires slots { slots_of kind ≡ R.slots }
    ensures { IfOk result (λ closed. (closed ≡ Plain kind (R.nodes row)) × Fits closed (One (Of K.class))) }
{
    let mut fields = Items::with_capacity(alloc, count)?;
    row.given(alloc, &mut fields)?;
    Ok(Tree::<K>::from_fields(kind, fields).into_node())
}

/// Takes a node of one field apart.
pub fn open_one<K: Syntax, A: Place>(closed: Node, kind: Kind) -> A
    requires closed { Fits closed (One (Of K.class)) }
    requires sole { kinds_of K.class ≡ kind ∷ [] }
    requires plain { IsTrue (not (is_identifier kind)) }
    requires slots { slots_of kind ≡ A.slot ∷ [] }
    ensures { Plain kind (A.node result ∷ []) ≡ closed }
{
    let ((), a) = open::<K, ((), A)>(closed, kind);
    a
}

/// The node of a kind and one field. Where memory is refused, it is dropped.
pub fn close_one<K: Syntax, A: Place>(
    alloc: Global,
    kind: Kind,
    field: A,
) -> Result<Node, AllocError>
    requires plain { IsTrue (not (is_identifier kind)) }
    requires belongs { IsTrue (belongs kind K.class) }
    requires slots { slots_of kind ≡ A.slot ∷ [] }
    ensures { IfOk result (λ closed. (closed ≡ Plain kind (A.node field ∷ [])) × Fits closed (One (Of K.class))) }
{
    close::<K, ((), A)>(alloc, kind, 1, ((), field))
}

/// Takes a node of two fields apart.
pub fn open_two<K: Syntax, A: Place, B: Place>(closed: Node, kind: Kind) -> (A, B)
    requires closed { Fits closed (One (Of K.class)) }
    requires sole { kinds_of K.class ≡ kind ∷ [] }
    requires plain { IsTrue (not (is_identifier kind)) }
    requires slots { slots_of kind ≡ A.slot ∷ B.slot ∷ [] }
    ensures { Plain kind (A.node result.0 ∷ B.node result.1 ∷ []) ≡ closed }
{
    let (((), a), b) = open::<K, (((), A), B)>(closed, kind);
    (a, b)
}

/// The node of a kind and two fields. Where memory is refused, they are dropped.
pub fn close_two<K: Syntax, A: Place, B: Place>(
    alloc: Global,
    kind: Kind,
    fields: (A, B),
) -> Result<Node, AllocError>
    requires plain { IsTrue (not (is_identifier kind)) }
    requires belongs { IsTrue (belongs kind K.class) }
    requires slots { slots_of kind ≡ A.slot ∷ B.slot ∷ [] }
    ensures { IfOk result (λ closed. (closed ≡ Plain kind (A.node fields.0 ∷ B.node fields.1 ∷ [])) × Fits closed (One (Of K.class))) }
{
    let (a, b) = fields;
    close::<K, (((), A), B)>(alloc, kind, 2, (((), a), b))
}

/// Takes a node of three fields apart.
pub fn open_three<K: Syntax, A: Place, B: Place, C: Place>(closed: Node, kind: Kind) -> (A, B, C)
    requires closed { Fits closed (One (Of K.class)) }
    requires sole { kinds_of K.class ≡ kind ∷ [] }
    requires plain { IsTrue (not (is_identifier kind)) }
    requires slots { slots_of kind ≡ A.slot ∷ B.slot ∷ C.slot ∷ [] }
    ensures { Plain kind (A.node result.0 ∷ B.node result.1 ∷ C.node result.2 ∷ []) ≡ closed }
{
    let ((((), a), b), c) = open::<K, ((((), A), B), C)>(closed, kind);
    (a, b, c)
}

/// The node of a kind and three fields. Where memory is refused, they are dropped.
pub fn close_three<K: Syntax, A: Place, B: Place, C: Place>(
    alloc: Global,
    kind: Kind,
    fields: (A, B, C),
) -> Result<Node, AllocError>
    requires plain { IsTrue (not (is_identifier kind)) }
    requires belongs { IsTrue (belongs kind K.class) }
    requires slots { slots_of kind ≡ A.slot ∷ B.slot ∷ C.slot ∷ [] }
    ensures { IfOk result (λ closed. (closed ≡ Plain kind (A.node fields.0 ∷ B.node fields.1 ∷ C.node fields.2 ∷ [])) × Fits closed (One (Of K.class))) }
{
    let (a, b, c) = fields;
    close::<K, ((((), A), B), C)>(alloc, kind, 3, ((((), a), b), c))
}

/// Takes a node of four fields apart.
pub fn open_four<K: Syntax, A: Place, B: Place, C: Place, D: Place>(
    closed: Node,
    kind: Kind,
) -> (A, B, C, D)
    requires closed { Fits closed (One (Of K.class)) }
    requires sole { kinds_of K.class ≡ kind ∷ [] }
    requires plain { IsTrue (not (is_identifier kind)) }
    requires slots { slots_of kind ≡ A.slot ∷ B.slot ∷ C.slot ∷ D.slot ∷ [] }
    ensures { Plain kind (A.node result.0 ∷ B.node result.1 ∷ C.node result.2 ∷ D.node result.3 ∷ []) ≡ closed }
{
    let (((((), a), b), c), d) = open::<K, (((((), A), B), C), D)>(closed, kind);
    (a, b, c, d)
}

/// The node of a kind and four fields. Where memory is refused, they are dropped.
pub fn close_four<K: Syntax, A: Place, B: Place, C: Place, D: Place>(
    alloc: Global,
    kind: Kind,
    fields: (A, B, C, D),
) -> Result<Node, AllocError>
    requires plain { IsTrue (not (is_identifier kind)) }
    requires belongs { IsTrue (belongs kind K.class) }
    requires slots { slots_of kind ≡ A.slot ∷ B.slot ∷ C.slot ∷ D.slot ∷ [] }
    ensures { IfOk result (λ closed. (closed ≡ Plain kind (A.node fields.0 ∷ B.node fields.1 ∷ C.node fields.2 ∷ D.node fields.3 ∷ [])) × Fits closed (One (Of K.class))) }
{
    let (a, b, c, d) = fields;
    close::<K, (((((), A), B), C), D)>(alloc, kind, 4, (((((), a), b), c), d))
}

/// Takes a node of five fields apart.
pub fn open_five<K: Syntax, A: Place, B: Place, C: Place, D: Place, E: Place>(
    closed: Node,
    kind: Kind,
) -> (A, B, C, D, E)
    requires closed { Fits closed (One (Of K.class)) }
    requires sole { kinds_of K.class ≡ kind ∷ [] }
    requires plain { IsTrue (not (is_identifier kind)) }
    requires slots { slots_of kind ≡ A.slot ∷ B.slot ∷ C.slot ∷ D.slot ∷ E.slot ∷ [] }
    ensures { Plain kind (A.node result.0 ∷ B.node result.1 ∷ C.node result.2 ∷ D.node result.3 ∷ E.node result.4 ∷ []) ≡ closed }
{
    let ((((((), a), b), c), d), e) = open::<K, ((((((), A), B), C), D), E)>(closed, kind);
    (a, b, c, d, e)
}

/// The node of a kind and five fields. Where memory is refused, they are dropped.
pub fn close_five<K: Syntax, A: Place, B: Place, C: Place, D: Place, E: Place>(
    alloc: Global,
    kind: Kind,
    fields: (A, B, C, D, E),
) -> Result<Node, AllocError>
    requires plain { IsTrue (not (is_identifier kind)) }
    requires belongs { IsTrue (belongs kind K.class) }
    requires slots { slots_of kind ≡ A.slot ∷ B.slot ∷ C.slot ∷ D.slot ∷ E.slot ∷ [] }
    ensures { IfOk result (λ closed. (closed ≡ Plain kind (A.node fields.0 ∷ B.node fields.1 ∷ C.node fields.2 ∷ D.node fields.3 ∷ E.node fields.4 ∷ [])) × Fits closed (One (Of K.class))) }
{
    let (a, b, c, d, e) = fields;
    close::<K, ((((((), A), B), C), D), E)>(alloc, kind, 5, ((((((), a), b), c), d), e))
}
