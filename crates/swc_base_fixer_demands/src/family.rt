//! Which kinds a test takes.
ghost use Rattle.std.specs.Prelude.{◌≡◌};
ghost use Rattle.swc_tree_grammar.specs.Kinds.{has_kind};
ghost use Rattle.swc_base_fixer_demands.specs.Family.{kinds_of};

use swc_tree_node::{Kind, Node};

/// Kinds that a test takes together.
#[derive(Clone, Copy)]
pub enum Family {
    Arrow,
    Await,
    Block,
    Chain,
    Class,
    /// Patterns that take a value apart.
    Destructuring,
    Function,
    Literal,
    Object,
    ObjectPattern,
    /// What the reader's table names where it is called.
    OddCallee,
    /// What the reader's table names where its member is taken.
    OddObject,
    Yield,
}

// Whether a kind is of a family.
fn belongs(kind: Kind, family: Family) -> bool
    ensures { result ≡ kinds_of family kind }
{
    match family {
        Family::Arrow => matches!(kind, Kind::ArrowExpr),
        Family::Await => matches!(kind, Kind::AwaitExpr),
        Family::Block => matches!(kind, Kind::BlockStmt),
        Family::Chain => matches!(kind, Kind::OptChainExpr),
        Family::Class => matches!(kind, Kind::ClassExpr),
        Family::Destructuring => matches!(kind, Kind::ArrayPat | Kind::ObjectPat),
        Family::Function => matches!(kind, Kind::FnExpr),
        Family::Literal => {
            matches!(
                kind,
                Kind::Str | Kind::Bool | Kind::Null | Kind::Number | Kind::BigInt | Kind::Regex
            )
        }
        Family::Object => matches!(kind, Kind::ObjectLit),
        Family::ObjectPattern => matches!(kind, Kind::ObjectPat),
        Family::OddCallee => {
            matches!(
                kind,
                Kind::Bool
                    | Kind::Null
                    | Kind::BigInt
                    | Kind::Regex
                    | Kind::ClassExpr
                    | Kind::ObjectLit
            )
        }
        Family::OddObject => matches!(kind, Kind::FnExpr | Kind::ClassExpr),
        Family::Yield => matches!(kind, Kind::YieldExpr),
    }
}

/// Whether a node is a tree of a kind of the family.
pub fn is_of(node: &Node, family: Family) -> bool
    ensures { result ≡ has_kind (kinds_of family) node.now }
{
    match node {
        Node::Tree(kind, _) => belongs(*kind, family),
        _ => false,
    }
}
