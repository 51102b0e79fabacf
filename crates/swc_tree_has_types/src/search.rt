//! Whether nodes of types stand in a tree.
ghost use Rattle.std.specs.Prelude.{◌≡◌};
ghost use Rattle.std.specs.List.{list_any};
ghost use Rattle.swc_tree_spaces.specs.Spaces.{has_types as has_any, is_of_types as is_one};

use swc_tree_node::{Kind, Node};

// Whether nodes of the kind declare types or are types.
fn is_of_types(kind: Kind) -> bool
    ensures { result ≡ is_one kind }
{
    matches!(
        kind,
        Kind::TsInterfaceDecl
            | Kind::TsTypeAliasDecl
            | Kind::TsTypeParam
            | Kind::TsEnumDecl
            | Kind::TsEnumMember
            | Kind::TsModuleDecl
            | Kind::TsKeywordType
            | Kind::TsTypeRef
            | Kind::TsArrayType
            | Kind::TsUnionType
            | Kind::TsTypeLit
            | Kind::TsPropertySignature
            | Kind::TsQualifiedName
    )
}

/// Whether a node that declares a type or is one stands in a tree, or is the tree.
///
/// It takes no memory, looks at each node at most once, and stops at the first that it finds.
#[cycle(has_types)]
#[tactic(auto, using(crate::proofs::Told::types_of_tree, crate::proofs::Told::types_of_list))]
pub fn has_types(tree: &Node) -> bool
    ensures { result ≡ has_any tree.now }
{
    match tree {
        Node::List(nodes) => any_has_types(nodes.as_slice()),
        Node::Tree(kind, nodes) => is_of_types(*kind) || any_has_types(nodes.as_slice()),
        _ => false,
    }
}

/// Whether one stands in one of some trees, or is one of them.
///
/// It takes no memory, looks at each node at most once, and stops at the first that it finds.
#[cycle(has_types)]
pub fn any_has_types(trees: &[Node]) -> bool
    ensures { result ≡ list_any has_any trees.now }
{
    for tree in trees {
        if tree.has_parts() && has_types(tree) {
            return true;
        }
    }
    false
}
