//! The classes of the family types.
//!
//! Printed by tools/print_table.py from tools/tree.txt.
use crate::class::Syntax;

/// The class `TsInterfaceDecl`.
pub struct TsInterfaceDecl;

impl Syntax for TsInterfaceDecl {
    ghost use Rattle.swc_tree_node.specs.declared.kind.Class.TheVariants as class;

    ghost class = { class.TsInterfaceDecl };
}

/// The class `TsTypeAliasDecl`.
pub struct TsTypeAliasDecl;

impl Syntax for TsTypeAliasDecl {
    ghost use Rattle.swc_tree_node.specs.declared.kind.Class.TheVariants as class;

    ghost class = { class.TsTypeAliasDecl };
}

/// The class `TsTypeParam`.
pub struct TsTypeParam;

impl Syntax for TsTypeParam {
    ghost use Rattle.swc_tree_node.specs.declared.kind.Class.TheVariants as class;

    ghost class = { class.TsTypeParam };
}

/// The class `TsEnumDecl`.
pub struct TsEnumDecl;

impl Syntax for TsEnumDecl {
    ghost use Rattle.swc_tree_node.specs.declared.kind.Class.TheVariants as class;

    ghost class = { class.TsEnumDecl };
}

/// The class `TsEnumMember`.
pub struct TsEnumMember;

impl Syntax for TsEnumMember {
    ghost use Rattle.swc_tree_node.specs.declared.kind.Class.TheVariants as class;

    ghost class = { class.TsEnumMember };
}

/// The class `TsModuleDecl`.
pub struct TsModuleDecl;

impl Syntax for TsModuleDecl {
    ghost use Rattle.swc_tree_node.specs.declared.kind.Class.TheVariants as class;

    ghost class = { class.TsModuleDecl };
}

/// The class `TsKeywordType`.
pub struct TsKeywordType;

impl Syntax for TsKeywordType {
    ghost use Rattle.swc_tree_node.specs.declared.kind.Class.TheVariants as class;

    ghost class = { class.TsKeywordType };
}

/// The class `TsTypeRef`.
pub struct TsTypeRef;

impl Syntax for TsTypeRef {
    ghost use Rattle.swc_tree_node.specs.declared.kind.Class.TheVariants as class;

    ghost class = { class.TsTypeRef };
}

/// The class `TsArrayType`.
pub struct TsArrayType;

impl Syntax for TsArrayType {
    ghost use Rattle.swc_tree_node.specs.declared.kind.Class.TheVariants as class;

    ghost class = { class.TsArrayType };
}

/// The class `TsUnionType`.
pub struct TsUnionType;

impl Syntax for TsUnionType {
    ghost use Rattle.swc_tree_node.specs.declared.kind.Class.TheVariants as class;

    ghost class = { class.TsUnionType };
}

/// The class `TsTypeLit`.
pub struct TsTypeLit;

impl Syntax for TsTypeLit {
    ghost use Rattle.swc_tree_node.specs.declared.kind.Class.TheVariants as class;

    ghost class = { class.TsTypeLit };
}

/// The class `TsPropertySignature`.
pub struct TsPropertySignature;

impl Syntax for TsPropertySignature {
    ghost use Rattle.swc_tree_node.specs.declared.kind.Class.TheVariants as class;

    ghost class = { class.TsPropertySignature };
}

/// The class `TsQualifiedName`.
pub struct TsQualifiedName;

impl Syntax for TsQualifiedName {
    ghost use Rattle.swc_tree_node.specs.declared.kind.Class.TheVariants as class;

    ghost class = { class.TsQualifiedName };
}

/// The class `TsEnumMemberId`.
pub struct TsEnumMemberId;

impl Syntax for TsEnumMemberId {
    ghost use Rattle.swc_tree_node.specs.declared.kind.Class.TheVariants as class;

    ghost class = { class.TsEnumMemberId };
}

/// The class `TsType`.
pub struct TsType;

impl Syntax for TsType {
    ghost use Rattle.swc_tree_node.specs.declared.kind.Class.TheVariants as class;

    ghost class = { class.TsType };
}

/// The class `TsEntityName`.
pub struct TsEntityName;

impl Syntax for TsEntityName {
    ghost use Rattle.swc_tree_node.specs.declared.kind.Class.TheVariants as class;

    ghost class = { class.TsEntityName };
}
