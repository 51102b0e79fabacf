//! Types, and what declares them.
//!
//! Each struct and sum stands one level deep: its subtrees are `Tree`s and `Trees`.
//! Printed by tools/print_table.py from tools/tree.txt.
#![tactic(auto)]

mod ts_array_type;
mod ts_entity_name;
mod ts_enum_decl;
mod ts_enum_member;
mod ts_enum_member_id;
mod ts_interface_decl;
mod ts_keyword_type;
mod ts_module_decl;
mod ts_property_signature;
mod ts_qualified_name;
mod ts_type;
mod ts_type_alias_decl;
mod ts_type_lit;
mod ts_type_param;
mod ts_type_ref;
mod ts_union_type;

pub use ts_array_type::TsArrayType;
pub use ts_entity_name::TsEntityName;
pub use ts_enum_decl::TsEnumDecl;
pub use ts_enum_member::TsEnumMember;
pub use ts_enum_member_id::TsEnumMemberId;
pub use ts_interface_decl::TsInterfaceDecl;
pub use ts_keyword_type::TsKeywordType;
pub use ts_module_decl::TsModuleDecl;
pub use ts_property_signature::TsPropertySignature;
pub use ts_qualified_name::TsQualifiedName;
pub use ts_type::TsType;
pub use ts_type_alias_decl::TsTypeAliasDecl;
pub use ts_type_lit::TsTypeLit;
pub use ts_type_param::TsTypeParam;
pub use ts_type_ref::TsTypeRef;
pub use ts_union_type::TsUnionType;
