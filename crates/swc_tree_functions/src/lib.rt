//! Functions, classes and their members.
//!
//! Each struct and sum stands one level deep: its subtrees are `Tree`s and `Trees`.
//! Printed by tools/print_table.py from tools/tree.txt.
#![tactic(auto)]

mod arrow_expr;
mod class;
mod class_expr;
mod class_member;
mod class_method;
mod class_prop;
mod computed_prop_name;
mod constructor;
mod fn_expr;
mod function;
mod getter_prop;
mod method_kind;
mod method_prop;
mod param;
mod private_method;
mod private_prop;
mod prop_name;
mod setter_prop;
mod static_block;

pub use arrow_expr::ArrowExpr;
pub use class::Class;
pub use class_expr::ClassExpr;
pub use class_member::ClassMember;
pub use class_method::ClassMethod;
pub use class_prop::ClassProp;
pub use computed_prop_name::ComputedPropName;
pub use constructor::Constructor;
pub use fn_expr::FnExpr;
pub use function::Function;
pub use getter_prop::GetterProp;
pub use method_kind::MethodKind;
pub use method_prop::MethodProp;
pub use param::Param;
pub use private_method::PrivateMethod;
pub use private_prop::PrivateProp;
pub use prop_name::PropName;
pub use setter_prop::SetterProp;
pub use static_block::StaticBlock;
