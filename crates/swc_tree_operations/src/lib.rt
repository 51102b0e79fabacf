//! Operators, and the structs that expressions are made of.
//!
//! Each struct and sum stands one level deep: its subtrees are `Tree`s and `Trees`.
//! Printed by tools/print_table.py from tools/tree.txt.
#![tactic(auto)]

mod array_lit;
mod assign_expr;
mod assign_op;
mod await_expr;
mod bin_expr;
mod binary_op;
mod call_expr;
mod cond_expr;
mod expr_or_spread;
mod key_value_prop;
mod member_expr;
mod new_expr;
mod object_lit;
mod opt_call;
mod opt_chain_expr;
mod paren_expr;
mod seq_expr;
mod spread_element;
mod super_prop_expr;
mod tagged_tpl;
mod tpl;
mod unary_expr;
mod unary_op;
mod update_expr;
mod update_op;
mod yield_expr;

pub use array_lit::ArrayLit;
pub use assign_expr::AssignExpr;
pub use assign_op::AssignOp;
pub use await_expr::AwaitExpr;
pub use bin_expr::BinExpr;
pub use binary_op::BinaryOp;
pub use call_expr::CallExpr;
pub use cond_expr::CondExpr;
pub use expr_or_spread::ExprOrSpread;
pub use key_value_prop::KeyValueProp;
pub use member_expr::MemberExpr;
pub use new_expr::NewExpr;
pub use object_lit::ObjectLit;
pub use opt_call::OptCall;
pub use opt_chain_expr::OptChainExpr;
pub use paren_expr::ParenExpr;
pub use seq_expr::SeqExpr;
pub use spread_element::SpreadElement;
pub use super_prop_expr::SuperPropExpr;
pub use tagged_tpl::TaggedTpl;
pub use tpl::Tpl;
pub use unary_expr::UnaryExpr;
pub use unary_op::UnaryOp;
pub use update_expr::UpdateExpr;
pub use update_op::UpdateOp;
pub use yield_expr::YieldExpr;
