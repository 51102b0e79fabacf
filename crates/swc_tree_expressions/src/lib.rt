//! Expressions.
//!
//! Each struct and sum stands one level deep: its subtrees are `Tree`s and `Trees`.
//! Printed by tools/print_table.py from tools/tree.txt.
#![tactic(auto)]

mod assign_target;
mod assign_target_pat;
mod callee;
mod expr;
mod member_prop;
mod opt_chain_base;
mod prop;
mod prop_or_spread;
mod simple_assign_target;
mod super_prop;

pub use assign_target::AssignTarget;
pub use assign_target_pat::AssignTargetPat;
pub use callee::Callee;
pub use expr::Expr;
pub use member_prop::MemberProp;
pub use opt_chain_base::OptChainBase;
pub use prop::Prop;
pub use prop_or_spread::PropOrSpread;
pub use simple_assign_target::SimpleAssignTarget;
pub use super_prop::SuperProp;
