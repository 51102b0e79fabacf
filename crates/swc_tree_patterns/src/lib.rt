//! Patterns.
//!
//! Each struct and sum stands one level deep: its subtrees are `Tree`s and `Trees`.
//! Printed by tools/print_table.py from tools/tree.txt.
#![tactic(auto)]

mod array_pat;
mod assign_pat;
mod assign_pat_prop;
mod key_value_pat_prop;
mod object_pat;
mod object_pat_prop;
mod pat;
mod rest_pat;

pub use array_pat::ArrayPat;
pub use assign_pat::AssignPat;
pub use assign_pat_prop::AssignPatProp;
pub use key_value_pat_prop::KeyValuePatProp;
pub use object_pat::ObjectPat;
pub use object_pat_prop::ObjectPatProp;
pub use pat::Pat;
pub use rest_pat::RestPat;
