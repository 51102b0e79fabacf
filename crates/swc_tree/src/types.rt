//! Whether declarations of types stand in a program.
ghost use Rattle.std.specs.Prelude.{◌≡◌};
ghost use Rattle.swc_tree_modules.specs.Nodes.{module_node, script_node};
ghost use Rattle.swc_tree_spaces.specs.Spaces.{has_types};

use swc_tree_has_types::any_has_types;
use swc_tree_modules::{Module, Script};

/// Whether an interface, a type alias, an enum or a namespace stands in a program, or anything that stands only in one.
/// It takes no memory.
#[tactic(auto, using(crate::proofs::TypesIn::in_module))]
pub fn types_in_module(program: &Module) -> bool
    ensures { result ≡ has_types (module_node program.now) }
{
    any_has_types(program.body.as_slice())
}

/// The same of a program of the goal Script.
#[tactic(auto, using(crate::proofs::TypesIn::in_script))]
pub fn types_in_script(program: &Script) -> bool
    ensures { result ≡ has_types (script_node program.now) }
{
    any_has_types(program.body.as_slice())
}
