//! Programs fit the table.
ghost use Rattle.swc_tree_node.specs.declared.kind.Class.TheVariants as class;
ghost use Rattle.swc_tree_node.specs.declared.slot.Slot.TheVariants.{One};
ghost use Rattle.swc_tree_node.specs.declared.slot.Content.TheVariants.{Node as Of};
ghost use Rattle.swc_tree_node.specs.Fits.{Fits};
ghost use Rattle.swc_tree_modules.specs.Nodes.{module_node, script_node};

use swc_tree_modules::{Module, Script};

/// Says of a module that it fits the table, as each does, to a caller whose proof needs it. It does nothing.
pub fn module_fits(program: &Module)
    ensures { Fits (module_node program.now) (One (Of class.Module)) }
{
    let _ = program.body.as_slice();
}

/// The same of a program of the goal Script.
pub fn script_fits(program: &Script)
    ensures { Fits (script_node program.now) (One (Of class.Script)) }
{
    let _ = program.body.as_slice();
}
