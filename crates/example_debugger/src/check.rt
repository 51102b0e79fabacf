//! The check, and its verdict on a program.
ghost use Rattle.std.specs.Prelude.{◌↔◌, ◌⊎◌, IsTrue};
ghost use Rattle.swc_tree_walk.specs.Nodes.{AnyHasNode};
ghost use Rattle.example_debugger.specs.Debugger.{HasDebugger, is_debugger};

use swc_tree::{Check, Checked, Module, Script, should_work};
use swc_tree_node::{Kind, Node};
use swc_tree_walk::{Finder, any_has_node};

// Looks for `debugger` statements.
#[derive(Clone, Copy)]
struct Debuggers;

impl Finder for Debuggers {
    ghost is_sought = { λ _ node. is_debugger node };

    fn is_sought(&self, node: &Node) -> bool {
        matches!(node, Node::Tree(Kind::DebuggerStmt, _))
    }
}

/// A check whose verdict is whether it came upon a `debugger` statement.
#[derive(Clone, Copy, Debug, Default)]
pub struct FindsDebugger {
    found: bool,
}

impl FindsDebugger {
    // Looks through the items of a program.
    fn look(&mut self, items: &[Node])
        ensures { IsTrue self.new.found ↔ (IsTrue self.old.found ⊎ AnyHasNode is_debugger items.now) }
    {
        if any_has_node(&Debuggers, items) {
            self.found = true;
        }
    }
}

impl Check for FindsDebugger {
    ghost visits = { λ before program after. IsTrue after.found ↔ (IsTrue before.found ⊎ HasDebugger program) };

    ghost handles = { λ check. check.found };

    fn visit_module(&mut self, program: &Module) {
        self.look(program.body.as_slice());
    }

    fn visit_script(&mut self, program: &Script) {
        self.look(program.body.as_slice());
    }

    fn should_handle(&self) -> bool {
        self.found
    }
}

/// Whether a `debugger` statement stands somewhere in a program, of either goal.
pub fn has_debugger<T: Checked>(program: &T) -> bool
    ensures { IsTrue result ↔ HasDebugger (T.program program.now) }
{
    should_work::<FindsDebugger, T>(program)
}
