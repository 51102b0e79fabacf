//! Programs that can be judged.
ghost use Rattle.std.specs.Prelude.{◌≡◌, IfOk};
ghost use Rattle.swc_tree_modules.specs.Nodes.{module_node, script_node};
ghost use Rattle.swc_tree_scoping.specs.WellScoped.{IsClean};
ghost use Rattle.swc_tree_spaces.specs.Spaces.{has_types};
ghost use Rattle.swc_base_alpha.specs.Verdict.{IsCleanProgram};

use std::alloc::{AllocError, Global};
use swc_tree::{Module, Node, Opened, Script, types_in_module, types_in_script};

/// A program, of one of the goals.
pub trait Judged {
    ghost use Rattle.swc_tree_node.specs.declared.node.Node.{Node as Node'};

    /// Its node.
    ghost node: { Self → Node' };

    /// Whether declarations of types stand in it.
    fn have_types(&self) -> bool
        ensures { result ≡ has_types (node self.now) };

    /// A copy of it, as a node.
    fn to_node(&self, alloc: Global) -> Result<Node, AllocError>
        ensures value { IfOk result (λ copy. copy ≡ node self.now) }
        ensures program { IfOk result (λ copy. IsClean copy → IsCleanProgram copy) };
}

impl Judged for Module {
    ghost node = { module_node };

    fn have_types(&self) -> bool {
        types_in_module(self)
    }

    #[tactic(auto, using(crate::proofs::Copies::module_program))]
    fn to_node(&self, alloc: Global) -> Result<Node, AllocError> {
        self.clone()?.into_node(alloc)
    }
}

impl Judged for Script {
    ghost node = { script_node };

    fn have_types(&self) -> bool {
        types_in_script(self)
    }

    #[tactic(auto, using(crate::proofs::Copies::script_program))]
    fn to_node(&self, alloc: Global) -> Result<Node, AllocError> {
        self.clone()?.into_node(alloc)
    }
}
