//! The resolver as a pass.
ghost use Rattle.std.specs.Prelude.{◌≡◌, ◌≢◌, true, IfOk, IfErr};
ghost use Rattle.swc_tree_node.specs.declared.slot.Slot.{Slot};
ghost use Rattle.swc_tree_node.specs.Fits.{fits};
ghost use Rattle.swc_tree.specs.Passes.{IsExtended, IsProgram};
ghost use Rattle.swc_base_resolver.specs.Visits.{RefusesNode, ResolvesNode};
ghost use Rattle.swc_base_resolver.specs.Memory.{may_lack_memory};

use std::alloc::Global;
use std::marker::Model;
use swc_base_resolver_laws::{
    clean_programs_become_well_scoped, lists_are_items_without_namespaces,
};
use swc_base_resolver_program::resolve_program;
use swc_tree::ProgramPass;
use swc_tree_marks::{Globals, Mark, PassError};
use swc_tree_node::Node;

/// The resolver of programs whose top mark and whose mark of names that nothing declares are these. Contracts see
/// it as the pair of the two, the unresolved mark first; neither is the root.
#[derive(Debug, Drop)]
pub struct Resolver {
    unresolved_mark: Mark,
    top_level_mark: Mark,
}

impl Model for Resolver {
    ghost use Rattle.std.specs.Prelude.{ℕ, ◌≢◌};

    ghost Value = { ℕ × ℕ };

    ghost view = { λ r. (r.unresolved_mark, r.top_level_mark) };

    ghost invariant = { λ r. (r.unresolved_mark ≢ 0) × (r.top_level_mark ≢ 0) };
}

impl Resolver {
    // The resolver with those marks.
    pub(crate) fn with_marks(unresolved_mark: Mark, top_level_mark: Mark) -> Resolver
        requires unresolved { unresolved_mark ≢ 0 }
        requires top { top_level_mark ≢ 0 }
        ensures { result ≡ (unresolved_mark, top_level_mark) }
    {
        Resolver {
            unresolved_mark,
            top_level_mark,
        }
    }
}

// What a resolver of these marks makes of the node of a program.
fn resolve(
    alloc: Global,
    globals: &mut Globals,
    unresolved: Mark,
    top: Mark,
    program: Node,
) -> Result<Node, PassError>
    requires { IsProgram program }
    ensures done { IfOk result (λ answer. ResolvesNode (unresolved, top) globals.old program (unresolved, top) globals.new answer) }
    ensures place { (s : Slot) → IfOk result (λ answer. fits answer s ≡ fits program s) }
    ensures cause { IfErr result (RefusesNode (unresolved, top) globals.old program (unresolved, top) globals.new) }
    ensures marks { IsExtended globals.old globals.new }
{
    clean_programs_become_well_scoped();
    lists_are_items_without_namespaces();
    let answer = resolve_program(alloc, globals, unresolved, top, program)?;
    Ok(answer)
}

impl ProgramPass for Resolver {
    ghost takes_types = { true };

    fn takes_types(&self) -> bool {
        true
    }

    ghost makes = { ResolvesNode };

    ghost declines = { RefusesNode };

    /// Resolves the node of a program, names of values and names of types. Each run is by itself: the resolver stays as it is. Where
    /// `marks_ok` holds of the two marks, a module without declarations of types and types, without contexts and without early errors of
    /// names becomes well-scoped; and so does such a script in which no plain function stands in a block of sloppy code, no label names a
    /// function, the program declares neither `undefined` nor `NaN` nor `Infinity`, and no function has two parameters of one name.
    ///
    /// # Errors
    ///
    /// `MarksSpent` only where the table's greatest number plus the number of scopes in the program is above
    /// 4294967295; `NoMemory`. The table then holds what it held, and perhaps the first of the fresh marks.
    fn run(
        &mut self,
        alloc: Global,
        globals: &mut Globals,
        program: Node,
    ) -> Result<Node, PassError> {
        let (unresolved, top) = (self.unresolved_mark, self.top_level_mark);
        let answer = resolve(alloc, globals, unresolved, top, program)?;
        Ok(answer)
    }

    ghost lacks_memory = { may_lack_memory };
}
