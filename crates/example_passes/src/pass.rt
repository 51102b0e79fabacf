//! The pass over the resolver and the substitution of names.
ghost use Rattle.std.specs.Prelude.{◌≡◌, false, IfOk, IfErr, Some, None, if◌then◌else◌};
ghost use Rattle.std.specs.HashMap.{get};
ghost use Rattle.std.proofs.Common.{inl, refl};
ghost use Rattle.swc_base_rename_substitution.specs.Names.{Id as Id', same_id};
ghost use Rattle.example_passes.specs.Process.{Declines, Renames, free_process};

use std::alloc::Global;
use std::collections::HashMap;
use swc_base_rename_substitution::{Config, Names, substitute};
use swc_base_resolver::resolve_program;
use swc_tree::{Globals, Id, JsWord, Mark, NoMemory, PassError, ProgramPass, SyntaxContext};
use swc_tree_node::Node;

/// A pass that resolves a program and gives each free `process` in it another text.
#[derive(Drop)]
pub struct RenamesProcess {
    unresolved: Mark,
    top: Mark,
    text: JsWord,
}

/// The pass with these marks and this text. A `process` that the program declares keeps its own.
pub fn rename_process(unresolved: Mark, top: Mark, text: JsWord) -> RenamesProcess
    ensures { result ≡ record { unresolved = unresolved; top = top; text = text } }
{
    RenamesProcess {
        unresolved,
        top,
        text,
    }
}

impl RenamesProcess {
    // The new text of a free `process`, by its id.
    fn names(&self, alloc: Global) -> Result<HashMap<Id, JsWord>, NoMemory>
        ensures { IfOk result (λ names. (x : Id') → get same_id names x ≡ (if same_id (free_process self.now.unresolved) x then Some self.now.text else None)) }
    {
        let process = JsWord::new(alloc, "process")?;
        let mut context = SyntaxContext::empty(alloc);
        context.apply_mark(self.unresolved)?;
        let mut names = HashMap::new(alloc);
        names.insert((process, context), self.text.clone()?)?;
        Ok(names)
    }
}

impl ProgramPass for RenamesProcess {
    ghost takes_types = { false };

    fn takes_types(&self) -> bool {
        false
    }

    ghost makes = { Renames };

    ghost declines = { Declines };

    /// Resolves the node of a program, and then gives its free `process` the text.
    ///
    /// # Errors
    ///
    /// `MarksSpent` where the table has no room for a mark to each scope but the program, and `NoMemory`.
    fn run(
        &mut self,
        alloc: Global,
        globals: &mut Globals,
        program: Node,
    ) -> Result<Node, PassError> {
        let resolved = resolve_program(alloc, globals, self.unresolved, self.top, program)?;
        let names = self.names(alloc)?;
        let config = Config {
            keep_class_names: false,
            ..Config::default()
        };
        let answer = substitute(alloc, &Names::Texts(&names), &config, resolved)?;
        Ok(answer)
    }

    ghost lacks_memory = { λ pass table program. (refl, inl refl) };
}
