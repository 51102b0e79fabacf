//! The pass that gives names anew.
ghost use Rattle.std.specs.Prelude.{◌≡◌, false};
ghost use Rattle.std.proofs.Common.{refl};
ghost use Rattle.swc_base_rename_substitution.specs.Names.{new_id, by_text, by_id};
ghost use Rattle.swc_base_rename.specs.Visits.{RefusesNode, RenamesNode};

use std::alloc::Global;
use std::collections::HashMap;
use swc_base_rename_substitution::{Config, Names, substitute};
use swc_tree::ProgramPass;
use swc_tree_marks::{Globals, Id, JsWord, PassError};
use swc_tree_node::Node;

/// Gives the names of a program anew, as a map says. The pass borrows the map.
#[derive(Clone, Copy)]
pub struct RenameWith<'a> {
    names: Names<'a>,
    config: Config,
}

/// The pass that puts new texts, with the empty context, in the place of ids.
pub fn rename(map: &HashMap<Id, JsWord>) -> RenameWith<'_>
    ensures names { new_id result.names ≡ by_text map.now }
    ensures config { result.config ≡ record { keep_class_names = false; safari_10 = false; top_level_mark = 0; ignore_eval = false } }
{
    rename_with_config(map, Config::default())
}

/// The same, going by a configuration.
pub fn rename_with_config(map: &HashMap<Id, JsWord>, config: Config) -> RenameWith<'_>
    ensures names { new_id result.names ≡ by_text map.now }
    ensures config { result.config ≡ config }
{
    let names = Names::Texts(map);
    RenameWith { names, config }
}

/// The pass that puts new ids in the place of ids, where their texts differ.
pub fn remap(map: &HashMap<Id, Id>, config: Config) -> RenameWith<'_>
    ensures names { new_id result.names ≡ by_id map.now }
    ensures config { result.config ≡ config }
{
    let names = Names::Ids(map);
    RenameWith { names, config }
}

impl ProgramPass for RenameWith<'_> {
    ghost takes_types = { false };

    fn takes_types(&self) -> bool {
        false
    }

    ghost makes = { RenamesNode };

    ghost declines = { λ pass old before kept new e. RefusesNode pass old kept new e };

    /// Gives the names of a program anew. What is well-formed stays so, and the pass and the table of marks stay as they
    /// are.
    ///
    /// # Errors
    ///
    /// `NoMemory` alone.
    fn run(
        &mut self,
        alloc: Global,
        globals: &mut Globals,
        program: Node,
    ) -> Result<Node, PassError> {
        let RenameWith { names, config } = *self;
        let answer = substitute(alloc, &names, &config, program)?;
        Ok(answer)
    }

    ghost lacks_memory = { λ pass table program. record { refusal = refl; same = refl; marks = refl } };
}
