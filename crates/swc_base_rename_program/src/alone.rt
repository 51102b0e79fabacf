//! A tree that gets its names apart from all round it.
ghost use Rattle.std.specs.Prelude.{◌≡◌, ℕ, Option, List, IfOk, IfErr};
ghost use Rattle.std.specs.HashSet.{contains};
ghost use Rattle.swc_tree_scoping.specs.BoundNames.{Id};
ghost use Rattle.swc_base_rename_substitution.specs.Names.{same_id};
ghost use Rattle.swc_base_rename_substitution.specs.Room.{FitsAs};
ghost use Rattle.swc_base_rename_analysis.specs.Read.{IsRead};
ghost use Rattle.swc_base_rename_analysis.specs.Walk.{laid_out};
ghost use Rattle.swc_base_rename_program.specs.NewTexts.{IsLeft, IsNameRefusal, IsTableOf};
ghost use Rattle.swc_base_rename_program.specs.Renamed.{HasNames, IsGiven, renaming};

use crate::kept::Kept;
use crate::mode::Mode;
use crate::named::new_texts;
use std::alloc::Global;
use std::collections::{BTreeMap, BTreeSet, HashSet};
use swc_base_rename_analysis::{Analysis, analyse};
use swc_base_rename_naming::NewTexts;
use swc_base_rename_substitution::{Config, Names, substitute};
use swc_base_rename_units::Alone;
use swc_tree_marks::{Id, JsWord, NoMemory, PassError};
use swc_tree_node::Node;

/// A tree with its names by a table of those that change. Where there is no table the tree stays as it is, with the names that
/// classes keep.
///
/// # Errors
///
/// `NoMemory` where memory is refused. The tree is then dropped.
pub fn with_names(
    alloc: Global,
    table: &Option<BTreeMap<Id, JsWord>>,
    config: &Config,
    tree: Node,
) -> Result<Node, NoMemory>
    ensures given { IfOk result (λ answer. (new_texts : Id → Option (List ℕ)) → IsTableOf new_texts table.now → IsGiven new_texts config.now.keep_class_names tree answer) }
    ensures fits { IfOk result (FitsAs tree) }
{
    match table {
        Some(table) => {
            let tree = substitute(alloc, &Names::Ordered(table), config, tree)?;
            Ok(tree)
        }
        None => Ok(tree),
    }
}

/// What gives a tree its names, none of which is one of the texts that are left.
#[derive(Clone, Copy)]
pub struct Apart<'a, T> {
    pub texts: &'a T,
    pub mode: Mode,
    pub preserved: &'a HashSet<Id>,
    pub left: &'a BTreeSet<String>,
    pub config: &'a Config,
}

impl<T: NewTexts> Apart<'_, T> {
    /// A unit with its names, of which was read what a renamer is to know.
    ///
    /// # Errors
    ///
    /// `CounterSpent` where for an id no counter below the greatest `usize` gives a free text, and `NoMemory`. The unit is then dropped.
    pub fn rename_read(
        &self,
        alloc: Global,
        analysis: &Analysis,
        unit: Node,
    ) -> Result<Node, PassError>
        requires { IsRead (laid_out unit) analysis.now }
        ensures becomes { IfOk result (HasNames (renaming (T.text self.now.texts.now) self.now.mode (contains same_id self.now.preserved.now)) (IsLeft unit self.now.left.now) self.now.config.now.keep_class_names unit) }
        ensures refused { IfErr result (IsNameRefusal (renaming (T.text self.now.texts.now) self.now.mode (contains same_id self.now.preserved.now)) (IsLeft unit self.now.left.now) unit) }
        ensures fits { IfOk result (FitsAs unit) }
    {
        let kept = Kept {
            preserved: self.preserved,
            below: None,
        };
        let table = new_texts(alloc, self.texts, self.mode, &kept, self.left, analysis)?;
        let unit = with_names(alloc, &table, self.config, unit)?;
        Ok(unit)
    }
}

impl<T: NewTexts> Alone for Apart<'_, T> {
    ghost becomes = { λ a before after. HasNames (renaming (T.text a.texts.now) a.mode (contains same_id a.preserved.now)) (IsLeft before a.left.now) a.config.now.keep_class_names before after };

    ghost refuses = { λ a tree e. IsNameRefusal (renaming (T.text a.texts.now) a.mode (contains same_id a.preserved.now)) (IsLeft tree a.left.now) tree e };

    fn rename(&self, alloc: Global, unit: Node) -> Result<Node, PassError> {
        let analysis = analyse(alloc, &unit)?;
        self.rename_read(alloc, &analysis, unit)
    }
}
