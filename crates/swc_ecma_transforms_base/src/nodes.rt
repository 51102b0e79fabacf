//! Short names for the node of a program.
ghost use Rattle.std.specs.Prelude.{◌≡◌, false, IsTrue, Some, IfOk, IfErr};
ghost use Rattle.swc_tree_node.specs.declared.slot.Slot.{Slot};
ghost use Rattle.swc_tree_node.specs.Fits.{Fits};
ghost use Rattle.swc_tree_scoping.specs.declared.places.Scope.TheVariants as scope;
ghost use Rattle.swc_tree_scoping.specs.Places.{opened, program_place};
ghost use Rattle.swc_tree_renaming.specs.Apart.{is_goal};
ghost use Rattle.swc_tree_spaces.specs.Spaces.{has_types};
ghost use Rattle.swc_base_resolver_program.specs.Marked.{MarksOk};
ghost use Rattle.swc_ecma_transforms_base.specs.Mangled.{GainsMarks, IsMadeShort, IsRefusal};

use std::alloc::Global;
use swc_base_fixer_laws::fixed_fits_table;
use swc_base_fixer_program::fix_parens;
use swc_base_mangle::mangle_program;
use swc_base_rename_substitution::Config;
use swc_base_resolver_program::resolve_program;
use swc_tree::{Globals, Mark, NoComments, Node, PassError};
use swc_tree_spaces_laws::types_are_told;

/// The node of a program, resolved, with short names and its parentheses set anew.
///
/// # Errors
///
/// Those of the first of the three passes that is refused. The tree is then dropped.
pub fn mangle_node(
    alloc: Global,
    globals: &mut Globals,
    unresolved: Mark,
    config: &Config,
    keeps_top: bool,
    tree: Node,
) -> Result<Node, PassError>
    requires program { opened program_place tree ≡ Some scope.Program }
    requires marks { MarksOk globals.old unresolved config.now.top_level_mark }
    requires no_types { has_types tree ≡ false }
    ensures done { IfOk result (IsMadeShort unresolved config.now keeps_top globals.old tree globals.new) }
    ensures cause { IfErr result (IsRefusal unresolved config.now keeps_top globals.old tree globals.new) }
    ensures marks { GainsMarks config.now.top_level_mark globals.old tree globals.new }
    ensures fits { (goal : Slot) → IsTrue (is_goal goal) → Fits tree goal → IfOk result (λ t. Fits t goal) }
{
    types_are_told();
    fixed_fits_table();
    let marked = resolve_program(alloc, globals, unresolved, config.top_level_mark, tree)?;
    let between = mangle_program(alloc, config, globals, keeps_top, marked)?;
    let fixed = fix_parens(alloc, None::<&mut NoComments>, between)?;
    Ok(fixed)
}
