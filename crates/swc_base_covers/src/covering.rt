//! Whether a program is covered.
ghost use Rattle.std.specs.Prelude.{◌≡◌, IsTrue, IfOk, IfErr};
ghost use Rattle.swc_tree_marks.specs.declared.error.PassError.TheVariants as error;
ghost use Rattle.swc_tree_node.specs.declared.slot.Slot.{Slot};
ghost use Rattle.swc_tree_node.specs.Fits.{Fits};
ghost use Rattle.swc_tree_renaming.specs.Apart.{is_goal};
ghost use Rattle.swc_base_covers.specs.Covered.{HasPath, Tells};
ghost use Rattle.swc_base_covers.specs.Shown.{IsShown};

use crate::causes::first_cause;
use crate::gap::{Cause, Gap};
use crate::shown::first_shown;
use std::alloc::{AllocError, Global};
use swc_base_rename_substitution::Config;
use swc_tree_marks::PassError;
use swc_tree_node::Node;

// A gap, and where it shows.
fn gap_of(alloc: Global, cause: Cause, program: &Node) -> Result<Gap, AllocError>
    ensures cause { IfOk result (λ gap. gap.cause ≡ cause) }
    ensures path { IfOk result (λ gap. IsShown gap.cause program.now gap.path) }
{
    let path = first_shown(alloc, cause, program)?;
    Ok(Gap { cause, path })
}

/// What keeps a program from what is promised of a chain of passes; none if it is promised of the program.
///
/// Of several causes the first is told, in the order of `Cause`. It copies nothing, takes memory in step with the names that the
/// program declares, and time in step with its size, but for the logarithm of how many names a scope declares.
///
/// # Errors
///
/// `NoMemory` alone.
pub fn covers(alloc: Global, config: &Config, program: &Node) -> Result<Option<Gap>, PassError>
    ensures told { (goal : Slot) → IsTrue (is_goal goal) → Fits program.now goal → IfOk result (Tells config.now program.now) }
    ensures path { IfOk result (HasPath program.now) }
    ensures refusal { IfErr result (λ e. e ≡ error.NoMemory) }
{
    let found = first_cause(alloc, config, program)?;
    match found {
        None => Ok(None),
        Some(cause) => Ok(Some(gap_of(alloc, cause, program)?)),
    }
}
