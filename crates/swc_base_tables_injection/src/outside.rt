//! Helpers that come from outside.
ghost use Rattle.std.specs.Prelude.{IfOk};
ghost use Rattle.swc_tree_node.specs.declared.slot.Slot.{Slot as Slot'};
ghost use Rattle.swc_tree_node.specs.Fits.{Fits};
ghost use Rattle.swc_base_tables_injection.specs.Injected.{IsBroughtInto};

use crate::body::{program_kind, put_in};
use crate::brought::{imports, requires_of};
use crate::members::{Seat, write_members};
use std::alloc::Global;
use swc_tree_items::Text;
use swc_tree_marks::{Mark, NoMemory};
use swc_tree_node::{Kind, Node};

/// The program with helpers brought in from outside, in the order of their names, behind its leading string statements:
/// into a module `import { _ as _throw } from "@swc/helpers/_/_throw"` for the helper `throw`, into a script
/// `var _throw = require("@swc/helpers/_/_throw")`. The local name has the helper mark, and `require` the global mark.
///
/// Where a script requires a helper, each identifier expression of the helper mark's context becomes the member `_throw._`
/// of itself, and each such shorthand property the property of that member.
///
/// A program that fits its place still does.
///
/// # Errors
///
/// `NoMemory` where memory is refused. The program is then dropped.
pub fn bring_in(
    alloc: Global,
    helper: Mark,
    global: Mark,
    names: &[Text],
    program: Node,
) -> Result<Node, NoMemory>
    ensures answer { IfOk result (IsBroughtInto helper global names.now program) }
    ensures fits { (s : Slot') → Fits program s → IfOk result (λ answer. Fits answer s) }
{
    match program_kind(&program) {
        Some(Kind::Module) => {
            let more = imports(alloc, helper, names)?;
            put_in(program, more)
        }
        Some(Kind::Script) if !names.is_empty() => {
            let more = requires_of(alloc, helper, global, names)?;
            let rest = write_members(alloc, helper, Seat::Other, program)?;
            put_in(rest, more)
        }
        _ => Ok(program),
    }
}
