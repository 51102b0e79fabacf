//! Writing envelopes: a tree with its table of marks.
ghost use Rattle.std.specs.Prelude.{◌≡◌, [], ◌∷◌, ◌++◌, IfOk, OnOk, IsTrue, Ok, string_bytes};
ghost use Rattle.swc_tree_marks.specs.Globals.{IsTable};
ghost use Rattle.jsbase_form.specs.Known.{NumbersShort, marks_short};
ghost use Rattle.jsbase_form.specs.Tables.{table_at};
ghost use Rattle.jsbase_writer.specs.Envelopes.{table_json, table_short, envelope_json, envelope_text, ReadsBack};
ghost use Rattle.jsbase_writer.specs.Tokens.{tokens_of};

use crate::nodes::{text_of, write_value};
use crate::numbers::write_pair;
use json::Writer;
use std::alloc::{AllocError, Global};
use swc_tree_marks::{Globals, Mark};
use swc_tree_node::Node;

fn write_rows(out: &mut Writer, table: &[(u32, u32)]) -> Result<(), AllocError>
    ensures written { OnOk result (out.new.tokens ≡ out.old.tokens ++ tokens_of (table_json table.now)) }
    ensures before { OnOk result (out.new.before ≡ out.old.before) }
    ensures short { OnOk result (IsTrue (table_short table.now)) }
{
    out.begin_array()?;
    for row in table {
        write_pair(out, row.0, row.1)?;
    }
    out.end_array()?;
    Ok(())
}

#[tactic(auto, using(crate::proofs::Back::table_back))]
fn write_object(
    alloc: Global,
    out: &mut Writer,
    globals: &Globals,
    top: Mark,
    tree: &Node,
    unresolved: Mark,
) -> Result<(), AllocError>
    ensures written { OnOk result (out.new.tokens ≡ out.old.tokens ++ tokens_of (envelope_json globals.now top tree.now unresolved)) }
    ensures before { OnOk result (out.new.before ≡ out.old.before) }
    ensures rows { OnOk result (IsTrue (table_short globals.now)) }
    ensures well_formed { OnOk result (IsTable globals.now) }
    ensures table { OnOk result (table_at (table_json globals.now) ≡ Ok globals.now) }
    ensures marks { OnOk result (IsTrue (marks_short (top ∷ unresolved ∷ []))) }
    ensures tree { OnOk result (NumbersShort tree.now) }
{
    out.begin_object()?;
    out.key("marks")?;
    write_rows(out, globals.table())?;
    out.key("top")?;
    out.u64(u64::from(top.as_u32()))?;
    out.key("tree")?;
    write_value(alloc, out, tree)?;
    out.key("unresolved")?;
    out.u64(u64::from(unresolved.as_u32()))?;
    out.end_object()?;
    Ok(())
}

/// The envelope of a tree as one line of JSON: `marks`, `top`, `tree` and `unresolved`, in this order.
/// The options of a pass are not written. `read_bytes` gives the envelope back, with each option false,
/// where the tree fits its class, the marks are known, and nothing nests deeper than 127 arrays and objects.
///
/// Memory and time are those of `write`.
///
/// # Errors
///
/// Where memory is refused.
pub fn write_envelope(
    alloc: Global,
    globals: &Globals,
    top: Mark,
    tree: &Node,
    unresolved: Mark,
) -> Result<String, AllocError>
    ensures text { IfOk result (λ text. string_bytes text ≡ envelope_text globals.now top tree.now unresolved) }
    ensures well_formed { OnOk result (IsTable globals.now) }
    ensures reads_back { IfOk result (λ text. ReadsBack (string_bytes text) globals.now top tree.now unresolved) }
{
    let mut out = Writer::new(Vec::new(alloc));
    write_object(alloc, &mut out, globals, top, tree, unresolved)?;
    let mut text = text_of(out);
    text.push_str("\n")?;
    Ok(text)
}
