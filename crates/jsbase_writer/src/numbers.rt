//! Writing arrays of numbers.
ghost use Rattle.std.specs.Prelude.{◌≡◌, [], ◌∷◌, ◌++◌, OnOk, IsTrue};
ghost use Rattle.jsbase_form.specs.Known.{marks_short};
ghost use Rattle.jsbase_form.specs.Writing.{numbers_json};
ghost use Rattle.jsbase_writer.specs.Tokens.{tokens_of};

use json::Writer;
use std::alloc::AllocError;
use swc_tree_marks::Mark;

// Writes two numbers as an array.
#[tactic(auto, using(crate::proofs::Tokens::of_pair))]
pub(crate) fn write_pair(out: &mut Writer, first: u32, second: u32) -> Result<(), AllocError>
    ensures written { OnOk result (out.new.tokens ≡ out.old.tokens ++ tokens_of (numbers_json (first ∷ second ∷ []))) }
    ensures before { OnOk result (out.new.before ≡ out.old.before) }
    ensures short { IsTrue (marks_short (first ∷ second ∷ [])) }
{
    out.begin_array()?;
    out.u64(u64::from(first))?;
    out.u64(u64::from(second))?;
    out.end_array()?;
    Ok(())
}

// Writes marks as an array.
pub(crate) fn write_marks(out: &mut Writer, marks: &[Mark]) -> Result<(), AllocError>
    ensures written { OnOk result (out.new.tokens ≡ out.old.tokens ++ tokens_of (numbers_json marks.now)) }
    ensures before { OnOk result (out.new.before ≡ out.old.before) }
    ensures short { OnOk result (IsTrue (marks_short marks.now)) }
{
    out.begin_array()?;
    for mark in marks {
        out.u64(u64::from(mark.as_u32()))?;
    }
    out.end_array()?;
    Ok(())
}
