//! Paths into a JSON value.
ghost use Rattle.std.specs.Prelude.{◌≡◌, [], ◌∷◌, ◌++◌, IfOk, OnOk, OnErr, string_bytes};
ghost use Rattle.jsbase_form.specs.Reads.{path_text, part_text};
ghost use Rattle.jsbase_form.specs.Steps.{part_of};

use std::alloc::{AllocError, Global};
use std::fmt;
use std::marker::Model;

/// A step from a JSON value into a part of it.
#[derive(Clone, Copy, Debug)]
pub enum Step {
    Key(&'static str),
    Index(usize),
}

impl fmt::Display for Step {
    ghost use Rattle.std.specs.Prelude.{Some};

    ghost output = { λ step. Some (part_text (part_of step)) };

    fn fmt<W: fmt::Write>(&self, f: &mut fmt::Formatter<W>) -> fmt::Result {
        match self {
            Step::Key(key) => write!(f, ".{key}"),
            Step::Index(index) => write!(f, "[{index}]"),
        }
    }
}

/// The way from a JSON value to a fault in it, which contracts see as the list of its parts from the
/// outside in.
#[derive(Debug, Drop)]
pub struct FaultPath {
    // The last step first: reading answers a fault from the inside out.
    steps: Vec<Step>,
}

impl Model for FaultPath {
    ghost use Rattle.jsbase_form.specs.Reads.{Path};
    ghost use Rattle.jsbase_form.specs.Steps.{path_of};

    ghost Value = { Path };

    ghost view = { λ p. path_of p.steps.items };
}

impl fmt::Display for FaultPath {
    ghost use Rattle.std.specs.Prelude.{Some};

    ghost output = { λ path. Some (path_text path) };

    fn fmt<W: fmt::Write>(&self, f: &mut fmt::Formatter<W>) -> fmt::Result {
        f.write_str("$")?;
        for step in self.steps.iter().rev() {
            write!(f, "{step}")?;
        }
        Ok(())
    }
}

impl FaultPath {
    /// The path to the value itself.
    pub fn here(alloc: Global) -> FaultPath
        ensures { result ≡ [] }
    {
        FaultPath {
            steps: Vec::new(alloc),
        }
    }

    /// The same path as seen from the value that `step` leads into. Where memory is refused, the path
    /// stays.
    pub fn push_outer(&mut self, step: Step) -> Result<(), AllocError>
        ensures ok { OnOk result (self.new ≡ part_of step ∷ self.old) }
        ensures err { OnErr result (self.new ≡ self.old) }
    {
        self.steps.push(step)?;
        Ok(())
    }

    /// The path as text: `$`, then `.key` and `[index]` for each step from the outside in.
    pub fn to_text(&self, alloc: Global) -> Result<String, AllocError>
        ensures { IfOk result (λ text. string_bytes text ≡ path_text self.now) }
    {
        let mut text = String::from_str(alloc, "$")?;
        for step in self.steps.iter().rev() {
            push_step(alloc, &mut text, *step)?;
        }
        Ok(text)
    }
}

fn push_step(alloc: Global, text: &mut String, step: Step) -> Result<(), AllocError>
    ensures { OnOk result (string_bytes text.new ≡ string_bytes text.old ++ part_text (part_of step)) }
{
    let shown = step.to_string(alloc)?;
    text.push_str(&shown)?;
    Ok(())
}
