//! What is asked for.
ghost use Rattle.std.specs.Prelude.{◌≡◌};
ghost use Rattle.mucwathi_order.specs.Styles.{layout_of};

use mucwathi_settings::{Command, Settings};
use text_printer::Layout;
use text_source::Goal;

/// How an answer is written.
#[derive(Clone, Copy, Debug, PartialEq, Eq)]
pub enum Style {
    /// As the source: layout and comments stay.
    Kept,
    /// Anew, a statement a line.
    Lines,
    /// Anew, in one line.
    Compact,
}

/// What becomes of the memory of a tree whose text is written.
#[derive(Clone, Copy, Debug, PartialEq, Eq)]
pub enum Memory {
    /// It is given back.
    GivenBack,
    /// It is left to the process, which is about to end and gives back all at once.
    Left,
}

/// What is made of a text, and how.
#[derive(Clone, Copy)]
pub struct Order {
    pub command: Command,
    pub goal: Goal,
    /// How many productions may be open at once: parentheses in one another take ten each.
    pub depth: u32,
    pub settings: Settings,
    pub style: Style,
    pub memory: Memory,
}

impl Style {
    /// How it is laid out anew, if it is.
    pub fn layout(self) -> Option<Layout>
        ensures { result ≡ layout_of self }
    {
        match self {
            Style::Kept => None,
            Style::Lines => Some(Layout::Lines),
            Style::Compact => Some(Layout::Compact),
        }
    }
}
