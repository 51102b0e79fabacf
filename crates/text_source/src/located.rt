//! Faults with their lines and columns, for people.
ghost use Rattle.std.specs.Prelude.{◌≡◌};
ghost use Rattle.text_source.specs.Located.{place_told};

use std::fmt;
use text_parser::TextFault;
use text_places::{Place, line_and_column};

/// A fault, and where it is in its text: `3:14: expected `;``, or the cause alone where it has no place.
#[derive(Clone, Copy, Debug)]
pub struct Located {
    pub place: Option<Place>,
    pub fault: TextFault,
}

impl fmt::Display for Located {
    fn fmt<W: fmt::Write>(&self, f: &mut fmt::Formatter<W>) -> fmt::Result {
        let fault = self.fault;
        match self.place {
            Some(place) => {
                let (line, column) = (place.line, place.column);
                write!(f, "{line}:{column}: {fault}")
            }
            None => write!(f, "{fault}"),
        }
    }
}

// Where a fault is in a text, if it has a place.
fn place_in(text: &[u8], fault: TextFault) -> Option<Place>
    ensures { result ≡ place_told text.now fault }
{
    match fault.at() {
        Some(at) => Some(line_and_column(text, at)),
        None => None,
    }
}

/// A fault with its line and its column in the text that it was answered for; a place behind its end is told as its end.
pub fn locate(text: &[u8], fault: TextFault) -> Located
    ensures fault { result.fault ≡ fault }
    ensures place { result.place ≡ place_told text.now fault }
{
    Located {
        place: place_in(text, fault),
        fault,
    }
}
